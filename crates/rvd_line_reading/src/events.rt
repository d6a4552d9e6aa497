ghost use Rattle.rvd_reading.specs.Steps.{Reads};
ghost use Rattle.rvd_line_reading.specs.Events.{event_of};

use crate::edits::edit;
use rvd_event::Event;
use rvd_journal_text::event_forms;
use rvd_reading::{ReadError, Rest, analyzer, number, quoted};
use std::alloc::Global;

/// Reads one of the listed forms, where its word comes first, and returns it.
macro_rules! read_forms {
    (
        { $rest:ident: $type:ident }
        $($variant:ident $(($part:ident: $number:ident))? $word:literal,)*
    ) => {
        $(if $rest.strip($word) {
            return Ok($type::$variant $((number($rest, u64::from($number::MAX))? as $number))?);
        })*
    };
}

pub(crate) use read_forms;

/// An event.
#[tactic(auto, unfolding(crate::specs::Events::event_of))]
pub fn event(alloc: Global, rest: &mut Rest) -> Result<Event, ReadError>
    ensures { Reads rest.new result (event_of rest.old) }
{
    event_forms!(read_forms { rest: Event });
    if rest.strip(b"begin ") {
        Ok(Event::Begin(quoted(alloc, rest)?))
    } else if rest.strip(b"commit") {
        Ok(Event::End(true))
    } else if rest.strip(b"abort") {
        Ok(Event::End(false))
    } else if rest.strip(b"enable ") {
        Ok(Event::Enable(analyzer(rest)?, true))
    } else if rest.strip(b"disable ") {
        Ok(Event::Enable(analyzer(rest)?, false))
    } else {
        Ok(Event::Edit(edit(alloc, rest)?))
    }
}
