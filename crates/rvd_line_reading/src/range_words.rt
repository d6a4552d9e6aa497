ghost use Rattle.std.specs.Prelude.{◌≡◌, nat_eq, codes};
ghost use Rattle.std.specs.List.{starts_with};
ghost use Rattle.rvd_reading.specs.Steps.{Reads, with_rest};
ghost use Rattle.rvd_reading.specs.Lists.{Appends};
ghost use Rattle.rvd_line_reading.specs.Edits.{next_range_of, range_set_of, range_words_of};

use rvd_fact::{Addr, RangeSet};
use rvd_reading::{ReadError, Rest, Unread, range, range_set};
use std::alloc::Global;

/// A range with a space before it.
#[tactic(auto, unfolding(crate::specs::Edits::next_range_of))]
fn next_range(rest: &mut Rest) -> Result<(Addr, Addr), Unread>
    ensures { next_range_of rest.old ≡ with_rest rest.new result }
{
    rest.expect(b" ")?;
    range(rest)
}

/// Whether the space and the sign behind an event come first.
fn has_sign(rest: &Rest) -> bool
    ensures { result ≡ starts_with nat_eq rest.now (codes " =") }
{
    rest.bytes().starts_with(b" =")
}

/// Appends ranges, each with a space before it, up to the space and the sign behind an event.
#[tactic(auto, unfolding(crate::specs::Edits::range_words_of))]
fn push_range_words(rest: &mut Rest, out: &mut Vec<(Addr, Addr)>) -> Result<(), ReadError>
    ensures { Appends out.old.items out.new.items rest.new result (range_words_of rest.old) }
{
    let most = rest.bytes().len();
    for _taken in 0..most {
        if has_sign(rest) {
            return Ok(());
        }
        match next_range(rest) {
            Ok(range) => out.push(range)?,
            Err(_) => return Err(ReadError::Unread),
        }
    }
    Ok(())
}

/// A set of addresses: its ranges, each with a space before it.
#[tactic(auto, unfolding(crate::specs::Edits::range_set_of))]
pub fn range_words(alloc: Global, rest: &mut Rest) -> Result<RangeSet, ReadError>
    ensures { Reads rest.new result (range_set_of rest.old) }
{
    let mut list = Vec::new(alloc);
    push_range_words(rest, &mut list)?;
    range_set(alloc, &list)
}
