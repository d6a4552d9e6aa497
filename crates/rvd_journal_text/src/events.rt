ghost use Rattle.std.specs.Prelude.{◌≡◌, ◌++◌, OnOk, OnErr, codes};
ghost use Rattle.rvd_text.specs.Quoted.{quoted};
ghost use Rattle.rvd_notation.specs.Actors.{analyzer_word};
ghost use Rattle.rvd_notation.specs.Pieces.{Keeps};
ghost use Rattle.rvd_journal_text.specs.Events.{enable_word, end_word, event_text};

use crate::edits::push_edit;
use crate::event_forms;
use crate::forms::push_forms;
use rvd_ask::Analyzer;
use rvd_event::Event;
use rvd_fact::Text;
use rvd_notation::analyzer_word;
use rvd_text::push_quoted;
use std::alloc::AllocError;

fn end_word(commit: bool) -> &'static [u8]
    ensures { result.now ≡ end_word commit }
{
    if commit { b"commit" } else { b"abort" }
}

fn enable_word(on: bool) -> &'static [u8]
    ensures { result.now ≡ enable_word on }
{
    if on { b"enable " } else { b"disable " }
}

fn push_begin(out: &mut Vec<u8>, text: &Text) -> Result<(), AllocError>
    ensures ok { OnOk result (out.new.items ≡ out.old.items ++ (codes "begin " ++ quoted text.now)) }
    ensures err { OnErr result (Keeps out.old.items out.new.items) }
{
    out.extend_from_slice(b"begin ")?;
    push_quoted(out, text.list())
}

fn push_enable(out: &mut Vec<u8>, analyzer: Analyzer, on: bool) -> Result<(), AllocError>
    ensures ok { OnOk result (out.new.items ≡ out.old.items ++ (enable_word on ++ analyzer_word analyzer)) }
    ensures err { OnErr result (Keeps out.old.items out.new.items) }
{
    out.extend_from_slice(enable_word(on))?;
    out.extend_from_slice(analyzer_word(analyzer))
}

/// Appends an event, or some of it where memory is wanting.
#[tactic(auto, unfolding(crate::specs::Events::event_text))]
pub fn push_event(out: &mut Vec<u8>, event: &Event) -> Result<(), AllocError>
    ensures ok { OnOk result (out.new.items ≡ out.old.items ++ event_text event.now) }
    ensures err { OnErr result (Keeps out.old.items out.new.items) }
{
    event_forms!(push_forms {
        out, event: Event,
        Event::Begin(text) => push_begin(out, text),
        Event::Edit(edit) => push_edit(out, edit),
        Event::End(commit) => out.extend_from_slice(end_word(*commit)),
        Event::Enable(analyzer, on) => push_enable(out, *analyzer, *on),
    })
}
