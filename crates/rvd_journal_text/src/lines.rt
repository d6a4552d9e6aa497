ghost use Rattle.std.specs.Prelude.{◌≡◌, ◌++◌, [], ◌∷◌, OnOk, OnErr};
ghost use Rattle.rvd_notation.specs.Pieces.{Keeps};
ghost use Rattle.rvd_journal_text.specs.Lines.{call_text, end_line, entry_line, full_line, head_line, settled_text};

use crate::events::push_event;
use crate::replies::push_reply;
use crate::words::push_count;
use rvd_event::Names;
use rvd_journal::Entry;
use rvd_notation::push_actor;
use rvd_text::push_dec;
use std::alloc::AllocError;

#[tactic(auto, unfolding(crate::specs::Lines::call_text))]
fn push_call(out: &mut Vec<u8>, names: Names, entry: &Entry) -> Result<(), AllocError>
    ensures ok { OnOk result (out.new.items ≡ out.old.items ++ call_text names entry.now) }
    ensures err { OnErr result (Keeps out.old.items out.new.items) }
{
    push_actor(out, names, entry.actor)?;
    out.push(b' ')?;
    push_event(out, &entry.event)?;
    out.extend_from_slice(b" = ")?;
    push_reply(out, &entry.reply)
}

fn push_settled(out: &mut Vec<u8>, settled: Option<u64>) -> Result<(), AllocError>
    ensures ok { OnOk result (out.new.items ≡ out.old.items ++ settled_text settled) }
    ensures err { OnErr result (Keeps out.old.items out.new.items) }
{
    match settled {
        None => Ok(()),
        Some(step) => push_count(out, b"; settled ", step),
    }
}

#[tactic(auto, unfolding(crate::specs::Lines::entry_line))]
fn push_entry_pieces(
    out: &mut Vec<u8>,
    number: u64,
    entry: &Entry,
    names: Names,
) -> Result<(), AllocError>
    ensures ok { OnOk result (out.new.items ≡ out.old.items ++ entry_line names number entry.now) }
    ensures err { OnErr result (Keeps out.old.items out.new.items) }
{
    push_dec(out, number)?;
    out.push(b' ')?;
    push_call(out, names, entry)?;
    push_settled(out, entry.settled)
}

/// Appends the line of an entry with its number, without the line feed.
pub fn push_entry(
    number: u64,
    entry: &Entry,
    names: Names,
    out: &mut Vec<u8>,
) -> Result<(), AllocError>
    ensures ok { OnOk result (out.new.items ≡ out.old.items ++ entry_line names number entry.now) }
    ensures err { OnErr result (out.new.items ≡ out.old.items) }
{
    let len = out.len();
    let pushed = push_entry_pieces(out, number, entry, names);
    if pushed.is_err() {
        out.truncate(len);
    }
    pushed
}

/// Appends the line of an entry with its number and its line feed, or some of it where memory is wanting.
#[tactic(auto, unfolding(crate::specs::Lines::full_line))]
pub fn push_full_line(
    out: &mut Vec<u8>,
    number: u64,
    entry: &Entry,
    names: Names,
) -> Result<(), AllocError>
    ensures ok { OnOk result (out.new.items ≡ out.old.items ++ full_line names (number, entry.now)) }
    ensures err { OnErr result (Keeps out.old.items out.new.items) }
{
    push_entry_pieces(out, number, entry, names)?;
    out.push(b'\n')?;
    Ok(())
}

/// Appends the head line with its line feed, or some of it where memory is wanting.
#[tactic(auto, unfolding(crate::specs::Lines::head_line))]
pub fn push_head(out: &mut Vec<u8>, names: Names) -> Result<(), AllocError>
    ensures ok { OnOk result (out.new.items ≡ out.old.items ++ (head_line names ++ 10 ∷ [])) }
    ensures err { OnErr result (Keeps out.old.items out.new.items) }
{
    push_count(out, b"journal 1 ", u64::from(names.sessions))?;
    push_count(out, b" ", u64::from(names.workers))?;
    out.push(b'\n')?;
    Ok(())
}

/// Appends the last line with its line feed, or some of it where memory is wanting.
pub fn push_end(out: &mut Vec<u8>, count: u64) -> Result<(), AllocError>
    ensures ok { OnOk result (out.new.items ≡ out.old.items ++ (end_line count ++ 10 ∷ [])) }
    ensures err { OnErr result (Keeps out.old.items out.new.items) }
{
    push_count(out, b"end ", count)?;
    out.push(b'\n')?;
    Ok(())
}
