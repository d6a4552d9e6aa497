ghost use Rattle.std.specs.Prelude.{◌≡◌, ◌↔◌, IfOk, IfErr, IsTrue};
ghost use Rattle.rvd_reading.specs.Steps.{Reads, with_rest};
ghost use Rattle.rvd_journal_text.specs.Lines.{entry_line};
ghost use Rattle.rvd_line_reading.specs.Lines.{IsLine, IsNoLine, ReadsLine, call_of, entry_of, line_of, settled_of};
ghost use Rattle.rvd_line_reading.specs.declared.lines.LineError.TheVariants as error;

use crate::events::event;
use crate::parts::is_in_range;
use crate::replies::reply;
use rvd_event::Names;
use rvd_journal::Entry;
use rvd_journal_text::push_entry;
use rvd_reading::{ReadError, Rest, Unread, actor, number};
use std::alloc::{AllocError, Global};

/// Why a line isn't read.
#[derive(Clone, Copy, Debug, PartialEq, Eq)]
pub enum LineError {
    /// The line isn't that of an entry, spelled as it is printed.
    BadLine,
    /// There was no memory.
    OutOfMemory,
}

/// The Settled step that a call brought about, if any.
fn settled(rest: &mut Rest) -> Result<Option<u64>, Unread>
    ensures { settled_of rest.old ≡ with_rest rest.new result }
{
    if rest.strip(b"; settled ") {
        Ok(Some(number(rest, u64::MAX)?))
    } else {
        Ok(None)
    }
}

/// An entry without its number.
#[tactic(auto, unfolding(crate::specs::Lines::call_of))]
fn call(alloc: Global, rest: &mut Rest, names: Names) -> Result<Entry, ReadError>
    ensures { Reads rest.new result (call_of names rest.old) }
{
    let actor = actor(rest, names)?;
    rest.expect(b" ")?;
    let event = event(alloc, rest)?;
    rest.expect(b" = ")?;
    let reply = reply(alloc, rest)?;
    let settled = settled(rest)?;
    Ok(Entry {
        actor,
        event,
        reply,
        settled,
    })
}

/// An entry with its number.
#[tactic(auto, unfolding(crate::specs::Lines::entry_of))]
pub fn numbered(alloc: Global, rest: &mut Rest, names: Names) -> Result<(u64, Entry), ReadError>
    ensures { Reads rest.new result (entry_of names rest.old) }
{
    let number = number(rest, u64::MAX)?;
    rest.expect(b" ")?;
    let entry = call(alloc, rest, names)?;
    Ok((number, entry))
}

/// What a whole line is read as, where nothing stays behind it.
#[tactic(auto, unfolding(crate::specs::Lines::line_of))]
fn whole(alloc: Global, line: &[u8], names: Names) -> Result<(u64, Entry), ReadError>
    ensures { ReadsLine result (line_of names line.now) }
{
    let mut rest = Rest::of(line);
    let read = numbered(alloc, &mut rest, names)?;
    if !rest.bytes().is_empty() {
        return Err(ReadError::Unread);
    }
    Ok(read)
}

/// Whether a line is that of an entry with its number.
fn is_line_of(
    alloc: Global,
    line: &[u8],
    names: Names,
    number: u64,
    entry: &Entry,
) -> Result<bool, AllocError>
    ensures { IfOk result (λ same. IsTrue same ↔ (entry_line names number entry.now ≡ line.now)) }
{
    let mut text = Vec::new(alloc);
    push_entry(number, entry, names, &mut text)?;
    Ok(text.as_slice() == line)
}

/// Reads the line of an entry, without its line feed: the number of the entry and the entry. A block in a verdict's answers
/// has no bytes, since its text tells only whether it has any. A line that no entry of these sessions and workers has is a
/// `BadLine`.
pub fn read_line(alloc: Global, line: &[u8], names: Names) -> Result<(u64, Entry), LineError>
    ensures found { IfOk result (λ r. IsLine names line.now r) }
    ensures bad { IfErr result (λ e. e ≡ error.BadLine → IsNoLine names line.now) }
{
    let (number, entry) = match whole(alloc, line, names) {
        Ok(read) => read,
        Err(ReadError::Unread) => return Err(LineError::BadLine),
        Err(ReadError::OutOfMemory) => return Err(LineError::OutOfMemory),
    };
    if !is_in_range(names, &entry) {
        return Err(LineError::BadLine);
    }
    match is_line_of(alloc, line, names, number, &entry) {
        Ok(true) => Ok((number, entry)),
        Ok(false) => Err(LineError::BadLine),
        Err(_) => Err(LineError::OutOfMemory),
    }
}
