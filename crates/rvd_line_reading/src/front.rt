ghost use Rattle.std.specs.Prelude.{◌≡◌, ◌↔◌, ◌≤◌, ◌++◌, [], ◌∷◌, IfOk, IsTrue};
ghost use Rattle.rvd_reading.specs.Steps.{with_rest};
ghost use Rattle.rvd_journal_text.specs.Lines.{end_line, full_line, head_line};
ghost use Rattle.rvd_line_reading.specs.Front.{BeginsWith, IsHead, IsNext, Takes, head_of};

use crate::lines::numbered;
use crate::parts::is_in_range;
use rvd_event::Names;
use rvd_journal::Entry;
use rvd_journal_text::{push_end, push_full_line, push_head};
use rvd_reading::{ReadError, Rest, Unread, number};
use std::alloc::{AllocError, Global};

const MOST_SESSIONS: u64 = 16;

const MOST_WORKERS: u64 = 8;

/// Whether a line comes first; then it is taken.
fn strip_line(rest: &mut Rest, line: &[u8]) -> bool
    ensures { Takes rest.old line.now rest.new result }
{
    rest.strip(line)
}

/// Whether a line comes first.
fn has_line(rest: &Rest, line: &[u8]) -> bool
    ensures { IsTrue result ↔ BeginsWith rest.now line.now }
{
    rest.bytes().starts_with(line)
}

/// The numbers of sessions and of workers that a head line may have.
#[tactic(auto, unfolding(crate::specs::Front::head_of))]
fn head(rest: &mut Rest) -> Result<Names, Unread>
    ensures value { head_of rest.old ≡ with_rest rest.new result }
    ensures sessions { IfOk result (λ names. names.sessions ≤ 16) }
    ensures workers { IfOk result (λ names. names.workers ≤ 8) }
{
    rest.expect(b"journal 1 ")?;
    let sessions = number(rest, MOST_SESSIONS)? as u32;
    rest.expect(b" ")?;
    let workers = number(rest, MOST_WORKERS)? as u32;
    Ok(Names { sessions, workers })
}

/// Whether the head line of these sessions and workers comes first; then it is taken.
fn strip_head(alloc: Global, rest: &mut Rest, names: Names) -> Result<bool, AllocError>
    ensures { IfOk result (λ found. Takes rest.old (head_line names ++ 10 ∷ []) rest.new found) }
{
    let mut line = Vec::new(alloc);
    push_head(&mut line, names)?;
    Ok(strip_line(rest, &line))
}

/// Whether the line of an entry with its number comes first; then it is taken.
fn strip_entry(
    alloc: Global,
    rest: &mut Rest,
    number: u64,
    entry: &Entry,
    names: Names,
) -> Result<bool, AllocError>
    ensures { IfOk result (λ found. Takes rest.old (full_line names (number, entry.now)) rest.new found) }
{
    let mut line = Vec::new(alloc);
    push_full_line(&mut line, number, entry, names)?;
    Ok(strip_line(rest, &line))
}

/// Takes the head line of a journal, with its line feed, from the front of a text: the numbers of sessions, from 1 to 16, and of
/// workers, at most 8. It is `None` where no such line comes first, spelled as it is printed. Only want of memory is an error.
pub fn read_head(alloc: Global, rest: &mut Rest) -> Result<Option<Names>, AllocError>
    ensures { IfOk result (λ found. IsHead rest.old rest.new found) }
{
    let mut copy = Rest::of(rest.bytes());
    let names = match head(&mut copy) {
        Ok(names) => names,
        Err(_) => return Ok(None),
    };
    if names.sessions == 0 {
        return Ok(None);
    }
    if strip_head(alloc, rest, names)? {
        Ok(Some(names))
    } else {
        Ok(None)
    }
}

/// Takes the line of the entry with this number, with its line feed, from the front of a text. A block in a verdict's answers has
/// no bytes, since its text tells only whether it has any. It is `None` where no such line comes first, of an entry of these
/// sessions and workers, spelled as it is printed. Only want of memory is an error. The time is linear in the length of the line
/// that is taken, and where none is, in that of the text at most.
pub fn read_next(
    alloc: Global,
    rest: &mut Rest,
    names: Names,
    number: u64,
) -> Result<Option<Entry>, AllocError>
    ensures { IfOk result (λ found. IsNext names number rest.old rest.new found) }
{
    let mut copy = Rest::of(rest.bytes());
    let (_, entry) = match numbered(alloc, &mut copy, names) {
        Ok(read) => read,
        Err(ReadError::Unread) => return Ok(None),
        Err(ReadError::OutOfMemory) => return Err(AllocError),
    };
    if !is_in_range(names, &entry) {
        return Ok(None);
    }
    if strip_entry(alloc, rest, number, &entry, names)? {
        Ok(Some(entry))
    } else {
        Ok(None)
    }
}

/// Whether the `end` line of so many entries, with its line feed, comes first. Only want of memory is an error.
pub fn is_end(alloc: Global, rest: &Rest, count: u64) -> Result<bool, AllocError>
    ensures { IfOk result (λ yes. IsTrue yes ↔ BeginsWith rest.now (end_line count ++ 10 ∷ [])) }
{
    let mut line = Vec::new(alloc);
    push_end(&mut line, count)?;
    Ok(has_line(rest, &line))
}
