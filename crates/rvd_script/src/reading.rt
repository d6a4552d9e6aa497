ghost use Rattle.std.specs.Prelude.{◌≡◌, ◌+◌, ◌≤◌, true, length, IfOk, OnOk};
ghost use Rattle.std.specs.List.{list_all};
ghost use Rattle.rvd_script.specs.EventLines.{session_line};
ghost use Rattle.rvd_script.specs.Files.{Adds, Gives, GivesBy, IsHead, at_line, event_line, event_of, events_of, head_of, in_order, script_line, script_of};
ghost use Rattle.rvd_script.specs.Legal.{is_line, is_script_line, is_session_what};
ghost use Rattle.rvd_script.specs.Lines.{lines_of};
ghost use Rattle.rvd_script.specs.Words.{words_of};

use crate::actor_lines::{event_line, head};
use crate::errors::{PartError, ScriptError};
use crate::event_lines::session_line;
use crate::lines::{Lines, count_lines};
use crate::script_files::{EventFile, Script};
use crate::script_lines::{EventLine, ScriptLine, What1};
use crate::words::{Words, is_skipped};
use rvd_event::Names;
use rvd_fact::TextCause;
use std::alloc::Global;

/// The most lines of a file, skipped ones too.
const MAX_LINES: u64 = 100_000;

fn script_what(alloc: Global, number: u32, line: &[u8]) -> Result<What1, ScriptError>
    ensures value { Gives result (at_line number (session_line (words_of line.now))) }
    ensures legal { IfOk result (λ w. is_session_what w ≡ true) }
{
    match session_line(alloc, &mut Words::of(line)) {
        Ok(what) => Ok(what),
        Err(PartError::Cause(cause)) => Err(ScriptError::Bad {
            line: number,
            cause,
        }),
        Err(PartError::OutOfMemory) => Err(ScriptError::OutOfMemory),
    }
}

/// Adds what a line of a script says.
fn add_script_line(
    alloc: Global,
    out: &mut Vec<ScriptLine>,
    number: u32,
    line: &[u8],
) -> Result<(), ScriptError>
    requires { list_all is_script_line out.old.items ≡ true }
    ensures value { Adds out.old.items out.new.items result (script_line number line.now) }
    ensures legal { OnOk result (list_all is_script_line out.new.items ≡ true) }
    ensures count { OnOk result (length out.new.items ≤ length out.old.items + 1) }
{
    if is_skipped(line) {
        return Ok(());
    }
    let what = script_what(alloc, number, line)?;
    out.push(ScriptLine { line: number, what })?;
    Ok(())
}

fn script_lines(alloc: Global, bytes: &[u8]) -> Result<Vec<ScriptLine>, ScriptError>
    requires { length (lines_of bytes.now) ≤ 100000 }
    ensures value { GivesBy (λ v. v.items) result (in_order script_line 1 (lines_of bytes.now)) }
    ensures legal { IfOk result (λ v. list_all is_script_line v.items ≡ true) }
    ensures count { IfOk result (λ v. length v.items ≤ 100000) }
{
    let mut out = Vec::new(alloc);
    let mut lines = Lines::of(bytes);
    let mut number = 1;
    while let Some(line) = lines.next() {
        add_script_line(alloc, &mut out, number, line)?;
        number += 1;
    }
    Ok(out)
}

/// Reads a script.
///
/// `TooManyLines` comes exactly where the file has more than 100,000 lines, before any other test,
/// and `Bad` where a line isn't in the grammar: it names the first such line, and the cause of its
/// first bad part from the left. Want of memory alone may come at any time.
#[tactic(auto, unfolding(crate::specs::Files::script_of))]
pub fn read(alloc: Global, bytes: &[u8]) -> Result<Script, ScriptError>
    ensures { Gives result (script_of bytes.now) }
{
    let count = count_lines(bytes);
    if count > MAX_LINES {
        return Err(ScriptError::TooManyLines(count));
    }
    let lines = script_lines(alloc, bytes)?;
    Ok(Script::of(lines))
}

fn event_at(
    alloc: Global,
    names: &Names,
    number: u32,
    line: &[u8],
) -> Result<EventLine, ScriptError>
    requires few { names.now.sessions ≤ 16 }
    requires workers { names.now.workers ≤ 8 }
    ensures value { Gives result (at_line number (event_of names.now number (words_of line.now))) }
    ensures legal { IfOk result (λ l. is_line names.now.sessions names.now.workers l ≡ true) }
{
    match event_line(alloc, names, number, &mut Words::of(line)) {
        Ok(event) => Ok(event),
        Err(PartError::Cause(cause)) => Err(ScriptError::Bad {
            line: number,
            cause,
        }),
        Err(PartError::OutOfMemory) => Err(ScriptError::OutOfMemory),
    }
}

/// Adds what a line of an event file says.
fn add_event_line(
    alloc: Global,
    names: &Names,
    out: &mut Vec<EventLine>,
    number: u32,
    line: &[u8],
) -> Result<(), ScriptError>
    requires few { names.now.sessions ≤ 16 }
    requires workers { names.now.workers ≤ 8 }
    requires legal { list_all (is_line names.now.sessions names.now.workers) out.old.items ≡ true }
    ensures value { Adds out.old.items out.new.items result (event_line names.now number line.now) }
    ensures legal { OnOk result (list_all (is_line names.now.sessions names.now.workers) out.new.items ≡ true) }
    ensures count { OnOk result (length out.new.items ≤ length out.old.items + 1) }
{
    if is_skipped(line) {
        return Ok(());
    }
    let event = event_at(alloc, names, number, line)?;
    out.push(event)?;
    Ok(())
}

fn event_lines(
    alloc: Global,
    names: &Names,
    first: u32,
    lines: &mut Lines,
) -> Result<Vec<EventLine>, ScriptError>
    requires few { names.now.sessions ≤ 16 }
    requires workers { names.now.workers ≤ 8 }
    requires count { first + length lines.old ≤ 100001 }
    ensures value { GivesBy (λ v. v.items) result (in_order (event_line names.now) first lines.old) }
    ensures legal { IfOk result (λ v. list_all (is_line names.now.sessions names.now.workers) v.items ≡ true) }
    ensures count { IfOk result (λ v. length v.items ≤ length lines.old) }
{
    let mut out = Vec::new(alloc);
    let mut number = first;
    while let Some(line) = lines.next() {
        add_event_line(alloc, names, &mut out, number, line)?;
        number += 1;
    }
    Ok(out)
}

/// The head line of an event file, and the number of the line behind it.
#[derive(Clone, Copy, Debug)]
pub struct Head {
    /// How many actors there are.
    pub names: Names,
    /// The number of the next line.
    pub next: u32,
}

fn head_at(number: u32, line: &[u8]) -> Result<Names, ScriptError>
    ensures value { result ≡ at_line number (head_of (words_of line.now)) }
    ensures some { IfOk result (λ names. 1 ≤ names.sessions) }
    ensures sessions { IfOk result (λ names. names.sessions ≤ 16) }
    ensures workers { IfOk result (λ names. names.workers ≤ 8) }
{
    match head(&mut Words::of(line)) {
        Ok(names) => Ok(names),
        Err(cause) => Err(ScriptError::Bad {
            line: number,
            cause,
        }),
    }
}

fn read_head(lines: &mut Lines) -> Result<Head, ScriptError>
    requires { length lines.old ≤ 100000 }
    ensures value { IsHead lines.old lines.new result }
    ensures some { IfOk result (λ h. 1 ≤ h.names.sessions) }
    ensures sessions { IfOk result (λ h. h.names.sessions ≤ 16) }
    ensures workers { IfOk result (λ h. h.names.workers ≤ 8) }
    ensures first { IfOk result (λ h. 1 ≤ h.next) }
    ensures count { IfOk result (λ h. h.next + length lines.new ≤ 100001) }
{
    let mut number = 1;
    while let Some(line) = lines.next() {
        if !is_skipped(line) {
            let names = head_at(number, line)?;
            return Ok(Head {
                names,
                next: number + 1,
            });
        }
        number += 1;
    }
    Err(ScriptError::Bad {
        line: 1,
        cause: TextCause::MissingPart,
    })
}

/// Reads an event file.
///
/// Each error comes as `read` says. Where every line is skipped, `MissingPart` comes at line 1.
#[tactic(auto, unfolding(crate::specs::Files::events_of))]
pub fn read_events(alloc: Global, bytes: &[u8]) -> Result<EventFile, ScriptError>
    ensures { Gives result (events_of bytes.now) }
{
    let count = count_lines(bytes);
    if count > MAX_LINES {
        return Err(ScriptError::TooManyLines(count));
    }
    let mut lines = Lines::of(bytes);
    let head = read_head(&mut lines)?;
    let list = event_lines(alloc, &head.names, head.next, &mut lines)?;
    Ok(EventFile::of(head.names, list))
}
