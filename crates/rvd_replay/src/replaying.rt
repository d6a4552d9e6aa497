ghost use Rattle.std.specs.Prelude.{◌≡◌, ◌+◌, ◌++◌, ◌∷◌, [], List, ℕ, None, length, IfOk};
ghost use Rattle.rvd_line_reading.specs.Front.{AreNames};
ghost use Rattle.rvd_replay.specs.Replayed.{IsOutcome};
ghost use Rattle.rvd_replay.specs.Replaying.{GoesOn, IsOutcomeBehind};

use crate::laws::bare_entries_are_steps;
use rvd_desk::Desk;
use rvd_event::Names;
use rvd_line_reading::{front_law, is_end, read_head, read_next};
use rvd_machine::{journals_are_bounded, rooms_are_kept};
use rvd_program::Program;
use rvd_reading::Rest;
use std::alloc::{AllocError, Global};

/// What comes of a journal's text.
#[derive(Drop)]
pub enum Replayed {
    /// The text is that of a legal journal up to its end line: the desk that the journal leads to.
    Done(Desk),
    /// The number of the first line, from 1 on, that is missing, outside the grammar or no step.
    Differs(u32),
}

// The number of the line behind those that a desk has replayed: the head line is the first.
fn next_line(desk: &Desk) -> u32
    ensures { result ≡ length desk.now.journal + 2 }
{
    journals_are_bounded();
    rooms_are_kept();
    // The status tells that the journal is legal.
    let entries = desk.status().entries;
    entries as u32 + 2
}

// Reads the line of the next entry and does it. False where no line of an entry that is a step comes next.
fn replay_next(
    alloc: Global,
    desk: &mut Desk,
    names: Names,
    rest: &mut Rest,
) -> Result<bool, AllocError>
    requires { desk.old.halt ≡ None }
    ensures { IfOk result (λ yes. GoesOn yes names desk.old desk.new rest.old rest.new) }
{
    bare_entries_are_steps();
    front_law();
    let number = u64::from(next_line(desk)) - 1;
    match read_next(alloc, rest, names, number)? {
        None => Ok(false),
        Some(entry) => desk.admit(alloc, &entry),
    }
}

// Replays the entries of a journal, behind its head line.
fn replay_entries(
    alloc: Global,
    program: Program,
    names: Names,
    lines: &[u8],
) -> Result<Replayed, AllocError>
    requires { AreNames names }
    ensures { IfOk result (λ replayed. IsOutcomeBehind program names lines.now replayed) }
{
    front_law();
    journals_are_bounded();
    rooms_are_kept();
    // The entries tell that the program is valid.
    let _ = program.entries();
    let mut rest = Rest::of(lines);
    let mut desk = Desk::new(alloc, program, names.sessions, names.workers)?;
    while !is_end(alloc, &rest, desk.entries().len() as u64)? {
        if !replay_next(alloc, &mut desk, names, &mut rest)? {
            return Ok(Replayed::Differs(next_line(&desk)));
        }
    }
    Ok(Replayed::Done(desk))
}

/// Replays the text of a journal over a program. Done comes exactly where the text up to its end line is that of a legal
/// journal of the program, and else Differs, at the first line that is missing, outside the grammar or no step. What follows
/// the end line isn't read. Only want of memory refuses it.
pub fn replay(alloc: Global, program: Program, text: &[u8]) -> Result<Replayed, AllocError>
    ensures { IfOk result (λ replayed. IsOutcome program text.now replayed) }
{
    let mut rest = Rest::of(text);
    match read_head(alloc, &mut rest)? {
        None => Ok(Replayed::Differs(1)),
        Some(names) => replay_entries(alloc, program, names, rest.bytes()),
    }
}
