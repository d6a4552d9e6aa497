ghost use Rattle.std.specs.Prelude.{◌≡◌, true, None, length, IfOk, IfErr, OnOk};
ghost use Rattle.rvd_machine.specs.Steps.{IsLegal};
ghost use Rattle.rvd_script.specs.Legal.{is_line};
ghost use Rattle.rvd_player.specs.Lines.{LineFails, PlaysWhat};
ghost use Rattle.rvd_player.specs.Plays.{head_of, Plays, PlayFails};

use crate::calls::perform;
use crate::reads::{answer_line, none_seen};
use rvd_desk::{Desk, DeskError, Snapshot};
use rvd_machine::journals_are_bounded;
use rvd_program::Program;
use rvd_report::Answered;
use rvd_script::{EventFile, EventLine, What1};
use rvd_settle::settle;
use std::alloc::Global;

/// What is left when an event file is played.
#[derive(Drop)]
pub struct Played {
    /// The desk, with its journal.
    pub desk: Desk,
    /// The answers to the queries, in the order of the file.
    pub answers: Vec<Answered>,
}

// Makes the calls of a line. A query makes none.
fn play_what(
    alloc: Global,
    desk: &mut Desk,
    seen: &mut [Option<Snapshot>],
    line: &EventLine,
) -> Result<(), DeskError>
    requires running { desk.old.halt ≡ None }
    requires own { is_line desk.old.head.sessions desk.old.head.workers line.now ≡ true }
    requires seen { length seen.old ≡ desk.old.head.sessions }
    ensures ok { OnOk result (PlaysWhat desk.old seen.old line.now.actor line.now.what desk.new seen.new) }
    ensures err { IfErr result (λ error. LineFails desk.old line.now desk.new error) }
{
    journals_are_bounded();
    // The status tells that the journal is legal.
    let _ = desk.status();
    match &line.what {
        What1::Call(event) => perform(alloc, desk, seen, line.actor, event),
        What1::Settle(n) => {
            settle(alloc, desk, line.actor, *n)?;
            Ok(())
        }
        What1::Ask(_) => Ok(()),
    }
}

// Plays a line. A refused call is played too.
fn play_line(
    alloc: Global,
    desk: &mut Desk,
    seen: &mut [Option<Snapshot>],
    line: &EventLine,
) -> Result<(), DeskError>
    requires running { desk.old.halt ≡ None }
    requires own { is_line desk.old.head.sessions desk.old.head.workers line.now ≡ true }
    requires seen { length seen.old ≡ desk.old.head.sessions }
    ensures ok { OnOk result (PlaysWhat desk.old seen.old line.now.actor line.now.what desk.new seen.new) }
    ensures err { IfErr result (λ error. LineFails desk.old line.now desk.new error) }
    ensures legal { IsLegal desk.new.head desk.new.journal }
{
    let played = play_what(alloc, desk, seen, line);
    let _ = desk.status();
    played
}

/// Plays the lines of an event file over a program, one after the other: the desk with its journal, and the answers to the
/// queries. A query is answered on the program of its session's latest read, or on the program at the start. Refused calls
/// are in the journal. JournalFull comes only where the journal of a part of the file has no room for a begin; Refused and
/// Stopped are never given.
pub fn play(alloc: Global, program: Program, file: &EventFile) -> Result<Played, DeskError>
    ensures ok { IfOk result (λ played. Plays (head_of program file.now) file.now.lines played.desk played.answers.items) }
    ensures err { IfErr result (λ error. PlayFails (head_of program file.now) file.now.lines error) }
{
    let lines = file.lines();
    let mut seen = none_seen(alloc, file.sessions())?;
    let mut answers = Vec::new(alloc);
    let mut desk = Desk::new(alloc, program, file.sessions(), file.workers())?;
    let _ = desk.status();
    for line in lines {
        answer_line(alloc, &desk.head().program, &seen, line, &mut answers)?;
        play_line(alloc, &mut desk, &mut seen, line)?;
    }
    Ok(Played { desk, answers })
}
