ghost use Rattle.std.specs.Prelude.{◌≡◌, ◌++◌, ◌≤◌, [], None, Some, length, replicate, IfOk, OnOk};
ghost use Rattle.rvd_query.specs.Reply.{reply};
ghost use Rattle.rvd_player.specs.Seen.{answer_to, IsAsk, program_seen, seen_with};

use rvd_desk::Snapshot;
use rvd_event::Query;
use rvd_fact::Bytes;
use rvd_program::Program;
use rvd_query::answer;
use rvd_report::Answered;
use rvd_script::{EventLine, What1};
use std::alloc::{AllocError, Global};

/// No session has read.
pub(crate) fn none_seen(alloc: Global, sessions: u32) -> Result<Vec<Option<Snapshot>>, AllocError>
    ensures { IfOk result (λ seen. seen.items ≡ replicate sessions None) }
{
    let mut seen = Vec::new(alloc);
    for k in 0..sessions {
        let _ = k;
        seen.push(None)?;
    }
    Ok(seen)
}

/// A session sees what it has read.
pub(crate) fn note_read(seen: &mut [Option<Snapshot>], actor: u32, read: Snapshot)
    requires { (1 ≤ actor) × (actor ≤ length seen.old) }
    ensures { seen.new ≡ seen_with seen.old actor (Some read) }
{
    seen[(actor - 1) as usize] = Some(read);
}

// The program that a session sees, where `first` is the one at the start.
fn program_seen<'a>(first: &'a Program, seen: &'a [Option<Snapshot>], actor: u32) -> &'a Program
    requires { (1 ≤ actor) × (actor ≤ length seen.now) }
    ensures { result.now ≡ program_seen first.now seen.now actor }
{
    match &seen[(actor - 1) as usize] {
        None => first,
        Some(read) => read.program(),
    }
}

// The answer to a query on a program.
fn answer_on(
    alloc: Global,
    program: &Program,
    line: &EventLine,
    query: &Query,
) -> Result<Answered, AllocError>
    ensures { IfOk result (λ answered. answered ≡ record { session = line.now.actor; line = line.now.line; answer = reply program.now query.now }) }
{
    let mut text = Vec::new(alloc);
    answer(alloc, program, query, &mut text)?;
    Ok(Answered {
        session: line.actor,
        line: line.line,
        answer: Bytes::of(alloc, text)?,
    })
}

/// Answers a line's query on what its session sees, where `first` is the program at the start; other lines have no answer.
pub(crate) fn answer_line(
    alloc: Global,
    first: &Program,
    seen: &[Option<Snapshot>],
    line: &EventLine,
    answers: &mut Vec<Answered>,
) -> Result<(), AllocError>
    requires { IsAsk line.now.what → (1 ≤ line.now.actor) × (line.now.actor ≤ length seen.now) }
    ensures { OnOk result (answers.new.items ≡ answers.old.items ++ answer_to first.now seen.now line.now line.now.what) }
{
    if let What1::Ask(query) = &line.what {
        let program = program_seen(first, seen, line.actor);
        answers.push(answer_on(alloc, program, line, query)?)?;
    }
    Ok(())
}
