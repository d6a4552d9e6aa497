ghost use Rattle.std.specs.Prelude.{◌≡◌, ◌≤◌, Some, map, string_bytes, vec_len};
ghost use Rattle.rvd_top.specs.Answers.{answer_of};
ghost use Rattle.rvd_top.specs.Words.{command_of};
ghost use Rattle.rvd_top.specs.Runs.{AnswersFrom, Runs};

use crate::commands::answer;
use crate::endings::Ending;
use crate::fetching::fetch_files;
use crate::putting::put_answer;
use crate::words::{Command, command_of};
use rvd_io::{Cabinet, Gate, Sink};
use std::alloc::Global;
use std::sync::Wait;
use std::thread::Threads;

// Fetches the files of a command in word order and answers them.
fn answered<C: Cabinet>(
    alloc: Global,
    command: Command,
    words: &[String],
    files: &mut C,
) -> Result<Vec<u8>, Ending>
    requires { command_of (map string_bytes words.now) ≡ Some command }
    ensures { AnswersFrom C.held C.faults C.fetched command (map string_bytes words.now) files.old files.new (answer_of result) }
{
    let mut lists = Vec::new(alloc);
    fetch_files(
        alloc,
        files,
        command,
        1,
        command.names_in(words),
        &mut lists,
    )?;
    answer(alloc, command, words, &lists)
}

/// Runs a command that waits for nobody, and returns. What it promises is the record `Runs`.
pub fn run_plain<C: Cabinet, K: Sink>(
    alloc: Global,
    words: &[String],
    files: &mut C,
    out: &mut K,
) -> Ending
    ensures { Runs C.held C.faults C.fetched K.contents K.faults (map string_bytes words.now) files.old files.new out.old out.new result }
{
    match command_of(words) {
        Some(command) => put_answer(out, answered(alloc, command, words, files)),
        None => Ending::Usage,
    }
}

/// Runs a command. There are at least 8 gates, one for each worker. What it promises is the record
/// `Runs`, if it returns: it may wait for threads.
pub fn run<R: Threads + Wait + Sync, C: Cabinet, K: Sink, G: Gate + Send + Drop>(
    _rt: &R,
    alloc: Global,
    words: &[String],
    files: &mut C,
    out: &mut K,
    _gates: Vec<G>,
) -> Ending
    requires { 8 ≤ vec_len _gates }
    ensures { Runs C.held C.faults C.fetched K.contents K.faults (map string_bytes words.now) files.old files.new out.old out.new result }
{
    run_plain(alloc, words, files, out)
}

#[cfg(test)]
mod gen_tests;
#[cfg(test)]
mod play_tests;
#[cfg(test)]
mod replay_tests;
#[cfg(test)]
mod tests;
