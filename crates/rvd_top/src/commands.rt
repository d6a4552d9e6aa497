//! What each command answers to the bytes of its files.
ghost use Rattle.std.specs.Prelude.{◌≡◌, ◌⊎◌, ◌≤◌, [], Ok, Err, IfOk, IfErr, length, map, string_bytes};
ghost use Rattle.rvd_fact.specs.Program.{applied_all};
ghost use Rattle.rvd_fact.specs.Valid.{Fits};
ghost use Rattle.rvd_elf.specs.declared.refusals.ElfError.{ElfError as ElfRefusal};
ghost use Rattle.rvd_elf.specs.Import.{import_of};
ghost use Rattle.rvd_gen.specs.Layout.{max_functions};
ghost use Rattle.rvd_script.specs.Files.{events_of};
ghost use Rattle.rvd_script.specs.Parts.{number_of};
ghost use Rattle.rvd_top.specs.Answers.{answer_of, Answers, Generates, Lists, OnFacts, PlaysEvents, PlaysFile, ReplaysText, Shows, Sums};
ghost use Rattle.rvd_top.specs.Endings.{ending_of, IsAnswered};
ghost use Rattle.rvd_top.specs.Words.{file_count};

use crate::endings::Ending;
use crate::outcomes::{outcome_text, played_text};
use crate::summary::summary_text;
use crate::texts::{block_text, listed_text, program_of};
use crate::words::Command;
use rvd_elf::import;
use rvd_fact::Change;
use rvd_gen::{MAX_FUNCTIONS, make};
use rvd_program::Program;
use rvd_replay::{Replayed, replay};
use rvd_script::{EventFile, number_of, read_events};
use std::alloc::Global;

// The facts of a file, or the ending for the refusal of the import.
fn facts_of(alloc: Global, file: &[u8]) -> Result<Vec<Change>, Ending>
    ensures facts { IfOk result (λ changes. import_of file.now ≡ Ok changes.items) }
    ensures fits { IfOk result (λ changes. Fits [] changes.items) }
    ensures refusal { IfErr result (λ ending. (ending ≡ Ending.Memory) ⊎ ((refusal : ElfRefusal) × (import_of file.now ≡ Err refusal) × (ending ≡ ending_of refusal))) }
    ensures answered { IfErr result IsAnswered }
{
    match import(alloc, file) {
        Ok(changes) => Ok(changes),
        Err(refusal) => Err(Ending::of_refusal(refusal)),
    }
}

/// The lines of a file's memory blocks.
fn show_of(alloc: Global, file: &[u8]) -> Result<Vec<u8>, Ending>
    ensures answer { OnFacts Shows (import_of file.now) (answer_of result) }
    ensures answered { IfErr result IsAnswered }
{
    let changes = facts_of(alloc, file)?;
    Ok(block_text(alloc, &changes)?)
}

// The listing of a program after a whole analysis.
fn list_program(alloc: Global, program: Program) -> Result<Vec<u8>, Ending>
    ensures answer { Lists program (answer_of result) }
    ensures answered { IfErr result IsAnswered }
{
    match listed_text(alloc, program) {
        Ok(text) => Ok(text),
        Err(error) => Err(Ending::of_desk(error)),
    }
}

/// The listing of a file after a whole analysis.
fn list_of(alloc: Global, file: &[u8]) -> Result<Vec<u8>, Ending>
    ensures answer { OnFacts (λ changes. Lists (applied_all [] changes)) (import_of file.now) (answer_of result) }
    ensures answered { IfErr result IsAnswered }
{
    let changes = facts_of(alloc, file)?;
    let program = program_of(alloc, &changes)?;
    list_program(alloc, program)
}

// What the lines of an event file lead to over a program.
fn play_file(alloc: Global, program: Program, file: &EventFile) -> Result<Vec<u8>, Ending>
    ensures answer { PlaysFile program file.now (answer_of result) }
    ensures answered { IfErr result IsAnswered }
{
    match played_text(alloc, program, file) {
        Ok(text) => Ok(text),
        Err(error) => Err(Ending::of_desk(error)),
    }
}

// What an event file's text leads to over the program of facts.
fn play_events(alloc: Global, changes: &[Change], events: &[u8]) -> Result<Vec<u8>, Ending>
    requires { Fits [] changes.now }
    ensures answer { PlaysEvents (applied_all [] changes.now) (events_of events.now) (answer_of result) }
    ensures answered { IfErr result IsAnswered }
{
    let file = match read_events(alloc, events) {
        Ok(file) => file,
        Err(refusal) => return Err(Ending::of_script(2, refusal)),
    };
    let program = program_of(alloc, changes)?;
    play_file(alloc, program, &file)
}

/// What an event file leads to over a file.
fn play_of(alloc: Global, file: &[u8], events: &[u8]) -> Result<Vec<u8>, Ending>
    ensures answer { OnFacts (λ changes. PlaysEvents (applied_all [] changes) (events_of events.now)) (import_of file.now) (answer_of result) }
    ensures answered { IfErr result IsAnswered }
{
    let changes = facts_of(alloc, file)?;
    play_events(alloc, &changes, events)
}

// What a journal's text leads to over a program.
fn replay_text(alloc: Global, program: Program, journal: &[u8]) -> Result<Vec<u8>, Ending>
    ensures answer { ReplaysText program journal.now (answer_of result) }
    ensures answered { IfErr result IsAnswered }
{
    match replay(alloc, program, journal)? {
        Replayed::Done(desk) => Ok(outcome_text(alloc, desk)?),
        Replayed::Differs(line) => Err(Ending::Differs { line }),
    }
}

/// What a journal leads to over a file.
fn replay_of(alloc: Global, file: &[u8], journal: &[u8]) -> Result<Vec<u8>, Ending>
    ensures answer { OnFacts (λ changes. ReplaysText (applied_all [] changes) journal.now) (import_of file.now) (answer_of result) }
    ensures answered { IfErr result IsAnswered }
{
    let changes = facts_of(alloc, file)?;
    let program = program_of(alloc, &changes)?;
    replay_text(alloc, program, journal)
}

// The summary of a program after a whole analysis.
fn sum_program(alloc: Global, program: Program) -> Result<Vec<u8>, Ending>
    ensures answer { Sums program (answer_of result) }
    ensures answered { IfErr result IsAnswered }
{
    match summary_text(alloc, program) {
        Ok(text) => Ok(text),
        Err(error) => Err(Ending::of_desk(error)),
    }
}

// The summary of an image after a whole analysis.
fn sum_file(alloc: Global, file: &[u8]) -> Result<Vec<u8>, Ending>
    ensures answer { OnFacts (λ changes. Sums (applied_all [] changes)) (import_of file.now) (answer_of result) }
    ensures answered { IfErr result IsAnswered }
{
    let changes = facts_of(alloc, file)?;
    let program = program_of(alloc, &changes)?;
    sum_program(alloc, program)
}

/// The summary of the image of as many functions as a word says, after a whole analysis.
fn gen_of(alloc: Global, word: &[u8]) -> Result<Vec<u8>, Ending>
    ensures answer { Generates (number_of 1 max_functions word.now) (answer_of result) }
    ensures answered { IfErr result IsAnswered }
{
    let n = match number_of(word, 1, u64::from(MAX_FUNCTIONS)) {
        Ok(n) => n as u32,
        Err(cause) => {
            return Err(Ending::BadText {
                word: 1,
                line: 1,
                cause,
            });
        }
    };
    let image = make(alloc, n)?;
    sum_file(alloc, &image)
}

/// What a command answers to the bytes of its files.
pub(crate) fn answer(
    alloc: Global,
    command: Command,
    words: &[String],
    files: &[Vec<u8>],
) -> Result<Vec<u8>, Ending>
    requires files { file_count command ≤ length files.now }
    requires words { 2 ≤ length words.now }
    ensures answer { Answers command (map string_bytes words.now) (map (λ v. v.items) files.now) (answer_of result) }
    ensures answered { IfErr result IsAnswered }
{
    match command {
        Command::Show => show_of(alloc, &files[0]),
        Command::List => list_of(alloc, &files[0]),
        Command::Play => play_of(alloc, &files[0], &files[1]),
        Command::Replay => replay_of(alloc, &files[0], &files[1]),
        Command::Gen => gen_of(alloc, words[1].as_bytes()),
    }
}
