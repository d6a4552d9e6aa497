ghost use Rattle.std.specs.Prelude.{◌≡◌, ◌++◌, IfOk, IfErr, OnOk};
ghost use Rattle.rvd_player.specs.Plays.{head_of, PlayFails};
ghost use Rattle.rvd_report.specs.Listing.{listing};
ghost use Rattle.rvd_report.specs.History.{history};
ghost use Rattle.rvd_top.specs.Plays.{desk_text, IsPlayed, outcome_text};
ghost use Rattle.rvd_top.specs.Replays.{names_in};

use rvd_desk::{Desk, DeskError};
use rvd_event::{Names, Step};
use rvd_journal_text::print;
use rvd_player::{Played, play};
use rvd_program::Program;
use rvd_report::{Answered, answers, history, listing};
use rvd_script::EventFile;
use std::alloc::{AllocError, Global};

// Appends the history and the listing of a state.
fn push_outcome(
    alloc: Global,
    base: &Program,
    steps: &[Step],
    names: Names,
    text: &mut Vec<u8>,
) -> Result<(), AllocError>
    ensures { OnOk result (text.new.items ≡ text.old.items ++ (history steps.now names ++ listing base.now)) }
{
    history(steps, names, text)?;
    listing(alloc, base, text)
}

// The journal, the answers to queries, the history and the listing of a desk.
fn desk_text(
    alloc: Global,
    desk: Desk,
    answered: &[Answered],
    names: Names,
) -> Result<Vec<u8>, AllocError>
    ensures { IfOk result (λ text. text.items ≡ desk_text names desk answered.now) }
{
    let (base, steps, journal) = desk.close();
    let mut text = Vec::new(alloc);
    print(&journal, names, &mut text)?;
    answers(answered, &mut text)?;
    push_outcome(alloc, &base, &steps, names, &mut text)?;
    Ok(text)
}

/// The text of playing an event file on a program.
pub(crate) fn played_text(
    alloc: Global,
    program: Program,
    file: &EventFile,
) -> Result<Vec<u8>, DeskError>
    ensures ok { IfOk result (λ text. IsPlayed program file.now text.items) }
    ensures err { IfErr result (λ error. PlayFails (head_of program file.now) file.now.lines error) }
{
    let names = Names {
        sessions: file.sessions(),
        workers: file.workers(),
    };
    let Played { desk, answers } = play(alloc, program, file)?;
    match desk_text(alloc, desk, &answers, names) {
        Ok(text) => Ok(text),
        Err(_) => Err(DeskError::OutOfMemory),
    }
}

/// The history and the listing of a desk.
pub(crate) fn outcome_text(alloc: Global, desk: Desk) -> Result<Vec<u8>, AllocError>
    ensures { IfOk result (λ text. text.items ≡ outcome_text (names_in desk) desk) }
{
    let names = Names {
        sessions: desk.head().sessions,
        workers: desk.head().workers,
    };
    let (base, steps, _) = desk.close();
    let mut text = Vec::new(alloc);
    push_outcome(alloc, &base, &steps, names, &mut text)?;
    Ok(text)
}
