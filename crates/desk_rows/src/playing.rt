use rvd_elf::import;
use rvd_event::Names;
use rvd_journal_text::print;
use rvd_player::{Played, play};
use rvd_program::Program;
use rvd_replay::{Replayed, replay};
use rvd_report::{answers, history, listing};
use rvd_script::read_events;
use std::alloc::Global;
use std::test::Fail;

/// What an event file gives: the texts of the journal, of the answers, of the history and of the listing.
#[derive(Drop)]
pub struct Texts {
    pub journal: Vec<u8>,
    pub answers: Vec<u8>,
    pub history: Vec<u8>,
    pub listing: Vec<u8>,
}

fn imported(alloc: Global, file: &[u8]) -> Result<Program, Fail> {
    let Ok(facts) = import(alloc, file) else {
        return Err(Fail::new("the file is refused"));
    };
    let mut program = Program::empty(alloc)?;
    if !program.fits(&facts)? {
        return Err(Fail::new("the facts don't fit"));
    }
    program.apply(&facts)?;
    Ok(program)
}

/// Plays an event file on the imported program of an executable, and replays its journal.
pub fn played(alloc: Global, file: &[u8], events: &[u8]) -> Result<Texts, Fail> {
    let program = imported(alloc, file)?;
    let Ok(events) = read_events(alloc, events) else {
        return Err(Fail::new("the events are refused"));
    };
    let Ok(
        Played {
            desk,
            answers: answered,
        },
    ) = play(alloc, program, &events)
    else {
        return Err(Fail::new("the desk gave nothing"));
    };
    let names = Names {
        sessions: events.sessions(),
        workers: events.workers(),
    };
    let (base, steps, entries) = desk.close();
    let mut texts = Texts {
        journal: Vec::new(alloc),
        answers: Vec::new(alloc),
        history: Vec::new(alloc),
        listing: Vec::new(alloc),
    };
    print(&entries, names, &mut texts.journal)?;
    answers(&answered, &mut texts.answers)?;
    history(&steps, names, &mut texts.history)?;
    listing(alloc, &base, &mut texts.listing)?;
    check_replay(alloc, imported(alloc, file)?, names, &texts)?;
    Ok(texts)
}

// Replaying a journal has to lead to the history and the listing that playing did.
fn check_replay(alloc: Global, program: Program, names: Names, texts: &Texts) -> Result<(), Fail> {
    let Ok(Replayed::Done(desk)) = replay(alloc, program, &texts.journal) else {
        return Err(Fail::new("the journal isn't replayed"));
    };
    let (base, steps, _) = desk.close();
    let mut again = Vec::new(alloc);
    history(&steps, names, &mut again)?;
    if again.as_slice() != texts.history.as_slice() {
        return Err(Fail::new("the journal has another history"));
    }
    again.clear();
    listing(alloc, &base, &mut again)?;
    if again.as_slice() != texts.listing.as_slice() {
        return Err(Fail::new("the journal has another listing"));
    }
    Ok(())
}
