ghost use Rattle.std.specs.Prelude.{◌==◌, ◌||◌, IfOk};
ghost use Rattle.rvd_ask.specs.Places.{next_word};
ghost use Rattle.rvd_ask.specs.Wake.{wakes_refs};
ghost use Rattle.rvd_wake.specs.Walks.{AreJust};

use crate::candidate::candidate_places;
use crate::places::only;
use rvd_ask::Analyzer;
use rvd_fact::{Addr, Change, Kind};
use rvd_program::Program;
use std::alloc::{AllocError, Global};

const WORD: u32 = 4;

/// Where a change wakes the analyzer of references.
pub fn refs_places(alloc: Global, after: &Program, change: &Change) -> Result<Vec<Addr>, AllocError>
    ensures { IfOk result (λ places. AreJust (wakes_refs change.now.key.kind after.now change.now) places.items) }
{
    let at = change.key.at;
    match change.key.kind {
        Kind::Unit => with_next(alloc, at),
        Kind::Ref => only(alloc, at),
        Kind::Block => candidate_places(alloc, after, Analyzer::Refs),
        _ => Ok(Vec::new(alloc)),
    }
}

// An address and the word behind it.
fn with_next(alloc: Global, at: Addr) -> Result<Vec<Addr>, AllocError>
    ensures { IfOk result (λ places. AreJust (λ a. a == at || a == next_word at) places.items) }
{
    let mut places = only(alloc, at)?;
    places.push(at.wrapping_add(WORD))?;
    Ok(places)
}
