ghost use Rattle.std.specs.Prelude.{◌≡◌, ◌^◌, ◌<◌, ◌==◌, ◌&&◌, ◌||◌, [], ◌∷◌, IfOk, OnOk, is_none};
ghost use Rattle.std.specs.List.{list_any};
ghost use Rattle.rvd_ask.specs.Places.{word_before};
ghost use Rattle.rvd_ask.specs.Wake.{around, comes_near, comes_to, meets, wakes_flow};
ghost use Rattle.rvd_wake.specs.Walks.{AreJust, Gain};

use crate::candidate::candidate_places;
use crate::froms::{WORD, froms_near, froms_of};
use crate::gone::gone_from;
use crate::places::only;
use rvd_ask::Analyzer;
use rvd_fact::{Addr, Change, Kind};
use rvd_program::Program;
use std::alloc::{AllocError, Global};

// The type of a bookmark of an error.
const ERROR: u8 = 4;

// How many addresses there are.
const ADDRESSES: u64 = 0x1_0000_0000;

/// Where a change wakes flow.
pub fn flow_places(alloc: Global, after: &Program, change: &Change) -> Result<Vec<Addr>, AllocError>
    ensures { IfOk result (λ places. AreJust (wakes_flow change.now.key.kind after.now change.now) places.items) }
{
    let at = change.key.at;
    match change.key.kind {
        Kind::Unit => flow_by_unit(alloc, after, at, gone_from(change)),
        Kind::Ref | Kind::Func | Kind::Mark => only(alloc, at),
        Kind::Bookmark => flow_by_bookmark(alloc, after, change),
        Kind::Block => candidate_places(alloc, after, Analyzer::Flow),
        Kind::Body | Kind::Symbol | Kind::Comment => Ok(Vec::new(alloc)),
    }
}

// Where flow is woken by a change of the unit at an address, of which `n` bytes go.
fn flow_by_unit(alloc: Global, after: &Program, at: Addr, n: u32) -> Result<Vec<Addr>, AllocError>
    ensures { IfOk result (λ places. AreJust (λ x. x == at || comes_near after.now at n x) places.items) }
{
    if n == 0 {
        return only(alloc, at);
    }
    let mut places = froms_near(alloc, after.entries(), at, n)?;
    add_words(&mut places, at, n)?;
    places.push(at)?;
    Ok(places)
}

// Where flow is woken by a change of a bookmark.
fn flow_by_bookmark(
    alloc: Global,
    after: &Program,
    change: &Change,
) -> Result<Vec<Addr>, AllocError>
    ensures { IfOk result (λ places. AreJust (λ x. change.now.key.sub == 4 && (is_none change.now.after && comes_to after.now x change.now.key.at)) places.items) }
{
    if change.key.sub != ERROR || change.after.is_some() {
        return Ok(Vec::new(alloc));
    }
    let mut places = froms_of(alloc, after.entries(), change.key.at)?;
    add_word(&mut places, u64::from(change.key.at))?;
    Ok(places)
}

// Adds each multiple of 4 whose four bytes meet the `n` bytes from `at` on, and the word before it.
fn add_words(places: &mut Vec<Addr>, at: Addr, n: u32) -> Result<(), AllocError>
    requires { 0 < n }
    ensures { OnOk result (Gain (λ x. list_any (λ t. meets at n t && (x == t || x == word_before t)) (around at n)) places.old.items places.new.items) }
{
    let at = u64::from(at);
    let first = at - at % WORD;
    let count = (at % WORD + u64::from(n) + WORD - 1) / WORD;
    for k in 0..count {
        add_word(places, first + WORD * k)?;
    }
    Ok(())
}

// Adds an address, where it is one, and the word before it.
fn add_word(places: &mut Vec<Addr>, word: u64) -> Result<(), AllocError>
    requires { word < 2 ^ 33 }
    ensures { OnOk result (Gain (λ x. x == word || x == word_before word) places.old.items places.new.items) }
{
    if let Ok(at) = Addr::try_from(word) {
        places.push(at)?;
    }
    places.push(word_before(word))?;
    Ok(())
}

fn word_before(word: u64) -> Addr
    requires { word < 2 ^ 33 }
    ensures { result ≡ word_before word }
{
    ((word + (ADDRESSES - WORD)) % ADDRESSES) as Addr
}
