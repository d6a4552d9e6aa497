ghost use Rattle.std.specs.Prelude.{◌≡◌, ◌<◌, ◌||◌, ◌&&◌, nat_lt, nat_le, [], ◌∷◌, IfOk, OnOk, filter_map};
ghost use Rattle.std.specs.Option.{option_to_list};
ghost use Rattle.rvd_ask.specs.Wake.{cell_goes_to, meets_string, wakes_funcs, wakes_strings};
ghost use Rattle.rvd_wake.specs.Walks.{AreJust};
ghost use Rattle.rvd_wake.specs.Picks.{cell_target, data_near, if_close, is_close, target_of};

use crate::candidate::{candidate_places, data_at};
use crate::gone::gone_from;
use crate::places::only;
use rvd_ask::Analyzer;
use rvd_fact::{Addr, Cell, Change, Key, Kind, Value};
use rvd_program::{Kept, Program};
use std::alloc::{AllocError, Global};

// A string has at most so many bytes before its zero.
const LONGEST: u64 = 255;

/// Where a change wakes the analyzer of functions.
pub fn funcs_places(
    alloc: Global,
    after: &Program,
    change: &Change,
) -> Result<Vec<Addr>, AllocError>
    ensures { IfOk result (λ places. AreJust (wakes_funcs change.now.key.kind after.now change.now) places.items) }
{
    match change.key.kind {
        Kind::Unit | Kind::Func => only(alloc, change.key.at),
        Kind::Ref => targets(alloc, change),
        Kind::Block => candidate_places(alloc, after, Analyzer::Funcs),
        _ => Ok(Vec::new(alloc)),
    }
}

/// Where a change wakes the analyzer of strings.
pub fn strings_places(
    alloc: Global,
    after: &Program,
    change: &Change,
) -> Result<Vec<Addr>, AllocError>
    ensures { IfOk result (λ places. AreJust (wakes_strings change.now.key.kind after.now change.now) places.items) }
{
    match change.key.kind {
        Kind::Unit => strings_by_unit(alloc, after, change.key.at, gone_from(change)),
        Kind::Ref => targets(alloc, change),
        Kind::Block => candidate_places(alloc, after, Analyzer::Strings),
        _ => Ok(Vec::new(alloc)),
    }
}

// The old and the new target of a reference.
fn targets(alloc: Global, change: &Change) -> Result<Vec<Addr>, AllocError>
    ensures { IfOk result (λ places. AreJust (λ t. cell_goes_to t change.now.before || cell_goes_to t change.now.after) places.items) }
{
    let mut places = Vec::new(alloc);
    if let Some(to) = cell_target(&change.before) {
        places.push(to)?;
    }
    if let Some(to) = cell_target(&change.after) {
        places.push(to)?;
    }
    Ok(places)
}

fn cell_target(cell: &Option<Cell>) -> Option<Addr>
    ensures { result ≡ cell_target cell.now }
{
    match cell {
        None => None,
        Some(cell) => target_of(&cell.value),
    }
}

fn target_of(value: &Value) -> Option<Addr>
    ensures { result ≡ target_of value.now }
{
    match value {
        Value::Ref { to, .. } => Some(*to),
        _ => None,
    }
}

// Where data is referred to and a string may have one of the `n` bytes from `at` on.
fn strings_by_unit(
    alloc: Global,
    after: &Program,
    at: Addr,
    n: u32,
) -> Result<Vec<Addr>, AllocError>
    ensures { IfOk result (λ places. AreJust (meets_string after.now at n) places.items) }
{
    if n == 0 {
        return Ok(Vec::new(alloc));
    }
    data_places(alloc, after.entries(), at, n)
}

fn data_places(
    alloc: Global,
    entries: &[(Key, Kept)],
    at: Addr,
    n: u32,
) -> Result<Vec<Addr>, AllocError>
    ensures { IfOk result (λ places. places.items ≡ filter_map (λ e. data_near at n e.1.value) entries.now) }
{
    entries
        .iter()
        .filter_map(|entry| data_near(at, n, &entry.1.cell().value))
        .collect(alloc)
}

fn data_near(at: Addr, n: u32, value: &Value) -> Option<Addr>
    ensures { result ≡ data_near at n value.now }
{
    match data_at(value) {
        Some(to) if is_close(at, n, to) => Some(to),
        _ => None,
    }
}

// Whether a string that begins at an address may have one of the `n` bytes from `at` on.
fn is_close(at: Addr, n: u32, start: Addr) -> bool
    ensures { result ≡ is_close at n start }
{
    u64::from(at) <= u64::from(start) + LONGEST && u64::from(start) < u64::from(at) + u64::from(n)
}
