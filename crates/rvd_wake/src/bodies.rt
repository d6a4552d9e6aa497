ghost use Rattle.std.specs.Prelude.{◌≡◌, ◌==◌, ◌&&◌, IfOk, is_none, filter_map};
ghost use Rattle.std.specs.List.{list_any};
ghost use Rattle.rvd_fact.specs.Ranges.{in_range};
ghost use Rattle.rvd_ask.specs.Wake.{body_has, is_near, wakes_body};
ghost use Rattle.rvd_wake.specs.Walks.{AreJust};
ghost use Rattle.rvd_wake.specs.Picks.{body_meets, body_place, is_body, meets_any};

use crate::candidate::candidate_places;
use crate::froms::froms_of;
use crate::places::{at_if, only};
use rvd_ask::Analyzer;
use rvd_fact::{Addr, Change, Key, Kind, RangeSet, Value};
use rvd_program::{Kept, Program};
use std::alloc::{AllocError, Global};
use std::collections::BTreeSet;

const WORD: u32 = 4;

/// Where a change wakes the analyzer of bodies.
pub fn bodies_places(
    alloc: Global,
    after: &Program,
    change: &Change,
) -> Result<Vec<Addr>, AllocError>
    ensures { IfOk result (λ places. AreJust (wakes_body change.now.key.kind after.now change.now) places.items) }
{
    let at = change.key.at;
    match change.key.kind {
        Kind::Unit | Kind::Func => bodies_near(alloc, after, at),
        Kind::Ref => bodies_having(alloc, after, only(alloc, at)?),
        Kind::Body if change.after.is_none() => only(alloc, at),
        Kind::Block => candidate_places(alloc, after, Analyzer::Body),
        _ => Ok(Vec::new(alloc)),
    }
}

// The functions whose bodies may change with what is at an address.
fn bodies_near(alloc: Global, after: &Program, at: Addr) -> Result<Vec<Addr>, AllocError>
    ensures { IfOk result (λ places. AreJust (is_near after.now at) places.items) }
{
    let mut ways = froms_of(alloc, after.entries(), at)?;
    ways.push(at)?;
    ways.push(at.wrapping_sub(WORD))?;
    let mut places = bodies_having(alloc, after, ways)?;
    places.push(at)?;
    Ok(places)
}

// The functions whose bodies have one of some addresses.
fn bodies_having(
    alloc: Global,
    after: &Program,
    addresses: Vec<Addr>,
) -> Result<Vec<Addr>, AllocError>
    ensures { IfOk result (λ places. AreJust (λ e. list_any (body_has after.now e) addresses.items) places.items) }
{
    let addresses: BTreeSet<Addr> = addresses.into_iter().collect(alloc)?;
    pick_bodies(alloc, after.entries(), &addresses)
}

fn pick_bodies(
    alloc: Global,
    entries: &[(Key, Kept)],
    addresses: &BTreeSet<Addr>,
) -> Result<Vec<Addr>, AllocError>
    ensures { IfOk result (λ places. places.items ≡ filter_map (λ e. body_place addresses.now.keys e.0 e.1.value) entries.now) }
{
    entries
        .iter()
        .filter_map(|entry| body_place(addresses, &entry.0, &entry.1.cell().value))
        .collect(alloc)
}

fn body_place(addresses: &BTreeSet<Addr>, key: &Key, value: &Value) -> Option<Addr>
    ensures { result ≡ body_place addresses.now.keys key.now value.now }
{
    at_if(is_body(key.kind) && body_meets(addresses, value), key)
}

fn is_body(kind: Kind) -> bool
    ensures { result ≡ is_body kind }
{
    matches!(kind, Kind::Body)
}

fn body_meets(addresses: &BTreeSet<Addr>, value: &Value) -> bool
    ensures { result ≡ body_meets addresses.now.keys value.now }
{
    match value {
        Value::Body(ranges) => meets_any(addresses, ranges),
        _ => false,
    }
}

fn meets_any(addresses: &BTreeSet<Addr>, ranges: &RangeSet) -> bool
    ensures { result ≡ meets_any addresses.now.keys ranges.now }
{
    ranges
        .ranges()
        .iter()
        .any(|range| has_between(addresses, range.0, range.1))
}

// Whether one of the addresses is in a range. The time is logarithmic in their number.
fn has_between(addresses: &BTreeSet<Addr>, first: Addr, last: Addr) -> bool
    ensures { result ≡ list_any (λ a. in_range a (first, last)) addresses.now.keys }
{
    match addresses.range(first..).next() {
        Some(next) => *next <= last,
        None => false,
    }
}
