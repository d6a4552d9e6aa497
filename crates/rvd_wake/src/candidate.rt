ghost use Rattle.std.specs.Prelude.{◌≡◌, ◌&&◌, IfOk, filter_map};
ghost use Rattle.rvd_ask.specs.Unsettled.{candidates as candidates_of};
ghost use Rattle.rvd_ask.specs.Wake.{candidate_of};
ghost use Rattle.rvd_wake.specs.Walks.{AreJust};
ghost use Rattle.rvd_wake.specs.Picks.{starts_flow, is_unit, is_func, present_at, called, data_at, candidate_place as place_of};

use crate::ordering::{add_items, ordered};
use crate::places::at_if;
use rvd_ask::{Analyzer, Item, listing_law};
use rvd_fact::{Addr, Key, Kind, RefClass, Value};
use rvd_program::{Kept, Program};
use std::alloc::{AllocError, Global};

/// The candidates of an analyzer: the items that may be unsettled in a program. Each is listed once, by address. Only
/// want of memory refuses it.
pub fn candidates(
    alloc: Global,
    program: &Program,
    analyzer: Analyzer,
) -> Result<Vec<Item>, AllocError>
    ensures { IfOk result (λ list. list.items ≡ candidates_of program.now analyzer) }
{
    listing_law();
    let places = candidate_places(alloc, program, analyzer)?;
    let mut items = Vec::new(alloc);
    add_items(&mut items, analyzer, &places)?;
    ordered(alloc, items)
}

/// The addresses of an analyzer's candidates.
pub fn candidate_places(
    alloc: Global,
    program: &Program,
    analyzer: Analyzer,
) -> Result<Vec<Addr>, AllocError>
    ensures { IfOk result (λ places. AreJust (candidate_of analyzer program.now) places.items) }
{
    pick_candidates(alloc, program.entries(), analyzer)
}

// The places at which entries make candidates.
fn pick_candidates(
    alloc: Global,
    entries: &[(Key, Kept)],
    analyzer: Analyzer,
) -> Result<Vec<Addr>, AllocError>
    ensures { IfOk result (λ places. places.items ≡ filter_map (λ e. place_of analyzer e.0 e.1.value) entries.now) }
{
    entries
        .iter()
        .filter_map(|entry| candidate_place(analyzer, &entry.0, &entry.1.cell().value))
        .collect(alloc)
}

// Where an entry makes an item of an analyzer a candidate.
fn candidate_place(analyzer: Analyzer, key: &Key, value: &Value) -> Option<Addr>
    ensures { result ≡ place_of analyzer key.now value.now }
{
    match analyzer {
        Analyzer::Flow => present_at(starts_flow(key.kind), key, value),
        Analyzer::Refs => present_at(is_unit(key.kind), key, value),
        Analyzer::Funcs => called(value),
        Analyzer::Body => present_at(is_func(key.kind), key, value),
        Analyzer::Strings => data_at(value),
    }
}

fn present_at(of_kind: bool, key: &Key, value: &Value) -> Option<Addr>
    ensures { result ≡ present_at of_kind key.now value.now }
{
    at_if(of_kind && !matches!(value, Value::Gone), key)
}

fn starts_flow(kind: Kind) -> bool
    ensures { result ≡ starts_flow kind }
{
    matches!(kind, Kind::Mark | Kind::Func | Kind::Unit)
}

fn is_unit(kind: Kind) -> bool
    ensures { result ≡ is_unit kind }
{
    matches!(kind, Kind::Unit)
}

fn is_func(kind: Kind) -> bool
    ensures { result ≡ is_func kind }
{
    matches!(kind, Kind::Func)
}

// The target of a call.
fn called(value: &Value) -> Option<Addr>
    ensures { result ≡ called value.now }
{
    match value {
        Value::Ref {
            to,
            class: RefClass::Call,
        } => Some(*to),
        _ => None,
    }
}

// The target of a reference to data.
pub fn data_at(value: &Value) -> Option<Addr>
    ensures { result ≡ data_at value.now }
{
    match value {
        Value::Ref {
            to,
            class: RefClass::Datum | RefClass::Read,
        } => Some(*to),
        _ => None,
    }
}
