ghost use Rattle.std.specs.Prelude.{◌≡◌, ◌++◌, ◌∷◌, [], IfOk, OnOk};
ghost use Rattle.std.specs.Option.{option_copied};
ghost use Rattle.rvd_fact.specs.Program.{cell_at, is_present};
ghost use Rattle.rvd_fact.specs.Memory.{func_key};
ghost use Rattle.rvd_fact.specs.Valid.{IsValid};
ghost use Rattle.rvd_ask.specs.Answers.{Hold, told};
ghost use Rattle.rvd_ask.specs.Body.{body_asks, body_rule, has_body, is_open, same_ranges, set_body};
ghost use Rattle.rvd_ask.specs.Promise.{AreAsks};
ghost use Rattle.rvd_ask.specs.Rules.{asks};
ghost use Rattle.rvd_an_funcs.specs.Walks.{Adds};

use crate::keys::{body_key, func_key};
use crate::ranges::ranges_of;
use crate::walk::reach_of;
use rvd_ask::{Analyzer, Ask, Item, Proposal, Reads, Rule, View, ask_cell, is_present};
use rvd_fact::{Addr, Cell, Change, RangeSet, Source, Value};
use std::alloc::{AllocError, Global};

// Whether an analyzer may set the body: there is none, or it is an analyzer's.
fn is_open(body: Option<&Cell>) -> bool
    ensures { result ≡ is_open (option_copied body.entry) }
{
    match body {
        None => true,
        Some(cell) => cell.source == Source::Analysis,
    }
}

fn same_ranges(own: &[(Addr, Addr)], ranges: &[(Addr, Addr)]) -> bool
    ensures { result ≡ same_ranges own.now ranges.now }
{
    own == ranges
}

fn has_body(ranges: &RangeSet, body: Option<&Cell>) -> bool
    ensures { result ≡ has_body ranges.now (option_copied body.entry) }
{
    let Some(cell) = body else {
        return false;
    };
    match &cell.value {
        Value::Body(own) => same_ranges(own.ranges(), ranges.ranges()),
        _ => false,
    }
}

fn copy_of(cell: Option<&Cell>) -> Result<Option<Cell>, AllocError>
    ensures { IfOk result (λ copy. copy ≡ option_copied cell.entry) }
{
    match cell {
        None => Ok(None),
        Some(cell) => Ok(Some(cell.copy()?)),
    }
}

// Sets a body to ranges, where it isn't these.
fn set_body(
    changes: &mut Vec<Change>,
    at: Addr,
    old: Option<&Cell>,
    ranges: RangeSet,
) -> Result<(), AllocError>
    ensures { OnOk result (changes.new.items ≡ changes.old.items ++ set_body at (option_copied old.entry) ranges) }
{
    if has_body(&ranges, old) {
        return Ok(());
    }
    let before = copy_of(old)?;
    changes.push(Change {
        key: body_key(at),
        before,
        after: Some(Cell {
            value: Value::Body(ranges),
            source: Source::Analysis,
        }),
    })?;
    Ok(())
}

// Asks whether a function begins at an address. The view itself says that its program is valid.
fn ask_function<V: View>(view: &V, reads: &mut Reads, at: Addr) -> Result<bool, AllocError>
    ensures valid { IsValid (V.program view.now) }
    ensures answer { IfOk result (λ yes. yes ≡ is_present (cell_at (V.program view.now) (func_key at))) }
    ensures reads { let P = V.program view.now in
        OnOk result (reads.new.items ≡ reads.old.items ++ told P (Ask.Cell (func_key at) ∷ [])) }
{
    let present = is_present(view.cell(func_key(at)));
    ask_cell(view, reads, func_key(at))?;
    Ok(present)
}

// Asks the whole rule: what it reads and what it changes.
#[tactic(auto, unfolding(rvd_ask::specs::Body::body_rule, rvd_ask::specs::Body::body_asks))]
fn find_body<V: View>(
    alloc: Global,
    view: &V,
    reads: &mut Reads,
    changes: &mut Vec<Change>,
    at: Addr,
) -> Result<(), AllocError>
    ensures valid { IsValid (V.program view.now) }
    ensures changes { let P = V.program view.now in
        OnOk result (changes.new.items ≡ changes.old.items ++ body_rule P at) }
    ensures reads { let P = V.program view.now in
        OnOk result (Adds P reads.old.items reads.new.items (body_asks P at)) }
{
    if !ask_function(view, reads, at)? {
        return Ok(());
    }
    let body = ask_cell(view, reads, body_key(at))?;
    if !is_open(body) {
        return Ok(());
    }
    let members = reach_of(alloc, view, reads, at)?;
    let ranges = ranges_of(alloc, &members)?;
    set_body(changes, at, body, ranges)
}

/// The rule of bodies.
pub struct BodyRule;

impl Rule for BodyRule {
    ghost use Rattle.rvd_ask.specs.declared.asks.Analyzer.TheVariants.{Body};

    ghost analyzer = { Body };

    /// The body of the function at an entry, where an analyzer may set it and it isn't that of the function's reach. Its
    /// reads hold of the view's program, and they ask what the rule asks there, in an order of their own. Only want of
    /// memory refuses it. For n instructions of the function with a bounded number of references each, it makes in the
    /// order of n asks, and takes in the order of n log n steps beside them.
    fn propose<V: View>(&self, alloc: Global, view: &V, at: Addr) -> Result<Proposal, AllocError>
        ensures item { IfOk result (λ p. p.item ≡ record { analyzer = Analyzer.Body; at = at }) }
        ensures hold { IfOk result (λ p. Hold (V.program view.now) p.reads) }
        ensures asked { IfOk result (λ p. AreAsks p.reads (asks (V.program view.now) p.item)) }
    {
        let item = Item {
            analyzer: Analyzer::Body,
            at,
        };
        let mut reads = Vec::new(alloc);
        let mut changes = Vec::new(alloc);
        find_body(alloc, view, &mut reads, &mut changes, at)?;
        Ok(Proposal::of(item, reads, changes))
    }
}
