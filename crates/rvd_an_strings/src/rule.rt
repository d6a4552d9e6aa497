ghost use Rattle.std.specs.Prelude.{◌≡◌, ◌++◌, ◌+◌, ◌^◌, ◌≤◌, ◌&&◌, Some, is_none, map, IfOk, OnOk};
ghost use Rattle.std.specs.Bool.{OnTrue};
ghost use Rattle.rvd_fact.specs.Memory.{unit_key};
ghost use Rattle.rvd_fact.specs.Program.{cell_at};
ghost use Rattle.rvd_fact.specs.Valid.{IsValid};
ghost use Rattle.rvd_ask.specs.Answers.{Hold, told};
ghost use Rattle.rvd_ask.specs.Flow.{is_free};
ghost use Rattle.rvd_ask.specs.Promise.{AreAsks};
ghost use Rattle.rvd_ask.specs.Rules.{asks};
ghost use Rattle.rvd_ask.specs.Strings.{is_read_at, string_changes, strings_asks, strings_rule, unit_asks};
ghost use Rattle.rvd_an_strings.specs.Parts.{read_asks};

use crate::texts::ask_string;
use rvd_ask::{Analyzer, Item, Proposal, Reads, Rule, View, addition, ask_cell, ask_free, ask_to};
use rvd_fact::{Addr, Change, Form, Key, Kind, RefClass, Value};
use std::alloc::{AllocError, Global};

// A view's program is valid.
fn valid<V: View>(view: &V)
    ensures { IsValid (V.program view.now) }
{
    view.cell(unit_key(0));
}

fn unit_key(at: Addr) -> Key
    ensures { result ≡ unit_key at }
{
    Key {
        at,
        kind: Kind::Unit,
        sub: 0,
    }
}

// Whether data at an address is referred to: its address is computed, or it is read.
fn is_read<V: View>(view: &V, reads: &mut Reads, at: Addr) -> Result<bool, AllocError>
    ensures answer { IfOk result (λ yes. yes ≡ is_read_at (V.program view.now) at) }
    ensures reads { let P = V.program view.now in
        OnOk result (reads.new.items ≡ reads.old.items ++ told P (read_asks P at)) }
{
    if ask_to(view, reads, at, RefClass::Datum)? {
        return Ok(true);
    }
    ask_to(view, reads, at, RefClass::Read)
}

// Whether a unit of some bytes may be put at an address: no present unit has one of them, and no cell of a unit is there.
fn is_vacant<V: View>(view: &V, reads: &mut Reads, at: Addr, len: u16) -> Result<bool, AllocError>
    requires { at + len ≤ 2 ^ 32 }
    ensures answer { let P = V.program view.now in
        IfOk result (λ yes. yes ≡ (is_free P at len && is_none (cell_at P (unit_key at)))) }
    ensures reads { let P = V.program view.now in
        OnOk result (reads.new.items ≡ reads.old.items ++ told P (unit_asks P at (Some len))) }
{
    if !ask_free(view, reads, at, u32::from(len))? {
        return Ok(false);
    }
    let cell = ask_cell(view, reads, unit_key(at))?;
    Ok(cell.is_none())
}

// Adds a string of some bytes.
fn add_string<V: View>(
    view: &V,
    reads: &mut Reads,
    changes: &mut Vec<Change>,
    at: Addr,
    len: u16,
) -> Result<(), AllocError>
    requires { at + len ≤ 2 ^ 32 }
    ensures changes { let P = V.program view.now in
        OnOk result (changes.new.items ≡ changes.old.items ++ string_changes P at (Some len)) }
    ensures reads { let P = V.program view.now in
        OnOk result (reads.new.items ≡ reads.old.items ++ told P (unit_asks P at (Some len))) }
{
    if is_vacant(view, reads, at, len)? {
        changes.push(addition(unit_key(at), Value::Plain(Form::Str(len))))?;
    }
    Ok(())
}

// Adds the string at an address, where there is one.
fn find_string<V: View>(
    alloc: Global,
    view: &V,
    reads: &mut Reads,
    changes: &mut Vec<Change>,
    at: Addr,
) -> Result<(), AllocError>
    ensures valid { let P = V.program view.now in
        OnOk result (OnTrue (is_read_at P at) (IsValid P)) }
    ensures changes { let P = V.program view.now in
        OnOk result (changes.new.items ≡ changes.old.items ++ strings_rule P at) }
    ensures reads { let P = V.program view.now in
        OnOk result (reads.new.items ≡ reads.old.items ++ told P (strings_asks P at)) }
{
    if !is_read(view, reads, at)? {
        return Ok(());
    }
    valid(view);
    match ask_string(alloc, view, reads, at)? {
        None => Ok(()),
        Some(len) => add_string(view, reads, changes, at, len),
    }
}

/// The rule of strings.
pub struct StringsRule;

impl Rule for StringsRule {
    ghost use Rattle.rvd_ask.specs.declared.asks.Analyzer.TheVariants.{Strings};

    ghost analyzer = { Strings };

    /// The string that may be put at an address. Its reads hold of the view's program, and they ask what the rule asks
    /// there, in order. Only want of memory refuses it.
    fn propose<V: View>(&self, alloc: Global, view: &V, at: Addr) -> Result<Proposal, AllocError>
        ensures item { IfOk result (λ p. p.item ≡ record { analyzer = Analyzer.Strings; at = at }) }
        ensures hold { IfOk result (λ p. Hold (V.program view.now) p.reads) }
        ensures asked { IfOk result (λ p. AreAsks p.reads (asks (V.program view.now) p.item)) }
        ensures in_order { IfOk result (λ p. map (λ r. r.0) p.reads ≡ asks (V.program view.now) p.item) }
    {
        let item = Item {
            analyzer: Analyzer::Strings,
            at,
        };
        let mut reads = Vec::new(alloc);
        let mut changes = Vec::new(alloc);
        find_string(alloc, view, &mut reads, &mut changes, at)?;
        Ok(Proposal::of(item, reads, changes))
    }
}
