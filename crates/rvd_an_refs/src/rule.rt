ghost use Rattle.std.specs.Prelude.{◌≡◌, ◌++◌, Some, map, IfOk, OnOk};
ghost use Rattle.rvd_ask.specs.Answers.{Hold, told};
ghost use Rattle.rvd_ask.specs.Places.{word_before};
ghost use Rattle.rvd_ask.specs.Promise.{AreAsks};
ghost use Rattle.rvd_ask.specs.Refs.{computed, upper_before, slot_changes, slot_asks, instruction_changes, instruction_asks, refs_rule, refs_asks};
ghost use Rattle.rvd_ask.specs.Rules.{asks};
ghost use Rattle.rvd_an_refs.specs.Slots.{computed_asks, is_lacking, lacking_asks, unit_asks};

use crate::asking::ask_instruction;
use crate::targets::{computed, computed_class, direct, upper_for};
use rvd_ask::{Analyzer, Item, Proposal, Reads, Rule, View, addition, ask_block, ask_cell};
use rvd_decode::Insn;
use rvd_fact::{Addr, Change, Key, Kind, RefClass, Value};
use std::alloc::{AllocError, Global};

// How many bytes an instruction takes.
const WORD: u32 = 4;

// The slot of the target that an immediate tells.
const TARGET_SLOT: u8 = 0;

// The slot of the address that is computed.
const COMPUTED_SLOT: u8 = 1;

// Whether a slot lacks a reference to an address.
fn is_lacking<V: View>(view: &V, reads: &mut Reads, slot: Key, to: Addr) -> Result<bool, AllocError>
    ensures answer { IfOk result (λ lacking. lacking ≡ is_lacking (V.program view.now) slot to) }
    ensures reads { let P = V.program view.now in
        OnOk result (reads.new.items ≡ reads.old.items ++ told P (lacking_asks P slot to)) }
{
    if ask_block(view, reads, to)?.is_none() {
        return Ok(false);
    }
    let cell = ask_cell(view, reads, slot)?;
    Ok(cell.is_none())
}

// Adds a reference to a slot where a block has its target and the slot has no cell.
fn fill_slot<V: View>(
    view: &V,
    reads: &mut Reads,
    changes: &mut Vec<Change>,
    at: Addr,
    slot: u8,
    reference: Option<(RefClass, Addr)>,
) -> Result<(), AllocError>
    ensures changes { let P = V.program view.now in
        OnOk result (changes.new.items ≡ changes.old.items ++ slot_changes P at slot reference) }
    ensures reads { let P = V.program view.now in
        OnOk result (reads.new.items ≡ reads.old.items ++ told P (slot_asks P at slot reference)) }
{
    let Some((class, to)) = reference else {
        return Ok(());
    };
    let key = Key {
        at,
        kind: Kind::Ref,
        sub: slot,
    };
    if is_lacking(view, reads, key, to)? {
        changes.push(addition(key, Value::Ref { to, class }))?;
    }
    Ok(())
}

fn word_before(at: Addr) -> Addr
    ensures { result ≡ word_before at }
{
    at.wrapping_sub(WORD)
}

// The upper value that the instruction before an address leaves in a register.
fn ask_upper<V: View>(
    view: &V,
    reads: &mut Reads,
    at: Addr,
    register: u8,
) -> Result<Option<Addr>, AllocError>
    ensures answer { IfOk result (λ upper. upper ≡ upper_before (V.program view.now) at register) }
    ensures reads { let P = V.program view.now in
        OnOk result (reads.new.items ≡ reads.old.items ++ told P (unit_asks (word_before at))) }
{
    let before = word_before(at);
    match ask_instruction(view, reads, before)? {
        None => Ok(None),
        Some(insn) => Ok(upper_for(register, before, &insn)),
    }
}

// Fills slot 1.
fn fill_computed<V: View>(
    view: &V,
    reads: &mut Reads,
    changes: &mut Vec<Change>,
    at: Addr,
    insn: &Insn,
) -> Result<(), AllocError>
    ensures changes { let P = V.program view.now in
        OnOk result (changes.new.items ≡ changes.old.items ++ slot_changes P at 1 (computed P at insn.now)) }
    ensures reads { let P = V.program view.now in
        OnOk result (reads.new.items ≡ reads.old.items ++ told P (computed_asks P at insn.now)) }
{
    let Some(class) = computed_class(insn.op, insn.rd) else {
        return Ok(());
    };
    let upper = ask_upper(view, reads, at, insn.rs1)?;
    fill_slot(
        view,
        reads,
        changes,
        at,
        COMPUTED_SLOT,
        computed(class, insn, upper),
    )
}

// Fills both slots of an instruction.
fn fill_slots<V: View>(
    view: &V,
    reads: &mut Reads,
    changes: &mut Vec<Change>,
    at: Addr,
    insn: &Insn,
) -> Result<(), AllocError>
    ensures changes { let P = V.program view.now in
        OnOk result (changes.new.items ≡ changes.old.items ++ instruction_changes P at (Some insn.now)) }
    ensures reads { let P = V.program view.now in
        OnOk result (reads.new.items ≡ reads.old.items ++ told P (instruction_asks P at (Some insn.now))) }
{
    fill_slot(view, reads, changes, at, TARGET_SLOT, direct(at, insn))?;
    fill_computed(view, reads, changes, at, insn)
}

// Asks the whole rule: what it reads and what it changes.
#[tactic(auto, unfolding(rvd_ask::specs::Refs::refs_rule, rvd_ask::specs::Refs::refs_asks))]
fn find_references<V: View>(
    view: &V,
    reads: &mut Reads,
    changes: &mut Vec<Change>,
    at: Addr,
) -> Result<(), AllocError>
    ensures changes { let P = V.program view.now in
        OnOk result (changes.new.items ≡ changes.old.items ++ refs_rule P at) }
    ensures reads { let P = V.program view.now in
        OnOk result (reads.new.items ≡ reads.old.items ++ told P (refs_asks P at)) }
{
    match ask_instruction(view, reads, at)? {
        None => Ok(()),
        Some(insn) => fill_slots(view, reads, changes, at, &insn),
    }
}

/// The rule of references.
pub struct RefsRule;

impl Rule for RefsRule {
    ghost use Rattle.rvd_ask.specs.declared.asks.Analyzer.TheVariants.{Refs};

    ghost analyzer = { Refs };

    /// The references that the instruction at an address lacks. Its reads hold of the view's program, and they ask
    /// what the rule asks there, in order. Only want of memory refuses it.
    fn propose<V: View>(&self, alloc: Global, view: &V, at: Addr) -> Result<Proposal, AllocError>
        ensures item { IfOk result (λ p. p.item ≡ record { analyzer = Analyzer.Refs; at = at }) }
        ensures hold { IfOk result (λ p. Hold (V.program view.now) p.reads) }
        ensures asked { IfOk result (λ p. AreAsks p.reads (asks (V.program view.now) p.item)) }
        ensures in_order { IfOk result (λ p. map (λ r. r.0) p.reads ≡ asks (V.program view.now) p.item) }
    {
        let item = Item {
            analyzer: Analyzer::Refs,
            at,
        };
        let mut reads = Vec::new(alloc);
        let mut changes = Vec::new(alloc);
        find_references(view, &mut reads, &mut changes, at)?;
        Ok(Proposal::of(item, reads, changes))
    }
}
