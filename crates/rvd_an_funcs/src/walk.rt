ghost use Rattle.std.specs.Prelude.{◌≡◌, ℕ, not, ◌==◌, ◌||◌, ◌++◌, ◌∷◌, [], Some, IfOk, OnOk, if◌then◌else◌};
ghost use Rattle.rvd_fact.specs.Memory.{func_key, has_instruction, refs_from};
ghost use Rattle.rvd_fact.specs.Valid.{IsValid};
ghost use Rattle.rvd_ask.specs.Answers.{told};
ghost use Rattle.rvd_ask.specs.Body.{reach_asks};
ghost use Rattle.rvd_ask.specs.Reach.{has, reach, ways, ways_of};
ghost use Rattle.rvd_an_funcs.specs.Walks.{AddsBeside, entry_asks, new_asks, new_member, new_ways};

use crate::ways::{add_ways, ask_instruction, ask_joining};
use rvd_ask::{Ask, Reads, View};
use rvd_fact::{Addr, Cell};
use std::alloc::{AllocError, Global};
use std::collections::BTreeSet;

// What a walk has found so far.
#[derive(Drop)]
struct Walk {
    // The addresses that it has met: the entry, and where members lead.
    met: BTreeSet<Addr>,
    // The instructions that it has reached, as they were found.
    members: Vec<Addr>,
    // Where these lead, in the same order.
    ways: Vec<Addr>,
}

// Notes that an address is met. It tells whether it is so for the first time.
fn note(met: &mut BTreeSet<Addr>, at: Addr) -> Result<bool, AllocError>
    ensures new { IfOk result (λ new. new ≡ not (has at met.old.keys)) }
    ensures met { OnOk result ((z : ℕ) → has z met.new.keys ≡ (at == z || has z met.old.keys)) }
{
    let new = met.insert(at)?;
    Ok(new)
}

// Takes an instruction in as a member.
fn join<V: View>(
    alloc: Global,
    view: &V,
    reads: &mut Reads,
    walk: &mut Walk,
    at: Addr,
    cell: &Cell,
) -> Result<(), AllocError>
    ensures met { OnOk result (walk.new.met.keys ≡ walk.old.met.keys) }
    ensures members { OnOk result (walk.new.members.items ≡ walk.old.members.items ++ at ∷ []) }
    ensures ways { let P = V.program view.now in
        OnOk result (walk.new.ways.items ≡ walk.old.ways.items ++ ways_of at (Some cell.now) (refs_from P at)) }
    ensures reads { let P = V.program view.now in
        OnOk result (reads.new.items ≡ reads.old.items ++ told P (Ask.From at ∷ [])) }
{
    walk.members.push(at)?;
    add_ways(alloc, view, reads, &mut walk.ways, at, cell)
}

// Looks at an address that a member leads to.
fn meet<V: View>(
    alloc: Global,
    view: &V,
    reads: &mut Reads,
    walk: &mut Walk,
    at: Addr,
) -> Result<(), AllocError>
    ensures met { OnOk result ((z : ℕ) → has z walk.new.met.keys ≡ (at == z || has z walk.old.met.keys)) }
    ensures members { let P = V.program view.now in
        OnOk result (walk.new.members.items ≡ walk.old.members.items ++ new_member P walk.old.met.keys at) }
    ensures ways { let P = V.program view.now in
        OnOk result (walk.new.ways.items ≡ walk.old.ways.items ++ new_ways P walk.old.met.keys at) }
    ensures reads { let P = V.program view.now in
        OnOk result (reads.new.items ≡ reads.old.items ++ told P (new_asks P walk.old.met.keys at)) }
{
    if !note(&mut walk.met, at)? {
        return Ok(());
    }
    if let Some(cell) = ask_joining(view, reads, at)? {
        join(alloc, view, reads, walk, at, cell)?;
    }
    Ok(())
}

// The walk with its entry, where an instruction is there.
fn begin<V: View>(
    alloc: Global,
    view: &V,
    reads: &mut Reads,
    entry: Addr,
) -> Result<Walk, AllocError>
    ensures met { IfOk result (λ walk. (z : ℕ) → has z walk.met.keys ≡ (entry == z)) }
    ensures members { let P = V.program view.now in
        IfOk result (λ walk. walk.members.items ≡ if has_instruction P entry then entry ∷ [] else []) }
    ensures ways { let P = V.program view.now in
        IfOk result (λ walk. walk.ways.items ≡ if has_instruction P entry then ways P entry else []) }
    ensures reads { let P = V.program view.now in
        OnOk result (reads.new.items ≡ reads.old.items ++ told P (entry_asks P entry)) }
{
    let mut walk = Walk {
        met: BTreeSet::new(alloc),
        members: Vec::new(alloc),
        ways: Vec::new(alloc),
    };
    note(&mut walk.met, entry)?;
    if let Some(cell) = ask_instruction(view, reads, entry)? {
        join(alloc, view, reads, &mut walk, entry, cell)?;
    }
    Ok(walk)
}

/// The members of the reach of an entry, in order.
pub fn reach_of<V: View>(
    alloc: Global,
    view: &V,
    reads: &mut Reads,
    entry: Addr,
) -> Result<Vec<Addr>, AllocError>
    requires { IsValid (V.program view.now) }
    ensures members { IfOk result (λ members. members.items ≡ reach (V.program view.now) entry) }
    ensures reads { let P = V.program view.now in
        OnOk result (AddsBeside P (Ask.Cell (func_key entry)) reads.old.items reads.new.items (reach_asks P entry)) }
{
    let mut walk = begin(alloc, view, reads, entry)?;
    let mut next = 0;
    while next < walk.ways.len() {
        let way = walk.ways[next];
        meet(alloc, view, reads, &mut walk, way)?;
        next += 1;
    }
    let Walk {
        met: _,
        mut members,
        ways: _,
    } = walk;
    members.sort_unstable();
    Ok(members)
}
