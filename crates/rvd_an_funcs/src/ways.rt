ghost use Rattle.std.specs.Prelude.{◌≡◌, ◌&&◌, ◌++◌, ◌∷◌, [], Some, None, IfOk, OnOk, if◌then◌else◌};
ghost use Rattle.std.specs.Option.{option_copied};
ghost use Rattle.rvd_decode.specs.Flow.{falls_through};
ghost use Rattle.rvd_fact.specs.Program.{cell_at};
ghost use Rattle.rvd_fact.specs.Memory.{has_instruction, is_code, refs_from, unit_key};
ghost use Rattle.rvd_ask.specs.Answers.{told};
ghost use Rattle.rvd_ask.specs.Body.{met_asks};
ghost use Rattle.rvd_ask.specs.Places.{cell_instruction};
ghost use Rattle.rvd_ask.specs.Reach.{inner_target, may_join, ways_of};

use crate::keys::{func_key, unit_key};
use rvd_ask::{Ask, Reads, View, ask_cell, ask_refs, is_instruction, is_present};
use rvd_decode::falls_through;
use rvd_fact::{Addr, Cell, RefClass, Value};
use std::alloc::{AllocError, Global};

// How many bytes an instruction takes.
const WORD: u32 = 4;

/// Asks for the instruction at an address.
pub fn ask_instruction<'a, V: View>(
    view: &'a V,
    reads: &mut Reads,
    at: Addr,
) -> Result<Option<&'a Cell>, AllocError>
    ensures answer { let P = V.program view.now in
        IfOk result (λ cell. option_copied cell ≡ if has_instruction P at then cell_at P (unit_key at) else None) }
    ensures reads { let P = V.program view.now in
        OnOk result (reads.new.items ≡ reads.old.items ++ told P (Ask.Cell (unit_key at) ∷ [])) }
{
    let unit = ask_cell(view, reads, unit_key(at))?;
    if is_instruction(unit) {
        Ok(unit)
    } else {
        Ok(None)
    }
}

/// Asks for an address that the walk meets. It gives the instruction there, where no function begins at it.
pub fn ask_joining<'a, V: View>(
    view: &'a V,
    reads: &mut Reads,
    at: Addr,
) -> Result<Option<&'a Cell>, AllocError>
    ensures answer { let P = V.program view.now in
        IfOk result (λ cell. option_copied cell ≡ if may_join P at then cell_at P (unit_key at) else None) }
    ensures reads { let P = V.program view.now in
        OnOk result (reads.new.items ≡ reads.old.items ++ told P (met_asks P at)) }
{
    let Some(cell) = ask_instruction(view, reads, at)? else {
        return Ok(None);
    };
    if is_present(ask_cell(view, reads, func_key(at))?) {
        return Ok(None);
    }
    Ok(Some(cell))
}

// Whether a reference stays in the function, and where it goes then.
fn inner_target(found: &(u8, RefClass, Addr)) -> Option<Addr>
    ensures { result ≡ inner_target found.now }
{
    match found.1 {
        RefClass::Jump | RefClass::Cond => Some(found.2),
        _ => None,
    }
}

fn falls(cell: &Cell) -> bool
    ensures { result ≡ (is_code cell.now.value && falls_through (cell_instruction (Some cell.now))) }
{
    match &cell.value {
        Value::Code(word) => falls_through(*word),
        _ => false,
    }
}

/// Asks for the references from an instruction, and appends where control goes on from it in its function.
pub fn add_ways<V: View>(
    alloc: Global,
    view: &V,
    reads: &mut Reads,
    ways: &mut Vec<Addr>,
    at: Addr,
    cell: &Cell,
) -> Result<(), AllocError>
    ensures ways { let P = V.program view.now in
        OnOk result (ways.new.items ≡ ways.old.items ++ ways_of at (Some cell.now) (refs_from P at)) }
    ensures reads { let P = V.program view.now in
        OnOk result (reads.new.items ≡ reads.old.items ++ told P (Ask.From at ∷ [])) }
{
    let refs = ask_refs(alloc, view, reads, at)?;
    if falls(cell) {
        ways.push(at.wrapping_add(WORD))?;
    }
    for found in refs.list() {
        if let Some(to) = inner_target(found) {
            ways.push(to)?;
        }
    }
    Ok(())
}
