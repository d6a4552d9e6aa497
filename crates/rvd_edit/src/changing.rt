ghost use Rattle.std.specs.Prelude.{◌≡◌, Some, [], ◌∷◌, ◌++◌, IfOk, OnOk};
ghost use Rattle.std.specs.Option.{option_copied};
ghost use Rattle.rvd_fact.specs.Memory.{has_instruction};
ghost use Rattle.rvd_edit.specs.Changes.{dropped, further, further_of_code, further_of_unit, further_refs, is_found, left_behind, of_analyst, removed, set};

use crate::slots::{SLOTS, slot_key};
use rvd_fact::{Addr, Cell, Change, Key, Kind, Source, Value};
use rvd_program::Program;
use std::alloc::{AllocError, Global};

fn copy_cell(cell: Option<&Cell>) -> Result<Option<Cell>, AllocError>
    ensures { IfOk result (λ copy. copy ≡ option_copied cell.entry) }
{
    match cell {
        None => Ok(None),
        Some(cell) => Ok(Some(cell.copy()?)),
    }
}

fn by_analyst(value: Value) -> Option<Cell>
    ensures { result ≡ Some (of_analyst value) }
{
    Some(Cell {
        value,
        source: Source::UserDefined,
    })
}

/// The change that puts a fact of an analyst at a key, whatever stood there.
pub fn set(program: &Program, key: Key, value: Value) -> Result<Change, AllocError>
    ensures { IfOk result (λ change. change ≡ set program.now key value) }
{
    let before = copy_cell(program.cell(key))?;
    Ok(Change {
        key,
        before,
        after: by_analyst(value),
    })
}

/// The change after which no cell stands at a key.
pub fn dropped(program: &Program, key: Key) -> Result<Change, AllocError>
    ensures { IfOk result (λ change. change ≡ dropped program.now key) }
{
    let before = copy_cell(program.cell(key))?;
    Ok(Change {
        key,
        before,
        after: None,
    })
}

// What the fact at a key leaves behind when an analyst removes it: Gone, unless an analyst made it.
fn left_behind(cell: &Option<Cell>) -> Option<Cell>
    ensures { result ≡ left_behind cell.now }
{
    match cell {
        None => None,
        Some(cell) => match cell.source {
            Source::UserDefined => None,
            _ => by_analyst(Value::Gone),
        },
    }
}

/// The change by which an analyst removes the fact at a key.
pub fn removed(program: &Program, key: Key) -> Result<Change, AllocError>
    ensures { IfOk result (λ change. change ≡ removed program.now key) }
{
    let before = copy_cell(program.cell(key))?;
    let after = left_behind(&before);
    Ok(Change { key, before, after })
}

/// A list of one change.
pub fn just(alloc: Global, change: Change) -> Result<Vec<Change>, AllocError>
    ensures { IfOk result (λ list. list.items ≡ change ∷ []) }
{
    let mut list = Vec::new(alloc);
    list.push(change)?;
    Ok(list)
}

fn is_found(cell: Option<&Cell>) -> bool
    ensures { result ≡ is_found (option_copied cell.entry) }
{
    match cell {
        None => false,
        Some(cell) => matches!(cell.source, Source::Analysis),
    }
}

/// Appends the change by which goes what analysis made at a key.
pub fn push_further(
    changes: &mut Vec<Change>,
    program: &Program,
    key: Key,
) -> Result<(), AllocError>
    ensures { OnOk result (changes.new.items ≡ changes.old.items ++ further program.now key) }
{
    if is_found(program.cell(key)) {
        changes.push(dropped(program, key)?)?;
    }
    Ok(())
}

// Appends the changes by which go the references that analysis made from an address, in slot order.
fn push_further_refs(
    changes: &mut Vec<Change>,
    program: &Program,
    at: Addr,
) -> Result<(), AllocError>
    ensures { OnOk result (changes.new.items ≡ changes.old.items ++ further_refs program.now at 64) }
{
    for slot in 0..SLOTS {
        push_further(changes, program, slot_key(Kind::Ref, at, slot))?;
    }
    Ok(())
}

/// Appends the changes by which goes what analysis made of an instruction.
pub fn push_further_of_code(
    changes: &mut Vec<Change>,
    program: &Program,
    at: Addr,
) -> Result<(), AllocError>
    ensures { OnOk result (changes.new.items ≡ changes.old.items ++ further_of_code program.now at) }
{
    push_further_refs(changes, program, at)?;
    push_further(changes, program, slot_key(Kind::Ref, at.wrapping_add(4), 1))
}

fn has_instruction(program: &Program, at: Addr) -> bool
    ensures { result ≡ has_instruction program.now at }
{
    match program.cell(slot_key(Kind::Unit, at, 0)) {
        None => false,
        Some(cell) => matches!(cell.value, Value::Code(_)),
    }
}

/// Appends the changes by which goes what analysis made of a unit.
pub fn push_further_of_unit(
    changes: &mut Vec<Change>,
    program: &Program,
    at: Addr,
) -> Result<(), AllocError>
    ensures { OnOk result (changes.new.items ≡ changes.old.items ++ further_of_unit program.now at) }
{
    if has_instruction(program, at) {
        push_further_of_code(changes, program, at)?;
    }
    Ok(())
}
