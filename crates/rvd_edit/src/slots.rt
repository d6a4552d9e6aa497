ghost use Rattle.std.specs.Prelude.{◌≡◌, ◌-◌, ◌≤◌, ◌<◌, not, is_some};
ghost use Rattle.std.specs.Str.{bytes_eq};
ghost use Rattle.std.specs.Option.{option_copied};
ghost use Rattle.rvd_fact.specs.declared.keys.Kind.TheVariants as kind;
ghost use Rattle.rvd_fact.specs.Program.{cell_at};
ghost use Rattle.rvd_edit.specs.Slots.{free_slot, has_name, has_target, slot_key, slot_with};
ghost use Rattle.rvd_edit.specs.Edits.{no_slot_has, slot_or_full};

use rvd_event::EditRefusal;
use rvd_fact::{Addr, Cell, Key, Kind, RefClass, Text, Value};
use rvd_program::Program;

/// How many slots an address has, for names and for references.
pub const SLOTS: u8 = 64;

/// The lowest slot for references that is an analyst's.
pub const FIRST_ANALYST_SLOT: u8 = 2;

/// The key of a slot.
pub fn slot_key(kind: Kind, at: Addr, slot: u8) -> Key
    ensures { result ≡ slot_key kind at slot }
{
    Key {
        at,
        kind,
        sub: slot,
    }
}

fn same_bytes(a: &[u8], b: &[u8]) -> bool
    ensures { result ≡ bytes_eq a.now b.now }
{
    a == b
}

// Whether what stands at a key is this name.
fn has_name(cell: Option<&Cell>, name: &Text) -> bool
    ensures { result ≡ has_name name.now (option_copied cell.entry) }
{
    match cell {
        None => false,
        Some(cell) => match &cell.value {
            Value::Symbol(own) => same_bytes(own.list(), name.list()),
            _ => false,
        },
    }
}

// Whether what stands at a key is a reference of this class to an address.
fn has_target(cell: Option<&Cell>, to: Addr, class: RefClass) -> bool
    ensures { result ≡ has_target to class (option_copied cell.entry) }
{
    match cell {
        None => false,
        Some(cell) => match &cell.value {
            Value::Ref {
                to: own,
                class: own_class,
            } => *own == to && *own_class == class,
            _ => false,
        },
    }
}

// The lowest slot of an address with this name.
fn slot_with_name(program: &Program, at: Addr, name: &Text) -> Option<u8>
    ensures { result ≡ slot_with program.now kind.Symbol at (has_name name.now) }
{
    for slot in 0..SLOTS {
        if has_name(program.cell(slot_key(Kind::Symbol, at, slot)), name) {
            return Some(slot);
        }
    }
    None
}

// The lowest slot of an address with a reference of this class to an address.
fn slot_with_target(program: &Program, at: Addr, to: Addr, class: RefClass) -> Option<u8>
    ensures { result ≡ slot_with program.now kind.Ref at (has_target to class) }
{
    for slot in 0..SLOTS {
        if has_target(program.cell(slot_key(Kind::Ref, at, slot)), to, class) {
            return Some(slot);
        }
    }
    None
}

/// Refuses a name that stands at an address already.
pub fn check_no_name(program: &Program, at: Addr, name: &Text) -> Result<(), EditRefusal>
    ensures { result ≡ no_slot_has kind.Symbol at (slot_with program.now kind.Symbol at (has_name name.now)) }
{
    match slot_with_name(program, at, name) {
        None => Ok(()),
        Some(slot) => Err(EditRefusal::Present(slot_key(Kind::Symbol, at, slot))),
    }
}

/// Refuses a reference that stands at an address already.
pub fn check_no_target(
    program: &Program,
    at: Addr,
    to: Addr,
    class: RefClass,
) -> Result<(), EditRefusal>
    ensures { result ≡ no_slot_has kind.Ref at (slot_with program.now kind.Ref at (has_target to class)) }
{
    match slot_with_target(program, at, to, class) {
        None => Ok(()),
        Some(slot) => Err(EditRefusal::Present(slot_key(Kind::Ref, at, slot))),
    }
}

fn is_free(program: &Program, key: Key) -> bool
    ensures { result ≡ not (is_some (cell_at program.now key)) }
{
    match program.cell(key) {
        None => true,
        Some(_) => false,
    }
}

// The lowest slot of a kind from `low` on, below the last, that has no cell.
fn free_slot(program: &Program, kind: Kind, at: Addr, low: u8) -> Option<u8>
    requires { low ≤ 64 }
    ensures { result ≡ free_slot program.now kind at low (64 - low) }
{
    for slot in low..SLOTS {
        if is_free(program, slot_key(kind, at, slot)) {
            return Some(slot);
        }
    }
    None
}

/// The lowest slot of a kind from `low` on that has no cell; an address without one is refused.
pub fn find_free_slot(program: &Program, kind: Kind, at: Addr, low: u8) -> Result<u8, EditRefusal>
    requires { low ≤ 64 }
    ensures { result ≡ slot_or_full at (free_slot program.now kind at low (64 - low)) }
{
    match free_slot(program, kind, at, low) {
        None => Err(EditRefusal::SlotsFull(at)),
        Some(slot) => Ok(slot),
    }
}
