ghost use Rattle.std.specs.Prelude.{◌≡◌, IfOk};
ghost use Rattle.rvd_ask.specs.Wake.{body_with};
ghost use Rattle.rvd_listing.specs.Lookups.{begins_above, function_of, next_unit, xref_of, xrefs_to};

use crate::units::is_gone;
use rvd_fact::{Addr, Cell, Key, Kind, RefClass, Value};
use rvd_program::Program;
use std::alloc::{AllocError, Global};

// Whether an entry is a present unit that begins above an address.
fn begins_above(key: &Key, cell: &Cell, at: Addr) -> bool
    ensures { result ≡ begins_above at (key.now, cell.now) }
{
    at < key.at && matches!(key.kind, Kind::Unit) && !is_gone(cell)
}

/// The first present unit that begins above an address, or `None` exactly where none does. It takes no memory.
pub fn next_unit(program: &Program, at: Addr) -> Option<Addr>
    ensures { result ≡ next_unit program.now at }
{
    program
        .entries()
        .iter()
        .find(|entry| begins_above(&entry.0, entry.1.cell(), at))
        .map(|entry| entry.0.at)
}

// Whether a value is a body that has an address.
fn has_address(value: &Value, at: Addr) -> bool
    ensures { result ≡ body_with at value.now }
{
    match value {
        Value::Body(ranges) => ranges.contains(at),
        _ => false,
    }
}

/// The entries of the functions whose present body has an address, in rising order.
pub fn function_of(alloc: Global, program: &Program, at: Addr) -> Result<Vec<Addr>, AllocError>
    ensures { IfOk result (λ entries. entries.items ≡ function_of program.now at) }
{
    program
        .entries()
        .iter()
        .filter(|entry| has_address(&entry.1.cell().value, at))
        .map(|entry| entry.0.at)
        .collect(alloc)
}

// A reference to an address as its place, slot and class.
fn xref_of(key: &Key, value: &Value, at: Addr) -> Option<(Addr, u8, RefClass)>
    ensures { result ≡ xref_of at key.now value.now }
{
    match value {
        Value::Ref { to, class } if *to == at => Some((key.at, key.sub, *class)),
        _ => None,
    }
}

/// The present references to an address, each as its place, slot and class, by place and slot.
pub fn xrefs_to(
    alloc: Global,
    program: &Program,
    at: Addr,
) -> Result<Vec<(Addr, u8, RefClass)>, AllocError>
    ensures { IfOk result (λ xrefs. xrefs.items ≡ xrefs_to program.now at) }
{
    program
        .entries()
        .iter()
        .filter_map(|entry| xref_of(&entry.0, &entry.1.cell().value, at))
        .collect(alloc)
}
