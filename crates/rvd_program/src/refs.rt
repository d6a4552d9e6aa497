ghost use Rattle.std.specs.Prelude.{◌≡◌, ◌==◌, None, IfOk, if◌then◌else◌};
ghost use Rattle.rvd_fact.specs.Program.{IsInOrder};
ghost use Rattle.rvd_fact.specs.Memory.{has_ref_to, refs_from, refers, ref_of};

use crate::kept::Kept;
use crate::valid_map::Program;
use rvd_fact::{Addr, Key, Kind, RefClass, Value};
use std::alloc::{AllocError, Global};

impl Program {
    /// Whether a present reference of a class goes to an address. It takes no memory.
    pub fn has_ref_to(&self, at: Addr, class: RefClass) -> bool
        ensures { result ≡ has_ref_to self.now at class }
    {
        any_refers(self.entries(), at, class)
    }

    /// The present references from an address as slot, class and target, in slot order. Only want of memory refuses it.
    /// The first is found by a look-up, and the others stand next to it.
    pub fn refs_from(
        &self,
        alloc: Global,
        at: Addr,
    ) -> Result<Vec<(u8, RefClass, Addr)>, AllocError>
        ensures { IfOk result (λ list. list.items ≡ refs_from self.now at) }
    {
        let first = Key {
            at,
            kind: Kind::Ref,
            sub: 0,
        };
        list_refs(alloc, self.cells.entries_from(&first), at)
    }
}

fn any_refers(entries: &[(Key, Kept)], at: Addr, class: RefClass) -> bool
    ensures { result ≡ has_ref_to entries.now at class }
{
    entries
        .iter()
        .any(|entry| refers(&entry.1.cell().value, at, class))
}

// Whether a value is a reference of a class to an address.
fn refers(value: &Value, at: Addr, class: RefClass) -> bool
    ensures { result ≡ refers at class value.now }
{
    match value {
        Value::Ref { to, class: own } => *to == at && *own == class,
        _ => false,
    }
}

// The references from an address among entries in order: none comes after an entry of a later address.
fn list_refs(
    alloc: Global,
    entries: &[(Key, Kept)],
    at: Addr,
) -> Result<Vec<(u8, RefClass, Addr)>, AllocError>
    requires { IsInOrder entries.now }
    ensures { IfOk result (λ list. list.items ≡ refs_from entries.now at) }
{
    let mut list = Vec::new(alloc);
    for entry in entries {
        if entry.0.at > at {
            return Ok(list);
        }
        if let Some(found) = ref_at(&entry.0, &entry.1.cell().value, at) {
            list.push(found)?;
        }
    }
    Ok(list)
}

// A reference from an address as its slot, class and target.
fn ref_at(key: &Key, value: &Value, at: Addr) -> Option<(u8, RefClass, Addr)>
    ensures { result ≡ (if key.now.at == at then ref_of key.now.sub value.now else None) }
{
    if key.at != at {
        return None;
    }
    match value {
        Value::Ref { to, class } => Some((key.sub, *class, *to)),
        _ => None,
    }
}
