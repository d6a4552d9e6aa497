ghost use Rattle.std.specs.Prelude.{◌≡◌, ◌∷◌, [], ◌+◌, ◌^◌, ◌≤◌, ◌++◌, IfOk, OnOk};
ghost use Rattle.std.specs.Option.{option_copied};
ghost use Rattle.rvd_fact.specs.Program.{cell_at};
ghost use Rattle.rvd_fact.specs.Memory.{block, bytes, cover, has_ref_to, refs_from};
ghost use Rattle.rvd_ask.specs.Answers.{told};
ghost use Rattle.rvd_ask.specs.Flow.{free_asks, is_free};

use crate::answers::{Answer, RefList};
use crate::asks::Ask;
use crate::views::{View, copy_of};
use rvd_fact::{Addr, Bytes, Cell, Key, RefClass};
use std::alloc::{AllocError, Global};

/// What was asked, with the answers, in order.
pub type Reads = Vec<(Ask, Answer)>;

/// Asks for the cell at a key, and keeps the answer. Only want of memory refuses it.
pub fn ask_cell<'a, V: View>(
    view: &'a V,
    reads: &mut Reads,
    key: Key,
) -> Result<Option<&'a Cell>, AllocError>
    ensures answer { IfOk result (λ cell. option_copied cell ≡ cell_at (V.program view.now) key) }
    ensures reads { let P = V.program view.now in
        OnOk result (reads.new.items ≡ reads.old.items ++ told P (Ask.Cell key ∷ [])) }
{
    let cell = view.cell(key);
    let copy = copy_of(cell)?;
    reads.push((Ask::Cell(key), Answer::Cell(copy)))?;
    Ok(cell)
}

/// Asks which present unit has a byte, and keeps the answer. Only want of memory refuses it.
pub fn ask_cover<V: View>(view: &V, reads: &mut Reads, at: Addr) -> Result<Option<Addr>, AllocError>
    ensures answer { IfOk result (λ start. start ≡ cover (V.program view.now) at) }
    ensures reads { let P = V.program view.now in
        OnOk result (reads.new.items ≡ reads.old.items ++ told P (Ask.Cover at ∷ [])) }
{
    let start = view.cover(at);
    reads.push((Ask::Cover(at), Answer::At(start)))?;
    Ok(start)
}

/// Asks which block is around a byte, and keeps the answer. Only want of memory refuses it.
pub fn ask_block<V: View>(view: &V, reads: &mut Reads, at: Addr) -> Result<Option<Addr>, AllocError>
    ensures answer { IfOk result (λ start. start ≡ block (V.program view.now) at) }
    ensures reads { let P = V.program view.now in
        OnOk result (reads.new.items ≡ reads.old.items ++ told P (Ask.Block at ∷ [])) }
{
    let start = view.block(at);
    reads.push((Ask::Block(at), Answer::At(start)))?;
    Ok(start)
}

/// Asks for the `len` bytes from an address on, and keeps the answer. Only want of memory refuses it.
pub fn ask_bytes<V: View>(
    alloc: Global,
    view: &V,
    reads: &mut Reads,
    at: Addr,
    len: u16,
) -> Result<Option<Bytes>, AllocError>
    ensures answer { IfOk result (λ found. found ≡ bytes (V.program view.now) at len) }
    ensures reads { let P = V.program view.now in
        OnOk result (reads.new.items ≡ reads.old.items ++ told P (Ask.Bytes at len ∷ [])) }
{
    let found = view.bytes(alloc, at, len)?;
    let copy = copy_bytes(&found)?;
    reads.push((Ask::Bytes(at, len), Answer::Bytes(copy)))?;
    Ok(found)
}

/// Asks whether a present reference of a class goes to an address, and keeps the answer. Only want of memory refuses it.
pub fn ask_to<V: View>(
    view: &V,
    reads: &mut Reads,
    at: Addr,
    class: RefClass,
) -> Result<bool, AllocError>
    ensures answer { IfOk result (λ yes. yes ≡ has_ref_to (V.program view.now) at class) }
    ensures reads { let P = V.program view.now in
        OnOk result (reads.new.items ≡ reads.old.items ++ told P (Ask.To at class ∷ [])) }
{
    let yes = view.has_ref_to(at, class);
    reads.push((Ask::To(at, class), Answer::Yes(yes)))?;
    Ok(yes)
}

/// Asks for the references from an address, and keeps the answer. Only want of memory refuses it.
pub fn ask_refs<V: View>(
    alloc: Global,
    view: &V,
    reads: &mut Reads,
    at: Addr,
) -> Result<RefList, AllocError>
    ensures answer { IfOk result (λ refs. refs ≡ refs_from (V.program view.now) at) }
    ensures reads { let P = V.program view.now in
        OnOk result (reads.new.items ≡ reads.old.items ++ told P (Ask.From at ∷ [])) }
{
    let refs = view.refs_from(alloc, at)?;
    let copy = refs.copy()?;
    reads.push((Ask::From(at), Answer::Refs(copy)))?;
    Ok(refs)
}

/// Asks whether no present unit has one of the `count` bytes from an address on: byte by byte, up to the first that a
/// unit has. It keeps the answers. Only want of memory refuses it.
pub fn ask_free<V: View>(
    view: &V,
    reads: &mut Reads,
    at: Addr,
    count: u32,
) -> Result<bool, AllocError>
    requires { at + count ≤ 2 ^ 32 }
    ensures answer { IfOk result (λ yes. yes ≡ is_free (V.program view.now) at count) }
    ensures reads { let P = V.program view.now in
        OnOk result (reads.new.items ≡ reads.old.items ++ told P (free_asks P at count)) }
{
    for offset in 0..count {
        let unit = ask_cover(view, reads, at + offset)?;
        if unit.is_some() {
            return Ok(false);
        }
    }
    Ok(true)
}

fn copy_bytes(bytes: &Option<Bytes>) -> Result<Option<Bytes>, AllocError>
    ensures { IfOk result (λ copy. copy ≡ bytes.now) }
{
    match bytes {
        None => Ok(None),
        Some(bytes) => Ok(Some(bytes.copy()?)),
    }
}
