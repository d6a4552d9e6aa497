ghost use Rattle.std.specs.Prelude.{◌≡◌, IfOk};
ghost use Rattle.std.specs.Option.{option_copied};
ghost use Rattle.rvd_fact.specs.Program.{Program, cell_at};
ghost use Rattle.rvd_fact.specs.Memory.{block, bytes, cover, has_ref_to, refs_from};
ghost use Rattle.rvd_fact.specs.Valid.{IsValid};
ghost use Rattle.rvd_ask.specs.Answers.{ans};

use crate::answers::{Answer, RefList};
use crate::asks::Ask;
use rvd_fact::{Addr, Bytes, Cell, Key, RefClass};
use std::alloc::{AllocError, Global};

/// What can be asked. A view stands for one valid program, and each of its calls answers of that program.
pub trait View {
    /// The program.
    ghost program: { Self → Program };

    /// The cell at a key, or None where there is none. It takes no memory.
    fn cell(&self, key: Key) -> Option<&Cell>
        ensures valid { IsValid (program self.now) }
        ensures cell { option_copied result ≡ cell_at (program self.now) key };

    /// The start of the present unit that has the byte at an address, or None where none has it. It takes no memory.
    fn cover(&self, at: Addr) -> Option<Addr>
        ensures { result ≡ cover (program self.now) at };

    /// The start of the block around an address, or None where there is none. It takes no memory.
    fn block(&self, at: Addr) -> Option<Addr>
        ensures { result ≡ block (program self.now) at };

    /// The `len` bytes from an address on, or None where `len` is 0 or they don't lie in one initialised block. Only
    /// want of memory refuses it.
    fn bytes(&self, alloc: Global, at: Addr, len: u16) -> Result<Option<Bytes>, AllocError>
        ensures { IfOk result (λ answer. answer ≡ bytes (program self.now) at len) };

    /// Whether a present reference of a class goes to an address. It takes no memory.
    fn has_ref_to(&self, at: Addr, class: RefClass) -> bool
        ensures { result ≡ has_ref_to (program self.now) at class };

    /// The present references from an address as slot, class and target, in slot order. Only want of memory refuses it.
    fn refs_from(&self, alloc: Global, at: Addr) -> Result<RefList, AllocError>
        ensures { IfOk result (λ refs. refs ≡ refs_from (program self.now) at) };
}

/// The answer of a view's program to an ask. Only want of memory refuses it.
pub fn answer_to<V: View>(alloc: Global, view: &V, ask: &Ask) -> Result<Answer, AllocError>
    ensures { IfOk result (λ answer. answer ≡ ans (V.program view.now) ask.now) }
{
    match ask {
        Ask::Cell(key) => Ok(Answer::Cell(copy_of(view.cell(*key))?)),
        Ask::Cover(at) => Ok(Answer::At(view.cover(*at))),
        Ask::Block(at) => Ok(Answer::At(view.block(*at))),
        Ask::Bytes(at, len) => Ok(Answer::Bytes(view.bytes(alloc, *at, *len)?)),
        Ask::To(at, class) => Ok(Answer::Yes(view.has_ref_to(*at, *class))),
        Ask::From(at) => Ok(Answer::Refs(view.refs_from(alloc, *at)?)),
    }
}

pub(crate) fn copy_of(cell: Option<&Cell>) -> Result<Option<Cell>, AllocError>
    ensures { IfOk result (λ copy. copy ≡ option_copied cell.entry) }
{
    match cell {
        None => Ok(None),
        Some(cell) => Ok(Some(cell.copy()?)),
    }
}
