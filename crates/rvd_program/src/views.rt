use crate::valid_map::Program;
use rvd_ask::{RefList, View};
use rvd_fact::{Addr, Bytes, Cell, Key, RefClass};
use std::alloc::{AllocError, Global};

/// A program as a view of itself.
impl View for Program {
    ghost program = { λ program. program };

    fn cell(&self, key: Key) -> Option<&Cell> {
        Program::cell(self, key)
    }

    fn cover(&self, at: Addr) -> Option<Addr> {
        Program::cover(self, at)
    }

    fn block(&self, at: Addr) -> Option<Addr> {
        Program::block(self, at)
    }

    fn bytes(&self, alloc: Global, at: Addr, len: u16) -> Result<Option<Bytes>, AllocError> {
        Program::bytes(self, alloc, at, len)
    }

    fn has_ref_to(&self, at: Addr, class: RefClass) -> bool {
        Program::has_ref_to(self, at, class)
    }

    fn refs_from(&self, alloc: Global, at: Addr) -> Result<RefList, AllocError> {
        let refs = Program::refs_from(self, alloc, at)?;
        RefList::of(alloc, refs)
    }
}
