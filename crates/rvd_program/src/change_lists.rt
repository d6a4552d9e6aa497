ghost use Rattle.std.specs.Prelude.{◌≡◌, OnOk, OnErr};
ghost use Rattle.rvd_fact.specs.Program.{placed, applied_all, reverted_all};
ghost use Rattle.rvd_fact.specs.Valid.{IsValid, Fits, Reverts};

use crate::kept::put_in;
use crate::valid_map::Program;
use rvd_fact::{Cell, Change, Key};
use std::alloc::AllocError;

impl Program {
    /// Applies changes that fit, in order. Only want of memory refuses it, and then the program is as before.
    pub fn apply(&mut self, changes: &[Change]) -> Result<(), AllocError>
        requires { Fits self.old changes.now }
        ensures ok { OnOk result (self.new ≡ applied_all self.old changes.now) }
        ensures err { OnErr result (self.new ≡ self.old) }
    {
        if let [change] = changes {
            return self.put(&change.key, &change.after);
        }
        let mut next = self.cells.copy()?;
        for change in changes {
            put_in(&mut next, &change.key, &change.after)?;
        }
        self.cells = next;
        Ok(())
    }

    /// Undoes applied changes from the last to the first. Only want of memory refuses it, and then the program is as
    /// before.
    pub fn revert(&mut self, changes: &[Change]) -> Result<(), AllocError>
        requires { Reverts self.old changes.now }
        ensures ok { OnOk result (self.new ≡ reverted_all self.old changes.now) }
        ensures err { OnErr result (self.new ≡ self.old) }
    {
        if let [change] = changes {
            return self.put(&change.key, &change.before);
        }
        let mut next = self.cells.copy()?;
        let mut left = changes.len();
        while left > 0 {
            let change = &changes[left - 1];
            put_in(&mut next, &change.key, &change.before)?;
            left -= 1;
        }
        self.cells = next;
        Ok(())
    }

    // Puts this at a key, a cell or none. A single change needs no copy of the program.
    fn put(&mut self, key: &Key, cell: &Option<Cell>) -> Result<(), AllocError>
        requires { IsValid (placed self.old key.now cell.now) }
        ensures ok { OnOk result (self.new ≡ placed self.old key.now cell.now) }
        ensures err { OnErr result (self.new ≡ self.old) }
    {
        put_in(&mut self.cells, key, cell)?;
        Ok(())
    }
}
