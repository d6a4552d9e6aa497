ghost use Rattle.std.specs.Prelude.{◌≡◌, ◌↔◌, IsTrue, IfOk};
ghost use Rattle.rvd_fact.specs.Program.{cell_at, applied};
ghost use Rattle.rvd_fact.specs.Valid.{Fits, IsValid};

use crate::checks::stays_valid;
use crate::kept::{Kept, cell_in, put_in};
use crate::same::same_cells;
use crate::valid_map::Program;
use rvd_fact::{Change, Key};
use rvd_table::Table;
use std::alloc::AllocError;

impl Program {
    /// Whether changes fit: each finds the cell that it says at its turn, and leaves a valid program. Only want of memory
    /// refuses it.
    pub fn fits(&self, changes: &[Change]) -> Result<bool, AllocError>
        ensures { IfOk result (λ answer. IsTrue answer ↔ Fits self.now changes.now) }
    {
        let mut next = self.cells.copy()?;
        for change in changes {
            if !fits_next(&mut next, change)? {
                return Ok(false);
            }
        }
        Ok(true)
    }
}

// Whether one change fits a valid program's cells, which have it applied where it does.
fn fits_next(cells: &mut Table<Key, Kept>, change: &Change) -> Result<bool, AllocError>
    requires { IsValid cells.old }
    ensures answer { IfOk result (λ answer. IsTrue answer ↔ ((cell_at cells.old change.now.key ≡ change.now.before) × IsValid (applied cells.old change.now))) }
    ensures applied { IfOk result (λ answer. IsTrue answer → cells.new ≡ applied cells.old change.now) }
{
    if !same_cells(cell_in(cells, &change.key), &change.before) {
        return Ok(false);
    }
    put_in(cells, &change.key, &change.after)?;
    Ok(stays_valid(cells.entries(), change.key, &change.after))
}
