ghost use Rattle.std.specs.Prelude.{◌≡◌, [], IfOk};
ghost use Rattle.std.specs.Option.{option_map, option_copied};
ghost use Rattle.rvd_fact.specs.Program.{cell_at};
ghost use Rattle.rvd_fact.specs.Valid.{IsValid};
ghost use Rattle.rvd_program.specs.Lookup.{next_entry};

use crate::kept::{Kept, cell_in};
use rvd_fact::{Cell, Key};
use rvd_table::Table;
use std::alloc::{AllocError, Global};
use std::marker::Model;

/// A valid program. Contracts see it as the list of its entries, key and cell, in the order of the keys.
#[derive(Drop)]
pub struct Program {
    pub(crate) cells: Table<Key, Kept>,
}

impl Model for Program {
    ghost use Rattle.std.specs.Prelude.{List};
    ghost use Rattle.rvd_fact.specs.declared.keys.Key.{Key};
    ghost use Rattle.rvd_fact.specs.declared.cells.Cell.{Cell};
    ghost use Rattle.rvd_fact.specs.Valid.{IsValid};

    ghost Value = { List (Key × Cell) };

    ghost view = { λ p. p.cells };

    ghost invariant = { λ p. IsValid p.cells };
}

impl Program {
    /// The program without cells. Only want of memory refuses it.
    pub fn empty(alloc: Global) -> Result<Program, AllocError>
        ensures { IfOk result (λ program. program ≡ []) }
    {
        let cells = Table::new(alloc)?;
        Ok(Program { cells })
    }

    /// The cell at a key, or None where the program has none there. It takes no memory.
    pub fn cell(&self, key: Key) -> Option<&Cell>
        ensures valid { IsValid self.now }
        ensures cell { option_copied result ≡ cell_at self.now key }
    {
        cell_in(&self.cells, &key)
    }

    /// The least key that isn't below `from`, with its cell, or None where each key is below. It takes no memory.
    pub fn next_cell(&self, from: Key) -> Option<(Key, &Cell)>
        ensures valid { IsValid self.now }
        ensures next { option_map (λ e. (e.0, e.1.now)) result ≡ next_entry self.now from }
    {
        match self.cells.next_at_or_after(&from) {
            None => None,
            Some((key, kept)) => Some((*key, kept.cell())),
        }
    }

    /// An equal program, at once: the two share their cells until one of them changes, which then copies them. Only want of
    /// memory refuses it.
    pub fn copy(&self) -> Result<Program, AllocError>
        ensures { IfOk result (λ copy. copy ≡ self.now) }
    {
        let cells = self.cells.copy()?;
        Ok(Program { cells })
    }

    /// The entries, key and cell, in the order of the keys.
    pub fn entries(&self) -> &[(Key, Kept)]
        ensures entries { result.now ≡ self.now }
        ensures valid { IsValid self.now }
    {
        self.cells.entries()
    }
}
