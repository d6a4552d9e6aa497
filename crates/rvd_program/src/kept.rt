ghost use Rattle.std.specs.Prelude.{◌≡◌, OnOk, OnErr};
ghost use Rattle.std.specs.Option.{option_copied};
ghost use Rattle.rvd_fact.specs.Program.{cell_at, placed};

use rvd_fact::{Cell, Key};
use rvd_table::{Copied, Table};
use std::alloc::AllocError;
use std::marker::Model;

/// A cell as a value of a table.
#[derive(Drop)]
pub struct Kept {
    cell: Cell,
}

impl Model for Kept {
    ghost use Rattle.rvd_fact.specs.declared.cells.Cell.{Cell};

    ghost Value = { Cell };

    ghost view = { λ k. k.cell };
}

impl Copied for Kept {
    fn copied(&self) -> Result<Kept, AllocError> {
        let cell = self.cell.copy()?;
        Ok(Kept { cell })
    }
}

impl Kept {
    /// The cell.
    pub fn cell(&self) -> &Cell
        ensures { result.now ≡ self.now }
    {
        &self.cell
    }
}

/// The cell of a table at a key.
pub fn cell_in<'a>(cells: &'a Table<Key, Kept>, key: &Key) -> Option<&'a Cell>
    ensures { option_copied result ≡ cell_at cells.now key.now }
{
    match cells.get(key) {
        None => None,
        Some(kept) => Some(kept.cell()),
    }
}

/// Puts this at a key of a table, a cell or none. On want of memory the table is as before.
pub fn put_in(
    cells: &mut Table<Key, Kept>,
    key: &Key,
    cell: &Option<Cell>,
) -> Result<(), AllocError>
    ensures ok { OnOk result (cells.new ≡ placed cells.old key.now cell.now) }
    ensures err { OnErr result (cells.new ≡ cells.old) }
{
    match cell {
        None => {
            let _ = cells.unset(key)?;
            Ok(())
        }
        Some(cell) => {
            let cell = cell.copy()?;
            let _ = cells.set(*key, Kept { cell })?;
            Ok(())
        }
    }
}
