ghost use Rattle.std.specs.Prelude.{◌≡◌};
ghost use Rattle.std.specs.Option.{option_copied};
ghost use Rattle.rvd_fact.specs.Program.{is_present};
ghost use Rattle.rvd_fact.specs.Memory.{is_instruction};
ghost use Rattle.rvd_ask.specs.Places.{addition};

use rvd_fact::{Cell, Change, Key, Source, Value};

/// Whether a fact is present: its cell is there, and isn't Gone.
pub fn is_present(cell: Option<&Cell>) -> bool
    ensures { result ≡ is_present (option_copied cell.entry) }
{
    match cell {
        None => false,
        Some(cell) => !matches!(&cell.value, Value::Gone),
    }
}

/// Whether a cell is an instruction.
pub fn is_instruction(cell: Option<&Cell>) -> bool
    ensures { result ≡ is_instruction (option_copied cell.entry) }
{
    match cell {
        None => false,
        Some(cell) => matches!(&cell.value, Value::Code(_)),
    }
}

/// An analyzer's new fact at a key that has no cell.
pub fn addition(key: Key, value: Value) -> Change
    ensures { result ≡ addition key value }
{
    Change {
        key,
        before: None,
        after: Some(Cell {
            value,
            source: Source::Analysis,
        }),
    }
}
