ghost use Rattle.std.specs.Prelude.{◌≡◌, IfOk};

use crate::keys::Key;
use crate::values::{Source, Value};
use std::alloc::AllocError;

/// A fact and where it came from.
#[derive(Debug, Drop)]
pub struct Cell {
    /// The fact.
    pub value: Value,
    /// Where it came from.
    pub source: Source,
}

/// What becomes of one key: its cell before and after, `None` where it has none.
#[derive(Debug, Drop)]
pub struct Change {
    /// The key.
    pub key: Key,
    /// The cell before.
    pub before: Option<Cell>,
    /// The cell after.
    pub after: Option<Cell>,
}

impl Cell {
    /// An equal cell.
    pub fn copy(&self) -> Result<Cell, AllocError>
        ensures { IfOk result (λ copy. copy ≡ self.now) }
    {
        let value = self.value.copy()?;
        Ok(Cell {
            value,
            source: self.source,
        })
    }
}

fn copy_option(cell: &Option<Cell>) -> Result<Option<Cell>, AllocError>
    ensures { IfOk result (λ copy. copy ≡ cell.now) }
{
    match cell {
        None => Ok(None),
        Some(cell) => Ok(Some(cell.copy()?)),
    }
}

impl Change {
    /// An equal change.
    pub fn copy(&self) -> Result<Change, AllocError>
        ensures { IfOk result (λ copy. copy ≡ self.now) }
    {
        let before = copy_option(&self.before)?;
        let after = copy_option(&self.after)?;
        Ok(Change {
            key: self.key,
            before,
            after,
        })
    }
}

#[cfg(test)]
mod tests {
    use super::*;
    use crate::{Bytes, RangeSet, Text};

    fn crosses_threads<T: Send + Sync>() {}

    #[test]
    fn facts_may_cross_threads() {
        crosses_threads::<Text>();
        crosses_threads::<Bytes>();
        crosses_threads::<RangeSet>();
        crosses_threads::<Value>();
        crosses_threads::<Cell>();
        crosses_threads::<Change>();
    }
}
