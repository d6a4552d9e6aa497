ghost use Rattle.std.specs.Prelude.{◌≡◌, IfOk};

use crate::asks::Item;
use std::alloc::{AllocError, Global};
use std::marker::Model;

/// A list of items.
#[derive(Debug, Drop)]
pub struct Items {
    items: Vec<Item>,
}

impl Model for Items {
    ghost use Rattle.std.specs.Prelude.{List};
    ghost use Rattle.rvd_ask.specs.declared.asks.Item.{Item};

    ghost Value = { List Item };

    ghost view = { λ list. list.items.items };
}

impl Items {
    /// These items.
    pub fn of(_alloc: Global, list: Vec<Item>) -> Result<Items, AllocError>
        ensures { IfOk result (λ items. items ≡ list.items) }
    {
        Ok(Items { items: list })
    }

    /// The items in order.
    pub fn list(&self) -> &[Item]
        ensures { result.now ≡ self.now }
    {
        self.items.as_slice()
    }

    /// An equal list.
    pub fn copy(&self) -> Result<Items, AllocError>
        ensures { IfOk result (λ copy. copy ≡ self.now) }
    {
        let items = self.items.clone()?;
        Ok(Items { items })
    }
}
