ghost use Rattle.std.specs.Prelude.{◌≡◌, ◌<◌, ◌^◌, ◌++◌, map, IfOk, OnOk};
ghost use Rattle.std.specs.List.{All};
ghost use Rattle.rvd_ask.specs.Wake.{item};
ghost use Rattle.rvd_wake.specs.Walks.{Orders};

use rvd_ask::{Analyzer, Item};
use rvd_fact::Addr;
use std::alloc::{AllocError, Global};
use std::collections::BTreeSet;

/// Adds an analyzer's items at some places.
pub fn add_items(
    items: &mut Vec<Item>,
    analyzer: Analyzer,
    places: &[Addr],
) -> Result<(), AllocError>
    ensures items { OnOk result (items.new.items ≡ items.old.items ++ map (item analyzer) places.now) }
    ensures addresses { All (λ at. at < 2 ^ 32) places.now }
{
    for at in places {
        items.push(Item { analyzer, at: *at })?;
    }
    Ok(())
}

/// These items by priority and address, each once.
pub fn ordered(alloc: Global, items: Vec<Item>) -> Result<Vec<Item>, AllocError>
    ensures { IfOk result (λ list. Orders items.items list.items) }
{
    let set: BTreeSet<Item> = items.into_iter().collect(alloc)?;
    set.into_iter().collect(alloc)
}
