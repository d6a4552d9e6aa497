ghost use Rattle.std.specs.Prelude.{◌≡◌, [], length};
ghost use Rattle.rvd_queue.specs.Cells.{InOrder, contents_of, queued_in, kept_in};
ghost use Rattle.rvd_queue.specs.Sets.{with_all, without_analyzer};

use crate::cells::Cell;
use rvd_ask::{Analyzer, Item};
use std::collections::BTreeMap;

/// Keeps just the queued items.
pub fn keep_queued(cells: &mut BTreeMap<Item, Cell>)
    requires { InOrder cells.old.entries }
    ensures order { InOrder cells.new.entries }
    ensures contents { contents_of cells.new.entries ≡ record { queued = queued_in cells.old.entries; kept = queued_in cells.old.entries } }
{
    cells.retain(|_, cell| {
        cell.kept = cell.queued;
        cell.queued
    });
}

/// Queues the kept items too, and gives the number of all that are queued.
pub fn restore(cells: &mut BTreeMap<Item, Cell>) -> usize
    requires { InOrder cells.old.entries }
    ensures order { InOrder cells.new.entries }
    ensures contents { contents_of cells.new.entries ≡ record { queued = with_all (kept_in cells.old.entries) (queued_in cells.old.entries); kept = kept_in cells.old.entries } }
    ensures count { result ≡ length (queued_in cells.new.entries) }
{
    cells.retain(|_, cell| {
        cell.queued = cell.queued || cell.kept;
        cell.queued
    });
    cells.len()
}

/// Keeps no item any more.
pub fn forget(cells: &mut BTreeMap<Item, Cell>)
    requires { InOrder cells.old.entries }
    ensures order { InOrder cells.new.entries }
    ensures contents { contents_of cells.new.entries ≡ record { queued = queued_in cells.old.entries; kept = [] } }
{
    cells.retain(|_, cell| {
        cell.kept = false;
        cell.queued
    });
}

/// Takes the items of an analyzer out of both sets.
pub fn remove_analyzer(cells: &mut BTreeMap<Item, Cell>, analyzer: Analyzer)
    requires { InOrder cells.old.entries }
    ensures order { InOrder cells.new.entries }
    ensures contents { contents_of cells.new.entries ≡ record { queued = without_analyzer analyzer (queued_in cells.old.entries); kept = without_analyzer analyzer (kept_in cells.old.entries) } }
{
    cells.retain(|item, _| item.analyzer != analyzer);
}
