ghost use Rattle.std.specs.Prelude.{◌≡◌, true, ◌∷◌, length, slice_get, take, IfOk};
ghost use Rattle.std.specs.List.{list_all};
ghost use Rattle.rvd_ask.specs.Unsettled.{has_item};
ghost use Rattle.rvd_queue.specs.Cells.{InOrder, is_from, kept_in, queued_in};
ghost use Rattle.rvd_queue.specs.Sets.{without_analyzer};

use crate::cells::Cell;
use rvd_ask::{Analyzer, Item};
use std::alloc::{AllocError, Global};
use std::cmp::Ordering;
use std::collections::BTreeMap;

/// The number of queued items.
pub fn count_queued(cells: &BTreeMap<Item, Cell>) -> usize
    ensures { result ≡ length (queued_in cells.now.entries) }
{
    cells.values().filter(|cell| cell.queued).count()
}

/// The number of kept items.
pub fn count_kept(cells: &BTreeMap<Item, Cell>) -> usize
    ensures { result ≡ length (kept_in cells.now.entries) }
{
    cells.values().filter(|cell| cell.kept).count()
}

/// The number of queued items that aren't an analyzer's.
pub fn count_others(cells: &BTreeMap<Item, Cell>, analyzer: Analyzer) -> usize
    ensures { result ≡ length (without_analyzer analyzer (queued_in cells.now.entries)) }
{
    cells
        .iter()
        .filter(|(item, cell)| cell.queued && item.analyzer != analyzer)
        .count()
}

/// The least `n` queued items, where none before `start` is queued.
pub fn least(
    alloc: Global,
    cells: &BTreeMap<Item, Cell>,
    start: Item,
    n: usize,
) -> Result<Vec<Item>, AllocError>
    requires { list_all (is_from start) (queued_in cells.now.entries) ≡ true }
    ensures { IfOk result (λ list. list.items ≡ take n (queued_in cells.now.entries)) }
{
    cells
        .range(start..)
        .filter(|(_, cell)| cell.queued)
        .take(n)
        .map(|(item, _)| *item)
        .collect(alloc)
}

/// The first queued item, where none before `start` is queued.
pub fn first_queued(cells: &BTreeMap<Item, Cell>, start: Item) -> Option<Item>
    requires { list_all (is_from start) (queued_in cells.now.entries) ≡ true }
    ensures { result ≡ slice_get (queued_in cells.now.entries) 0 }
{
    let (item, _) = cells.range(start..).find(|(_, cell)| cell.queued)?;
    Some(*item)
}

/// The earliest of some items and `start`.
pub fn earliest(start: Item, items: &[Item]) -> Item
    ensures start { is_from result start ≡ true }
    ensures items { list_all (is_from result) items.now ≡ true }
    ensures one_of_them { has_item result (start ∷ items.now) ≡ true }
{
    let mut first = start;
    for item in items {
        if let Ordering::Less = item.order(&first) {
            first = *item;
        }
    }
    first
}
