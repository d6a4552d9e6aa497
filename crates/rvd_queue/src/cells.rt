ghost use Rattle.std.specs.Prelude.{◌≡◌, ◌+◌, ◌^◌, ◌<◌, true, [], ◌∷◌, length, if◌then◌else◌, OnOk};
ghost use Rattle.std.specs.Map.{keys_of};
ghost use Rattle.rvd_ask.specs.Unsettled.{has_item};
ghost use Rattle.rvd_queue.specs.Sets.{with, with_all, without_all};
ghost use Rattle.rvd_queue.specs.Cells.{queued_in, kept_in, contents_of, have_cells, InOrder, KeepsCells};

use rvd_ask::Item;
use std::alloc::AllocError;
use std::collections::BTreeMap;

/// Which of the two sets an item is in.
#[derive(Clone, Copy, Debug, PartialEq, Eq)]
pub struct Cell {
    /// Whether it is queued.
    pub queued: bool,
    /// Whether it is kept.
    pub kept: bool,
}

// The cell of an item in neither set.
const BLANK: Cell = Cell {
    queued: false,
    kept: false,
};

// Makes a cell for an item that has none.
fn make_cell(cells: &mut BTreeMap<Item, Cell>, item: &Item) -> Result<(), AllocError>
    requires { InOrder cells.old.entries }
    ensures order { InOrder cells.new.entries }
    ensures contents { contents_of cells.new.entries ≡ contents_of cells.old.entries }
    ensures there { OnOk result (has_item item.now (keys_of cells.new.entries) ≡ true) }
    ensures stay { KeepsCells cells.old.entries cells.new.entries }
{
    if !cells.contains_key(item) {
        cells.insert(*item, BLANK)?;
    }
    Ok(())
}

// Makes a cell for each item that has none. Where memory is refused, some may have been made.
#[tactic(auto, using(crate::proofs::Members::have_more))]
fn make_cells(cells: &mut BTreeMap<Item, Cell>, items: &[Item]) -> Result<(), AllocError>
    requires { InOrder cells.old.entries }
    ensures order { InOrder cells.new.entries }
    ensures contents { contents_of cells.new.entries ≡ contents_of cells.old.entries }
    ensures there { OnOk result (have_cells items.now cells.new.entries ≡ true) }
    ensures stay { KeepsCells cells.old.entries cells.new.entries }
{
    for item in items {
        make_cell(cells, item)?;
    }
    Ok(())
}

/// Makes a cell for each item of two lists that has none. Where memory is refused, some may have been made: these stay,
/// in neither set.
#[tactic(auto, using(crate::proofs::Members::have_still))]
pub fn make_room(
    cells: &mut BTreeMap<Item, Cell>,
    queued: &[Item],
    kept: &[Item],
) -> Result<(), AllocError>
    requires { InOrder cells.old.entries }
    ensures order { InOrder cells.new.entries }
    ensures contents { contents_of cells.new.entries ≡ contents_of cells.old.entries }
    ensures queued { OnOk result (have_cells queued.now cells.new.entries ≡ true) }
    ensures kept { OnOk result (have_cells kept.now cells.new.entries ≡ true) }
{
    make_cells(cells, queued)?;
    make_cells(cells, kept)?;
    Ok(())
}

// Queues an item that has a cell. True where it wasn't queued yet.
fn queue(cells: &mut BTreeMap<Item, Cell>, item: &Item) -> bool
    requires order { InOrder cells.old.entries }
    requires there { has_item item.now (keys_of cells.old.entries) ≡ true }
    ensures queued { queued_in cells.new.entries ≡ with item.now (queued_in cells.old.entries) }
    ensures kept { kept_in cells.new.entries ≡ kept_in cells.old.entries }
    ensures keys { keys_of cells.new.entries ≡ keys_of cells.old.entries }
    ensures count { length (queued_in cells.new.entries) ≡ length (queued_in cells.old.entries) + (if result then 1 else 0) }
{
    match cells.get_mut(item) {
        Some(cell) => {
            let is_new = !cell.queued;
            cell.queued = true;
            is_new
        }
        None => false,
    }
}

/// Queues items that have cells, and gives the number of those that weren't queued yet.
#[tactic(auto, using(crate::proofs::Members::few_items))]
pub fn queue_all(cells: &mut BTreeMap<Item, Cell>, items: &[Item]) -> usize
    requires order { InOrder cells.old.entries }
    requires there { have_cells items.now cells.old.entries ≡ true }
    ensures queued { queued_in cells.new.entries ≡ with_all items.now (queued_in cells.old.entries) }
    ensures kept { kept_in cells.new.entries ≡ kept_in cells.old.entries }
    ensures keys { keys_of cells.new.entries ≡ keys_of cells.old.entries }
    ensures count { length (queued_in cells.new.entries) ≡ length (queued_in cells.old.entries) + result }
    ensures few { length (queued_in cells.new.entries) < 2 ^ 63 }
{
    let mut added = 0;
    for item in items {
        if queue(cells, item) {
            added += 1;
        }
    }
    // The number of entries of a map fits.
    let _ = cells.len();
    added
}

// Keeps an item that has a cell.
fn keep(cells: &mut BTreeMap<Item, Cell>, item: &Item)
    requires order { InOrder cells.old.entries }
    requires there { has_item item.now (keys_of cells.old.entries) ≡ true }
    ensures queued { queued_in cells.new.entries ≡ queued_in cells.old.entries }
    ensures kept { kept_in cells.new.entries ≡ with item.now (kept_in cells.old.entries) }
    ensures keys { keys_of cells.new.entries ≡ keys_of cells.old.entries }
{
    if let Some(cell) = cells.get_mut(item) {
        cell.kept = true;
    }
}

/// Keeps items that have cells.
pub fn keep_all(cells: &mut BTreeMap<Item, Cell>, items: &[Item])
    requires order { InOrder cells.old.entries }
    requires there { have_cells items.now cells.old.entries ≡ true }
    ensures queued { queued_in cells.new.entries ≡ queued_in cells.old.entries }
    ensures kept { kept_in cells.new.entries ≡ with_all items.now (kept_in cells.old.entries) }
    ensures keys { keys_of cells.new.entries ≡ keys_of cells.old.entries }
{
    for item in items {
        keep(cells, item);
    }
}

// Takes an item out of the queue. True where it was in it. Its cell stays where it is kept.
fn unqueue(cells: &mut BTreeMap<Item, Cell>, item: &Item) -> bool
    requires { InOrder cells.old.entries }
    ensures order { InOrder cells.new.entries }
    ensures queued { queued_in cells.new.entries ≡ without_all (item.now ∷ []) (queued_in cells.old.entries) }
    ensures kept { kept_in cells.new.entries ≡ kept_in cells.old.entries }
    ensures cell { has_item item.now (keys_of cells.new.entries) ≡ has_item item.now (kept_in cells.new.entries) }
    ensures count { length (queued_in cells.new.entries) + (if result then 1 else 0) ≡ length (queued_in cells.old.entries) }
{
    match cells.get(item).copied() {
        None => false,
        Some(cell) => {
            if !cell.kept {
                cells.remove(item);
            } else if let Some(place) = cells.get_mut(item) {
                *place = Cell {
                    queued: false,
                    ..cell
                };
            }
            cell.queued
        }
    }
}

/// Takes items out of the queue, and gives the number of those that were in it.
#[tactic(auto, using(crate::proofs::ItemSets::without_next, crate::proofs::ItemSets::without_rest))]
pub fn unqueue_all(cells: &mut BTreeMap<Item, Cell>, items: &[Item]) -> usize
    requires { InOrder cells.old.entries }
    ensures order { InOrder cells.new.entries }
    ensures queued { queued_in cells.new.entries ≡ without_all items.now (queued_in cells.old.entries) }
    ensures kept { kept_in cells.new.entries ≡ kept_in cells.old.entries }
    ensures count { length (queued_in cells.new.entries) + result ≡ length (queued_in cells.old.entries) }
{
    let mut removed = 0;
    for item in items {
        if unqueue(cells, item) {
            removed += 1;
        }
    }
    removed
}
