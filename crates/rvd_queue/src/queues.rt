ghost use Rattle.std.specs.Prelude.{◌≡◌, [], length, take, IfOk, OnOk, OnErr};
ghost use Rattle.rvd_queue.specs.Cells.{AreSets};
ghost use Rattle.rvd_queue.specs.Sets.{with_all, without_all, without_analyzer};

use crate::cells::{Cell, keep_all, make_room, queue_all, unqueue_all};
use crate::reads::{count_kept, count_others, count_queued, earliest, first_queued, least};
use crate::sweeps::{forget, keep_queued, remove_analyzer, restore};
use rvd_ask::{Analyzer, Item, Items};
use std::alloc::{AllocError, Global};
use std::collections::BTreeMap;
use std::marker::Model;

// No item comes before it.
const FIRST: Item = Item {
    analyzer: Analyzer::Flow,
    at: 0,
};

/// Two sets of items: those that are queued, and those that are kept for a rollback. Contracts see each as the list of its
/// items by priority and address.
#[derive(Drop)]
pub struct Queues {
    cells: BTreeMap<Item, Cell>,
    // No item before it is queued.
    start: Item,
    // How many items are queued.
    count: usize,
}

impl Model for Queues {
    ghost use Rattle.rvd_queue.specs.Cells.{Contents, IsSound, contents_of};

    ghost Value = { Contents };

    ghost view = { λ q. contents_of q.cells.entries };

    ghost invariant = { λ q. IsSound q.cells.entries q.start q.count };
}

impl Queues {
    /// Both sets are empty. Only want of memory refuses it.
    pub fn new(alloc: Global) -> Result<Queues, AllocError>
        ensures { IfOk result (λ queues. queues ≡ record { queued = []; kept = [] }) }
    {
        Ok(Queues {
            cells: BTreeMap::new(alloc),
            start: FIRST,
            count: 0,
        })
    }

    /// Adds items to the queued and items to the kept: all of them, or none where there is no memory.
    pub fn add_all(&mut self, queued: &[Item], kept: &[Item]) -> Result<(), AllocError>
        ensures ok { OnOk result (self.new ≡ record { queued = with_all queued.now self.old.queued; kept = with_all kept.now self.old.kept }) }
        ensures err { OnErr result (self.new ≡ self.old) }
    {
        make_room(&mut self.cells, queued, kept)?;
        self.count += queue_all(&mut self.cells, queued);
        keep_all(&mut self.cells, kept);
        self.start = earliest(self.start, queued);
        Ok(())
    }

    /// The least `n` queued items by priority and address, or all of them where there are fewer. Only want of memory
    /// refuses it.
    pub fn least(&self, alloc: Global, n: u32) -> Result<Items, AllocError>
        ensures { IfOk result (λ items. items ≡ take n self.now.queued) }
    {
        let list = least(alloc, &self.cells, self.start, n as usize)?;
        Items::of(alloc, list)
    }

    /// Takes items out of the queued. It takes no memory.
    pub fn remove_all(&mut self, items: &Items)
        ensures { self.new ≡ record self.old { queued = without_all items.now self.old.queued } }
    {
        self.count -= unqueue_all(&mut self.cells, items.list());
        if let Some(item) = first_queued(&self.cells, self.start) {
            self.start = item;
        }
    }

    /// Takes the items of an analyzer out of both sets. It takes no memory.
    pub fn remove_analyzer(&mut self, analyzer: Analyzer)
        ensures { self.new ≡ record { queued = without_analyzer analyzer self.old.queued; kept = without_analyzer analyzer self.old.kept } }
    {
        remove_analyzer(&mut self.cells, analyzer);
        self.count = count_queued(&self.cells);
    }

    /// Kept becomes what is queued. It takes no memory.
    pub fn keep_queued(&mut self)
        ensures { self.new ≡ record self.old { kept = self.old.queued } }
    {
        keep_queued(&mut self.cells);
    }

    /// Queues what is kept too. It takes no memory.
    pub fn restore(&mut self)
        ensures { self.new ≡ record self.old { queued = with_all self.old.kept self.old.queued } }
    {
        self.count = restore(&mut self.cells);
        self.start = FIRST;
    }

    /// Nothing is kept any more. It takes no memory.
    pub fn forget(&mut self)
        ensures { self.new ≡ record self.old { kept = [] } }
    {
        forget(&mut self.cells);
    }

    /// The number of queued items. It takes no memory.
    #[tactic(auto, using(crate::proofs::Members::are_sets))]
    pub fn len(&self) -> u64
        ensures len { result ≡ length self.now.queued }
        ensures sets { AreSets self.now }
    {
        self.count as u64
    }

    /// The number of kept items. It goes over all cells, and takes no memory.
    pub fn kept_len(&self) -> u64
        ensures { result ≡ length self.now.kept }
    {
        count_kept(&self.cells) as u64
    }

    /// The number of queued items that aren't an analyzer's. It goes over all cells, and takes no memory.
    pub fn others_len(&self, analyzer: Analyzer) -> u64
        ensures { result ≡ length (without_analyzer analyzer self.now.queued) }
    {
        count_others(&self.cells, analyzer) as u64
    }

    /// Both sets become empty. It takes no memory.
    pub fn clear(&mut self)
        ensures { self.new ≡ record { queued = []; kept = [] } }
    {
        self.cells.clear();
        self.start = FIRST;
        self.count = 0;
    }
}
