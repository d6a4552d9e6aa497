ghost use Rattle.std.specs.Prelude.{◌≡◌, ◌<◌, ◌^◌, ◌↔◌, length, take, IfOk, IsTrue};
ghost use Rattle.rvd_machine.specs.Moves.{settled_step, settles};
ghost use Rattle.rvd_machine.specs.Replies.{last_settled};
ghost use Rattle.rvd_queue.specs.Sets.{without_analyzer};
ghost use Rattle.rvd_engine.specs.Settling.{kept_of, settled_if};

use crate::history::last_settled;
use crate::machine::Machine;
use rvd_ask::{Analyzer, Items};
use std::alloc::{AllocError, Global};

/// The number of the Settled step that follows so many steps, where it does.
pub fn settled_if(settles: bool, steps: u64) -> Option<u64>
    requires { steps < 18446744073709551615 }
    ensures { result ≡ settled_if settles steps }
{
    if settles { Some(steps + 1) } else { None }
}

/// Whether two numbers of Settled steps are the same, or both are none.
pub fn is_same_step(a: Option<u64>, b: Option<u64>) -> bool
    ensures { IsTrue result ↔ (a ≡ b) }
{
    a == b
}

impl Machine {
    /// The number of the next entry of a transaction.
    pub fn next_entry(&self) -> u64
        ensures { result ≡ self.now.next_entry }
    {
        self.next_entry
    }

    /// The ticket of the next job.
    pub fn next_ticket(&self) -> u64
        ensures { result ≡ self.now.next_ticket }
    {
        self.next_ticket
    }

    /// The least `n` queued items by priority and address. Only want of memory refuses it.
    pub fn first_items(&self, alloc: Global, n: u32) -> Result<Items, AllocError>
        ensures { IfOk result (λ items. items ≡ take n self.now.queue) }
    {
        self.queues.least(alloc, n)
    }

    /// The number of queued items that aren't an analyzer's.
    pub fn queued_of_others(&self, analyzer: Analyzer) -> u64
        ensures { result ≡ length (without_analyzer analyzer self.now.queue) }
    {
        self.queues.others_len(analyzer)
    }

    /// The number of items that a rollback of the open transaction would give back to the queue, or 0 where none is open.
    pub fn kept(&self) -> u64
        ensures { result ≡ length (kept_of self.now.current) }
    {
        match &self.current {
            None => 0,
            Some(_) => self.queues.kept_len(),
        }
    }

    /// The number of the last Settled step, or 0 where there is none.
    pub fn last_settled(&self) -> u64
        ensures { result ≡ last_settled self.now.steps }
    {
        last_settled(&self.steps)
    }

    /// The number of steps.
    pub(crate) fn made(&self) -> u64
        ensures steps { result ≡ length self.now.steps }
        ensures few { result < 2 ^ 63 }
    {
        self.steps.len() as u64
    }

    // Whether a Settled step would follow here.
    fn settles(&self) -> bool
        ensures { result ≡ settles self.now }
    {
        self.whole && self.due && self.is_quiet()
    }

    /// The number of the Settled step that would follow here, where one would.
    pub fn settled_step(&self) -> Option<u64>
        ensures { result ≡ settled_step self.now }
    {
        settled_if(self.settles(), self.made())
    }
}
