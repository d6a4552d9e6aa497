ghost use Rattle.std.specs.Prelude.{◌≡◌, false, IfOk, OnErr};
ghost use Rattle.std.specs.Option.{option_map};
ghost use Rattle.rvd_event.specs.declared.replies.Reply.TheVariants as reply;
ghost use Rattle.rvd_event.specs.declared.events.Event.TheVariants as event;
ghost use Rattle.rvd_machine.specs.Replies.{is_finished, is_idle, takes_none};
ghost use Rattle.rvd_machine.specs.State.{work};
ghost use Rattle.rvd_engine.specs.Offered.{shown};
ghost use Rattle.rvd_engine.specs.Performed.{Answers, IsReady};

use crate::machine::Machine;
use rvd_ask::Items;
use rvd_event::Reply;
use rvd_program::Program;
use rvd_queue::set_law;
use std::alloc::{AllocError, Global};

/// A job that is given out: its ticket, its items, and the program that they are to be looked at on.
#[derive(Drop)]
pub struct Given {
    /// The number of the job.
    pub ticket: u64,
    /// Its items, by priority and address.
    pub items: Items,
    /// The working program when it was taken.
    pub program: Program,
}

impl Machine {
    /// Whether workers are finished: all sessions are closed, and nothing is open, queued or taken.
    pub fn is_finished(&self) -> bool
        ensures { result ≡ is_finished self.now }
    {
        self.open_sessions.is_empty() && self.is_quiet()
    }

    /// Whether there is nothing to take: nothing is queued, or an entry of the open transaction aborted.
    pub fn is_idle(&self) -> bool
        ensures { result ≡ is_idle self.now }
    {
        self.queued() == 0 || self.is_doomed()
    }

    /// The items and the program of a job that is taken, or None where no job has this ticket.
    #[tactic(auto, using(crate::proofs::TakenJobs::found_is))]
    pub fn job(&self, ticket: u64) -> Option<(&Items, &Program)>
        ensures { option_map (λ job. (job.0.now, job.1.now)) result ≡ shown ticket self.now.taken }
    {
        self.taken.find(ticket)
    }

    /// Gives out the least n queued items, with the job's own copy of the working program.
    #[tactic(auto, using(crate::proofs::TakenJobs::is_fresh))]
    pub(crate) fn give(
        &mut self,
        alloc: Global,
        actor: u32,
        n: u32,
    ) -> Result<(Reply, Given), AllocError>
        requires ready { IsReady self.old }
        requires some { takes_none self.old n ≡ false }
        ensures ok { IfOk result (λ made. Answers self.old self.new actor (event.Take n) made.0) }
        ensures given { IfOk result (λ made. made.0 ≡ reply.Job made.1.ticket made.1.items) }
        ensures program { IfOk result (λ made. made.1.program ≡ work self.old) }
        ensures err { OnErr result (self.new ≡ self.old) }
    {
        // The length tells that the queues are sets, and the law what is left of them.
        let _ = self.queues.len();
        set_law();
        let items = self.queues.least(alloc, n)?;
        let program = self.work().copy()?;
        let ticket = self.next_ticket;
        let kept = Reply::Job(ticket, items.copy()?);
        let given = Given {
            ticket,
            items: items.copy()?,
            program: program.copy()?,
        };
        self.taken.put(ticket, items, program)?;
        self.queues.remove_all(&given.items);
        self.next_ticket += 1;
        Ok((kept, given))
    }
}
