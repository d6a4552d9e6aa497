ghost use Rattle.std.specs.Prelude.{◌≡◌, ◌+◌, ◌-◌, ◌<◌, ◌^◌, ◌↔◌, ℕ, true, is_some, if◌then◌else◌, length, IfOk, IsTrue, MatchOption, OnErr};
ghost use Rattle.rvd_event.specs.declared.events.Event.TheVariants as event;
ghost use Rattle.rvd_event.specs.declared.replies.Refusal.TheVariants as refusal;
ghost use Rattle.rvd_event.specs.declared.replies.Reply.TheVariants as reply;
ghost use Rattle.rvd_judge.specs.Batches.{is_none_in};
ghost use Rattle.rvd_machine.specs.Moves.{settled_step};
ghost use Rattle.rvd_machine.specs.Replies.{IsReply};
ghost use Rattle.rvd_machine.specs.State.{job_of};
ghost use Rattle.rvd_engine.specs.Admitted.{AreIllegal, AreIllegalOn, IsAdmitted, IsChecked, IsCheckedOn, IsMisfitIn};
ghost use Rattle.rvd_engine.specs.Inside.{enabled_of};
ghost use Rattle.rvd_engine.specs.Offered.{taken_in};
ghost use Rattle.rvd_engine.specs.Performed.{IsReady};
ghost use Rattle.rvd_engine.specs.Settling.{settles_by};

use crate::counts::{is_same_step, settled_if};
use crate::machine::Machine;
use crate::offers::Outcome;
use crate::parts::verdicts_in_range;
use crate::switches::Switches;
use rvd_ask::{Item, Items};
use rvd_event::{Refusal, Reply, Verdict};
use rvd_judge::check_verdicts;
use rvd_program::Program;
use std::alloc::{AllocError, Global};

// Checks verdicts on a job's items on a copy of the working program: what comes of them, or None where they may not be given.
fn check_copy(
    alloc: Global,
    work: &Program,
    job: &Program,
    items: &[Item],
    enabled: Switches,
    verdicts: &[Verdict],
) -> Result<Option<Outcome>, AllocError>
    ensures { let E = enabled_of enabled in
        IfOk result (λ found. MatchOption found (AreIllegalOn E job.now work.now items.now verdicts.now) (λ o. IsCheckedOn E job.now work.now items.now verdicts.now o)) }
{
    let mut next = work.copy()?;
    let mut again = Vec::new(alloc);
    let mut changes = Vec::new(alloc);
    let list = enabled.list(alloc)?;
    let may = check_verdicts(
        alloc,
        &mut next,
        job,
        items,
        &list,
        verdicts,
        &mut again,
        &mut changes,
    )?;
    if !may {
        return Ok(None);
    }
    Ok(Some(Outcome {
        work: next,
        again,
        changes,
    }))
}

// Whether a refusal tells that no job has a ticket.
fn is_cancelled(given: Refusal, ticket: u64) -> bool
    ensures { IsTrue result ↔ (given ≡ refusal.Cancelled ticket) }
{
    given == Refusal::Cancelled(ticket)
}

// Whether a refusal tells of a misfit at a place up to the number of items.
fn is_misfit(refusal: Refusal, items: &Items) -> bool
    ensures { IsTrue result ↔ IsMisfitIn (length items.now) refusal }
{
    match refusal {
        Refusal::Misfit(place) => place as usize <= items.list().len(),
        _ => false,
    }
}

impl Machine {
    // Whether an offer for a ticket may be refused so: as cancelled exactly where no job has it, and else as a misfit at a
    // place up to the number of items.
    fn may_refuse(&self, ticket: u64, refusal: Refusal) -> bool
        ensures { IsTrue result ↔ IsReply self.now 0 (event.Offer ticket) (reply.Refused refusal) }
    {
        match self.job(ticket) {
            None => is_cancelled(refusal, ticket),
            Some((items, _)) => is_misfit(refusal, items),
        }
    }

    // What comes of verdicts on the job of a ticket, or None where they may not be given.
    fn checked(
        &self,
        alloc: Global,
        ticket: u64,
        verdicts: &[Verdict],
    ) -> Result<Option<Outcome>, AllocError>
        ensures checked { IfOk result (λ found. MatchOption found (AreIllegal self.now ticket verdicts.now) (IsChecked self.now ticket verdicts.now)) }
        ensures taken { IfOk result (λ found. is_some found ≡ true → is_some (job_of ticket self.now.taken) ≡ true) }
    {
        match self.job(ticket) {
            None => Ok(None),
            Some((items, program)) => {
                let work = self.work();
                let list = items.list();
                let found = check_copy(alloc, work, program, list, self.enabled, verdicts)?;
                Ok(found)
            }
        }
    }

    // Whether a Settled step follows an offer with an outcome.
    fn settles_by(&self, outcome: &Outcome) -> bool
        ensures { result ≡ settles_by self.now outcome.now }
    {
        let due = self.due || !outcome.changes.is_empty();
        let none_queued = outcome.again.is_empty() && self.queued() == 0;
        self.whole && due && !self.is_open() && none_queued && self.taken() == 1
    }

    // The number of steps after an offer with an outcome.
    fn made_by(&self, outcome: &Outcome) -> u64
        ensures steps { result ≡ length self.now.steps + (if is_none_in outcome.now.changes.items then 0 else 1) }
        ensures few { result < 2 ^ 64 - 1 }
    {
        if outcome.changes.is_empty() {
            self.made()
        } else {
            self.made() + 1
        }
    }

    // The number of the Settled step that follows an offer with an outcome, where one does.
    fn settled_by(&self, ticket: u64, outcome: &Outcome) -> Option<u64>
        requires { is_some (job_of ticket self.now.taken) ≡ true }
        ensures { (actor : ℕ) → settled_step (taken_in self.now actor ticket outcome.now) ≡ result }
    {
        let _ = ticket;
        settled_if(self.settles_by(outcome), self.made_by(outcome))
    }

    // Counts an offer that was refused.
    fn admit_refusal(
        &mut self,
        actor: u32,
        ticket: u64,
        refusal: Refusal,
        settled: Option<u64>,
    ) -> bool
        requires { IsReady self.old }
        ensures { IsAdmitted result self.old self.new actor (event.Offer ticket) (reply.Refused refusal) settled }
    {
        let _ = actor;
        if !self.may_refuse(ticket, refusal) {
            return false;
        }
        if !is_same_step(settled, self.settled_step()) {
            return false;
        }
        self.finish();
        true
    }

    // Takes an outcome of verdicts in, where the Settled step is that which follows.
    fn admit_outcome(
        &mut self,
        alloc: Global,
        actor: u32,
        ticket: u64,
        verdicts: &[Verdict],
        outcome: Outcome,
        settled: Option<u64>,
    ) -> Result<bool, AllocError>
        requires ready { IsReady self.old }
        requires checked { IsChecked self.old ticket verdicts.now outcome }
        requires taken { is_some (job_of ticket self.old.taken) ≡ true }
        ensures ok { IfOk result (λ yes. IsAdmitted yes self.old self.new actor (event.Offer ticket) (reply.Verdicts verdicts.now) settled) }
        ensures err { OnErr result (self.new ≡ self.old) }
    {
        if !is_same_step(settled, self.settled_by(ticket, &outcome)) {
            return Ok(false);
        }
        verdicts_in_range(verdicts);
        self.take_in(alloc, actor, ticket, outcome)?;
        self.finish();
        Ok(true)
    }

    // Does what follows from verdicts, where they may be given.
    fn admit_verdicts(
        &mut self,
        alloc: Global,
        actor: u32,
        ticket: u64,
        verdicts: &[Verdict],
        settled: Option<u64>,
    ) -> Result<bool, AllocError>
        requires { IsReady self.old }
        ensures ok { IfOk result (λ yes. IsAdmitted yes self.old self.new actor (event.Offer ticket) (reply.Verdicts verdicts.now) settled) }
        ensures err { OnErr result (self.new ≡ self.old) }
    {
        let found = self.checked(alloc, ticket, verdicts)?;
        match found {
            None => Ok(false),
            Some(outcome) => self.admit_outcome(alloc, actor, ticket, verdicts, outcome, settled),
        }
    }

    /// Does an offer with the reply and the Settled step that it had: true where they may be its, and else false, and all is
    /// as before. Any legal reply may be, and not just the one that `offer` gives. Only want of memory refuses it, and then
    /// all is as before.
    pub fn admit_offer(
        &mut self,
        alloc: Global,
        actor: u32,
        ticket: u64,
        reply: &Reply,
        settled: Option<u64>,
    ) -> Result<bool, AllocError>
        requires { IsReady self.old }
        ensures ok { IfOk result (λ yes. IsAdmitted yes self.old self.new actor (event.Offer ticket) reply.now settled) }
        ensures err { OnErr result (self.new ≡ self.old) }
    {
        match reply {
            Reply::Refused(refusal) => Ok(self.admit_refusal(actor, ticket, *refusal, settled)),
            Reply::Verdicts(verdicts) => {
                self.admit_verdicts(alloc, actor, ticket, verdicts.list(), settled)
            }
            _ => Ok(false),
        }
    }
}
