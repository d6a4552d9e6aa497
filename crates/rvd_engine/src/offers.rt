ghost use Rattle.std.specs.Prelude.{◌≡◌, true, false, [], List, map, IfOk, OnOk, OnErr};
ghost use Rattle.rvd_fact.specs.Program.{applied_all};
ghost use Rattle.rvd_fact.specs.Valid.{Fits};
ghost use Rattle.rvd_ask.specs.declared.asks.Item.{Item as AnItem};
ghost use Rattle.rvd_event.specs.declared.events.Event.TheVariants as event;
ghost use Rattle.rvd_judge.specs.Batches.{batch_on, is_none_in};
ghost use Rattle.rvd_machine.specs.Exact.{AreExactVerdicts, IsExactReply};
ghost use Rattle.rvd_machine.specs.Moves.{analysis_text};
ghost use Rattle.rvd_machine.specs.Ranges.{is_reply};
ghost use Rattle.rvd_machine.specs.State.{is_open, work};
ghost use Rattle.rvd_machine.specs.Verdicts.{AreVerdicts, judged_all};
ghost use Rattle.rvd_engine.specs.Inside.{enabled_of};
ghost use Rattle.rvd_engine.specs.Offered.{IsFound, Leads, batch_of, taken_in};
ghost use Rattle.rvd_engine.specs.Performed.{Answers, IsReady};

use crate::machine::Machine;
use crate::parts::verdicts_in_range;
use crate::switches::Switches;
use crate::working::{Working, commit, note_all};
use rvd_ask::{Item, Proposal};
use rvd_event::{Refusal, Reply, VerdictList};
use rvd_fact::{Change, Text};
use rvd_judge::{judge, misfit};
use rvd_program::Program;
use rvd_trans::Joint;
use std::alloc::{AllocError, Global};

/// What comes of verdicts: the working program after them, the items that join the queue, and the changes that were made.
#[derive(Drop)]
pub struct Outcome {
    pub(crate) work: Program,
    pub(crate) again: Vec<Item>,
    pub(crate) changes: Vec<Change>,
}

/// What becomes of an offer: it is refused, or judged: its verdicts, twice, and what comes of them.
#[derive(Drop)]
pub enum Finding {
    Refused(Refusal),
    Judged(VerdictList, VerdictList, Outcome),
}

/// The text `Analysis`, under which changes of analyzers are committed.
fn analysis_text(alloc: Global) -> Result<Text, AllocError>
    ensures { IfOk result (λ text. text ≡ analysis_text) }
{
    Text::of(alloc, Vec::from_slice(alloc, b"Analysis")?)
}

// Judges proposals for a job's items on a copy of the working program.
fn judge_copy(
    alloc: Global,
    work: &Program,
    job: &Program,
    items: &[Item],
    enabled: Switches,
    proposals: &[Proposal],
) -> Result<(VerdictList, Outcome), AllocError>
    requires { map (λ p. p.item) proposals.now ≡ items.now }
    ensures exact { IfOk result (λ made. (queue : List AnItem) → AreExactVerdicts (enabled_of enabled) job.now (batch_on work.now queue) proposals.now made.0) }
    ensures legal { IfOk result (λ made. (queue : List AnItem) → AreVerdicts (enabled_of enabled) job.now (batch_on work.now queue) items.now made.0) }
    ensures leads { IfOk result (λ made. Leads work.now made.1) }
    ensures batch { IfOk result (λ made. (queue : List AnItem) → judged_all (enabled_of enabled) (batch_on work.now queue) items.now made.0 ≡ batch_of made.1 queue) }
{
    let mut next = work.copy()?;
    let mut again = Vec::new(alloc);
    let mut changes = Vec::new(alloc);
    let list = enabled.list(alloc)?;
    let verdicts = judge(
        alloc,
        &mut next,
        job,
        items,
        &list,
        proposals,
        &mut again,
        &mut changes,
    )?;
    Ok((
        verdicts,
        Outcome {
            work: next,
            again,
            changes,
        },
    ))
}

impl Machine {
    // What becomes of an offer, before anything changes.
    fn found(
        &self,
        alloc: Global,
        ticket: u64,
        proposals: &[Proposal],
    ) -> Result<Finding, AllocError>
        requires { IsReady self.now }
        ensures { IfOk result (λ finding. IsFound self.now ticket proposals.now finding) }
    {
        match self.job(ticket) {
            None => Ok(Finding::Refused(Refusal::Cancelled(ticket))),
            Some((items, program)) => match misfit(items.list(), proposals) {
                Some(place) => Ok(Finding::Refused(Refusal::Misfit(place))),
                None => {
                    let (kept, outcome) = judge_copy(
                        alloc,
                        self.work(),
                        program,
                        items.list(),
                        self.enabled,
                        proposals,
                    )?;
                    let given = kept.copy()?;
                    Ok(Finding::Judged(kept, given, outcome))
                }
            },
        }
    }

    // An offer's outcome grows the open transaction.
    fn grow(&mut self, actor: u32, ticket: u64, outcome: Outcome) -> Result<(), AllocError>
        requires ready { IsReady self.old }
        requires open { is_open self.old.current ≡ true }
        requires leads { Leads (work self.old) outcome }
        ensures ok { OnOk result (self.new ≡ taken_in self.old actor ticket outcome) }
        ensures err { OnErr result (self.new ≡ self.old) }
    {
        let _ = actor;
        let Outcome {
            work,
            again,
            changes,
        } = outcome;
        match &mut self.current {
            None => unreachable!(),
            Some(working) => {
                working.joint.reserve(changes.len() as u64)?;
                self.queues.add_all(&again, &[])?;
                working.work = work;
                note_all(&mut working.joint, changes);
                self.taken.drop_ticket(ticket);
                Ok(())
            }
        }
    }

    // An offer's outcome, of which nothing joined, where nothing is open: items return to the queue.
    #[tactic(auto, using(crate::proofs::TakenJobs::dropped_is))]
    fn send_back(&mut self, actor: u32, ticket: u64, outcome: Outcome) -> Result<(), AllocError>
        requires ready { IsReady self.old }
        requires closed { is_open self.old.current ≡ false }
        requires none { is_none_in outcome.changes.items ≡ true }
        ensures ok { OnOk result (self.new ≡ taken_in self.old actor ticket outcome) }
        ensures err { OnErr result (self.new ≡ self.old) }
    {
        let _ = actor;
        self.queues.add_all(&outcome.again, &[])?;
        self.taken.drop_ticket(ticket);
        Ok(())
    }

    // An offer's outcome, of which something joined, where nothing is open: it is a transaction of the worker's.
    fn commit_outcome(
        &mut self,
        alloc: Global,
        actor: u32,
        ticket: u64,
        outcome: Outcome,
    ) -> Result<(), AllocError>
        requires ready { IsReady self.old }
        requires closed { is_open self.old.current ≡ false }
        requires some { is_none_in outcome.changes.items ≡ false }
        requires leads { Leads (work self.old) outcome }
        ensures ok { OnOk result (self.new ≡ taken_in self.old actor ticket outcome) }
        ensures err { OnErr result (self.new ≡ self.old) }
    {
        let Outcome {
            work,
            again,
            changes,
        } = outcome;
        let mut joint = Joint::start(alloc, 0, actor, analysis_text(alloc)?)?;
        joint.reserve(changes.len() as u64)?;
        self.steps.reserve(2)?;
        self.undos.reserve()?;
        self.queues.add_all(&again, &[])?;
        note_all(&mut joint, changes);
        commit(
            &mut self.base,
            &mut self.undos,
            &mut self.steps,
            Working { work, joint },
        );
        self.taken.drop_ticket(ticket);
        self.due = true;
        Ok(())
    }

    /// Takes an offer's outcome in.
    pub(crate) fn take_in(
        &mut self,
        alloc: Global,
        actor: u32,
        ticket: u64,
        outcome: Outcome,
    ) -> Result<(), AllocError>
        requires ready { IsReady self.old }
        requires leads { Leads (work self.old) outcome }
        ensures ok { OnOk result (self.new ≡ taken_in self.old actor ticket outcome) }
        ensures err { OnErr result (self.new ≡ self.old) }
    {
        if self.is_open() {
            self.grow(actor, ticket, outcome)
        } else if outcome.changes.is_empty() {
            self.send_back(actor, ticket, outcome)
        } else {
            self.commit_outcome(alloc, actor, ticket, outcome)
        }
    }

    /// Judges the proposals for a job, by the first read of each that differs: the reply, twice.
    pub(crate) fn judge(
        &mut self,
        alloc: Global,
        actor: u32,
        ticket: u64,
        proposals: &[Proposal],
    ) -> Result<(Reply, Reply), AllocError>
        requires { IsReady self.old }
        ensures ok { IfOk result (λ made. Answers self.old self.new actor (event.Offer ticket) made.0) }
        ensures parts { IfOk result (λ made. is_reply made.0 ≡ true) }
        ensures exact { IfOk result (λ made. IsExactReply self.old ticket proposals.now made.0) }
        ensures same { IfOk result (λ made. made.1 ≡ made.0) }
        ensures err { OnErr result (self.new ≡ self.old) }
    {
        match self.found(alloc, ticket, proposals)? {
            Finding::Refused(refusal) => Ok((Reply::Refused(refusal), Reply::Refused(refusal))),
            Finding::Judged(kept, given, outcome) => {
                verdicts_in_range(kept.list());
                self.take_in(alloc, actor, ticket, outcome)?;
                Ok((Reply::Verdicts(kept), Reply::Verdicts(given)))
            }
        }
    }
}
