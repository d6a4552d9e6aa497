ghost use Rattle.std.specs.Prelude.{◌≡◌, ◌&&◌, ◌==◌, true, false, List, length, IfOk, OnOk, OnErr};
ghost use Rattle.rvd_ask.specs.declared.asks.Item.{Item as AnItem};
ghost use Rattle.rvd_ask.specs.Unsettled.{are_in_order};
ghost use Rattle.rvd_event.specs.declared.events.Event.TheVariants as event;
ghost use Rattle.rvd_machine.specs.Enabled.{all_candidates};
ghost use Rattle.rvd_machine.specs.State.{base, is_session, work};
ghost use Rattle.rvd_queue.specs.Sets.{with_all};
ghost use Rattle.rvd_engine.specs.Inside.{enabled_of};
ghost use Rattle.rvd_engine.specs.Performed.{Answers, is_plain};

use crate::machine::Machine;
use crate::switches::{ANALYZERS, Switches};
use rvd_ask::{Analyzer, Item, listing_law};
use rvd_event::{Refusal, Reply, Step};
use rvd_program::Program;
use rvd_queue::{Queues, set_law};
use rvd_wake::candidates;
use std::alloc::{AllocError, Global};

// The candidates of the enabled analyzers. Only want of memory refuses it.
fn all_candidates(
    alloc: Global,
    program: &Program,
    enabled: Switches,
) -> Result<Vec<Item>, AllocError>
    ensures { IfOk result (λ list. (queue : List AnItem) → are_in_order queue ≡ true → with_all list.items queue ≡ with_all (all_candidates (enabled_of enabled) program.now) queue) }
{
    listing_law();
    set_law();
    let mut list = Vec::new(alloc);
    for analyzer in ANALYZERS {
        if enabled.is_on(analyzer) {
            let mut items = candidates(alloc, program, analyzer)?;
            list.append(&mut items)?;
        }
    }
    Ok(list)
}

// Whether no enabled analyzer has a candidate. Only want of memory refuses it.
fn has_none(alloc: Global, program: &Program, enabled: Switches) -> Result<bool, AllocError>
    ensures { IfOk result (λ none. none ≡ (length (all_candidates (enabled_of enabled) program.now) == 0)) }
{
    let list = all_candidates(alloc, program, enabled)?;
    Ok(list.is_empty())
}

// Queues items of the working program and of the committed one, and keeps the latter. Only want of memory refuses it, and
// then the queues are as before.
#[tactic(auto, using(crate::proofs::CandidateLists::one_by_one))]
fn gain(
    alloc: Global,
    queues: &mut Queues,
    of_work: &[Item],
    of_base: &[Item],
) -> Result<(), AllocError>
    ensures ok { OnOk result (queues.new ≡ record { queued = with_all of_work.now (with_all of_base.now queues.old.queued); kept = with_all of_base.now queues.old.kept }) }
    ensures err { OnErr result (queues.new ≡ queues.old) }
{
    let mut both = Vec::with_capacity(alloc, of_base.len())?;
    both.extend_from_slice(of_base)?;
    both.extend_from_slice(of_work)?;
    queues.add_all(&both, of_base)
}

impl Machine {
    /// Asks for a whole analysis.
    pub(crate) fn full(&mut self, alloc: Global, actor: u32) -> Result<Reply, AllocError>
        ensures ok { IfOk result (λ reply. Answers self.old self.new actor event.Full reply) }
        ensures plain { IfOk result (λ reply. is_plain reply ≡ true) }
        ensures err { OnErr result (self.new ≡ self.old) }
    {
        if !self.is_session(actor) {
            return Ok(Reply::Refused(Refusal::NoSession));
        }
        // The length tells that the queues are sets, and the law what sets gain.
        let _ = self.queues.len();
        set_law();
        let of_base = all_candidates(alloc, &self.base, self.enabled)?;
        let of_work = all_candidates(alloc, self.work(), self.enabled)?;
        self.steps.reserve(2)?;
        gain(alloc, &mut self.queues, &of_work, &of_base)?;
        self.steps.push_reserved(Step::Full(actor));
        self.whole = true;
        self.due = true;
        Ok(Reply::StepNo(self.steps.len() as u64))
    }

    /// Whether a whole analysis would find nothing: no enabled analyzer has a candidate in the working or the committed
    /// program. Only want of memory refuses it.
    pub fn finds_nothing(&self, alloc: Global) -> Result<bool, AllocError>
        ensures { let E = self.now.enabled in
            IfOk result (λ none. none ≡ (length (all_candidates E (work self.now)) == 0 && length (all_candidates E (base self.now)) == 0)) }
    {
        let none_of_work = has_none(alloc, self.work(), self.enabled)?;
        let none_of_base = has_none(alloc, &self.base, self.enabled)?;
        Ok(none_of_work && none_of_base)
    }

    // Enables an analyzer.
    #[tactic(auto, using(crate::proofs::CandidateLists::kept_more))]
    fn turn_on(
        &mut self,
        alloc: Global,
        actor: u32,
        analyzer: Analyzer,
    ) -> Result<Reply, AllocError>
        requires { is_session actor self.old.open_sessions ≡ true }
        ensures ok { IfOk result (λ reply. Answers self.old self.new actor (event.Enable analyzer true) reply) }
        ensures plain { IfOk result (λ reply. is_plain reply ≡ true) }
        ensures err { OnErr result (self.new ≡ self.old) }
    {
        let of_base = candidates(alloc, &self.base, analyzer)?;
        let of_work = candidates(alloc, self.work(), analyzer)?;
        self.steps.reserve(2)?;
        gain(alloc, &mut self.queues, &of_work, &of_base)?;
        self.enabled = self.enabled.switched(analyzer, true);
        self.steps
            .push_reserved(Step::Enable(actor, analyzer, true));
        self.due = true;
        Ok(Reply::StepNo(self.steps.len() as u64))
    }

    // Disables an analyzer.
    fn turn_off(&mut self, actor: u32, analyzer: Analyzer) -> Result<Reply, AllocError>
        requires { is_session actor self.old.open_sessions ≡ true }
        ensures ok { IfOk result (λ reply. Answers self.old self.new actor (event.Enable analyzer false) reply) }
        ensures plain { IfOk result (λ reply. is_plain reply ≡ true) }
        ensures err { OnErr result (self.new ≡ self.old) }
    {
        self.steps.reserve(2)?;
        self.queues.remove_analyzer(analyzer);
        self.enabled = self.enabled.switched(analyzer, false);
        self.steps
            .push_reserved(Step::Enable(actor, analyzer, false));
        Ok(Reply::StepNo(self.steps.len() as u64))
    }

    /// Enables or disables an analyzer.
    pub(crate) fn enable(
        &mut self,
        alloc: Global,
        actor: u32,
        analyzer: Analyzer,
        on: bool,
    ) -> Result<Reply, AllocError>
        ensures ok { IfOk result (λ reply. Answers self.old self.new actor (event.Enable analyzer on) reply) }
        ensures plain { IfOk result (λ reply. is_plain reply ≡ true) }
        ensures err { OnErr result (self.new ≡ self.old) }
    {
        if !self.is_session(actor) {
            return Ok(Reply::Refused(Refusal::NoSession));
        }
        if on {
            self.turn_on(alloc, actor, analyzer)
        } else {
            self.turn_off(actor, analyzer)
        }
    }

    /// Cancels the analysis.
    pub(crate) fn cancel(&mut self, actor: u32) -> Result<Reply, AllocError>
        ensures ok { IfOk result (λ reply. Answers self.old self.new actor event.Cancel reply) }
        ensures plain { IfOk result (λ reply. is_plain reply ≡ true) }
        ensures err { OnErr result (self.new ≡ self.old) }
    {
        if !self.is_session(actor) {
            return Ok(Reply::Refused(Refusal::NoSession));
        }
        self.steps.reserve(2)?;
        self.queues.clear();
        self.taken.clear();
        self.steps.push_reserved(Step::Cancel(actor));
        self.whole = false;
        Ok(Reply::StepNo(self.steps.len() as u64))
    }
}
