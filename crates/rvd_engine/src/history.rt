ghost use Rattle.std.specs.Prelude.{◌≡◌, true, false, length, IfOk, OnErr};
ghost use Rattle.rvd_event.specs.declared.events.Event.TheVariants as event;
ghost use Rattle.rvd_machine.specs.Replies.{is_not_yet, last_settled, refused};
ghost use Rattle.rvd_engine.specs.Performed.{Answers, is_plain};

use crate::machine::Machine;
use rvd_event::{Refusal, Reply, Step};
use std::alloc::AllocError;

/// The number of the last Settled step, or 0 where there is none.
pub(crate) fn last_settled(steps: &[Step]) -> u64
    ensures { result ≡ last_settled steps.now }
{
    let mut number: u64 = 0;
    let mut found = 0;
    for step in steps {
        number += 1;
        if matches!(step, Step::Settled) {
            found = number;
        }
    }
    found
}

impl Machine {
    /// How many transactions can be undone.
    #[tactic(auto, using(crate::proofs::Lengths::past_length))]
    pub fn undoable(&self) -> u32
        ensures { result ≡ length self.now.history.past }
    {
        self.undos.depth()
    }

    /// How many transactions can be redone.
    #[tactic(auto, using(crate::proofs::Lengths::undone_length))]
    pub fn redoable(&self) -> u32
        ensures { result ≡ length self.now.history.undone }
    {
        self.undos.height()
    }

    // The first refusal of an undo, and of a redo.
    fn refusal_of_undo(&self, actor: u32) -> Option<Refusal>
        ensures { result ≡ refused self.now actor event.Undo }
    {
        if !self.is_session(actor) {
            Some(Refusal::NoSession)
        } else if self.is_open() {
            Some(Refusal::TransactionOpen(self.live()))
        } else if self.undoable() == 0 {
            Some(Refusal::NothingToUndo)
        } else {
            None
        }
    }

    fn refusal_of_redo(&self, actor: u32) -> Option<Refusal>
        ensures { result ≡ refused self.now actor event.Redo }
    {
        if !self.is_session(actor) {
            Some(Refusal::NoSession)
        } else if self.is_open() {
            Some(Refusal::TransactionOpen(self.live()))
        } else if self.redoable() == 0 {
            Some(Refusal::NothingToRedo)
        } else {
            None
        }
    }

    /// Takes the latest transaction back.
    pub(crate) fn undo(&mut self, actor: u32) -> Result<Reply, AllocError>
        ensures ok { IfOk result (λ reply. Answers self.old self.new actor event.Undo reply) }
        ensures plain { IfOk result (λ reply. is_plain reply ≡ true) }
        ensures err { OnErr result (self.new ≡ self.old) }
    {
        if let Some(refusal) = self.refusal_of_undo(actor) {
            return Ok(Reply::Refused(refusal));
        }
        self.steps.reserve(2)?;
        self.undos.undo(&mut self.base)?;
        self.steps.push_reserved(Step::Undo(actor));
        self.whole = false;
        Ok(Reply::StepNo(self.steps.len() as u64))
    }

    /// Brings the transaction back that was undone last.
    pub(crate) fn redo(&mut self, actor: u32) -> Result<Reply, AllocError>
        ensures ok { IfOk result (λ reply. Answers self.old self.new actor event.Redo reply) }
        ensures plain { IfOk result (λ reply. is_plain reply ≡ true) }
        ensures err { OnErr result (self.new ≡ self.old) }
    {
        if let Some(refusal) = self.refusal_of_redo(actor) {
            return Ok(Reply::Refused(refusal));
        }
        self.steps.reserve(2)?;
        self.undos.redo(&mut self.base)?;
        self.steps.push_reserved(Step::Redo(actor));
        self.whole = false;
        Ok(Reply::StepNo(self.steps.len() as u64))
    }

    /// Reads: the number of steps of the committed program.
    pub(crate) fn read(&self, actor: u32) -> Reply
        ensures reply { Answers self.now self.now actor event.Read result }
        ensures plain { is_plain result ≡ true }
    {
        if !self.is_session(actor) {
            return Reply::Refused(Refusal::NoSession);
        }
        Reply::At(self.steps.len() as u64)
    }

    /// Whether a wait goes on: a whole analysis stands, and its end is due or something is open, queued or taken.
    pub fn is_not_yet(&self) -> bool
        ensures { result ≡ is_not_yet self.now }
    {
        self.whole && (self.due || !self.is_quiet())
    }

    /// A wait that doesn't go on.
    pub(crate) fn wait(&self, actor: u32) -> Reply
        requires { is_not_yet self.now ≡ false }
        ensures reply { Answers self.now self.now actor event.Wait result }
        ensures plain { is_plain result ≡ true }
    {
        if !self.is_session(actor) {
            return Reply::Refused(Refusal::NoSession);
        }
        let live = self.live_of(actor);
        if live > 0 {
            return Reply::Refused(Refusal::HasEntry(live));
        }
        if self.whole {
            Reply::SettledAt(last_settled(&self.steps))
        } else {
            Reply::Voided
        }
    }
}
