ghost use Rattle.std.specs.Prelude.{◌≡◌, true, false, IfOk, OnErr};
ghost use Rattle.rvd_event.specs.declared.events.Event.TheVariants as event;
ghost use Rattle.rvd_event.specs.declared.replies.Reply.TheVariants as reply;
ghost use Rattle.rvd_journal.specs.Entries.{is_event};
ghost use Rattle.rvd_machine.specs.Exact.{IsExactReply};
ghost use Rattle.rvd_machine.specs.Replies.{takes_none};
ghost use Rattle.rvd_machine.specs.State.{work};
ghost use Rattle.rvd_engine.specs.Performed.{Answers, IsReady, Performed, is_plain, is_session_step};

use crate::jobs::Given;
use crate::machine::Machine;
use rvd_ask::Proposal;
use rvd_event::{Event, Reply};
use std::alloc::{AllocError, Global};

/// What a call of the machine gave: its reply, and the number of the Settled step that followed, or None.
#[derive(Drop)]
pub struct Made<R> {
    /// The reply, for the journal.
    pub kept: Reply,
    /// What the caller gets.
    pub given: R,
    /// The number of the Settled step.
    pub settled: Option<u64>,
}

impl Machine {
    // Does a session's event, without counting it.
    fn answer(&mut self, alloc: Global, actor: u32, event: &Event) -> Result<Reply, AllocError>
        requires ready { IsReady self.old }
        requires legal { is_event event.now ≡ true }
        requires step { is_session_step self.old event.now ≡ true }
        ensures ok { IfOk result (λ given. Answers self.old self.new actor event.now given) }
        ensures plain { IfOk result (λ given. is_plain given ≡ true) }
        ensures err { OnErr result (self.new ≡ self.old) }
    {
        match event {
            Event::Begin(text) => self.begin(alloc, actor, text),
            Event::Edit(edit) => self.edit(alloc, actor, edit),
            Event::End(keep) => self.end(actor, *keep),
            Event::Undo => self.undo(actor),
            Event::Redo => self.redo(actor),
            Event::Full => self.full(alloc, actor),
            Event::Cancel => self.cancel(actor),
            Event::Enable(analyzer, on) => self.enable(alloc, actor, *analyzer, *on),
            Event::Read => Ok(self.read(actor)),
            Event::Wait => Ok(self.wait(actor)),
            Event::Close => Ok(self.close_session(actor)),
            Event::Take(_) | Event::Offer(_) => unreachable!(),
        }
    }

    /// Does a session's event. Only want of memory refuses it, and then all is as before.
    pub fn perform(
        &mut self,
        alloc: Global,
        actor: u32,
        event: &Event,
    ) -> Result<Made<Reply>, AllocError>
        requires ready { IsReady self.old }
        requires legal { is_event event.now ≡ true }
        requires step { is_session_step self.old event.now ≡ true }
        ensures ok { IfOk result (λ made. Performed self.old self.new actor event.now made.kept made.settled) }
        ensures given { IfOk result (λ made. made.given ≡ made.kept) }
        ensures err { OnErr result (self.new ≡ self.old) }
    {
        let reply = self.answer(alloc, actor, event)?;
        let settled = self.finish();
        let (kept, given) = twin(reply);
        Ok(Made {
            kept,
            given,
            settled,
        })
    }

    /// Gives out a job of the least n queued items, from 1 to 64, where there are some. Only want of memory refuses it, and
    /// then all is as before.
    pub fn take(&mut self, alloc: Global, actor: u32, n: u32) -> Result<Made<Given>, AllocError>
        requires ready { IsReady self.old }
        requires some { takes_none self.old n ≡ false }
        ensures ok { IfOk result (λ made. Performed self.old self.new actor (event.Take n) made.kept made.settled) }
        ensures given { IfOk result (λ made. made.kept ≡ reply.Job made.given.ticket made.given.items) }
        ensures program { IfOk result (λ made. made.given.program ≡ work self.old) }
        ensures err { OnErr result (self.new ≡ self.old) }
    {
        let (kept, given) = self.give(alloc, actor, n)?;
        let settled = self.finish();
        Ok(Made {
            kept,
            given,
            settled,
        })
    }

    /// Judges the proposals for a job: each by the first of its reads that the working program answers otherwise. Only want
    /// of memory refuses it, and then all is as before.
    pub fn offer(
        &mut self,
        alloc: Global,
        actor: u32,
        ticket: u64,
        proposals: &[Proposal],
    ) -> Result<Made<Reply>, AllocError>
        requires { IsReady self.old }
        ensures ok { IfOk result (λ made. Performed self.old self.new actor (event.Offer ticket) made.kept made.settled) }
        ensures exact { IfOk result (λ made. IsExactReply self.old ticket proposals.now made.kept) }
        ensures given { IfOk result (λ made. made.given ≡ made.kept) }
        ensures err { OnErr result (self.new ≡ self.old) }
    {
        let (kept, given) = self.judge(alloc, actor, ticket, proposals)?;
        let settled = self.finish();
        Ok(Made {
            kept,
            given,
            settled,
        })
    }
}

// A reply of numbers alone, twice.
fn twin(reply: Reply) -> (Reply, Reply)
    requires { is_plain reply ≡ true }
    ensures first { result.0 ≡ reply }
    ensures second { result.1 ≡ reply }
{
    match reply {
        Reply::Entry(number) => (Reply::Entry(number), Reply::Entry(number)),
        Reply::Changed(changes) => (Reply::Changed(changes), Reply::Changed(changes)),
        Reply::Waiting(live) => (Reply::Waiting(live), Reply::Waiting(live)),
        Reply::Committed(step) => (Reply::Committed(step), Reply::Committed(step)),
        Reply::RolledBack => (Reply::RolledBack, Reply::RolledBack),
        Reply::StepNo(step) => (Reply::StepNo(step), Reply::StepNo(step)),
        Reply::At(steps) => (Reply::At(steps), Reply::At(steps)),
        Reply::SettledAt(step) => (Reply::SettledAt(step), Reply::SettledAt(step)),
        Reply::Voided => (Reply::Voided, Reply::Voided),
        Reply::Closed(aborted) => (Reply::Closed(aborted), Reply::Closed(aborted)),
        Reply::Refused(refusal) => (Reply::Refused(refusal), Reply::Refused(refusal)),
        Reply::Job(_, _) | Reply::Verdicts(_) => unreachable!(),
    }
}
