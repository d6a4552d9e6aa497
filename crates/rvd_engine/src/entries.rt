ghost use Rattle.std.specs.Prelude.{◌≡◌, ◌<◌, [], true, length, Some, None, IfOk, OnOk, OnErr};
ghost use Rattle.rvd_fact.specs.Valid.{Fits};
ghost use Rattle.rvd_event.specs.Edits.{is_edit};
ghost use Rattle.rvd_event.specs.declared.events.Event.TheVariants as event;
ghost use Rattle.rvd_machine.specs.Moves.{begun, changed_in, closed_in};
ghost use Rattle.rvd_machine.specs.State.{lives, lives_of, taken_items, work, is_open};
ghost use Rattle.rvd_engine.specs.Inside.{jobs_in};
ghost use Rattle.rvd_engine.specs.Performed.{Answers, IsReady, is_plain};

use crate::machine::Machine;
use crate::working::{Working, change_work, commit, note_all};
use rvd_ask::Item;
use rvd_edit::{EditError, changes_of};
use rvd_event::{Edit, Refusal, Reply};
use rvd_fact::{Change, Text};
use rvd_program::Program;
use rvd_queue::Taken;
use rvd_trans::{Joint, MOST_LIVE};
use std::alloc::{AllocError, Global};

// The items of the jobs that are taken.
fn taken_items(alloc: Global, taken: &Taken<Program>) -> Result<Vec<Item>, AllocError>
    ensures { IfOk result (λ list. list.items ≡ taken_items (jobs_in taken.now)) }
{
    let mut list = Vec::new(alloc);
    for place in 0..taken.len() {
        if let Some((_, items, _)) = taken.at(place) {
            list.extend_from_slice(items.list())?;
        }
    }
    Ok(list)
}

impl Machine {
    // Opens a transaction, or joins the open one.
    fn join_or_open(&mut self, alloc: Global, actor: u32, text: Text) -> Result<(), AllocError>
        requires few { lives self.old < 64 }
        requires ready { IsReady self.old }
        ensures ok { OnOk result (self.new ≡ begun self.old actor text) }
        ensures err { OnErr result (self.new ≡ self.old) }
    {
        let number = self.next_entry;
        match &mut self.current {
            Some(working) => {
                working.joint.join(number, actor)?;
                self.next_entry = number + 1;
                Ok(())
            }
            None => {
                let work = self.base.copy()?;
                let joint = Joint::start(alloc, number, actor, text)?;
                let taken = taken_items(alloc, &self.taken)?;
                self.queues.keep_queued();
                self.queues.add_all(&[], &taken)?;
                self.current = Some(Working { work, joint });
                self.next_entry = number + 1;
                Ok(())
            }
        }
    }

    /// Begins an entry.
    pub(crate) fn begin(
        &mut self,
        alloc: Global,
        actor: u32,
        text: &Text,
    ) -> Result<Reply, AllocError>
        requires { IsReady self.old }
        ensures ok { IfOk result (λ reply. Answers self.old self.new actor (event.Begin text.now) reply) }
        ensures plain { IfOk result (λ reply. is_plain reply ≡ true) }
        ensures err { OnErr result (self.new ≡ self.old) }
    {
        if !self.is_session(actor) {
            return Ok(Reply::Refused(Refusal::NoSession));
        }
        if self.live() >= MOST_LIVE {
            return Ok(Reply::Refused(Refusal::TooManyEntries));
        }
        let number = self.next_entry;
        self.join_or_open(alloc, actor, text.copy()?)?;
        Ok(Reply::Entry(number))
    }

    // Applies changes to the open transaction's program, and queues what they wake.
    fn make_changes(&mut self, alloc: Global, changes: Vec<Change>) -> Result<(), AllocError>
        requires open { is_open self.old.current ≡ true }
        requires fits { Fits (work self.old) changes.items }
        ensures ok { OnOk result (self.new ≡ changed_in self.old changes.items self.old.current) }
        ensures err { OnErr result (self.new ≡ self.old) }
    {
        match &mut self.current {
            None => unreachable!(),
            Some(working) => {
                working.joint.reserve(changes.len() as u64)?;
                change_work(
                    alloc,
                    &mut working.work,
                    &mut self.queues,
                    self.enabled,
                    &changes,
                )?;
                note_all(&mut working.joint, changes);
                Ok(())
            }
        }
    }

    /// Makes an edit.
    pub(crate) fn edit(
        &mut self,
        alloc: Global,
        actor: u32,
        edit: &Edit,
    ) -> Result<Reply, AllocError>
        requires legal { is_edit edit.now ≡ true }
        ensures ok { IfOk result (λ reply. Answers self.old self.new actor (event.Edit edit.now) reply) }
        ensures plain { IfOk result (λ reply. is_plain reply ≡ true) }
        ensures err { OnErr result (self.new ≡ self.old) }
    {
        if !self.is_session(actor) {
            return Ok(Reply::Refused(Refusal::NoSession));
        }
        if self.live_of(actor) == 0 {
            return Ok(Reply::Refused(Refusal::NoTransaction));
        }
        match changes_of(alloc, self.work(), edit) {
            Err(EditError::Refused(refusal)) => Ok(Reply::Refused(Refusal::Edit(refusal))),
            Err(EditError::OutOfMemory) => Err(AllocError),
            Ok(changes) => {
                let count = changes.len() as u32;
                self.make_changes(alloc, changes)?;
                Ok(Reply::Changed(count))
            }
        }
    }

    /// Ends the actor's newest live entry, and with the last one the transaction.
    pub(crate) fn end(&mut self, actor: u32, keep: bool) -> Result<Reply, AllocError>
        ensures ok { IfOk result (λ reply. Answers self.old self.new actor (event.End keep) reply) }
        ensures plain { IfOk result (λ reply. is_plain reply ≡ true) }
        ensures err { OnErr result (self.new ≡ self.old) }
    {
        if !self.is_session(actor) {
            return Ok(Reply::Refused(Refusal::NoSession));
        }
        if self.live_of(actor) == 0 {
            return Ok(Reply::Refused(Refusal::NoTransaction));
        }
        self.steps.reserve(2)?;
        self.undos.reserve()?;
        match self.current.take() {
            None => unreachable!(),
            Some(mut working) => {
                working.joint.end(actor, keep);
                let live = working.joint.live();
                if live > 0 {
                    self.current = Some(working);
                    return Ok(Reply::Waiting(live));
                }
                if working.joint.doomed() {
                    self.queues.restore();
                    self.queues.forget();
                    return Ok(Reply::RolledBack);
                }
                self.queues.forget();
                commit(&mut self.base, &mut self.undos, &mut self.steps, working);
                self.due = true;
                Ok(Reply::Committed(self.steps.len() as u64))
            }
        }
    }

    // Aborts an actor's live entries, and rolls a transaction back of which none is left: their number.
    fn abort_all(&mut self, actor: u32) -> u32
        ensures answer { result ≡ lives_of self.old actor }
        ensures state { self.new ≡ closed_in self.old actor self.old.current }
    {
        match &mut self.current {
            None => 0,
            Some(working) => {
                let ended = working.joint.end_all(actor);
                if ended > 0 && working.joint.live() == 0 {
                    self.current = None;
                    self.queues.restore();
                    self.queues.forget();
                }
                ended
            }
        }
    }

    /// Closes a session.
    pub(crate) fn close_session(&mut self, actor: u32) -> Reply
        ensures reply { Answers self.old self.new actor event.Close result }
        ensures plain { is_plain result ≡ true }
    {
        if !self.is_session(actor) {
            return Reply::Refused(Refusal::NoSession);
        }
        self.open_sessions.retain(|session| *session != actor);
        let ended = self.abort_all(actor);
        Reply::Closed(ended)
    }
}
