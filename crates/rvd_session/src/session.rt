//! Sessions.
ghost use Rattle.std.specs.Prelude.{◌≡◌, ◌++◌, ◌≤◌, true, false, Some, IfOk, IfErr, OnOk, OnErr};
ghost use Rattle.rvd_event.specs.declared.events.Event.TheVariants as event;
ghost use Rattle.rvd_query.specs.Reply.{reply};
ghost use Rattle.rvd_desk.specs.Turns.{Looked};
ghost use Rattle.rvd_desk.specs.Calls.{is_called};
ghost use Rattle.rvd_session.specs.Sitting.{Called, IsFirst, IsShown, Uncalled, WaitedIn};

use crate::calls::{make_call, try_wait};
use rvd_desk::{Desk, DeskError, Halt, OutOfMemory, Snapshot};
use rvd_event::{Event, Query, Reply};
use rvd_machine::steps_stay;
use rvd_query::answer;
use rvd_turn::{Pass, Turn};
use std::alloc::Global;
use std::marker::Model;
use std::sync::Wait;

/// An analyst's session: a pass of the turn round the desk, and its latest read. Before any read the latest is the imported
/// program with 0 steps.
#[derive(Drop)]
pub struct Session {
    actor: u32,
    pass: Pass<Desk>,
    read: Snapshot,
}

impl Model for Session {
    ghost use Rattle.rvd_session.specs.Sitting.{Sits, Sitting};

    ghost Value = { Sitting };

    ghost view = { λ s. record { pass = s.pass; read = s.read } };

    ghost invariant = { λ s. Sits s.actor (record { pass = s.pass; read = s.read }) };
}

impl Session {
    /// The session of an actor, with a pass of its number. `first` is the imported program with 0 steps.
    pub fn new(actor: u32, pass: Pass<Desk>, first: Snapshot) -> Session
        requires number { pass.number ≡ actor }
        requires no_turn { pass.turn ≡ false }
        requires first { IsFirst pass actor first }
        ensures { result ≡ record { pass = pass; read = first } }
    {
        Session {
            actor,
            pass,
            read: first,
        }
    }

    /// Makes a session's event other than a wait in a turn of its own: the reply, where a refusal is one too. On JournalFull,
    /// Stopped and OutOfMemory nothing is added, and the desk is stopped from then on. The latest read is never one of fewer
    /// steps than before.
    pub fn call<R: Wait>(
        &mut self,
        rt: &R,
        alloc: Global,
        turn: &Turn<Desk>,
        event: Event,
    ) -> Result<Reply, DeskError>
        requires this_turn { self.old.pass.turn_id ≡ turn.now }
        requires event { is_called event ≡ true }
        ensures ok { IfOk result (λ reply. Called self.old self.new event reply) }
        ensures err { IfErr result (λ error. Uncalled self.old self.new event error) }
        ensures reads { self.old.read.steps ≤ self.new.read.steps }
        ensures same_turn { self.new.pass.turn_id ≡ self.old.pass.turn_id }
    {
        steps_stay();
        let mut desk = turn.take(rt, &mut self.pass);
        let made = make_call(alloc, &mut desk, self.actor, event, &mut self.read);
        turn.give(&mut self.pass, desk);
        made
    }

    /// Waits until the analysis has ended, a turn for each look: the reply, where a refusal is one too. On JournalFull, Stopped
    /// and OutOfMemory nothing is added, and the desk is stopped from then on.
    pub fn wait<R: Wait>(
        &mut self,
        rt: &R,
        alloc: Global,
        turn: &Turn<Desk>,
    ) -> Result<Reply, DeskError>
        requires { self.old.pass.turn_id ≡ turn.now }
        ensures ok { IfOk result (λ reply. Called self.old self.new event.Wait reply) }
        ensures err { IfErr result (λ error. Uncalled self.old self.new event.Wait error) }
        ensures reads { self.new.read ≡ self.old.read }
        ensures same_turn { self.new.pass.turn_id ≡ self.old.pass.turn_id }
    {
        for _ in rt.forever() {
            if let Some(made) = self.look(rt, alloc, turn) {
                return made;
            }
        }
        unreachable!()
    }

    // Looks in one turn whether a wait has ended.
    fn look<R: Wait>(
        &mut self,
        rt: &R,
        alloc: Global,
        turn: &Turn<Desk>,
    ) -> Option<Result<Reply, DeskError>>
        requires { self.old.pass.turn_id ≡ turn.now }
        ensures looked { WaitedIn self.old self.new result }
        ensures reads { self.new.read ≡ self.old.read }
        ensures same_turn { self.new.pass.turn_id ≡ self.old.pass.turn_id }
    {
        let mut desk = turn.take(rt, &mut self.pass);
        let made = try_wait(alloc, &mut desk, self.actor);
        turn.give(&mut self.pass, desk);
        made
    }

    /// Gives the pass back.
    pub fn finish(self) -> Pass<Desk>
        ensures same { result ≡ self.pass }
        ensures no_turn { result.turn ≡ false }
    {
        self.pass
    }

    /// Appends the answer to a query on the program of the latest read. It takes no turn. Only want of memory refuses it, and then
    /// nothing is appended.
    pub fn ask(&self, alloc: Global, query: &Query, out: &mut Vec<u8>) -> Result<(), OutOfMemory>
        ensures ok { OnOk result (out.new.items ≡ out.old.items ++ reply self.now.read.program query.now) }
        ensures err { OnErr result (out.new.items ≡ out.old.items) }
        ensures shows { IsShown self.now }
    {
        answer(alloc, self.read.program(), query, out)
    }

    /// Stops the desk for want of memory, in a turn of its own.
    pub fn halt<R: Wait>(&mut self, rt: &R, turn: &Turn<Desk>)
        requires { self.old.pass.turn_id ≡ turn.now }
        ensures pass { Looked self.old.pass self.new.pass }
        ensures reads { self.new.read ≡ self.old.read }
        ensures same_turn { self.new.pass.turn_id ≡ self.old.pass.turn_id }
    {
        let mut desk = turn.take(rt, &mut self.pass);
        // The status tells that the journal is legal.
        let _ = desk.status();
        desk.stop(Halt::Memory);
        turn.give(&mut self.pass, desk);
    }
}
