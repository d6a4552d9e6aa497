ghost use Rattle.std.specs.Prelude.{◌≡◌, ◌+◌, ◌-◌, ◌^◌, ◌<◌, ◌≤◌, length, IfOk};
ghost use Rattle.rvd_machine.specs.Moves.{settled, settled_step};
ghost use Rattle.rvd_machine.specs.State.{base, first_state, is_doomed, is_open, is_quiet, is_session, lives, lives_of, up_to, work};
ghost use Rattle.rvd_machine.specs.Steps.{counted, has_own_room, has_room, max_entries, need};
ghost use Rattle.rvd_engine.specs.Inside.{enabled_of};

use crate::switches::Switches;
use crate::working::Working;
use rvd_event::{Event, Step};
use rvd_program::Program;
use rvd_queue::{Queues, Taken};
use rvd_undo::Undos;
use std::alloc::{AllocError, Global};
use std::marker::Model;

/// The machine. Contracts see it as its state.
#[derive(Drop)]
pub struct Machine {
    pub(crate) sessions: u32,
    pub(crate) workers: u32,
    pub(crate) count: u64,
    pub(crate) base: Program,
    pub(crate) undos: Undos,
    pub(crate) steps: Vec<Step>,
    pub(crate) current: Option<Working>,
    // Where nothing is open, what is kept means nothing.
    pub(crate) queues: Queues,
    pub(crate) taken: Taken<Program>,
    pub(crate) next_entry: u64,
    pub(crate) next_ticket: u64,
    pub(crate) enabled: Switches,
    pub(crate) whole: bool,
    pub(crate) due: bool,
    pub(crate) open_sessions: Vec<u32>,
}

impl Model for Machine {
    ghost use Rattle.rvd_machine.specs.State.{State};

    ghost Value = { State };

    ghost use Rattle.rvd_engine.specs.Inside.{state_in, IsWhole};

    ghost view = { state_in };

    ghost invariant = { IsWhole };
}

/// The numbers from 1 to n.
fn up_to(alloc: Global, n: u32) -> Result<Vec<u32>, AllocError>
    requires { n < 2 ^ 32 - 1 }
    ensures { IfOk result (λ list. list.items ≡ up_to n) }
{
    let mut list = Vec::new(alloc);
    for k in 0..n {
        list.push(k + 1)?;
    }
    Ok(list)
}

/// Whether a session is open.
fn has_session(open_sessions: &[u32], actor: u32) -> bool
    ensures { result ≡ is_session actor open_sessions.now }
{
    open_sessions.iter().any(|session| *session == actor)
}

// How many entries an event needs room for: a begin also for the end of its entry.
fn need(event: &Event) -> u64
    ensures need { result ≡ need event.now }
    ensures few { result ≤ 2 }
{
    match event {
        Event::Begin(_) => 2,
        _ => 1,
    }
}

/// The most entries of a journal.
pub const MOST_ENTRIES: u64 = 1_000_000;

impl Machine {
    /// The machine at the start: all sessions are open, all analyzers are enabled, and nothing has happened. Only want of
    /// memory refuses it.
    pub fn new(
        alloc: Global,
        base: Program,
        sessions: u32,
        workers: u32,
    ) -> Result<Machine, AllocError>
        requires { sessions ≤ 16 }
        ensures { IfOk result (λ machine. machine ≡ first_state base sessions workers) }
    {
        let open_sessions = up_to(alloc, sessions)?;
        let undos = Undos::new(alloc)?;
        let queues = Queues::new(alloc)?;
        let taken = Taken::new(alloc)?;
        let _base = base.entries();
        Ok(Machine {
            sessions,
            workers,
            count: 0,
            base,
            undos,
            steps: Vec::new(alloc),
            current: None,
            queues,
            taken,
            next_entry: 1,
            next_ticket: 1,
            enabled: Switches::ALL,
            whole: false,
            due: false,
            open_sessions,
        })
    }

    /// The committed program.
    pub fn base(&self) -> &Program
        ensures { result.now ≡ base self.now }
    {
        &self.base
    }

    /// The program that edits see: the open transaction's, or else the committed one.
    pub fn work(&self) -> &Program
        ensures { result.now ≡ work self.now }
    {
        match &self.current {
            None => &self.base,
            Some(working) => &working.work,
        }
    }

    /// The steps in order.
    pub fn steps(&self) -> &[Step]
        ensures { result.now ≡ self.now.steps }
    {
        self.steps.as_slice()
    }

    /// How many entries the journal has.
    pub fn count(&self) -> u64
        ensures { result ≡ self.now.count }
    {
        self.count
    }

    /// The number of live entries.
    pub fn live(&self) -> u32
        ensures { result ≡ lives self.now }
    {
        match &self.current {
            None => 0,
            Some(working) => working.joint.live(),
        }
    }

    /// The number of an actor's live entries.
    pub fn live_of(&self, actor: u32) -> u32
        ensures { result ≡ lives_of self.now actor }
    {
        match &self.current {
            None => 0,
            Some(working) => working.joint.live_of(actor),
        }
    }

    /// Whether a transaction is open.
    pub fn is_open(&self) -> bool
        ensures { result ≡ is_open self.now.current }
    {
        self.current.is_some()
    }

    /// Whether a transaction is open in which an entry aborted.
    pub fn is_doomed(&self) -> bool
        ensures { result ≡ is_doomed self.now.current }
    {
        match &self.current {
            None => false,
            Some(working) => working.joint.doomed(),
        }
    }

    /// Whether an actor is an open session.
    pub fn is_session(&self, actor: u32) -> bool
        ensures { result ≡ is_session actor self.now.open_sessions }
    {
        has_session(&self.open_sessions, actor)
    }

    /// The number of open sessions.
    pub fn open_sessions(&self) -> u64
        ensures { result ≡ length self.now.open_sessions }
    {
        self.open_sessions.len() as u64
    }

    /// The number of queued items.
    pub fn queued(&self) -> u64
        ensures { result ≡ length self.now.queue }
    {
        self.queues.len()
    }

    /// The number of jobs that are taken.
    #[tactic(auto, using(crate::proofs::JobLists::taken_length))]
    pub fn taken(&self) -> u64
        ensures { result ≡ length self.now.taken }
    {
        self.taken.len()
    }

    /// Whether nothing is open, queued or taken.
    pub fn is_quiet(&self) -> bool
        ensures { result ≡ is_quiet self.now }
    {
        !self.is_open() && self.queued() == 0 && self.taken() == 0
    }

    /// Which analyzers are enabled.
    pub fn enabled(&self) -> Switches
        ensures { enabled_of result ≡ self.now.enabled }
    {
        self.enabled
    }

    /// Whether a whole analysis stands.
    pub fn is_whole(&self) -> bool
        ensures { result ≡ self.now.whole }
    {
        self.whole
    }

    /// Whether the end of an analysis is due.
    pub fn is_due(&self) -> bool
        ensures { result ≡ self.now.due }
    {
        self.due
    }

    /// The number of sessions at the start.
    pub fn sessions(&self) -> u32
        ensures { result ≡ self.now.sessions }
    {
        self.sessions
    }

    /// The number of workers.
    pub fn workers(&self) -> u32
        ensures { result ≡ self.now.workers }
    {
        self.workers
    }

    /// Whether the journal has room for an actor's event.
    pub fn has_room(&self, actor: u32, event: &Event) -> bool
        requires { self.now.count ≤ max_entries }
        ensures { result ≡ has_room self.now actor event.now }
    {
        let rooms = self.count + u64::from(self.live()) + self.open_sessions();
        self.has_own_room(actor, event) || rooms + need(event) <= MOST_ENTRIES
    }

    // Whether an event has a room of its own: the end of a live entry, and the close of an open session.
    fn has_own_room(&self, actor: u32, event: &Event) -> bool
        ensures { result ≡ has_own_room self.now actor event.now }
    {
        match event {
            Event::End(_) => self.live_of(actor) > 0,
            Event::Close => self.is_session(actor),
            _ => false,
        }
    }

    /// The committed program and the steps.
    pub fn close(self) -> (Program, Vec<Step>)
        ensures base { result.0 ≡ base self }
        ensures steps { result.1.items ≡ self.steps }
    {
        (self.base, self.steps)
    }

    // Counts an event, and notes the Settled step that follows it, where one does: the number of this step.
    pub(crate) fn finish(&mut self) -> Option<u64>
        requires { self.old.count < max_entries }
        ensures state { self.new ≡ settled (counted self.old) }
        ensures noted { result ≡ settled_step self.old }
    {
        let settles = self.whole && self.due && self.is_quiet();
        self.count += 1;
        if !settles {
            return None;
        }
        self.steps.push_reserved(Step::Settled);
        self.due = false;
        Some(self.steps.len() as u64)
    }
}
