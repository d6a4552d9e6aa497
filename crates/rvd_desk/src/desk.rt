ghost use Rattle.std.specs.Prelude.{◌≡◌, ◌≤◌, true, false, [], length, Some, None, IfOk, IfErr, OnOk};
ghost use Rattle.std.specs.Option.{option_map};
ghost use Rattle.rvd_journal.specs.Entries.{is_event};
ghost use Rattle.rvd_machine.specs.Sound.{Sound};
ghost use Rattle.rvd_machine.specs.State.{base, lives};
ghost use Rattle.rvd_machine.specs.Steps.{IsLegal, has_room, may_call};
ghost use Rattle.rvd_engine.specs.Offered.{shown};
ghost use Rattle.rvd_engine.specs.Performed.{IsReady, is_session_step};
ghost use Rattle.rvd_desk.specs.Calls.{Did, Failed, MayStopAfter, halt_after, has_step, is_refusal};
ghost use Rattle.rvd_desk.specs.Story.{IsStoppedFor, MayStop, first_halt, on_of, state_of};

use crate::answers::{DeskError, Halt};
use rvd_ask::Items;
use rvd_engine::Machine;
use rvd_event::{Event, Reply, Step};
use rvd_journal::{Entry, Journal};
use rvd_machine::{journals_are_bounded, no_event_is_lost, rooms_are_kept};
use rvd_program::Program;
use std::alloc::{AllocError, Global};
use std::marker::Model;

/// How a desk began.
#[derive(Drop)]
pub struct Head {
    /// The imported program.
    pub program: Program,
    /// The number of sessions, whose actors are 1 and up.
    pub sessions: u32,
    /// The number of workers, whose actors follow the sessions'.
    pub workers: u32,
}

impl Model for Head {
    ghost use Rattle.rvd_machine.specs.Steps.{Head as Began};

    ghost Value = { Began };

    ghost view = { λ h. record { program = h.program; sessions = h.sessions; workers = h.workers } };
}

/// The desk. Contracts see its head, its journal, and whether it was stopped.
#[derive(Drop)]
pub struct Desk {
    pub(crate) head: Head,
    pub(crate) machine: Machine,
    pub(crate) journal: Journal,
    pub(crate) halt: Option<Halt>,
}

impl Model for Desk {
    ghost use Rattle.rvd_desk.specs.Story.{Story, Kept};

    ghost Value = { Story };

    ghost view = { λ d. record {
      head = d.head;
      journal = d.journal.entries;
      halt = d.halt;
    } };

    ghost invariant = { λ d. Kept (record {
      head = d.head;
      journal = d.journal.entries;
      halt = d.halt;
    }) d.machine };
}

/// What stands on a desk.
#[derive(Clone, Copy, Debug, PartialEq, Eq)]
pub struct Status {
    /// The number of steps.
    pub steps: u64,
    /// The number of live entries.
    pub live: u32,
    /// The number of queued items.
    pub queued: u64,
    /// The number of jobs that are taken.
    pub taken: u64,
    /// Whether a whole analysis stands.
    pub whole: bool,
    /// Whether its end is due.
    pub due: bool,
    /// The number of open sessions.
    pub sessions: u32,
    /// The number of entries of the journal.
    pub entries: u64,
    /// Which analyzers are enabled, by priority.
    pub on: [bool; 5],
    /// The first cause for which the desk was stopped.
    pub halt: Option<Halt>,
}

impl Desk {
    /// The desk at the start: all sessions are open, all analyzers are enabled, and the journal is empty. Only want of memory
    /// refuses it.
    pub fn new(
        alloc: Global,
        program: Program,
        sessions: u32,
        workers: u32,
    ) -> Result<Desk, AllocError>
        requires sessions { (1 ≤ sessions) × (sessions ≤ 16) }
        requires workers { workers ≤ 8 }
        ensures { IfOk result (λ desk. desk ≡ record { head = record { program = program; sessions = sessions; workers = workers }; journal = []; halt = None }) }
    {
        // The entries tell that the program is valid.
        let _ = program.entries();
        let base = program.copy()?;
        let machine = Machine::new(alloc, base, sessions, workers)?;
        Ok(Desk {
            head: Head {
                program,
                sessions,
                workers,
            },
            machine,
            journal: Journal::new(alloc),
            halt: None,
        })
    }

    /// How the desk began.
    pub fn head(&self) -> &Head
        ensures { result.now ≡ self.now.head }
    {
        &self.head
    }

    /// The committed program.
    pub fn base(&self) -> &Program
        ensures { result.now ≡ base (state_of self.now) }
    {
        self.machine.base()
    }

    /// The steps in order.
    pub fn steps(&self) -> &[Step]
        ensures { result.now ≡ (state_of self.now).steps }
    {
        self.machine.steps()
    }

    /// The entries of the journal in order.
    pub fn entries(&self) -> &[Entry]
        ensures { result.now ≡ self.now.journal }
    {
        self.journal.entries()
    }

    // The number of entries of the journal.
    pub(crate) fn entry_count(&self) -> u64
        ensures { result ≡ length self.now.journal }
    {
        self.journal.len()
    }

    /// The items and the program of a job that is taken, or None where no job has this ticket.
    pub fn job(&self, ticket: u64) -> Option<(&Items, &Program)>
        ensures { option_map (λ job. (job.0.now, job.1.now)) result ≡ shown ticket (state_of self.now).taken }
    {
        self.machine.job(ticket)
    }

    /// What stands: a legal journal, in whose state no event is lost. It takes no memory.
    pub fn status(&self) -> Status
        ensures steps { result.steps ≡ length (state_of self.now).steps }
        ensures live { result.live ≡ lives (state_of self.now) }
        ensures queued { result.queued ≡ length (state_of self.now).queue }
        ensures taken { result.taken ≡ length (state_of self.now).taken }
        ensures whole { result.whole ≡ (state_of self.now).whole }
        ensures due { result.due ≡ (state_of self.now).due }
        ensures sessions { result.sessions ≡ length (state_of self.now).open_sessions }
        ensures entries { result.entries ≡ length self.now.journal }
        ensures on { result.on ≡ on_of (state_of self.now).enabled }
        ensures halt { result.halt ≡ self.now.halt }
        ensures cause { IsStoppedFor self.now self.now.halt }
        ensures legal { IsLegal self.now.head self.now.journal }
        ensures sound { Sound (state_of self.now) }
    {
        no_event_is_lost();
        journals_are_bounded();
        let enabled = self.machine.enabled();
        Status {
            steps: self.machine.steps().len() as u64,
            live: self.machine.live(),
            queued: self.machine.queued(),
            taken: self.machine.taken(),
            whole: self.machine.is_whole(),
            due: self.machine.is_due(),
            sessions: self.machine.open_sessions() as u32,
            entries: self.journal.len(),
            on: [
                enabled.flow,
                enabled.refs,
                enabled.funcs,
                enabled.body,
                enabled.strings,
            ],
            halt: self.halt,
        }
    }

    /// Stops the desk: every later call that would be journaled answers Stopped with the first cause. It takes no memory.
    pub fn stop(&mut self, why: Halt)
        requires { MayStop self.old why }
        ensures { self.new ≡ record self.old { halt = first_halt self.old.halt why } }
    {
        if self.halt.is_none() {
            self.halt = Some(why);
        }
    }

    /// The committed program, the steps and the journal.
    pub fn close(self) -> (Program, Vec<Step>, Journal)
        ensures base { result.0 ≡ base (state_of self) }
        ensures steps { result.1.items ≡ (state_of self).steps }
        ensures journal { result.2.entries ≡ self.journal }
        ensures legal { IsLegal self.head self.journal }
    {
        let (base, steps) = self.machine.close();
        (base, steps, self.journal)
    }

    // Whether the desk runs, and its journal has room for an event.
    pub(crate) fn check_room(&self, actor: u32, event: &Event) -> Result<(), DeskError>
        requires step { has_step (state_of self.now) event.now ≡ true }
        ensures running { OnOk result (self.now.halt ≡ None) }
        ensures room { OnOk result (has_room (state_of self.now) actor event.now ≡ true) }
        ensures ready { OnOk result (IsReady (state_of self.now)) }
        ensures err { IfErr result (λ error. Failed self.now self.now actor event.now error) }
        ensures journaled { IfErr result (λ error. is_refusal error ≡ false) }
    {
        if let Some(halt) = self.halt {
            return Err(DeskError::Stopped(halt));
        }
        rooms_are_kept();
        journals_are_bounded();
        if !self.machine.has_room(actor, event) {
            return Err(DeskError::JournalFull(self.journal.len()));
        }
        Ok(())
    }

    /// Stops the desk where a call found no memory, or no room in the journal. After another error it stays as it is.
    pub fn stop_after(&mut self, error: &DeskError)
        requires { MayStopAfter self.old error.now }
        ensures { self.new ≡ record self.old { halt = halt_after self.old.halt error.now } }
    {
        match error {
            DeskError::OutOfMemory => self.stop(Halt::Memory),
            DeskError::JournalFull(count) => self.stop(Halt::Full(*count)),
            DeskError::Refused(_) | DeskError::Stopped(_) => {}
        }
    }

    // Does a session's event, and journals it.
    pub(crate) fn perform(
        &mut self,
        alloc: Global,
        actor: u32,
        event: Event,
    ) -> Result<Reply, DeskError>
        requires caller { may_call (state_of self.old) actor event ≡ true }
        requires legal { is_event event ≡ true }
        requires step { is_session_step (state_of self.old) event ≡ true }
        ensures ok { IfOk result (λ reply. Did self.old self.new actor event reply) }
        ensures err { IfErr result (λ error. Failed self.old self.new actor event error) }
        ensures journaled { IfErr result (λ error. is_refusal error ≡ false) }
    {
        self.check_room(actor, &event)?;
        self.journal.reserve(1)?;
        let made = self.machine.perform(alloc, actor, &event)?;
        self.journal.push(Entry {
            actor,
            event,
            reply: made.kept,
            settled: made.settled,
        });
        Ok(made.given)
    }
}
