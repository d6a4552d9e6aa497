ghost use Rattle.std.specs.Prelude.{◌≡◌};

use crate::script_lines::{EventLine, ScriptLine};
use rvd_event::Names;
use std::marker::Model;

/// The lines of a script that aren't skipped, in their order.
#[derive(Debug, Drop)]
pub struct Script {
    lines: Vec<ScriptLine>,
}

impl Model for Script {
    ghost use Rattle.std.specs.Prelude.{List};
    ghost use Rattle.rvd_script.specs.declared.script_lines.ScriptLine.{ScriptLine};
    ghost use Rattle.rvd_script.specs.Legal.{IsScript};

    ghost Value = { List ScriptLine };

    ghost view = { λ script. script.lines.items };

    ghost invariant = { λ script. IsScript script.lines.items };
}

impl Script {
    ghost use Rattle.rvd_script.specs.Legal.{IsScript};

    /// The script of these lines.
    pub fn of(list: Vec<ScriptLine>) -> Script
        requires { IsScript list.items }
        ensures { result ≡ list.items }
    {
        Script { lines: list }
    }

    /// The lines in order.
    pub fn lines(&self) -> &[ScriptLine]
        ensures value { result.now ≡ self.now }
        ensures legal { IsScript self.now }
    {
        self.lines.as_slice()
    }
}

/// How many sessions and workers an event file has, and its lines behind the head line that aren't
/// skipped, in their order.
#[derive(Debug, Drop)]
pub struct EventFile {
    names: Names,
    lines: Vec<EventLine>,
}

impl Model for EventFile {
    ghost use Rattle.rvd_script.specs.Legal.{Events, IsFile};

    ghost Value = { Events };

    ghost view = { λ file. record { sessions = file.names.sessions; workers = file.names.workers; lines = file.lines.items } };

    ghost invariant = { λ file. IsFile (record { sessions = file.names.sessions; workers = file.names.workers; lines = file.lines.items }) };
}

impl EventFile {
    ghost use Rattle.rvd_script.specs.Legal.{IsFile};

    /// The event file of these actors and lines.
    pub fn of(names: Names, list: Vec<EventLine>) -> EventFile
        requires { IsFile (record { sessions = names.sessions; workers = names.workers; lines = list.items }) }
        ensures { result ≡ record { sessions = names.sessions; workers = names.workers; lines = list.items } }
    {
        EventFile { names, lines: list }
    }

    /// How many sessions there are, 1 to 16.
    pub fn sessions(&self) -> u32
        ensures value { result ≡ self.now.sessions }
        ensures legal { IsFile self.now }
    {
        self.names.sessions
    }

    /// How many workers there are, at most 8.
    pub fn workers(&self) -> u32
        ensures value { result ≡ self.now.workers }
        ensures legal { IsFile self.now }
    {
        self.names.workers
    }

    /// The lines in order.
    pub fn lines(&self) -> &[EventLine]
        ensures value { result.now ≡ self.now.lines }
        ensures legal { IsFile self.now }
    {
        self.lines.as_slice()
    }
}
