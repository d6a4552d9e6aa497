use rvd_event::{Event, Query};

/// What a line asks for.
#[derive(Debug, Drop)]
pub enum What1 {
    /// A call of the desk.
    Call(Event),
    /// A query, which is no event.
    Ask(Query),
    /// Jobs of at most so many items, each taken and offered, until none is to be had.
    Settle(u32),
}

/// A line of a script that isn't skipped.
#[derive(Debug, Drop)]
pub struct ScriptLine {
    /// The line's number in its file, from 1 on; skipped lines count.
    pub line: u32,
    /// What it asks for.
    pub what: What1,
}

/// A line of an event file that isn't skipped, behind the head line.
#[derive(Debug, Drop)]
pub struct EventLine {
    /// The line's number in its file, from 1 on; skipped lines count.
    pub line: u32,
    /// The actor's number: sessions first, from 1 on, then workers.
    pub actor: u32,
    /// What it asks for.
    pub what: What1,
}
