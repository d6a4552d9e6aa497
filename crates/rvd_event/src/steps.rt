ghost use Rattle.std.specs.Prelude.{◌≡◌, IfOk};

use rvd_ask::Analyzer;
use rvd_fact::Text;
use std::alloc::AllocError;

/// A step of the history. Each but the last names the actor whose call made it.
#[derive(Debug, Drop)]
pub enum Step {
    /// A transaction was committed, with its opener's text and so many changes.
    Commit {
        actor: u32,
        text: Text,
        changes: u64,
    },
    /// A transaction was undone.
    Undo(u32),
    /// A transaction was redone.
    Redo(u32),
    /// A whole analysis was asked for.
    Full(u32),
    /// The analysis was cancelled.
    Cancel(u32),
    /// An analyzer was enabled (true) or disabled.
    Enable(u32, Analyzer, bool),
    /// The analysis is complete.
    Settled,
}

impl Step {
    /// An equal step.
    pub fn copy(&self) -> Result<Step, AllocError>
        ensures { IfOk result (λ copy. copy ≡ self.now) }
    {
        match self {
            Step::Commit {
                actor,
                text,
                changes,
            } => Ok(Step::Commit {
                actor: *actor,
                text: text.copy()?,
                changes: *changes,
            }),
            Step::Undo(actor) => Ok(Step::Undo(*actor)),
            Step::Redo(actor) => Ok(Step::Redo(*actor)),
            Step::Full(actor) => Ok(Step::Full(*actor)),
            Step::Cancel(actor) => Ok(Step::Cancel(*actor)),
            Step::Enable(actor, analyzer, on) => Ok(Step::Enable(*actor, *analyzer, *on)),
            Step::Settled => Ok(Step::Settled),
        }
    }
}
