ghost use Rattle.std.specs.Prelude.{◌≡◌, IfOk};

use crate::edits::Edit;
use rvd_ask::Analyzer;
use rvd_fact::Text;
use std::alloc::AllocError;

/// A call of the desk. The last two are those of workers, the others those of sessions.
#[derive(Debug, Drop)]
pub enum Event {
    /// Opens a transaction with a text, or joins the open one.
    Begin(Text),
    /// Edits the program in the open transaction.
    Edit(Edit),
    /// Ends the actor's newest entry of the transaction: true commits, false aborts.
    End(bool),
    /// Undoes the last transaction.
    Undo,
    /// Redoes the transaction that was undone last.
    Redo,
    /// Asks for a whole analysis.
    Full,
    /// Cancels the analysis.
    Cancel,
    /// Enables (true) or disables an analyzer.
    Enable(Analyzer, bool),
    /// Reads the committed program.
    Read,
    /// Waits for the end of the analysis.
    Wait,
    /// Closes the session.
    Close,
    /// Takes a job of at most so many items.
    Take(u32),
    /// Offers proposals for the job of a ticket.
    Offer(u64),
}

impl Event {
    /// An equal event.
    pub fn copy(&self) -> Result<Event, AllocError>
        ensures { IfOk result (λ copy. copy ≡ self.now) }
    {
        match self {
            Event::Begin(text) => Ok(Event::Begin(text.copy()?)),
            Event::Edit(edit) => Ok(Event::Edit(edit.copy()?)),
            Event::End(commit) => Ok(Event::End(*commit)),
            Event::Undo => Ok(Event::Undo),
            Event::Redo => Ok(Event::Redo),
            Event::Full => Ok(Event::Full),
            Event::Cancel => Ok(Event::Cancel),
            Event::Enable(analyzer, on) => Ok(Event::Enable(*analyzer, *on)),
            Event::Read => Ok(Event::Read),
            Event::Wait => Ok(Event::Wait),
            Event::Close => Ok(Event::Close),
            Event::Take(count) => Ok(Event::Take(*count)),
            Event::Offer(ticket) => Ok(Event::Offer(*ticket)),
        }
    }
}
