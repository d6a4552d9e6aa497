ghost use Rattle.std.specs.Prelude.{◌≡◌, IfOk};

use crate::edits::EditRefusal;
use crate::verdicts::VerdictList;
use rvd_ask::Items;
use std::alloc::AllocError;

/// What the desk answers to an event.
#[derive(Debug, Drop)]
pub enum Reply {
    /// The number of the entry of the transaction that began.
    Entry(u64),
    /// How many changes an edit made.
    Changed(u32),
    /// An entry ended; so many are still live.
    Waiting(u32),
    /// The transaction was committed as the step of this number.
    Committed(u64),
    /// The transaction was rolled back.
    RolledBack,
    /// The call made the step of this number.
    StepNo(u64),
    /// The committed program is that after so many steps.
    At(u64),
    /// The analysis was complete at the step of this number.
    SettledAt(u64),
    /// No whole analysis stands.
    Voided,
    /// The session is closed; so many of its entries were aborted.
    Closed(u32),
    /// A job: its ticket and its items.
    Job(u64, Items),
    /// What became of each item of a job.
    Verdicts(VerdictList),
    /// The call is refused.
    Refused(Refusal),
}

/// Why the desk refuses a call.
#[derive(Clone, Copy, Debug, PartialEq, Eq)]
pub enum Refusal {
    /// The actor is no open session.
    NoSession,
    /// The actor has no live entry of a transaction.
    NoTransaction,
    /// As many entries are live as there may be.
    TooManyEntries,
    /// A transaction is open, with so many live entries.
    TransactionOpen(u32),
    /// No transaction can be undone.
    NothingToUndo,
    /// No transaction can be redone.
    NothingToRedo,
    /// The actor has so many live entries.
    HasEntry(u32),
    /// The job of this ticket isn't out.
    Cancelled(u64),
    /// The proposals' items differ from the job's, at this place first.
    Misfit(u32),
    /// The edit is refused.
    Edit(EditRefusal),
}

impl Reply {
    /// An equal reply.
    pub fn copy(&self) -> Result<Reply, AllocError>
        ensures { IfOk result (λ copy. copy ≡ self.now) }
    {
        match self {
            Reply::Entry(number) => Ok(Reply::Entry(*number)),
            Reply::Changed(changes) => Ok(Reply::Changed(*changes)),
            Reply::Waiting(live) => Ok(Reply::Waiting(*live)),
            Reply::Committed(step) => Ok(Reply::Committed(*step)),
            Reply::RolledBack => Ok(Reply::RolledBack),
            Reply::StepNo(step) => Ok(Reply::StepNo(*step)),
            Reply::At(steps) => Ok(Reply::At(*steps)),
            Reply::SettledAt(step) => Ok(Reply::SettledAt(*step)),
            Reply::Voided => Ok(Reply::Voided),
            Reply::Closed(aborted) => Ok(Reply::Closed(*aborted)),
            Reply::Job(ticket, items) => Ok(Reply::Job(*ticket, items.copy()?)),
            Reply::Verdicts(verdicts) => Ok(Reply::Verdicts(verdicts.copy()?)),
            Reply::Refused(refusal) => Ok(Reply::Refused(*refusal)),
        }
    }
}

#[cfg(test)]
mod tests {
    use super::*;
    use crate::{Edit, Event, Names, Query, Step, Verdict};
    use rvd_ask::{Answer, Ask};
    use rvd_fact::{Form, Kind, Text};
    use std::test::Fail;

    fn crosses_threads<T: Send + Sync>() {}

    #[test]
    fn events_and_replies_may_cross_threads() {
        crosses_threads::<Edit>();
        crosses_threads::<EditRefusal>();
        crosses_threads::<Event>();
        crosses_threads::<Names>();
        crosses_threads::<Query>();
        crosses_threads::<Reply>();
        crosses_threads::<Refusal>();
        crosses_threads::<Step>();
        crosses_threads::<Verdict>();
        crosses_threads::<VerdictList>();
    }

    #[test]
    fn parts_of_edits_have_their_ranges(rt: HostRuntime) {
        for (edit, is_legal) in [
            (Edit::Datum(0x12000, Form::Str(0)), false),
            (Edit::Datum(0x12000, Form::Str(256)), true),
            (Edit::Datum(0x12000, Form::Str(257)), false),
            (Edit::Remove(Kind::Unit, 0x12000, 0), false),
            (Edit::Release(Kind::Unit, 0x12000, 0), true),
            (Edit::Remove(Kind::Ref, 0x12000, 63), true),
            (Edit::Remove(Kind::Ref, 0x12000, 64), false),
        ] {
            assert_eq!(rt; edit.is_legal(), is_legal, "of {edit:?}");
        }
    }

    #[test]
    fn events_and_replies_are_copied_with_ample_memory(rt: HostRuntime) -> Result<(), Fail> {
        let text = Text::of(rt.alloc(), vec![in rt.alloc(); b'h', b'i']?)?;
        let event = Event::Edit(Edit::Comment(0x10054, 2, text));
        let copy = event.copy()?;
        assert_eq!(rt;
            format!(in rt.alloc(); "{copy:?}")?.as_str(),
            format!(in rt.alloc(); "{event:?}")?.as_str()
        );

        let verdict = Verdict::Stale {
            ask: Ask::Cover(0x10054),
            was: Answer::At(None),
            now: Answer::At(Some(0x10054)),
        };
        let verdicts = VerdictList::of(rt.alloc(), vec![in rt.alloc(); verdict]?)?;
        let reply = Reply::Verdicts(verdicts);
        let copy = reply.copy()?;
        assert_eq!(rt;
            format!(in rt.alloc(); "{copy:?}")?.as_str(),
            format!(in rt.alloc(); "{reply:?}")?.as_str()
        );
        Ok(())
    }
}
