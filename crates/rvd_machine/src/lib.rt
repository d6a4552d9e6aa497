//! The machine of one thread, as definitions: what every call of the desk answers, and what it makes of the state.
//!
//! The definitions stand in `specs/`: `Enabled` (which analyzers work, and which of their items join a queue), `State` (the
//! state, at the start and what is asked of it), `Verdicts` (what becomes of the items of a job that is offered), `Moves`
//! (what each event makes of the state), `Replies` (the first refusal in order, or else the reply), `Exact` (the one reply
//! to an offer of given proposals), `Ranges` (what the types of a reply keep), `Steps` (which entries are steps, which
//! journals are legal, and the state that a journal leads to), `Rooms` (that the rooms that a journal keeps are there),
//! `Sound` (that no event is lost), `Running` (what stays while a journal goes on), and `Effects` (what one entry makes of the
//! state, without the cases).
//!
//! Laws of all legal journals:
//!
//! * [`journals_are_bounded`] bounds what a state has.
//! * [`rooms_are_kept`] says that each live entry can end and each open session close, however long the journal is.
//! * [`no_event_is_lost`] says that while a whole analysis stands, whatever an analyzer would change waits for it.
//! * [`settled_is_closed`] says that where an analysis ends, no analyzer would change the committed program.
//! * [`joined_changes_spare`] says that what joins are its rule's changes, which leave what is protected as it was.
//! * [`base_is_told_by_steps`] says which program a read of so many steps has, and [`steps_stay`] that steps are only added.
//! * [`history_is_moved`] says what moves the committed programs: undo, redo and commits alone.
//! * [`refused_counts_alone`] says that a refused event adds its own entry and changes nothing else.
//! * [`jobs_stay`] says that the job of a ticket stays as it was given or is gone, and [`finish_stays`] that workers which are
//!   finished stay so.
//!
//! [`exact_offers_are_legal`] and [`made_offers_are_proper`] are laws of the desk's own reply to an offer: the latter of
//! proposals that were made on the job's own program (`Proper`).
#![tactic(auto)]

ghost use Rattle.rvd_machine.specs.Effects.{HistoryIsMoved, RefusedCountsAlone};
ghost use Rattle.rvd_machine.specs.Exact.{ExactIsLegal, ExactIsOne};
ghost use Rattle.rvd_machine.specs.Rooms.{LegalKeepsRooms};
ghost use Rattle.rvd_machine.specs.Proper.{MadeIsProper};
ghost use Rattle.rvd_machine.specs.Running.{FinishStays, JobIsGiven, JobsStay, StepsStay};
ghost use Rattle.rvd_machine.specs.Sound.{JoinedIsSparing, LegalIsSound, SettledIsClosed};
ghost use Rattle.rvd_machine.specs.Steps.{BaseIsAtSteps, LegalIsBounded};

use rvd_ask::listing_law;
use rvd_edit::{edits_fit, edits_set_no_analysis};
use rvd_wake::analysis_laws;

/// In the state after a legal journal at most 64 entries are live and at most 16 sessions open, the journal's length is
/// counted, and its numbers of entries of transactions and of tickets don't pass it. It has at most two steps for each
/// entry, and the jobs that are taken have rising tickets below the next one and at most 64 items each.
pub fn journals_are_bounded()
    ensures { LegalIsBounded }
{}

/// The journal of each legal state keeps a room for the end of each live entry and for the close of each open session.
pub fn rooms_are_kept()
    ensures { LegalKeepsRooms }
{}

/// In the state after a legal journal all programs are valid. While a whole analysis stands there, each item of an enabled
/// analyzer whose rule has a change on the working program is queued or taken; and where a transaction is open, each whose
/// rule has a change on the committed program is kept.
pub fn no_event_is_lost()
    ensures { LegalIsSound }
{
    analysis_laws();
    listing_law();
    edits_fit();
    edits_set_no_analysis();
}

/// At each entry of a legal journal that names a Settled step, and at each that answers SettledAt, no enabled analyzer would
/// change the committed program.
pub fn settled_is_closed()
    ensures { SettledIsClosed }
{
    analysis_laws();
    listing_law();
    edits_fit();
    edits_set_no_analysis();
}

/// Each item that joins at an offer of a legal journal has the changes of its rule on the working program that it joins, and
/// they leave each protected cell as it was.
pub fn joined_changes_spare()
    ensures { JoinedIsSparing }
{
    analysis_laws();
    listing_law();
    edits_fit();
    edits_set_no_analysis();
}

/// The committed program after a part of a journal is that of its number of steps, however the journal goes on: a read tells
/// its program by that number alone.
pub fn base_is_told_by_steps()
    ensures { BaseIsAtSteps }
{}

/// While a journal goes on, the steps that were noted stay, and more may follow them: their number never falls.
pub fn steps_stay()
    ensures { StepsStay }
{}

/// The committed programs before and after an entry that isn't refused: an undo and a redo move through them, the end of an
/// entry may commit the working program, an offer may commit another one, and every other event leaves them.
pub fn history_is_moved()
    ensures { HistoryIsMoved }
{}

/// A refused event of a legal journal changes nothing but the number of entries, and its entry names no Settled step.
pub fn refused_counts_alone()
    ensures { RefusedCountsAlone }
{}

/// Behind a take its job is there, with the working program on which it was taken. While the legal journal goes on, the job of a
/// ticket that was given keeps its items and its program, or is gone.
pub fn jobs_stay()
    ensures given { JobIsGiven }
    ensures stay { JobsStay }
{
    journals_are_bounded();
}

/// Where all sessions are closed and nothing is open, queued or taken, it stays so however the legal journal goes on.
pub fn finish_stays()
    ensures { FinishStays }
{}

/// The reply to an offer by the first read that differs is one that a legal journal may have, and it is the only one by that
/// rule. The answers in the proposals' reads have the forms of their asks, as those of every proposal have.
pub fn exact_offers_are_legal()
    ensures legal { ExactIsLegal }
    ensures one { ExactIsOne }
{}

/// Where proposals are offered that were made on the job's own program, the desk's reply has a verdict for each item, none of
/// them Foreign, and each Stale one names an ask of its item's rule on that program.
pub fn made_offers_are_proper()
    ensures { MadeIsProper }
{}
