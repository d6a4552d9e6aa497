//! What a session does with the desk while it has the turn.
ghost use Rattle.std.specs.Prelude.{◌≡◌, ◌≤◌, true, IfOk, IfErr, OnErr};
ghost use Rattle.rvd_machine.specs.Steps.{IsLegal, may_call};
ghost use Rattle.rvd_desk.specs.Calls.{Did, Failed, is_called};
ghost use Rattle.rvd_desk.specs.Shown.{latest as latest_of, shown_by};
ghost use Rattle.rvd_desk.specs.Story.{state_of};
ghost use Rattle.rvd_desk.specs.Turns.{Unmade};
ghost use Rattle.rvd_session.specs.Sitting.{WaitMade};

use rvd_desk::{Desk, DeskError, Snapshot, Waited};
use rvd_event::{Event, Reply};
use rvd_machine::journals_are_bounded;
use std::alloc::Global;

// Makes the call of a session's event but a wait. A read that isn't refused is the latest.
fn make(
    alloc: Global,
    desk: &mut Desk,
    actor: u32,
    event: Event,
    latest: &mut Snapshot,
) -> Result<Reply, DeskError>
    requires caller { may_call (state_of desk.old) actor event ≡ true }
    requires legal { is_called event ≡ true }
    ensures ok { IfOk result (λ reply. Did desk.old desk.new actor event reply) }
    ensures read { IfOk result (λ reply. latest.new ≡ latest_of latest.old (shown_by (state_of desk.old) event reply)) }
    ensures err { IfErr result (λ error. Failed desk.old desk.new actor event error) }
    ensures kept { OnErr result (latest.new ≡ latest.old) }
{
    if !matches!(event, Event::Read) {
        return desk.call(alloc, actor, event);
    }
    let snapshot = desk.read(alloc, actor)?;
    let steps = snapshot.steps();
    *latest = snapshot;
    Ok(Reply::At(steps))
}

/// Makes the call of a session's event but a wait: the reply, a refusal too. Where the desk doesn't answer it is stopped.
pub(crate) fn make_call(
    alloc: Global,
    desk: &mut Desk,
    actor: u32,
    event: Event,
    latest: &mut Snapshot,
) -> Result<Reply, DeskError>
    requires actor { (1 ≤ actor) × (actor ≤ desk.old.head.sessions) }
    requires legal { is_called event ≡ true }
    ensures ok { IfOk result (λ reply. Did desk.old desk.new actor event reply) }
    ensures read { IfOk result (λ reply. latest.new ≡ latest_of latest.old (shown_by (state_of desk.old) event reply)) }
    ensures err { IfErr result (λ error. Unmade desk.old desk.new actor event error) }
    ensures kept { OnErr result (latest.new ≡ latest.old) }
    ensures legal { IsLegal desk.old.head desk.old.journal }
{
    journals_are_bounded();
    // The status tells that the journal is legal, and for which cause the desk may be stopped.
    let _ = desk.status();
    match make(alloc, desk, actor, event, latest) {
        Ok(reply) => Ok(reply),
        Err(DeskError::Refused(refusal)) => Ok(Reply::Refused(refusal)),
        Err(error) => {
            desk.stop_after(&error);
            Err(error)
        }
    }
}

/// Tries a wait: None while it goes on, and else the reply, a refusal too. Where the desk doesn't answer it is stopped.
pub(crate) fn try_wait(
    alloc: Global,
    desk: &mut Desk,
    actor: u32,
) -> Option<Result<Reply, DeskError>>
    requires actor { (1 ≤ actor) × (actor ≤ desk.old.head.sessions) }
    ensures made { WaitMade desk.old desk.new actor result }
    ensures legal { IsLegal desk.old.head desk.old.journal }
{
    journals_are_bounded();
    // The status tells that the journal is legal, and for which cause the desk may be stopped.
    let _ = desk.status();
    match desk.wait_test(alloc, actor) {
        Ok(Waited::NotYet) => None,
        Ok(Waited::Settled(step)) => Some(Ok(Reply::SettledAt(step))),
        Ok(Waited::Voided) => Some(Ok(Reply::Voided)),
        Err(DeskError::Refused(refusal)) => Some(Ok(Reply::Refused(refusal))),
        Err(error) => {
            desk.stop_after(&error);
            Some(Err(error))
        }
    }
}
