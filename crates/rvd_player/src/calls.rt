ghost use Rattle.std.specs.Prelude.{◌≡◌, ◌≤◌, true, length, OnOk, IfErr};
ghost use Rattle.rvd_event.specs.declared.events.Event.TheVariants as event;
ghost use Rattle.rvd_machine.specs.Steps.{may_call};
ghost use Rattle.rvd_script.specs.Legal.{is_session_event};
ghost use Rattle.rvd_desk.specs.Story.{state_of};
ghost use Rattle.rvd_player.specs.Lines.{CallFails, is_answered, is_callable, IsRead, IsUnlessRefused, PlaysCall, PlaysSeeing};

use crate::reads::note_read;
use rvd_desk::{Desk, DeskError, Snapshot};
use rvd_event::Event;
use rvd_settle::offer_taken;
use std::alloc::Global;

// Whether an event is a session's that is always answered, by a reply that shows no program.
fn is_answered(event: &Event) -> bool
    ensures { result ≡ is_answered event.now }
{
    !matches!(
        event,
        Event::Read | Event::Wait | Event::Take(_) | Event::Offer(_)
    )
}

// A refused call is made too.
fn unless_refused(error: DeskError) -> Result<(), DeskError>
    ensures { IsUnlessRefused error result }
{
    match error {
        DeskError::Refused(_) => Ok(()),
        DeskError::JournalFull(count) => Err(DeskError::JournalFull(count)),
        DeskError::Stopped(halt) => Err(DeskError::Stopped(halt)),
        DeskError::OutOfMemory => Err(DeskError::OutOfMemory),
    }
}

// Makes the call of a session's event, but a read and a wait. A refused call is made too.
fn make_call(alloc: Global, desk: &mut Desk, actor: u32, event: &Event) -> Result<(), DeskError>
    requires caller { may_call (state_of desk.old) actor event.now ≡ true }
    requires legal { is_session_event event.now ≡ true }
    requires answered { is_answered event.now ≡ true }
    ensures ok { OnOk result (PlaysCall desk.old actor event.now desk.new) }
    ensures err { IfErr result (λ error. CallFails desk.old desk.new actor event.now error) }
{
    desk.call(alloc, actor, event.copy()?)?;
    Ok(())
}

// A wait, which is left out where it goes on.
fn wait(alloc: Global, desk: &mut Desk, actor: u32) -> Result<(), DeskError>
    requires { may_call (state_of desk.old) actor event.Wait ≡ true }
    ensures ok { OnOk result (PlaysCall desk.old actor event.Wait desk.new) }
    ensures err { IfErr result (λ error. CallFails desk.old desk.new actor event.Wait error) }
{
    let Err(error) = desk.wait_test(alloc, actor) else {
        return Ok(());
    };
    unless_refused(error)
}

// A take, which is left out where it gives no job.
fn take(alloc: Global, desk: &mut Desk, actor: u32, n: u32) -> Result<(), DeskError>
    requires caller { may_call (state_of desk.old) actor (event.Take n) ≡ true }
    requires number { (1 ≤ n) × (n ≤ 64) }
    ensures ok { OnOk result (PlaysCall desk.old actor (event.Take n) desk.new) }
    ensures err { IfErr result (λ error. CallFails desk.old desk.new actor (event.Take n) error) }
{
    let Err(error) = desk.take(alloc, actor, n) else {
        return Ok(());
    };
    unless_refused(error)
}

// An offer of what the analyzers propose for the job of a ticket.
fn offer(alloc: Global, desk: &mut Desk, actor: u32, ticket: u64) -> Result<(), DeskError>
    requires { may_call (state_of desk.old) actor (event.Offer ticket) ≡ true }
    ensures ok { OnOk result (PlaysCall desk.old actor (event.Offer ticket) desk.new) }
    ensures err { IfErr result (λ error. CallFails desk.old desk.new actor (event.Offer ticket) error) }
{
    let Err(error) = offer_taken(alloc, desk, actor, ticket) else {
        return Ok(());
    };
    unless_refused(error)
}

// A read. Its session then sees the committed program, where the read isn't refused.
fn read(
    alloc: Global,
    desk: &mut Desk,
    seen: &mut [Option<Snapshot>],
    actor: u32,
) -> Result<(), DeskError>
    requires caller { may_call (state_of desk.old) actor event.Read ≡ true }
    requires session { (1 ≤ actor) × (actor ≤ length seen.old) }
    ensures ok { OnOk result (PlaysSeeing desk.old seen.old actor event.Read desk.new seen.new) }
    ensures err { IfErr result (λ error. CallFails desk.old desk.new actor event.Read error) }
{
    match desk.read(alloc, actor) {
        Ok(snapshot) => {
            note_read(seen, actor, snapshot);
            Ok(())
        }
        Err(error) => unless_refused(error),
    }
}

// Makes the call of an event, but a read.
fn perform_unseen(
    alloc: Global,
    desk: &mut Desk,
    actor: u32,
    event: &Event,
) -> Result<(), DeskError>
    requires caller { may_call (state_of desk.old) actor event.now ≡ true }
    requires legal { is_callable event.now ≡ true }
    requires unseen { IsRead event.now → ⊥ }
    ensures ok { OnOk result (PlaysCall desk.old actor event.now desk.new) }
    ensures err { IfErr result (λ error. CallFails desk.old desk.new actor event.now error) }
{
    if is_answered(event) {
        return make_call(alloc, desk, actor, event);
    }
    match event {
        Event::Wait => wait(alloc, desk, actor),
        Event::Take(n) => take(alloc, desk, actor, *n),
        Event::Offer(ticket) => offer(alloc, desk, actor, *ticket),
        _ => unreachable!(),
    }
}

/// Makes the call of an event. It is left out where it is a wait that goes on or a take that gives no job; a refused call is
/// made too. `seen` has what each session has read.
pub(crate) fn perform(
    alloc: Global,
    desk: &mut Desk,
    seen: &mut [Option<Snapshot>],
    actor: u32,
    event: &Event,
) -> Result<(), DeskError>
    requires caller { may_call (state_of desk.old) actor event.now ≡ true }
    requires legal { is_callable event.now ≡ true }
    requires session { IsRead event.now → (1 ≤ actor) × (actor ≤ length seen.old) }
    ensures ok { OnOk result (PlaysSeeing desk.old seen.old actor event.now desk.new seen.new) }
    ensures err { IfErr result (λ error. CallFails desk.old desk.new actor event.now error) }
{
    match event {
        Event::Read => read(alloc, desk, seen, actor),
        _ => perform_unseen(alloc, desk, actor, event),
    }
}
