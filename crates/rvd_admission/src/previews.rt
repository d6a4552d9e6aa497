ghost use Rattle.std.specs.Prelude.{◌≡◌, ℕ, Bool, true, false, List, Some, IfOk};
ghost use Rattle.rvd_ask.specs.declared.asks.Analyzer.{Analyzer as AnAnalyzer};
ghost use Rattle.rvd_event.specs.declared.events.Event.TheVariants as event;
ghost use Rattle.rvd_machine.specs.Replies.{is_not_yet, next_step, reply_to};
ghost use Rattle.rvd_engine.specs.Performed.{is_plain, is_session_step};
ghost use Rattle.rvd_admission.specs.Looks.{live_after_end};

use rvd_edit::{EditError, changes_of};
use rvd_engine::Machine;
use rvd_event::{Edit, Event, Refusal, Reply};
use rvd_trans::MOST_LIVE;
use std::alloc::{AllocError, Global};

/// How many entries are live after an end.
pub fn live_after_end(machine: &Machine, actor: u32) -> u32
    ensures { result ≡ live_after_end machine.now actor }
{
    let live = machine.live();
    if machine.live_of(actor) > 0 {
        live - 1
    } else {
        live
    }
}

fn reply_to_begin(machine: &Machine, actor: u32) -> Reply
    ensures said { (text : List ℕ) → reply_to machine.now actor (event.Begin text) ≡ Some result }
    ensures plain { is_plain result ≡ true }
{
    if !machine.is_session(actor) {
        Reply::Refused(Refusal::NoSession)
    } else if machine.live() >= MOST_LIVE {
        Reply::Refused(Refusal::TooManyEntries)
    } else {
        Reply::Entry(machine.next_entry())
    }
}

fn reply_to_edit(
    machine: &Machine,
    alloc: Global,
    actor: u32,
    edit: &Edit,
) -> Result<Reply, AllocError>
    ensures said { IfOk result (λ reply. reply_to machine.now actor (event.Edit edit.now) ≡ Some reply) }
    ensures plain { IfOk result (λ reply. is_plain reply ≡ true) }
{
    if !machine.is_session(actor) {
        return Ok(Reply::Refused(Refusal::NoSession));
    }
    if machine.live_of(actor) == 0 {
        return Ok(Reply::Refused(Refusal::NoTransaction));
    }
    match changes_of(alloc, machine.work(), edit) {
        Ok(changes) => Ok(Reply::Changed(changes.len() as u32)),
        Err(EditError::Refused(refusal)) => Ok(Reply::Refused(Refusal::Edit(refusal))),
        Err(EditError::OutOfMemory) => Err(AllocError),
    }
}

fn reply_to_end(machine: &Machine, actor: u32, keep: bool) -> Reply
    ensures said { reply_to machine.now actor (event.End keep) ≡ Some result }
    ensures plain { is_plain result ≡ true }
{
    if !machine.is_session(actor) {
        return Reply::Refused(Refusal::NoSession);
    }
    if machine.live_of(actor) == 0 {
        return Reply::Refused(Refusal::NoTransaction);
    }
    let live = live_after_end(machine, actor);
    if live > 0 {
        Reply::Waiting(live)
    } else if machine.is_doomed() || !keep {
        Reply::RolledBack
    } else {
        Reply::Committed(next_step(machine))
    }
}

// The number of the next step.
fn next_step(machine: &Machine) -> u64
    ensures { result ≡ next_step machine.now }
{
    machine.steps().len() as u64 + 1
}

fn reply_to_undo(machine: &Machine, actor: u32) -> Reply
    ensures said { reply_to machine.now actor event.Undo ≡ Some result }
    ensures plain { is_plain result ≡ true }
{
    if !machine.is_session(actor) {
        Reply::Refused(Refusal::NoSession)
    } else if machine.is_open() {
        Reply::Refused(Refusal::TransactionOpen(machine.live()))
    } else if machine.undoable() == 0 {
        Reply::Refused(Refusal::NothingToUndo)
    } else {
        Reply::StepNo(next_step(machine))
    }
}

fn reply_to_redo(machine: &Machine, actor: u32) -> Reply
    ensures said { reply_to machine.now actor event.Redo ≡ Some result }
    ensures plain { is_plain result ≡ true }
{
    if !machine.is_session(actor) {
        Reply::Refused(Refusal::NoSession)
    } else if machine.is_open() {
        Reply::Refused(Refusal::TransactionOpen(machine.live()))
    } else if machine.redoable() == 0 {
        Reply::Refused(Refusal::NothingToRedo)
    } else {
        Reply::StepNo(next_step(machine))
    }
}

// The reply to an event that is a step of its own whenever its actor is an open session.
fn reply_to_step(machine: &Machine, actor: u32) -> Reply
    ensures full { reply_to machine.now actor event.Full ≡ Some result }
    ensures cancel { reply_to machine.now actor event.Cancel ≡ Some result }
    ensures enable { (a : AnAnalyzer) (on : Bool) → reply_to machine.now actor (event.Enable a on) ≡ Some result }
    ensures plain { is_plain result ≡ true }
{
    if machine.is_session(actor) {
        Reply::StepNo(next_step(machine))
    } else {
        Reply::Refused(Refusal::NoSession)
    }
}

fn reply_to_read(machine: &Machine, actor: u32) -> Reply
    ensures said { reply_to machine.now actor event.Read ≡ Some result }
    ensures plain { is_plain result ≡ true }
{
    if machine.is_session(actor) {
        Reply::At(machine.steps().len() as u64)
    } else {
        Reply::Refused(Refusal::NoSession)
    }
}

fn reply_to_wait(machine: &Machine, actor: u32) -> Reply
    requires { is_not_yet machine.now ≡ false }
    ensures said { reply_to machine.now actor event.Wait ≡ Some result }
    ensures plain { is_plain result ≡ true }
{
    if !machine.is_session(actor) {
        return Reply::Refused(Refusal::NoSession);
    }
    let live = machine.live_of(actor);
    if live > 0 {
        Reply::Refused(Refusal::HasEntry(live))
    } else if machine.is_whole() {
        Reply::SettledAt(machine.last_settled())
    } else {
        Reply::Voided
    }
}

fn reply_to_close(machine: &Machine, actor: u32) -> Reply
    ensures said { reply_to machine.now actor event.Close ≡ Some result }
    ensures plain { is_plain result ≡ true }
{
    if machine.is_session(actor) {
        Reply::Closed(machine.live_of(actor))
    } else {
        Reply::Refused(Refusal::NoSession)
    }
}

/// The reply that a session's event has here: of numbers alone. Only want of memory refuses it.
pub fn reply_to(
    machine: &Machine,
    alloc: Global,
    actor: u32,
    event: &Event,
) -> Result<Reply, AllocError>
    requires { is_session_step machine.now event.now ≡ true }
    ensures said { IfOk result (λ reply. reply_to machine.now actor event.now ≡ Some reply) }
    ensures plain { IfOk result (λ reply. is_plain reply ≡ true) }
{
    match event {
        Event::Begin(_) => Ok(reply_to_begin(machine, actor)),
        Event::Edit(edit) => reply_to_edit(machine, alloc, actor, edit),
        Event::End(keep) => Ok(reply_to_end(machine, actor, *keep)),
        Event::Undo => Ok(reply_to_undo(machine, actor)),
        Event::Redo => Ok(reply_to_redo(machine, actor)),
        Event::Full | Event::Cancel | Event::Enable(_, _) => Ok(reply_to_step(machine, actor)),
        Event::Read => Ok(reply_to_read(machine, actor)),
        Event::Wait => Ok(reply_to_wait(machine, actor)),
        Event::Close => Ok(reply_to_close(machine, actor)),
        Event::Take(_) | Event::Offer(_) => unreachable!(),
    }
}
