ghost use Rattle.std.specs.Prelude.{◌≡◌, ◌&&◌, ◌||◌, ◌==◌, ◌<◌, ◌^◌, true, not, length, IfOk};
ghost use Rattle.rvd_ask.specs.Unsettled.{candidates};
ghost use Rattle.rvd_event.specs.declared.edits.Edit.{Edit as AnEdit};
ghost use Rattle.rvd_event.specs.declared.steps.Step.{Step as AStep};
ghost use Rattle.rvd_machine.specs.Moves.{closed, edited, ended_in, filled, settled_step, stepped, turned_off, turned_on};
ghost use Rattle.rvd_machine.specs.State.{base, is_doomed, work};
ghost use Rattle.rvd_admission.specs.Looks.{IsAfter, after_commit, after_rollback, is_sessions, stands};

use crate::previews::live_after_end;
use rvd_ask::Analyzer;
use rvd_engine::{Machine, settled_if};
use rvd_event::Event;
use rvd_wake::candidates;
use std::alloc::{AllocError, Global};

// The number of steps.
fn steps(machine: &Machine) -> u64
    ensures steps { result ≡ length machine.now.steps }
    ensures few { result < 2 ^ 63 }
{
    machine.steps().len() as u64
}

// After a rollback of the open transaction.
fn after_rollback(machine: &Machine) -> Option<u64>
    ensures { result ≡ after_rollback machine.now }
{
    let none_queued = machine.kept() == 0 && machine.queued() == 0;
    let settles = machine.is_whole() && machine.is_due() && none_queued && machine.taken() == 0;
    settled_if(settles, steps(machine))
}

// After its commit.
fn after_commit(machine: &Machine) -> Option<u64>
    ensures { result ≡ after_commit machine.now }
{
    let settles = machine.is_whole() && machine.queued() == 0 && machine.taken() == 0;
    settled_if(settles, steps(machine) + 1)
}

// After an edit, in the open transaction.
fn after_edit(machine: &Machine) -> Option<u64>
    ensures { (edit : AnEdit) → settled_step (edited machine.now edit) ≡ result }
{
    if machine.is_open() {
        None
    } else {
        machine.settled_step()
    }
}

// Whether the open transaction can only be rolled back after an end.
fn is_lost(machine: &Machine, keep: bool) -> bool
    ensures { result ≡ (is_doomed machine.now.current || not keep) }
{
    machine.is_doomed() || !keep
}

// After an end.
fn after_end(machine: &Machine, actor: u32, keep: bool) -> Option<u64>
    ensures { settled_step (ended_in machine.now actor keep machine.now.current) ≡ result }
{
    if !machine.is_open() {
        machine.settled_step()
    } else if live_after_end(machine, actor) > 0 {
        None
    } else if is_lost(machine, keep) {
        after_rollback(machine)
    } else {
        after_commit(machine)
    }
}

// After a close.
fn after_close(machine: &Machine, actor: u32) -> Option<u64>
    ensures { settled_step (closed machine.now actor) ≡ result }
{
    if !machine.is_open() {
        return machine.settled_step();
    }
    let ended = machine.live_of(actor);
    if ended == 0 {
        return None;
    }
    if ended != machine.live() {
        return None;
    }
    after_rollback(machine)
}

// After a call for a whole analysis.
fn after_full(machine: &Machine, alloc: Global) -> Result<Option<u64>, AllocError>
    ensures { IfOk result (λ noted. (step : AStep) → settled_step (stepped (filled machine.now) step) ≡ noted) }
{
    if !machine.is_quiet() {
        return Ok(None);
    }
    let none = machine.finds_nothing(alloc)?;
    Ok(settled_if(none, steps(machine) + 1))
}

// Whether an analyzer has no candidate in the working and in the committed program.
fn finds_none(machine: &Machine, alloc: Global, analyzer: Analyzer) -> Result<bool, AllocError>
    ensures { IfOk result (λ none. none ≡ (length (candidates (work machine.now) analyzer) == 0 && length (candidates (base machine.now) analyzer) == 0)) }
{
    let of_work = candidates(alloc, machine.work(), analyzer)?;
    let of_base = candidates(alloc, machine.base(), analyzer)?;
    Ok(of_work.is_empty() && of_base.is_empty())
}

// After an analyzer is enabled.
fn after_turn_on(
    machine: &Machine,
    alloc: Global,
    analyzer: Analyzer,
) -> Result<Option<u64>, AllocError>
    ensures { IfOk result (λ noted. (step : AStep) → settled_step (stepped (turned_on machine.now analyzer) step) ≡ noted) }
{
    if !machine.is_whole() {
        return Ok(None);
    }
    if !machine.is_quiet() {
        return Ok(None);
    }
    let none = finds_none(machine, alloc, analyzer)?;
    Ok(settled_if(none, steps(machine) + 1))
}

// Whether the end of an analysis is due, and nothing is open or taken.
fn stands(machine: &Machine) -> bool
    ensures { result ≡ stands machine.now }
{
    machine.is_whole() && machine.is_due() && !machine.is_open() && machine.taken() == 0
}

// After an analyzer is disabled.
fn after_turn_off(machine: &Machine, analyzer: Analyzer) -> Option<u64>
    ensures { (step : AStep) → settled_step (stepped (turned_off machine.now analyzer) step) ≡ result }
{
    if !stands(machine) {
        return None;
    }
    let none = machine.queued_of_others(analyzer) == 0;
    settled_if(none, steps(machine) + 1)
}

/// The number of the Settled step that follows a session's event that isn't refused, where one does. Only want of memory
/// refuses it.
pub fn settled_after(
    machine: &Machine,
    alloc: Global,
    actor: u32,
    event: &Event,
) -> Result<Option<u64>, AllocError>
    requires { is_sessions event.now ≡ true }
    ensures { IfOk result (IsAfter machine.now actor event.now) }
{
    match event {
        Event::Begin(_) | Event::Undo | Event::Redo | Event::Cancel => Ok(None),
        Event::Edit(_) => Ok(after_edit(machine)),
        Event::End(keep) => Ok(after_end(machine, actor, *keep)),
        Event::Full => after_full(machine, alloc),
        Event::Enable(analyzer, on) => {
            if *on {
                after_turn_on(machine, alloc, *analyzer)
            } else {
                Ok(after_turn_off(machine, *analyzer))
            }
        }
        Event::Read | Event::Wait => Ok(machine.settled_step()),
        Event::Close => Ok(after_close(machine, actor)),
        Event::Take(_) | Event::Offer(_) => unreachable!(),
    }
}
