ghost use Rattle.std.specs.Prelude.{◌≡◌, [], ◌∷◌, vec_len, vec_capacity, ◌++◌, ◌+◌, ◌≤◌, ◌<◌, List, length, Some, true, OnOk, OnErr};
ghost use Rattle.std.specs.List.{list_all};
ghost use Rattle.rvd_fact.specs.Program.{applied_all};
ghost use Rattle.rvd_fact.specs.Valid.{Fits};
ghost use Rattle.rvd_ask.specs.declared.asks.Item.{Item as AnItem};
ghost use Rattle.rvd_machine.specs.Enabled.{woken_into};
ghost use Rattle.rvd_machine.specs.Moves.{commit_step};
ghost use Rattle.rvd_undo.specs.History.{after_commit};
ghost use Rattle.rvd_undo.specs.Records.{Stands, history};
ghost use Rattle.rvd_engine.specs.Inside.{enabled_of, open_in, LeadsFrom, wakes_nothing};

use crate::switches::Switches;
use rvd_ask::listing_law;
use rvd_event::Step;
use rvd_fact::{Change, Kind};
use rvd_judge::apply_in_turn;
use rvd_program::Program;
use rvd_queue::Queues;
use rvd_trans::Joint;
use rvd_undo::Undos;
use std::alloc::{AllocError, Global};

/// An open transaction with its working program.
#[derive(Drop)]
pub struct Working {
    pub(crate) work: Program,
    pub(crate) joint: Joint,
}

/// Notes changes in the room for them.
pub(crate) fn note_all(joint: &mut Joint, changes: Vec<Change>)
    requires { length changes.items ≤ joint.old.spare }
    ensures { joint.new ≡ record joint.old { changes = joint.old.changes ++ changes.items; spare = joint.new.spare } }
{
    for change in changes {
        joint.note(change);
    }
}

/// Applies changes to a working program, and queues what they wake. Only want of memory refuses it, and then both are as
/// before.
pub(crate) fn change_work(
    alloc: Global,
    work: &mut Program,
    queues: &mut Queues,
    enabled: Switches,
    changes: &[Change],
) -> Result<(), AllocError>
    requires { Fits work.old changes.now }
    ensures work { OnOk result (work.new ≡ applied_all work.old changes.now) }
    ensures queued { OnOk result (queues.new ≡ record queues.old { queued = woken_into (enabled_of enabled) work.old changes.now queues.old.queued }) }
    ensures err { OnErr result ((work.new ≡ work.old) × (queues.new ≡ queues.old)) }
{
    if all_wake_nothing(changes) {
        return change_quietly(work, enabled, changes);
    }
    let mut next = work.copy()?;
    let mut woken = Vec::new(alloc);
    let list = enabled.list(alloc)?;
    apply_in_turn(alloc, &mut next, &list, changes, &mut woken)?;
    queues.add_all(&woken, &[])?;
    *work = next;
    Ok(())
}

// Applies changes that wake nothing: they need no copy of the program.
fn change_quietly(
    work: &mut Program,
    enabled: Switches,
    changes: &[Change],
) -> Result<(), AllocError>
    requires fits { Fits work.old changes.now }
    requires quiet { list_all wakes_nothing changes.now ≡ true }
    ensures work { OnOk result (work.new ≡ applied_all work.old changes.now) }
    ensures queued { (queue : List AnItem) → woken_into (enabled_of enabled) work.old changes.now queue ≡ queue }
    ensures err { OnErr result (work.new ≡ work.old) }
{
    let _ = enabled;
    listing_law();
    work.apply(changes)
}

fn all_wake_nothing(changes: &[Change]) -> bool
    ensures { result ≡ list_all wakes_nothing changes.now }
{
    changes.iter().all(|change| wakes_nothing(change))
}

// Whether a change wakes nothing, whatever the program: it is one of a name or of a comment.
fn wakes_nothing(change: &Change) -> bool
    ensures { result ≡ wakes_nothing change.now }
{
    matches!(change.key.kind, Kind::Symbol | Kind::Comment)
}

/// A transaction is committed, in the room for its record and its step.
#[tactic(auto, using(crate::proofs::Committing::committed))]
pub(crate) fn commit(base: &mut Program, undos: &mut Undos, steps: &mut Vec<Step>, working: Working)
    requires stands { Stands base.old undos.old.records }
    requires leads { LeadsFrom base.old (Some working) }
    requires room { 0 < undos.old.spare }
    requires step { vec_len steps.old + 1 < vec_capacity steps.old }
    ensures base { base.new ≡ working.work }
    ensures stands { Stands base.new undos.new.records }
    ensures history { history base.new undos.new.records ≡ after_commit (history base.old undos.old.records) working.work }
    ensures step { (kept : List AnItem) → steps.new.items ≡ steps.old.items ++ commit_step (open_in kept working) ∷ [] }
    ensures room_left { vec_len steps.new < vec_capacity steps.new }
{
    let Working { work, joint } = working;
    let (actor, text, changes) = joint.into_parts();
    let count = changes.len() as u64;
    match undos.push(changes) {
        Ok(()) => {
            *base = work;
            steps.push_reserved(Step::Commit {
                actor,
                text,
                changes: count,
            });
        }
        Err(_) => unreachable!(),
    }
}
