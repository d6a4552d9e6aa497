//! What a worker does in one turn.
ghost use Rattle.std.specs.Prelude.{◌≡◌, ◌≤◌, true, false, IfOk, IfErr};
ghost use Rattle.rvd_machine.specs.Steps.{IsLegal, is_worker, start_of};
ghost use Rattle.rvd_desk.specs.Calls.{OfferedBy, TookBy};
ghost use Rattle.rvd_desk.specs.Turns.{Looked, SameStory};
ghost use Rattle.rvd_work.specs.Working.{IsWorker, OfferedIn, TookTurn};

use rvd_ask::Proposal;
use rvd_desk::{Desk, DeskError, Halt, Took};
use rvd_event::Reply;
use rvd_machine::journals_are_bounded;
use rvd_turn::{Pass, Turn};
use std::alloc::Global;
use std::sync::Wait;

// Takes a job on the desk. Where the desk doesn't answer it is stopped.
fn take_on(alloc: Global, desk: &mut Desk, worker: u32, batch: u32) -> Result<Took, DeskError>
    requires worker { is_worker (start_of desk.old.head) worker ≡ true }
    requires batch { (1 ≤ batch) × (batch ≤ 64) }
    ensures ok { IfOk result (λ took. TookBy desk.old desk.new worker batch took) }
    ensures err { IfErr result (λ error. SameStory desk.old desk.new) }
    ensures legal { IsLegal desk.old.head desk.old.journal }
{
    journals_are_bounded();
    // The status tells that the journal is legal.
    let _ = desk.status();
    let took = desk.take(alloc, worker, batch);
    if let Err(error) = &took {
        desk.stop_after(error);
    }
    took
}

// Offers proposals on the desk: the verdicts, or the refusal. Where the desk doesn't answer it is stopped.
fn offer_on(
    alloc: Global,
    desk: &mut Desk,
    worker: u32,
    ticket: u64,
    proposals: Vec<Proposal>,
) -> Result<Reply, DeskError>
    requires worker { is_worker (start_of desk.old.head) worker ≡ true }
    ensures ok { IfOk result (λ reply. OfferedBy desk.old desk.new worker ticket proposals.items reply) }
    ensures err { IfErr result (λ error. SameStory desk.old desk.new) }
    ensures legal { IsLegal desk.old.head desk.old.journal }
{
    journals_are_bounded();
    // The status tells that the journal is legal.
    let _ = desk.status();
    match desk.offer(alloc, worker, ticket, proposals) {
        Ok(verdicts) => Ok(Reply::Verdicts(verdicts)),
        Err(DeskError::Refused(refusal)) => Ok(Reply::Refused(refusal)),
        Err(error) => {
            desk.stop_after(&error);
            Err(error)
        }
    }
}

/// Takes a job in a turn of its own.
pub(crate) fn take_turn<R: Wait>(
    rt: &R,
    alloc: Global,
    turn: &Turn<Desk>,
    pass: &mut Pass<Desk>,
    worker: u32,
    batch: u32,
) -> Result<Took, DeskError>
    requires this_turn { pass.old.turn_id ≡ turn.now }
    requires worker { IsWorker pass.old worker }
    requires batch { (1 ≤ batch) × (batch ≤ 64) }
    ensures ok { IfOk result (λ took. TookTurn pass.old pass.new batch took) }
    ensures err { IfErr result (λ error. Looked pass.old pass.new) }
{
    let mut desk = turn.take(rt, pass);
    let took = take_on(alloc, &mut desk, worker, batch);
    turn.give(pass, desk);
    took
}

/// Offers proposals in a turn of its own.
pub(crate) fn offer_turn<R: Wait>(
    rt: &R,
    alloc: Global,
    turn: &Turn<Desk>,
    pass: &mut Pass<Desk>,
    worker: u32,
    ticket: u64,
    proposals: Vec<Proposal>,
) -> Result<Reply, DeskError>
    requires this_turn { pass.old.turn_id ≡ turn.now }
    requires worker { IsWorker pass.old worker }
    ensures ok { IfOk result (λ reply. OfferedIn pass.old pass.new ticket proposals.items reply) }
    ensures err { IfErr result (λ error. Looked pass.old pass.new) }
{
    let mut desk = turn.take(rt, pass);
    let offered = offer_on(alloc, &mut desk, worker, ticket, proposals);
    turn.give(pass, desk);
    offered
}

/// Stops the desk for want of memory, in a turn of its own.
pub(crate) fn halt_turn<R: Wait>(rt: &R, turn: &Turn<Desk>, pass: &mut Pass<Desk>)
    requires this_turn { pass.old.turn_id ≡ turn.now }
    requires no_turn { pass.old.turn ≡ false }
    ensures { Looked pass.old pass.new }
{
    let mut desk = turn.take(rt, pass);
    // The status tells that the journal is legal.
    let _ = desk.status();
    desk.stop(Halt::Memory);
    turn.give(pass, desk);
}
