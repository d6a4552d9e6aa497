//! The loop of a worker.
ghost use Rattle.std.specs.Prelude.{◌≡◌, ◌≤◌, true, false};
ghost use Rattle.rvd_work.specs.Working.{DidJob, IsWorker, Worked};

use crate::proposer::Proposer;
use crate::turns::{halt_turn, offer_turn, take_turn};
use rvd_desk::{Desk, Job, Took};
use rvd_io::Gate;
use rvd_machine::{jobs_stay, made_offers_are_proper};
use rvd_turn::{Pass, Turn};
use std::alloc::Global;
use std::sync::Wait;

// Proposes for a job and offers it: whether the desk answered.
fn do_job<R: Wait, P: Proposer, G: Gate>(
    rt: &R,
    alloc: Global,
    turn: &Turn<Desk>,
    pass: &mut Pass<Desk>,
    worker: u32,
    job: &Job,
    proposer: &mut P,
    gate: &mut G,
) -> bool
    requires this_turn { pass.old.turn_id ≡ turn.now }
    requires worker { IsWorker pass.old worker }
    ensures { DidJob pass.old pass.new job.now (P.tickets proposer.old) (P.tickets proposer.new) result }
{
    let Ok(proposals) = proposer.propose(alloc, pass, job) else {
        halt_turn(rt, turn, pass);
        return false;
    };
    gate.before_offer(worker);
    let offered = offer_turn(rt, alloc, turn, pass, worker, job.ticket(), proposals);
    gate.after_offer(worker);
    offered.is_ok()
}

/// A worker's life: it takes a job of at most `batch` items in one turn, proposes for it without the turn, passes its gate, and
/// offers in another turn, again and again. It answers true where all sessions are closed and nothing is open, queued or
/// taken, and false where the desk is stopped. Where it finds no memory, or no room in the journal, it stops the desk itself.
pub fn work_loop<R: Wait, P: Proposer, G: Gate>(
    rt: &R,
    alloc: Global,
    turn: &Turn<Desk>,
    pass: Pass<Desk>,
    worker: u32,
    batch: u32,
    proposer: &mut P,
    gate: &mut G,
) -> (Pass<Desk>, bool)
    requires this_turn { pass.turn_id ≡ turn.now }
    requires worker { IsWorker pass worker }
    requires batch { (1 ≤ batch) × (batch ≤ 64) }
    ensures { Worked pass result.0 batch (P.tickets proposer.old) (P.tickets proposer.new) result.1 }
{
    jobs_stay();
    made_offers_are_proper();
    let mut pass = pass;
    for _ in rt.forever() {
        match take_turn(rt, alloc, turn, &mut pass, worker, batch) {
            Ok(Took::Job(job)) => {
                if !do_job(rt, alloc, turn, &mut pass, worker, &job, proposer, gate) {
                    return (pass, false);
                }
            }
            Ok(Took::Idle) => {}
            Ok(Took::Finished) => return (pass, true),
            Err(_) => return (pass, false),
        }
    }
    unreachable!()
}
