ghost use Rattle.std.specs.Prelude.{◌≡◌, true, IfOk, IfErr};
ghost use Rattle.rvd_event.specs.declared.events.Event.TheVariants as event;
ghost use Rattle.rvd_event.specs.declared.replies.Reply.TheVariants as reply;
ghost use Rattle.rvd_machine.specs.Proper.{AreMadeFor, IsProperReply};
ghost use Rattle.rvd_machine.specs.State.{job_of};
ghost use Rattle.rvd_machine.specs.Steps.{may_call};
ghost use Rattle.rvd_desk.specs.Calls.{Did};
ghost use Rattle.rvd_desk.specs.Story.{state_of};
ghost use Rattle.rvd_settle.specs.Offering.{OfferTakenFailed};

use rvd_ask::Proposal;
use rvd_desk::{Desk, DeskError};
use rvd_event::VerdictList;
use rvd_machine::made_offers_are_proper;
use rvd_wake::proposals_on;
use std::alloc::{AllocError, Global};

/// Offers what the analyzers propose for the items of a job that is taken, on the job's own program; for another ticket it
/// offers no proposals. So no verdict is Foreign, each Stale one names an ask of its item's rule, and Refused comes exactly
/// where the ticket isn't among the taken.
pub fn offer_taken(
    alloc: Global,
    desk: &mut Desk,
    worker: u32,
    ticket: u64,
) -> Result<VerdictList, DeskError>
    requires { may_call (state_of desk.old) worker (event.Offer ticket) ≡ true }
    ensures ok { IfOk result (λ verdicts. Did desk.old desk.new worker (event.Offer ticket) (reply.Verdicts verdicts)) }
    ensures proper { IfOk result (λ verdicts. IsProperReply (job_of ticket (state_of desk.old).taken) (reply.Verdicts verdicts)) }
    ensures err { IfErr result (λ error. OfferTakenFailed desk.old desk.new worker ticket error) }
{
    made_offers_are_proper();
    let proposals = proposals_of(alloc, desk, ticket)?;
    desk.offer(alloc, worker, ticket, proposals)
}

// What the analyzers propose for a job that is taken, on its program, and nothing for another ticket.
fn proposals_of(alloc: Global, desk: &Desk, ticket: u64) -> Result<Vec<Proposal>, AllocError>
    ensures { IfOk result (λ proposals. AreMadeFor (job_of ticket (state_of desk.now).taken) proposals.items) }
{
    match desk.job(ticket) {
        Some((items, program)) => proposals_on(alloc, items.list(), program),
        None => Ok(Vec::new(alloc)),
    }
}
