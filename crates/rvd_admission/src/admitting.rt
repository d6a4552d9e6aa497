ghost use Rattle.std.specs.Prelude.{◌≡◌, true, not, IfOk, OnErr};
ghost use Rattle.rvd_event.specs.declared.events.Event.TheVariants as event;
ghost use Rattle.rvd_journal.specs.Entries.{is_event};
ghost use Rattle.rvd_machine.specs.Moves.{settled_step};
ghost use Rattle.rvd_machine.specs.Replies.{takes_none};
ghost use Rattle.rvd_machine.specs.Steps.{is_refused, moved};
ghost use Rattle.rvd_engine.specs.Admitted.{IsAdmitted};
ghost use Rattle.rvd_engine.specs.Performed.{IsReady, is_plain, is_session_step};
ghost use Rattle.rvd_admission.specs.Looks.{is_sessions};

use crate::looks::settled_after;
use crate::previews::reply_to;
use crate::sameness::{is_job, is_same_reply};
use rvd_engine::{Machine, is_same_step};
use rvd_event::{Event, Reply};
use std::alloc::{AllocError, Global};

// The number of the Settled step that follows a session's event with this reply, where one does.
fn noted_after(
    machine: &Machine,
    alloc: Global,
    actor: u32,
    event: &Event,
    reply: &Reply,
) -> Result<Option<u64>, AllocError>
    requires session { is_sessions event.now ≡ true }
    requires plain { is_plain reply.now ≡ true }
    ensures { IfOk result (λ noted. noted ≡ settled_step (moved machine.now actor event.now reply.now)) }
{
    if is_refusal(reply) {
        return Ok(machine.settled_step());
    }
    let noted = settled_after(machine, alloc, actor, event)?;
    Ok(noted)
}

fn is_refusal(reply: &Reply) -> bool
    ensures { result ≡ is_refused reply.now }
{
    matches!(reply, Reply::Refused(_))
}

// Whether an event is a wait that goes on.
fn goes_on(machine: &Machine, event: &Event) -> bool
    requires { is_sessions event.now ≡ true }
    ensures { result ≡ not (is_session_step machine.now event.now) }
{
    match event {
        Event::Wait => machine.is_not_yet(),
        _ => false,
    }
}

fn admit_session(
    machine: &mut Machine,
    alloc: Global,
    actor: u32,
    event: &Event,
    reply: &Reply,
    settled: Option<u64>,
) -> Result<bool, AllocError>
    requires ready { IsReady machine.old }
    requires legal { is_event event.now ≡ true }
    requires session { is_sessions event.now ≡ true }
    ensures ok { IfOk result (λ yes. IsAdmitted yes machine.old machine.new actor event.now reply.now settled) }
    ensures err { OnErr result (machine.new ≡ machine.old) }
{
    if goes_on(machine, event) {
        return Ok(false);
    }
    let said = reply_to(machine, alloc, actor, event)?;
    if !is_same_reply(&said, reply) {
        return Ok(false);
    }
    let noted = noted_after(machine, alloc, actor, event, reply)?;
    if !is_same_step(settled, noted) {
        return Ok(false);
    }
    let _made = machine.perform(alloc, actor, event)?;
    Ok(true)
}

/// The most items of a job.
const MOST_ITEMS: u32 = 64;

// Whether a take of so many items gives no job.
fn takes_none(machine: &Machine, n: u32) -> bool
    ensures { result ≡ takes_none machine.now n }
{
    n == 0 || n > MOST_ITEMS || machine.is_finished() || machine.is_idle()
}

fn admit_take(
    machine: &mut Machine,
    alloc: Global,
    actor: u32,
    n: u32,
    reply: &Reply,
    settled: Option<u64>,
) -> Result<bool, AllocError>
    requires { IsReady machine.old }
    ensures ok { IfOk result (λ yes. IsAdmitted yes machine.old machine.new actor (event.Take n) reply.now settled) }
    ensures err { OnErr result (machine.new ≡ machine.old) }
{
    if settled.is_some() {
        return Ok(false);
    }
    if takes_none(machine, n) {
        return Ok(false);
    }
    let items = machine.first_items(alloc, n)?;
    if !is_job(reply, machine.next_ticket(), items.list()) {
        return Ok(false);
    }
    let _made = machine.take(alloc, actor, n)?;
    Ok(true)
}

/// Does an event with the reply and the Settled step that it had: true where they may be its, and else false, and all is as
/// before. Only want of memory refuses it, and then all is as before.
pub fn admit(
    machine: &mut Machine,
    alloc: Global,
    actor: u32,
    event: &Event,
    reply: &Reply,
    settled: Option<u64>,
) -> Result<bool, AllocError>
    requires ready { IsReady machine.old }
    requires legal { is_event event.now ≡ true }
    ensures ok { IfOk result (λ yes. IsAdmitted yes machine.old machine.new actor event.now reply.now settled) }
    ensures err { OnErr result (machine.new ≡ machine.old) }
{
    match event {
        Event::Take(n) => admit_take(machine, alloc, actor, *n, reply, settled),
        Event::Offer(ticket) => machine.admit_offer(alloc, actor, *ticket, reply, settled),
        _ => admit_session(machine, alloc, actor, event, reply, settled),
    }
}
