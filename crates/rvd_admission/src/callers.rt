ghost use Rattle.std.specs.Prelude.{◌≡◌, ◌+◌, ◌≤◌, true, length, nat_le};
ghost use Rattle.rvd_fact.specs.Valid.{is_text};
ghost use Rattle.rvd_journal.specs.Entries.{is_event, is_long, is_word};
ghost use Rattle.rvd_machine.specs.Steps.{is_worker, may_call};

use rvd_engine::Machine;
use rvd_event::Event;

// Whether an actor is one of all, from 1 on.
fn is_within(machine: &Machine, actor: u32) -> bool
    ensures { result ≡ nat_le actor (machine.now.sessions + machine.now.workers) }
{
    u64::from(actor) <= u64::from(machine.sessions()) + u64::from(machine.workers())
}

fn is_worker(machine: &Machine, actor: u32) -> bool
    ensures { result ≡ is_worker machine.now actor }
{
    actor > machine.sessions() && is_within(machine, actor)
}

/// Whether an actor may call so: workers take and offer, and each actor the rest.
pub fn may_call(machine: &Machine, actor: u32, event: &Event) -> bool
    ensures { result ≡ may_call machine.now actor event.now }
{
    match event {
        Event::Take(_) | Event::Offer(_) => is_worker(machine, actor),
        _ => actor > 0 && is_within(machine, actor),
    }
}

/// Whether an event's parts are in their ranges. All are by their types but those of an edit.
pub fn is_event(event: &Event) -> bool
    ensures { result ≡ is_event event.now }
{
    match event {
        Event::Begin(text) => {
            tell_text(text.list());
            true
        }
        Event::Edit(edit) => edit.is_legal(),
        Event::Take(n) => {
            tell_word(*n);
            true
        }
        Event::Offer(ticket) => {
            tell_long(*ticket);
            true
        }
        _ => true,
    }
}

// At most 1,000 bytes are a text.
fn tell_text(bytes: &[u8])
    requires { length bytes.now ≤ 1000 }
    ensures { is_text bytes.now ≡ true }
{
    let _length = bytes.len();
}

fn tell_word(n: u32)
    ensures { is_word n ≡ true }
{
    let _ = n;
}

fn tell_long(n: u64)
    ensures { is_long n ≡ true }
{
    let _ = n;
}
