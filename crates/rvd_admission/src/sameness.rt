ghost use Rattle.std.specs.Prelude.{◌≡◌, ◌↔◌, true, length, IsTrue};
ghost use Rattle.rvd_event.specs.declared.replies.Reply.TheVariants as reply;
ghost use Rattle.rvd_engine.specs.Performed.{is_plain};

use rvd_ask::Item;
use rvd_event::Reply;

/// Whether a reply of numbers alone is equal to another reply.
pub fn is_same_reply(a: &Reply, b: &Reply) -> bool
    requires { is_plain a.now ≡ true }
    ensures { IsTrue result ↔ (a.now ≡ b.now) }
{
    match (a, b) {
        (Reply::Entry(m), Reply::Entry(n)) => *m == *n,
        (Reply::Changed(m), Reply::Changed(n)) => *m == *n,
        (Reply::Waiting(m), Reply::Waiting(n)) => *m == *n,
        (Reply::Committed(m), Reply::Committed(n)) => *m == *n,
        (Reply::RolledBack, Reply::RolledBack) => true,
        (Reply::StepNo(m), Reply::StepNo(n)) => *m == *n,
        (Reply::At(m), Reply::At(n)) => *m == *n,
        (Reply::SettledAt(m), Reply::SettledAt(n)) => *m == *n,
        (Reply::Voided, Reply::Voided) => true,
        (Reply::Closed(m), Reply::Closed(n)) => *m == *n,
        (Reply::Refused(r), Reply::Refused(q)) => *r == *q,
        _ => false,
    }
}

/// Whether a reply is a job with this ticket and these items.
pub fn is_job(given: &Reply, ticket: u64, items: &[Item]) -> bool
    ensures { IsTrue result ↔ (given.now ≡ reply.Job ticket items.now) }
{
    match given {
        Reply::Job(other, others) => *other == ticket && are_same(others.list(), items),
        _ => false,
    }
}

fn are_same(a: &[Item], b: &[Item]) -> bool
    ensures { IsTrue result ↔ (a.now ≡ b.now) }
{
    a.len() == b.len() && are_same_elements(a, b)
}

fn are_same_elements(a: &[Item], b: &[Item]) -> bool
    requires { length a.now ≡ length b.now }
    ensures { IsTrue result ↔ (a.now ≡ b.now) }
{
    for index in 0..a.len() {
        if !is_same(a[index], b[index]) {
            return false;
        }
    }
    true
}

fn is_same(a: Item, b: Item) -> bool
    ensures { IsTrue result ↔ (a ≡ b) }
{
    a == b
}
