ghost use Rattle.std.specs.Prelude.{◌≡◌};
ghost use Rattle.rvd_reading.specs.Steps.{Reads, with_rest};
ghost use Rattle.rvd_reading.specs.Lists.{Appends};
ghost use Rattle.rvd_line_reading.specs.Replies.{has_ended, item_of, items_of, job_of, judged_of, more_verdicts_of, reply_of, some_verdicts_of, verdicts_of};

use crate::events::read_forms;
use rvd_ask::{Item, Items};
use rvd_event::{Reply, Verdict, VerdictList};
use rvd_journal_reading::{refusal, verdict};
use rvd_journal_text::reply_forms;
use rvd_reading::{ReadError, Rest, Unread, analyzer, hex8, number};
use std::alloc::Global;

/// An item: its analyzer and its address.
#[tactic(auto, unfolding(crate::specs::Replies::item_of))]
fn item(rest: &mut Rest) -> Result<Item, Unread>
    ensures { item_of rest.old ≡ with_rest rest.new result }
{
    let analyzer = analyzer(rest)?;
    rest.expect(b":")?;
    let at = hex8(rest)?;
    Ok(Item { analyzer, at })
}

/// Appends items, each with a space before it.
#[tactic(auto, unfolding(crate::specs::Replies::items_of))]
fn push_items(rest: &mut Rest, out: &mut Vec<Item>) -> Result<(), ReadError>
    ensures { Appends out.old.items out.new.items rest.new result (items_of rest.old) }
{
    let most = rest.bytes().len();
    for _taken in 0..most {
        if !rest.strip(b" ") {
            return Ok(());
        }
        match item(rest) {
            Ok(item) => out.push(item)?,
            Err(_) => return Err(ReadError::Unread),
        }
    }
    Ok(())
}

fn job(alloc: Global, rest: &mut Rest) -> Result<Reply, ReadError>
    ensures { Reads rest.new result (job_of rest.old) }
{
    let ticket = number(rest, u64::MAX)?;
    let mut list = Vec::new(alloc);
    push_items(rest, &mut list)?;
    Ok(Reply::Job(ticket, Items::of(alloc, list)?))
}

/// Appends verdicts, each with a space before it.
#[tactic(auto, unfolding(crate::specs::Replies::more_verdicts_of))]
fn push_more_verdicts(
    alloc: Global,
    rest: &mut Rest,
    out: &mut Vec<Verdict>,
) -> Result<(), ReadError>
    ensures { Appends out.old.items out.new.items rest.new result (more_verdicts_of rest.old) }
{
    let most = rest.bytes().len();
    for _taken in 0..most {
        if !rest.strip(b" ") {
            return Ok(());
        }
        match verdict(alloc, rest) {
            Ok(verdict) => out.push(verdict)?,
            Err(ReadError::Unread) => return Err(ReadError::Unread),
            Err(ReadError::OutOfMemory) => return Err(ReadError::OutOfMemory),
        }
    }
    Ok(())
}

/// Whether a reply has ended: nothing is left, or a semicolon or a line feed comes first.
fn has_ended(bytes: &[u8]) -> bool
    ensures { result ≡ has_ended bytes.now }
{
    match bytes {
        [] => true,
        [first, ..] => *first == b';' || *first == b'\n',
    }
}

/// Appends verdicts with a space between two of them, or none where the reply has ended.
fn push_verdicts(alloc: Global, rest: &mut Rest, out: &mut Vec<Verdict>) -> Result<(), ReadError>
    ensures { Appends out.old.items out.new.items rest.new result (verdicts_of rest.old) }
{
    if has_ended(rest.bytes()) {
        return Ok(());
    }
    out.push(verdict(alloc, rest)?)?;
    push_more_verdicts(alloc, rest, out)
}

fn judged(alloc: Global, rest: &mut Rest) -> Result<Reply, ReadError>
    ensures { Reads rest.new result (judged_of rest.old) }
{
    let mut list = Vec::new(alloc);
    push_verdicts(alloc, rest, &mut list)?;
    Ok(Reply::Verdicts(VerdictList::of(alloc, list)?))
}

/// A reply.
#[tactic(auto, unfolding(crate::specs::Replies::reply_of))]
pub fn reply(alloc: Global, rest: &mut Rest) -> Result<Reply, ReadError>
    ensures { Reads rest.new result (reply_of rest.old) }
{
    reply_forms!(read_forms { rest: Reply });
    if rest.strip(b"job ") {
        job(alloc, rest)
    } else if rest.strip(b"refused ") {
        Ok(Reply::Refused(refusal(rest)?))
    } else {
        judged(alloc, rest)
    }
}
