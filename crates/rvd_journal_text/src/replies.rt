ghost use Rattle.std.specs.Prelude.{◌≡◌, ◌++◌, OnOk, OnErr, codes};
ghost use Rattle.std.specs.Fmt.{decimal};
ghost use Rattle.rvd_notation.specs.Pieces.{Keeps};
ghost use Rattle.rvd_journal_text.specs.Replies.{edit_refusal_text, item_text, item_words, refusal_text, reply_text};

use crate::forms::push_forms;
use crate::reply_forms;
use crate::verdicts::push_verdicts;
use crate::words::{push_at, push_count, push_key_of};
use rvd_ask::Item;
use rvd_event::{EditRefusal, Refusal, Reply};
use rvd_notation::analyzer_word;
use std::alloc::AllocError;

#[tactic(auto, unfolding(crate::specs::Replies::edit_refusal_text))]
fn push_edit_refusal(out: &mut Vec<u8>, refusal: EditRefusal) -> Result<(), AllocError>
    ensures ok { OnOk result (out.new.items ≡ out.old.items ++ edit_refusal_text refusal) }
    ensures err { OnErr result (Keeps out.old.items out.new.items) }
{
    match refusal {
        EditRefusal::LeavesSpace(at) => push_at(out, b"leaves space ", at),
        EditRefusal::BlockOverlap(at) => push_at(out, b"block overlap ", at),
        EditRefusal::BlocksFull => out.extend_from_slice(b"blocks full"),
        EditRefusal::Unaligned(at) => push_at(out, b"unaligned ", at),
        EditRefusal::NoBlock(at) => push_at(out, b"no block ", at),
        EditRefusal::NoBytes(at) => push_at(out, b"no bytes ", at),
        EditRefusal::Overlap(at) => push_at(out, b"overlap ", at),
        EditRefusal::BadInstruction(word) => push_at(out, b"bad instruction ", word),
        EditRefusal::NoSuch(key) => push_key_of(out, b"no such ", &key),
        EditRefusal::Present(key) => push_key_of(out, b"present ", &key),
        EditRefusal::SlotsFull(at) => push_at(out, b"slots full ", at),
    }
}

#[tactic(auto, unfolding(crate::specs::Replies::refusal_text))]
fn push_refusal(out: &mut Vec<u8>, refusal: Refusal) -> Result<(), AllocError>
    ensures ok { OnOk result (out.new.items ≡ out.old.items ++ refusal_text refusal) }
    ensures err { OnErr result (Keeps out.old.items out.new.items) }
{
    match refusal {
        Refusal::NoSession => out.extend_from_slice(b"no session"),
        Refusal::NoTransaction => out.extend_from_slice(b"no transaction"),
        Refusal::TooManyEntries => out.extend_from_slice(b"too many entries"),
        Refusal::TransactionOpen(live) => push_count(out, b"transaction open ", u64::from(live)),
        Refusal::NothingToUndo => out.extend_from_slice(b"nothing to undo"),
        Refusal::NothingToRedo => out.extend_from_slice(b"nothing to redo"),
        Refusal::HasEntry(live) => push_count(out, b"has entry ", u64::from(live)),
        Refusal::Cancelled(ticket) => push_count(out, b"cancelled ", ticket),
        Refusal::Misfit(place) => push_count(out, b"misfit ", u64::from(place)),
        Refusal::Edit(refusal) => push_edit_refusal(out, refusal),
    }
}

fn push_refused(out: &mut Vec<u8>, refusal: Refusal) -> Result<(), AllocError>
    ensures ok { OnOk result (out.new.items ≡ out.old.items ++ (codes "refused " ++ refusal_text refusal)) }
    ensures err { OnErr result (Keeps out.old.items out.new.items) }
{
    out.extend_from_slice(b"refused ")?;
    push_refusal(out, refusal)
}

fn push_next_item(out: &mut Vec<u8>, item: Item) -> Result<(), AllocError>
    ensures ok { OnOk result (out.new.items ≡ out.old.items ++ (codes " " ++ item_text item)) }
    ensures err { OnErr result (Keeps out.old.items out.new.items) }
{
    out.push(b' ')?;
    out.extend_from_slice(analyzer_word(item.analyzer))?;
    push_at(out, b":", item.at)
}

fn push_items(out: &mut Vec<u8>, items: &[Item]) -> Result<(), AllocError>
    ensures ok { OnOk result (out.new.items ≡ out.old.items ++ item_words items.now) }
    ensures err { OnErr result (Keeps out.old.items out.new.items) }
{
    for item in items {
        push_next_item(out, *item)?;
    }
    Ok(())
}

fn push_job(out: &mut Vec<u8>, ticket: u64, items: &[Item]) -> Result<(), AllocError>
    ensures ok { OnOk result (out.new.items ≡ out.old.items ++ (codes "job " ++ decimal ticket ++ item_words items.now)) }
    ensures err { OnErr result (Keeps out.old.items out.new.items) }
{
    push_count(out, b"job ", ticket)?;
    push_items(out, items)
}

/// Appends a reply, or some of it where memory is wanting.
#[tactic(auto, unfolding(crate::specs::Replies::reply_text))]
pub fn push_reply(out: &mut Vec<u8>, reply: &Reply) -> Result<(), AllocError>
    ensures ok { OnOk result (out.new.items ≡ out.old.items ++ reply_text reply.now) }
    ensures err { OnErr result (Keeps out.old.items out.new.items) }
{
    reply_forms!(push_forms {
        out, reply: Reply,
        Reply::Job(ticket, items) => push_job(out, *ticket, items.list()),
        Reply::Verdicts(verdicts) => push_verdicts(out, verdicts.list()),
        Reply::Refused(refusal) => push_refused(out, *refusal),
    })
}
