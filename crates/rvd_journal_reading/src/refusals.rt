ghost use Rattle.std.specs.Prelude.{◌≡◌};
ghost use Rattle.rvd_reading.specs.Steps.{with_rest};
ghost use Rattle.rvd_journal_reading.specs.Refusals.{edit_refusal_of, refusal_of};

use rvd_event::{EditRefusal, Refusal};
use rvd_reading::{Rest, Unread, hex8, key, number};

const MAX_WORD: u64 = 4_294_967_295;

#[tactic(auto, unfolding(crate::specs::Refusals::edit_refusal_of))]
fn edit_refusal(rest: &mut Rest) -> Result<EditRefusal, Unread>
    ensures { edit_refusal_of rest.old ≡ with_rest rest.new result }
{
    if rest.strip(b"no block ") {
        Ok(EditRefusal::NoBlock(hex8(rest)?))
    } else if rest.strip(b"unaligned ") {
        Ok(EditRefusal::Unaligned(hex8(rest)?))
    } else if rest.strip(b"no bytes ") {
        Ok(EditRefusal::NoBytes(hex8(rest)?))
    } else if rest.strip(b"overlap ") {
        Ok(EditRefusal::Overlap(hex8(rest)?))
    } else if rest.strip(b"bad instruction ") {
        Ok(EditRefusal::BadInstruction(hex8(rest)?))
    } else if rest.strip(b"no such ") {
        Ok(EditRefusal::NoSuch(key(rest)?))
    } else if rest.strip(b"present ") {
        Ok(EditRefusal::Present(key(rest)?))
    } else if rest.strip(b"block overlap ") {
        Ok(EditRefusal::BlockOverlap(hex8(rest)?))
    } else if rest.strip(b"blocks full") {
        Ok(EditRefusal::BlocksFull)
    } else if rest.strip(b"leaves space ") {
        Ok(EditRefusal::LeavesSpace(hex8(rest)?))
    } else if rest.strip(b"slots full ") {
        Ok(EditRefusal::SlotsFull(hex8(rest)?))
    } else {
        Err(Unread)
    }
}

/// Why a call is refused.
#[tactic(auto, unfolding(crate::specs::Refusals::refusal_of))]
pub fn refusal(rest: &mut Rest) -> Result<Refusal, Unread>
    ensures { refusal_of rest.old ≡ with_rest rest.new result }
{
    if rest.strip(b"no session") {
        Ok(Refusal::NoSession)
    } else if rest.strip(b"no transaction") {
        Ok(Refusal::NoTransaction)
    } else if rest.strip(b"too many entries") {
        Ok(Refusal::TooManyEntries)
    } else if rest.strip(b"transaction open ") {
        Ok(Refusal::TransactionOpen(number(rest, MAX_WORD)? as u32))
    } else if rest.strip(b"nothing to undo") {
        Ok(Refusal::NothingToUndo)
    } else if rest.strip(b"nothing to redo") {
        Ok(Refusal::NothingToRedo)
    } else if rest.strip(b"has entry ") {
        Ok(Refusal::HasEntry(number(rest, MAX_WORD)? as u32))
    } else if rest.strip(b"cancelled ") {
        Ok(Refusal::Cancelled(number(rest, u64::MAX)?))
    } else if rest.strip(b"misfit ") {
        Ok(Refusal::Misfit(number(rest, MAX_WORD)? as u32))
    } else {
        Ok(Refusal::Edit(edit_refusal(rest)?))
    }
}
