ghost use Rattle.std.specs.Prelude.{◌≡◌, ◌++◌, OnOk, OnErr, codes};
ghost use Rattle.rvd_notation.specs.Pieces.{Keeps};
ghost use Rattle.rvd_journal_text.specs.Verdicts.{difference_text, more_verdicts, verdict_text, verdicts_text};

use crate::answers::{push_answer, push_ask};
use crate::words::push_count;
use rvd_ask::{Answer, Ask};
use rvd_event::Verdict;
use std::alloc::AllocError;

fn push_difference(
    out: &mut Vec<u8>,
    word: &[u8],
    ask: &Ask,
    first: &Answer,
    second: &Answer,
) -> Result<(), AllocError>
    ensures ok { OnOk result (out.new.items ≡ out.old.items ++ (word.now ++ difference_text ask.now first.now second.now)) }
    ensures err { OnErr result (Keeps out.old.items out.new.items) }
{
    out.extend_from_slice(word)?;
    push_ask(out, ask)?;
    out.push(b' ')?;
    push_answer(out, ask, first)?;
    out.push(b' ')?;
    push_answer(out, ask, second)
}

#[tactic(auto, unfolding(crate::specs::Verdicts::verdict_text))]
fn push_verdict(out: &mut Vec<u8>, verdict: &Verdict) -> Result<(), AllocError>
    ensures ok { OnOk result (out.new.items ≡ out.old.items ++ verdict_text verdict.now) }
    ensures err { OnErr result (Keeps out.old.items out.new.items) }
{
    match verdict {
        Verdict::Joined(changes) => push_count(out, b"joined ", u64::from(*changes)),
        Verdict::Nothing => out.extend_from_slice(b"nothing"),
        Verdict::Off => out.extend_from_slice(b"off"),
        Verdict::Stale { ask, was, now } => push_difference(out, b"stale ", ask, was, now),
        Verdict::Foreign { ask, said, was } => push_difference(out, b"foreign ", ask, said, was),
    }
}

fn push_next_verdict(out: &mut Vec<u8>, verdict: &Verdict) -> Result<(), AllocError>
    ensures ok { OnOk result (out.new.items ≡ out.old.items ++ (codes " " ++ verdict_text verdict.now)) }
    ensures err { OnErr result (Keeps out.old.items out.new.items) }
{
    out.push(b' ')?;
    push_verdict(out, verdict)
}

fn push_more_verdicts(out: &mut Vec<u8>, verdicts: &[Verdict]) -> Result<(), AllocError>
    ensures ok { OnOk result (out.new.items ≡ out.old.items ++ more_verdicts verdicts.now) }
    ensures err { OnErr result (Keeps out.old.items out.new.items) }
{
    for verdict in verdicts {
        push_next_verdict(out, verdict)?;
    }
    Ok(())
}

/// Appends verdicts one after the other, or some of them where memory is wanting.
pub fn push_verdicts(out: &mut Vec<u8>, verdicts: &[Verdict]) -> Result<(), AllocError>
    ensures ok { OnOk result (out.new.items ≡ out.old.items ++ verdicts_text verdicts.now) }
    ensures err { OnErr result (Keeps out.old.items out.new.items) }
{
    let [first, rest @ ..] = verdicts else {
        return Ok(());
    };
    push_verdict(out, first)?;
    push_more_verdicts(out, rest)
}
