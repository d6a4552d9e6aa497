ghost use Rattle.std.specs.Prelude.{IfOk, MatchOption, None};
ghost use Rattle.rvd_machine.specs.Exact.{IsFirstDiffering};
ghost use Rattle.rvd_judge.specs.Differing.{IsVerdictAtFirst, IsVerdictWith};

use rvd_ask::{Answer, Ask, answer_to, same};
use rvd_event::Verdict;
use rvd_program::Program;
use std::alloc::{AllocError, Global};

/// The verdict at the first read that the working program answers otherwise, or None where the reads hold of it.
pub fn at_first_differing(
    alloc: Global,
    work: &Program,
    job: &Program,
    reads: &[(Ask, Answer)],
) -> Result<Option<Verdict>, AllocError>
    ensures { IfOk result (λ found. MatchOption found (IsFirstDiffering work.now reads.now None) (IsVerdictAtFirst job.now work.now reads.now)) }
{
    for (ask, said) in reads {
        let now = answer_to(alloc, work, ask)?;
        if !same(said, &now) {
            return Ok(Some(verdict_at(alloc, job, ask, said, now)?));
        }
    }
    Ok(None)
}

// The verdict at a read that the working program answers by `now`, and not as it was said.
fn verdict_at(
    alloc: Global,
    job: &Program,
    ask: &Ask,
    said: &Answer,
    now: Answer,
) -> Result<Verdict, AllocError>
    ensures { IfOk result (IsVerdictWith job.now ask.now said.now now) }
{
    let was = answer_to(alloc, job, ask)?;
    let ask = *ask;
    if same(said, &was) {
        Ok(Verdict::Stale { ask, was, now })
    } else {
        let said = said.copy()?;
        Ok(Verdict::Foreign { ask, said, was })
    }
}
