ghost use Rattle.std.specs.Prelude.{◌≡◌};
ghost use Rattle.rvd_reading.specs.Steps.{Reads};
ghost use Rattle.rvd_journal_reading.specs.Verdicts.{difference_of, verdict_of};

use crate::answers::answer;
use crate::asks::ask;
use rvd_ask::{Answer, Ask};
use rvd_event::Verdict;
use rvd_reading::{ReadError, Rest, number};
use std::alloc::Global;

/// An ask and two answers to it.
#[tactic(auto, unfolding(crate::specs::Verdicts::difference_of))]
fn difference(alloc: Global, rest: &mut Rest) -> Result<(Ask, Answer, Answer), ReadError>
    ensures { Reads rest.new result (difference_of rest.old) }
{
    let ask = ask(rest)?;
    rest.expect(b" ")?;
    let first = answer(alloc, rest, &ask)?;
    rest.expect(b" ")?;
    let second = answer(alloc, rest, &ask)?;
    Ok((ask, first, second))
}

/// A verdict.
#[tactic(auto, unfolding(crate::specs::Verdicts::verdict_of))]
pub fn verdict(alloc: Global, rest: &mut Rest) -> Result<Verdict, ReadError>
    ensures { Reads rest.new result (verdict_of rest.old) }
{
    if rest.strip(b"joined ") {
        Ok(Verdict::Joined(number(rest, 4_294_967_295)? as u32))
    } else if rest.strip(b"nothing") {
        Ok(Verdict::Nothing)
    } else if rest.strip(b"off") {
        Ok(Verdict::Off)
    } else if rest.strip(b"stale ") {
        let (ask, was, now) = difference(alloc, rest)?;
        Ok(Verdict::Stale { ask, was, now })
    } else if rest.strip(b"foreign ") {
        let (ask, said, was) = difference(alloc, rest)?;
        Ok(Verdict::Foreign { ask, said, was })
    } else {
        Err(ReadError::Unread)
    }
}

#[cfg(test)]
mod tests {
    use super::*;
    use crate::refusals::refusal;
    use rvd_event::Refusal;
    use std::test::Fail;

    #[test]
    fn a_verdict_ends_where_the_next_part_begins(rt: HostRuntime) -> Result<(), Fail> {
        let mut rest = Rest::of(b"stale cell func 00010060 0 none [analysis func]; settled 7");
        let verdict = verdict(rt.alloc(), &mut rest)?;
        assert!(rt;
            matches!(
                &verdict,
                Verdict::Stale {
                    was: Answer::Cell(None),
                    now: Answer::Cell(Some(_)),
                    ..
                }
            )
        );
        assert_eq!(rt; rest.bytes(), b"; settled 7".as_slice());
        let mut rest = Rest::of(b"cancelled 1");
        assert_eq!(rt; refusal(&mut rest)?, Refusal::Cancelled(1));
        Ok(())
    }
}
