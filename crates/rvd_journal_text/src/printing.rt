ghost use Rattle.std.specs.Prelude.{◌≡◌, ◌++◌, OnOk, OnErr};
ghost use Rattle.std.specs.List.{enumerate_from};
ghost use Rattle.rvd_notation.specs.Pieces.{Keeps};
ghost use Rattle.rvd_journal_text.specs.Lines.{entry_lines, journal_text};

use crate::lines::{push_end, push_full_line, push_head};
use rvd_event::Names;
use rvd_journal::{Entry, Journal};
use std::alloc::AllocError;

fn push_entry_lines(out: &mut Vec<u8>, names: Names, entries: &[Entry]) -> Result<(), AllocError>
    ensures ok { OnOk result (out.new.items ≡ out.old.items ++ entry_lines names (enumerate_from 1 entries.now)) }
    ensures err { OnErr result (Keeps out.old.items out.new.items) }
{
    for (index, entry) in entries.iter().enumerate() {
        push_full_line(out, index as u64 + 1, entry, names)?;
    }
    Ok(())
}

#[tactic(auto, unfolding(crate::specs::Lines::journal_text))]
fn push_journal(out: &mut Vec<u8>, names: Names, entries: &[Entry]) -> Result<(), AllocError>
    ensures ok { OnOk result (out.new.items ≡ out.old.items ++ journal_text names entries.now) }
    ensures err { OnErr result (Keeps out.old.items out.new.items) }
{
    push_head(out, names)?;
    push_entry_lines(out, names, entries)?;
    push_end(out, entries.len() as u64)
}

/// Appends the text of a journal: the head line with the numbers of sessions and workers, a line for each entry with its
/// number, counted from 1, and the `end` line with the number of entries.
pub fn print(journal: &Journal, names: Names, out: &mut Vec<u8>) -> Result<(), AllocError>
    ensures ok { OnOk result (out.new.items ≡ out.old.items ++ journal_text names journal.now.entries) }
    ensures err { OnErr result (out.new.items ≡ out.old.items) }
{
    let len = out.len();
    let pushed = push_journal(out, names, journal.entries());
    if pushed.is_err() {
        out.truncate(len);
    }
    pushed
}

#[cfg(test)]
mod tests {
    use super::*;
    use rvd_ask::{Analyzer, Answer, Ask, Item, Items};
    use rvd_event::{Event, Reply, Verdict, VerdictList};
    use std::str;
    use std::test::Fail;

    fn entry(actor: u32, event: Event, reply: Reply, settled: Option<u64>) -> Entry {
        Entry {
            actor,
            event,
            reply,
            settled,
        }
    }

    #[test]
    fn a_journal_has_a_line_for_each_entry(rt: HostRuntime) -> Result<(), Fail> {
        let item = Item {
            analyzer: Analyzer::Flow,
            at: 0x10054,
        };
        let job = Items::of(rt.alloc(), vec![in rt.alloc(); item]?)?;
        let stale = Verdict::Stale {
            ask: Ask::Cover(0x1005d),
            was: Answer::At(None),
            now: Answer::At(Some(0x1005d)),
        };
        let verdicts = VerdictList::of(
            rt.alloc(),
            vec![in rt.alloc(); Verdict::Nothing, Verdict::Joined(1), stale]?,
        )?;
        let mut journal = Journal::new(rt.alloc());
        journal.reserve(3)?;
        journal.push(entry(1, Event::Full, Reply::StepNo(1), None));
        journal.push(entry(2, Event::Take(64), Reply::Job(1, job), None));
        journal.push(entry(2, Event::Offer(1), Reply::Verdicts(verdicts), Some(7)));
        let names = Names {
            sessions: 1,
            workers: 1,
        };
        let mut out = Vec::new(rt.alloc());
        print(&journal, names, &mut out)?;
        assert_eq!(rt;
            str::from_utf8(&out),
            Ok(
                "journal 1 1 1\n1 s1 full = step 1\n2 w1 take 64 = job 1 flow:00010054\n3 w1 offer 1 = nothing joined 1 stale cover 0001005d none 0001005d; settled 7\nend 3\n"
            )
        );
        Ok(())
    }
}
