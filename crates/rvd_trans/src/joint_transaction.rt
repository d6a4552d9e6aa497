ghost use Rattle.std.specs.Prelude.{◌≡◌, ◌<◌, ◌≤◌, if◌then◌else◌, Some, None, IfOk, OnOk, OnErr, IsOk};
ghost use Rattle.rvd_trans.specs.Transaction.{started, joined, ended, all_ended, noted, live_count, live_count_of, has_live};

use crate::entries::{Entry, MOST_LIVE, count_of, newest_of};
use rvd_fact::{Change, Text};
use std::alloc::{AllocError, Global};
use std::marker::Model;

/// An open transaction: its live entries, and the changes made in it so far.
#[derive(Debug, Drop)]
pub struct Joint {
    opener: u32,
    text: Text,
    entries: Vec<Entry>,
    aborted: bool,
    changes: Vec<Change>,
}

impl Model for Joint {
    ghost use Rattle.std.specs.Prelude.{◌-◌, ◌≤◌, length, vec_len, vec_capacity};
    ghost use Rattle.rvd_trans.specs.declared.entries.TheConstants.{MOST_LIVE};
    ghost use Rattle.rvd_trans.specs.Transaction.{Transaction};

    ghost Value = { Transaction };

    ghost view = { λ joint. record {
      opener = joint.opener;
      text = joint.text;
      entries = joint.entries.items;
      aborted = joint.aborted;
      changes = joint.changes.items;
      spare = vec_capacity joint.changes - vec_len joint.changes;
    } };

    ghost invariant = { λ joint. length joint.entries.items ≤ MOST_LIVE };
}

impl Joint {
    /// A transaction that `actor` opens by the entry with this number, and that is committed under
    /// this text. It has no changes.
    pub fn start(alloc: Global, entry: u64, actor: u32, text: Text) -> Result<Joint, AllocError>
        ensures { IfOk result (λ joint. joint ≡ started entry actor text) }
    {
        let mut entries = Vec::with_capacity(alloc, 1)?;
        entries.push_reserved(Entry {
            number: entry,
            actor,
        });
        Ok(Joint {
            opener: actor,
            text,
            entries,
            aborted: false,
            changes: Vec::new(alloc),
        })
    }

    /// Adds a live entry of `actor` with this number. Where memory is refused, all stays as it was.
    pub fn join(&mut self, entry: u64, actor: u32) -> Result<(), AllocError>
        requires { live_count self.old < MOST_LIVE }
        ensures ok { OnOk result (self.new ≡ joined entry actor self.old) }
        ensures err { OnErr result (self.new ≡ self.old) }
    {
        self.entries.push(Entry {
            number: entry,
            actor,
        })?;
        Ok(())
    }

    /// Ends the actor's newest live entry, which commits where `keep` is true and else aborts, and
    /// gives the number of entries still live. `None` exactly where the actor has no live entry.
    pub fn end(&mut self, actor: u32, keep: bool) -> Option<u32>
        ensures value { self.new ≡ ended actor keep self.old }
        ensures answer { result ≡ (if has_live actor self.old then Some (live_count self.new) else None) }
    {
        let place = newest_of(&self.entries, actor)?;
        self.entries.remove(place);
        self.aborted |= !keep;
        Some(self.entries.len() as u32)
    }

    /// Aborts all live entries of the actor, and gives their number.
    pub fn end_all(&mut self, actor: u32) -> u32
        ensures value { self.new ≡ all_ended actor self.old }
        ensures answer { result ≡ live_count_of actor self.old }
    {
        let count = count_of(&self.entries, actor);
        self.entries.retain(|entry| entry.actor != actor);
        self.aborted |= count > 0;
        count
    }

    /// The number of live entries.
    pub fn live(&self) -> u32
        ensures value { result ≡ live_count self.now }
        ensures bound { result ≤ MOST_LIVE }
    {
        self.entries.len() as u32
    }

    /// The number of the actor's live entries.
    pub fn live_of(&self, actor: u32) -> u32
        ensures { result ≡ live_count_of actor self.now }
    {
        count_of(&self.entries, actor)
    }

    /// Whether an entry has aborted, so that the transaction can only be rolled back.
    pub fn doomed(&self) -> bool
        ensures { result ≡ self.now.aborted }
    {
        self.aborted
    }

    /// Makes room for `n` more changes. Where memory is refused, all stays as it was.
    pub fn reserve(&mut self, n: u64) -> Result<(), AllocError>
        ensures ok { OnOk result (n ≤ self.new.spare) }
        ensures value { self.new ≡ record self.old { spare = self.new.spare } }
        ensures grows { self.old.spare ≤ self.new.spare }
        ensures succeeds { n ≤ self.old.spare → IsOk result }
        ensures err { OnErr result (self.new ≡ self.old) }
    {
        self.changes.reserve(n as usize)
    }

    /// Adds a change, in the room that `reserve` made. It takes no memory.
    pub fn note(&mut self, change: Change)
        requires { 0 < self.old.spare }
        ensures { self.new ≡ noted change self.old }
    {
        self.changes.push_reserved(change);
    }

    /// The opener, the text and the changes, in order.
    pub fn into_parts(self) -> (u32, Text, Vec<Change>)
        ensures opener { result.0 ≡ self.opener }
        ensures text { result.1 ≡ self.text }
        ensures changes { result.2.items ≡ self.changes }
    {
        let Joint {
            opener,
            text,
            changes,
            ..
        } = self;
        (opener, text, changes)
    }
}

#[cfg(test)]
mod tests {
    use super::*;
    use Call::{End, EndAll, Join};
    use rvd_fact::{Cell, Key, Kind, Source, Value};
    use std::test::Fail;

    fn crosses_threads<T: Send + Sync>() {}

    #[test]
    fn a_transaction_may_cross_threads() {
        crosses_threads::<Entry>();
        crosses_threads::<Joint>();
    }

    #[derive(Drop)]
    enum Call {
        Join(u32),
        End(u32, bool),
        EndAll(u32),
    }

    fn answer(joint: &mut Joint, call: &Call) -> Result<Option<u32>, AllocError> {
        match call {
            Join(actor) => {
                if joint.live() < MOST_LIVE {
                    joint.join(7, *actor)?;
                }
                Ok(None)
            }
            End(actor, keep) => Ok(joint.end(*actor, *keep)),
            EndAll(actor) => Ok(Some(joint.end_all(*actor))),
        }
    }

    fn mark(at: u32) -> Change {
        Change {
            key: Key {
                at,
                kind: Kind::Mark,
                sub: 0,
            },
            before: None,
            after: Some(Cell {
                value: Value::Mark,
                source: Source::UserDefined,
            }),
        }
    }

    #[test]
    fn entries_join_and_end(rt: HostRuntime) -> Result<(), Fail> {
        let text = Text::of(rt.alloc(), vec![in rt.alloc(); b'x']?)?;
        let mut joint = Joint::start(rt.alloc(), 1, 1, text)?;
        // The call, its answer, then how many entries are live, how many of them are actor 1's, and
        // whether one has aborted.
        let rows = [
            ("another joins", Join(2), None, 2, 1, false),
            ("the opener joins again", Join(1), None, 3, 2, false),
            ("a stranger has none", End(3, false), None, 3, 2, false),
            ("one of two commits", End(1, true), Some(2), 2, 1, false),
            ("the other aborts", End(2, false), Some(1), 1, 1, true),
            ("it has none left", End(2, true), None, 1, 1, true),
            ("it joins again", Join(2), None, 2, 1, true),
            ("the opener joins again", Join(1), None, 3, 2, true),
            ("the opener's abort", EndAll(1), Some(2), 1, 0, true),
            ("a stranger's are none", EndAll(3), Some(0), 1, 0, true),
            ("the last commits", End(2, true), Some(0), 0, 0, true),
        ];
        for (name, call, said, live, of_one, doomed) in &rows {
            assert_eq!(rt; answer(&mut joint, call)?, *said, "{name}");
            assert_eq!(rt; joint.live(), *live, "{name}");
            assert_eq!(rt; joint.live_of(1), *of_one, "{name}");
            assert_eq!(rt; joint.doomed(), *doomed, "{name}");
        }
        joint.reserve(2)?;
        joint.note(mark(8));
        joint.note(mark(4));
        let (opener, text, changes) = joint.into_parts();
        assert_eq!(rt; opener, 1);
        assert_eq!(rt; text.list(), b"x".as_slice());
        let noted: Vec<u32> = changes
            .iter()
            .map(|change| change.key.at)
            .collect(rt.alloc())?;
        assert_eq!(rt; noted.as_slice(), [8, 4].as_slice());
        Ok(())
    }
}
