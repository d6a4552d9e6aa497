ghost use Rattle.std.specs.Prelude.{◌≡◌, ◌<◌, ◌≤◌, [], length, IsOk, IfOk, OnOk, OnErr};
ghost use Rattle.rvd_journal.specs.Journal.{with_entry};

use crate::entries::Entry;
use std::alloc::{AllocError, Global};
use std::marker::Model;

/// A list of entries, in order. Contracts see it with the number of entries for which there is room, so that a push takes
/// no memory (`spare`).
#[derive(Debug, Drop)]
pub struct Journal {
    entries: Vec<Entry>,
}

impl Model for Journal {
    ghost use Rattle.std.specs.Prelude.{◌-◌, vec_len, vec_capacity};
    ghost use Rattle.rvd_journal.specs.Journal.{Contents};

    ghost Value = { Contents };

    ghost view = { λ journal. record {
      entries = journal.entries.items;
      spare = vec_capacity journal.entries - vec_len journal.entries;
    } };
}

impl Journal {
    /// No entries, and no room. It takes no memory.
    pub fn new(alloc: Global) -> Journal
        ensures { result.entries ≡ [] }
    {
        Journal {
            entries: Vec::new(alloc),
        }
    }

    /// The number of entries.
    pub fn len(&self) -> u64
        ensures { result ≡ length self.now.entries }
    {
        self.entries.len() as u64
    }

    /// The entries in order.
    pub fn entries(&self) -> &[Entry]
        ensures { result.now ≡ self.now.entries }
    {
        self.entries.as_slice()
    }

    /// Makes room for at least `n` more entries. Only want of memory refuses it, and then all stays as it was. Room is made
    /// for many entries at a time, so that a call before each push takes a constant time on average.
    pub fn reserve(&mut self, n: u64) -> Result<(), AllocError>
        ensures room { OnOk result (n ≤ self.new.spare) }
        ensures entries { self.new.entries ≡ self.old.entries }
        ensures grows { self.old.spare ≤ self.new.spare }
        ensures succeeds { n ≤ self.old.spare → IsOk result }
        ensures err { OnErr result (self.new ≡ self.old) }
    {
        self.entries.reserve(n as usize)
    }

    /// Appends an entry, in the room that there is. It takes no memory.
    pub fn push(&mut self, entry: Entry)
        requires { 0 < self.old.spare }
        ensures { self.new ≡ with_entry entry self.old }
    {
        self.entries.push_reserved(entry);
    }

    /// A journal with the same entries. Only want of memory refuses it.
    pub fn copy(&self) -> Result<Journal, AllocError>
        ensures { IfOk result (λ copy. copy.entries ≡ self.now.entries) }
    {
        let mut entries = Vec::with_capacity(*self.entries.allocator(), self.entries.len())?;
        for entry in &self.entries {
            entries.push(entry.copy()?)?;
        }
        Ok(Journal { entries })
    }
}

#[cfg(test)]
mod tests {
    use super::*;
    use rvd_event::{Event, Reply};
    use std::test::Fail;

    fn entry(actor: u32) -> Entry {
        Entry {
            actor,
            event: Event::Read,
            reply: Reply::At(0),
            settled: None,
        }
    }

    fn crosses_threads<T: Send + Sync>() {}

    #[test]
    fn a_journal_may_cross_threads() {
        crosses_threads::<Journal>();
    }

    #[test]
    fn entries_stay_in_order(rt: HostRuntime) -> Result<(), Fail> {
        let mut journal = Journal::new(rt.alloc());
        assert_eq!(rt; journal.len(), 0);
        for actor in [2, 1, 3] {
            journal.reserve(1)?;
            journal.push(entry(actor));
        }
        assert_eq!(rt; journal.len(), 3);
        let copy = journal.copy()?;
        for list in [journal.entries(), copy.entries()] {
            assert_eq!(rt; list.len(), 3);
            assert_eq!(rt; (list[0].actor, list[1].actor, list[2].actor), (2, 1, 3));
        }
        Ok(())
    }
}
