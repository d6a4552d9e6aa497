ghost use Rattle.std.specs.Prelude.{◌≡◌, IfOk};

use rvd_event::{Event, Reply};
use std::alloc::AllocError;

/// An entry of the journal: one call of the desk.
#[derive(Debug, Drop)]
pub struct Entry {
    /// The actor that called: sessions are numbered from 1 on, and workers come after them.
    pub actor: u32,
    /// What was asked.
    pub event: Event,
    /// What was answered.
    pub reply: Reply,
    /// The number of the Settled step that the call brought about, or None.
    pub settled: Option<u64>,
}

impl Entry {
    /// An equal entry. Only want of memory refuses it.
    pub fn copy(&self) -> Result<Entry, AllocError>
        ensures { IfOk result (λ copy. copy ≡ self.now) }
    {
        Ok(Entry {
            actor: self.actor,
            event: self.event.copy()?,
            reply: self.reply.copy()?,
            settled: self.settled,
        })
    }
}

#[cfg(test)]
mod tests {
    use super::*;
    use rvd_fact::Text;
    use std::test::Fail;

    fn crosses_threads<T: Send + Sync>() {}

    #[test]
    fn entries_may_cross_threads() {
        crosses_threads::<Entry>();
    }

    #[test]
    fn a_copy_equals_its_entry(rt: HostRuntime) -> Result<(), Fail> {
        let text = Text::of(rt.alloc(), vec![in rt.alloc(); b'x']?)?;
        let entry = Entry {
            actor: 1,
            event: Event::Begin(text),
            reply: Reply::Entry(7),
            settled: Some(3),
        };
        let copy = entry.copy()?;
        assert_eq!(rt; (copy.actor, copy.settled), (1, Some(3)));
        let same = match (&copy.event, &copy.reply) {
            (Event::Begin(text), Reply::Entry(number)) => {
                text.list() == b"x".as_slice() && *number == 7
            }
            _ => false,
        };
        assert!(rt; same);
        Ok(())
    }
}
