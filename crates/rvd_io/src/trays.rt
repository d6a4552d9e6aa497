ghost use Rattle.std.specs.Prelude.{◌≡◌, ◌+◌, ◌≤◌, [], ◌++◌, Some, IfOk, OnErr, take, length, is_err};
ghost use Rattle.rvd_io.specs.Causes.{Rose};
ghost use Rattle.rvd_io.specs.Outside.{Puts};
ghost use Rattle.rvd_io.specs.Memory.{cut_at, put_of};

use crate::sinks::{PutError, Sink};
use std::alloc::{AllocError, Global};
use std::marker::Model;

/// A text in memory with a room in bytes, some of whose puts fail. A put takes no memory. It tells its
/// bytes.
#[derive(Drop)]
pub struct MemorySink {
    bytes: Vec<u8>,
    room: u64,
    failing: Vec<(u64, u64)>,
    puts: u64,
    faults: u64,
}

impl Model for MemorySink {
    ghost use Rattle.std.specs.Prelude.{◌≤◌, length, vec_capacity};
    ghost use Rattle.rvd_io.specs.Memory.{Tray};

    ghost Value = { Tray };

    ghost view = { λ a. record { contents = a.bytes.items; room = a.room; failing = a.failing.items; puts = a.puts; faults = a.faults } };

    ghost invariant = { λ a. (length a.bytes.items ≤ a.room) × (a.room ≤ vec_capacity a.bytes) };
}

// How many bytes the put of this number takes before it fails, where it is to fail.
fn find_cut(failing: &[(u64, u64)], put: u64) -> Option<u64>
    ensures { result ≡ cut_at failing.now put }
{
    for (k, n) in failing {
        if *k == put {
            return Some(*n);
        }
    }
    None
}

impl MemorySink {
    /// An empty text with room for so many bytes, whose memory is taken here. A put whose piece passes the
    /// room appends nothing and fails. For each pair (k, n) of `failing`, any other put number k, from 1,
    /// appends the first n bytes of its piece, or the whole of a shorter piece, and fails.
    pub fn new(alloc: Global, room: u64, failing: Vec<(u64, u64)>) -> Result<MemorySink, AllocError>
        ensures { IfOk result (λ sink. sink ≡ record { contents = []; room = room; failing = failing.items; puts = 0; faults = 0 }) }
    {
        let bytes = Vec::with_capacity(alloc, room as usize)?;
        Ok(MemorySink {
            bytes,
            room,
            failing,
            puts: 0,
            faults: 0,
        })
    }

    /// The bytes that it holds.
    pub fn bytes(&self) -> &[u8]
        ensures { result.now ≡ self.now.contents }
    {
        self.bytes.as_slice()
    }
}

impl Sink for MemorySink {
    ghost contents = { λ s. Some s.contents };

    ghost faults = { λ s. s.faults };

    fn put(&mut self, piece: &[u8]) -> Result<(), PutError>
        ensures bytes { Puts (Some self.old.contents) (Some self.new.contents) piece.now result }
        ensures later { self.old.faults ≤ self.new.faults }
        ensures failed { OnErr result (Rose self.old.faults self.new.faults) }
        ensures exact { (self.new ≡ (put_of self.old piece.now).0) × (is_err result ≡ (put_of self.old piece.now).1) }
    {
        self.puts = self.puts.saturating_add(1);
        let room = self.room - self.bytes.len() as u64;
        if piece.len() as u64 > room {
            self.faults = self.faults.saturating_add(1);
            return Err(PutError::Failed);
        }
        match find_cut(&self.failing, self.puts) {
            None => {
                self.bytes.extend_from_slice(piece).unwrap();
                Ok(())
            }
            Some(n) => {
                let len = n.min(piece.len() as u64) as usize;
                self.bytes.extend_from_slice(&piece[..len]).unwrap();
                self.faults = self.faults.saturating_add(1);
                Err(PutError::Failed)
            }
        }
    }
}
