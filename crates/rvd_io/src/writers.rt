ghost use Rattle.std.specs.Prelude.{◌≡◌};

use crate::sinks::{PutError, Sink};
use std::io::{ErrorKind, Write};

/// A sink over a writer of std. It tells what the writer tells. A write that takes nothing of a piece
/// that isn't empty is a fault, and so is a flush that fails after the piece.
#[derive(Drop)]
pub struct WriteSink<W> {
    inner: W,
    faults: u64,
}

impl<W: Write> WriteSink<W> {
    /// A sink over this writer, which has seen no fault.
    pub fn new(inner: W) -> WriteSink<W>
        ensures contents { ⟦<WriteSink<W> as Sink>⟧.contents result ≡ W.contents inner }
        ensures faults { ⟦<WriteSink<W> as Sink>⟧.faults result ≡ 0 }
    {
        WriteSink { inner, faults: 0 }
    }

    /// The writer behind it.
    pub fn into_inner(self) -> W
        ensures { ⟦<WriteSink<W> as Sink>⟧.contents self ≡ W.contents result }
    {
        self.inner
    }
}

impl<W: Write> Sink for WriteSink<W> {
    ghost contents = { λ s. W.contents s.inner };

    ghost faults = { λ s. s.faults };

    fn put(&mut self, piece: &[u8]) -> Result<(), PutError> {
        let mut at = 0;
        for _ in 0..u64::MAX {
            if at >= piece.len() {
                return match self.inner.flush() {
                    Ok(()) => Ok(()),
                    Err(_) => {
                        self.faults = self.faults.saturating_add(1);
                        Err(PutError::Failed)
                    }
                };
            }
            match self.inner.write(&piece[at..]) {
                Ok(0) => break,
                Ok(n) => at += n,
                Err(e) => {
                    if e.kind() != ErrorKind::Interrupted {
                        break;
                    }
                }
            }
        }
        self.faults = self.faults.saturating_add(1);
        Err(PutError::Failed)
    }
}
