ghost use Rattle.std.specs.Prelude.{◌≤◌, OnErr};
ghost use Rattle.rvd_io.specs.Causes.{Rose};
ghost use Rattle.rvd_io.specs.Outside.{Puts};

use crate::sinks::{PutError, Sink};

/// The most bytes of one put.
const PIECE: usize = 4096;

/// Puts a text in pieces of 4,096 bytes, the last one shorter; an empty text makes no put. It answers
/// `Failed` only where the sink's count of faults rose, and then a front of the text was appended.
pub fn put_all<K: Sink>(out: &mut K, text: &[u8]) -> Result<(), PutError>
    ensures bytes { Puts (K.contents out.old) (K.contents out.new) text.now result }
    ensures later { K.faults out.old ≤ K.faults out.new }
    ensures failed { OnErr result (Rose (K.faults out.old) (K.faults out.new)) }
{
    let mut at = 0;
    while at < text.len() {
        let len = (text.len() - at).min(PIECE);
        out.put(&text[at..at + len])?;
        at += len;
    }
    Ok(())
}
