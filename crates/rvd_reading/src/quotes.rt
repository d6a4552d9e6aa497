ghost use Rattle.std.specs.Prelude.{◌≡◌, ◌≤◌, true, false, IfOk, length, vec_len};
ghost use Rattle.rvd_fact.specs.Valid.{is_text};
ghost use Rattle.rvd_reading.specs.Steps.{Reads};
ghost use Rattle.rvd_reading.specs.Quotes.{is_bare, quote_len, quoted_len, quoted_of};

use crate::errors::ReadError;
use crate::rest::Rest;
use rvd_fact::Text;
use rvd_text::{TextError, read_quoted};
use std::alloc::Global;

/// Whether a byte is this one, with no escaping backslash before it.
fn is_bare(escaped: bool, byte: u8, read: u8) -> bool
    ensures { result ≡ is_bare escaped byte read }
{
    !escaped && read == byte
}

/// How many bytes there are up to the closing quote and with it.
fn quote_len(bytes: &[u8]) -> usize
    ensures value { result ≡ quote_len false bytes.now }
    ensures within { result ≤ length bytes.now }
{
    let mut escaped = false;
    for (i, byte) in bytes.iter().enumerate() {
        if is_bare(escaped, b'"', *byte) {
            return i + 1;
        }
        escaped = is_bare(escaped, b'\\', *byte);
    }
    bytes.len()
}

/// How many bytes the quoted text in front has.
fn quoted_len(bytes: &[u8]) -> usize
    ensures value { result ≡ quoted_len bytes.now }
    ensures within { result ≤ length bytes.now }
{
    match bytes {
        [] => 0,
        [_, rest @ ..] => quote_len(rest) + 1,
    }
}

/// A quoted text of at most 1,000 bytes.
#[tactic(auto, unfolding(crate::specs::Quotes::quoted_of))]
pub fn quoted(alloc: Global, rest: &mut Rest) -> Result<Text, ReadError>
    ensures { Reads rest.new result (quoted_of rest.old) }
{
    let len = quoted_len(rest.bytes());
    match read_quoted(alloc, rest.take(len)) {
        Ok(bytes) => Ok(Text::of(alloc, bytes)?),
        Err(TextError::OutOfMemory) => Err(ReadError::OutOfMemory),
        Err(_) => Err(ReadError::Unread),
    }
}
