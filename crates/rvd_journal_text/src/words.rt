ghost use Rattle.std.specs.Prelude.{◌≡◌, ◌++◌, OnOk, OnErr, codes};
ghost use Rattle.std.specs.Fmt.{decimal};
ghost use Rattle.rvd_text.specs.Hex.{hex8};
ghost use Rattle.rvd_notation.specs.Pieces.{Keeps};
ghost use Rattle.rvd_notation.specs.Words.{key_text};

use rvd_fact::{Addr, Key};
use rvd_notation::push_key;
use rvd_text::{push_dec, push_hex8};
use std::alloc::AllocError;

/// Appends a word, which ends with a space, and an address or a word of memory in eight digits.
pub fn push_at(out: &mut Vec<u8>, word: &[u8], at: Addr) -> Result<(), AllocError>
    ensures ok { OnOk result (out.new.items ≡ out.old.items ++ (word.now ++ hex8 at)) }
    ensures err { OnErr result (Keeps out.old.items out.new.items) }
{
    out.extend_from_slice(word)?;
    push_hex8(out, at)
}

/// Appends a word, which ends with a space, and a number in decimal digits.
pub fn push_count(out: &mut Vec<u8>, word: &[u8], n: u64) -> Result<(), AllocError>
    ensures ok { OnOk result (out.new.items ≡ out.old.items ++ (word.now ++ decimal n)) }
    ensures err { OnErr result (Keeps out.old.items out.new.items) }
{
    out.extend_from_slice(word)?;
    push_dec(out, n)
}

/// Appends a word, which ends with a space, and a key.
pub fn push_key_of(out: &mut Vec<u8>, word: &[u8], key: &Key) -> Result<(), AllocError>
    ensures ok { OnOk result (out.new.items ≡ out.old.items ++ (word.now ++ key_text key.now)) }
    ensures err { OnErr result (Keeps out.old.items out.new.items) }
{
    out.extend_from_slice(word)?;
    push_key(out, key)
}

/// Appends a space and a word.
pub fn push_spaced(out: &mut Vec<u8>, word: &[u8]) -> Result<(), AllocError>
    ensures ok { OnOk result (out.new.items ≡ out.old.items ++ (codes " " ++ word.now)) }
    ensures err { OnErr result (Keeps out.old.items out.new.items) }
{
    out.push(b' ')?;
    out.extend_from_slice(word)
}
