ghost use Rattle.std.specs.Prelude.{◌≡◌, ◌∷◌, [], ◌++◌, length, IfOk, IfSome, OnOk};
ghost use Rattle.std.specs.Option.{option_map};
ghost use Rattle.std.specs.Int.{from_le_bytes, w32};
ghost use Rattle.rvd_fact.specs.Memory.{word};
ghost use Rattle.rvd_ask.specs.Answers.{told};
ghost use Rattle.rvd_an_flow.specs.Parts.{code_word, ready_asks, ready_word};

use crate::opening::is_openable;
use rvd_ask::{Ask, Reads, View, ask_bytes};
use rvd_decode::decode;
use rvd_fact::{Addr, Bytes};
use std::alloc::{AllocError, Global};

// The word of four bytes, the lowest first.
fn word_of(four: &[u8]) -> u32
    requires { length four.now ≡ 4 }
    ensures { result ≡ from_le_bytes w32 four.now }
{
    u32::from_le_bytes([four[0], four[1], four[2], four[3]])
}

fn word_in(bytes: &Option<Bytes>) -> Option<u32>
    requires { IfSome bytes.now (λ list. length list ≡ 4) }
    ensures { result ≡ option_map (from_le_bytes w32) bytes.now }
{
    match bytes {
        None => None,
        Some(bytes) => Some(word_of(bytes.list())),
    }
}

fn code_word(word: Option<u32>) -> Option<u32>
    ensures { result ≡ code_word word }
{
    match word {
        Some(word) if decode(word).is_some() => Some(word),
        _ => None,
    }
}

/// Asks for the word at an address, where it is an instruction's.
pub fn ask_code<V: View>(
    alloc: Global,
    view: &V,
    reads: &mut Reads,
    at: Addr,
) -> Result<Option<u32>, AllocError>
    ensures answer { IfOk result (λ found. found ≡ code_word (word (V.program view.now) at)) }
    ensures reads { OnOk result (reads.new.items ≡ reads.old.items ++ told (V.program view.now) (Ask.Bytes at 4 ∷ [])) }
{
    let bytes = ask_bytes(alloc, view, reads, at, 4)?;
    Ok(code_word(word_in(&bytes)))
}

/// The word that a run goes on with at an address, or None where it ends before it.
#[tactic(auto, unfolding(crate::specs::Parts::ready_asks))]
pub fn ready_word<V: View>(
    alloc: Global,
    view: &V,
    reads: &mut Reads,
    at: Addr,
) -> Result<Option<u32>, AllocError>
    ensures answer { IfOk result (λ found. found ≡ ready_word (V.program view.now) at) }
    ensures reads { OnOk result (reads.new.items ≡ reads.old.items ++ told (V.program view.now) (ready_asks (V.program view.now) at)) }
{
    if is_openable(view, reads, at)? {
        ask_code(alloc, view, reads, at)
    } else {
        Ok(None)
    }
}
