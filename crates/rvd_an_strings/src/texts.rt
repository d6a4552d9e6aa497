ghost use Rattle.std.specs.Prelude.{◌≡◌, ◌++◌, ◌∷◌, [], ◌+◌, ◌^◌, ◌≤◌, length, false, IfOk, IfSome, OnOk};
ghost use Rattle.std.specs.Option.{option_copied, option_map_or};
ghost use Rattle.rvd_fact.specs.Memory.{byte_at};
ghost use Rattle.rvd_fact.specs.Valid.{IsValid};
ghost use Rattle.rvd_ask.specs.Answers.{told};
ghost use Rattle.rvd_ask.specs.Strings.{byte_asks, is_text_byte, string_len, tail, text_len};
ghost use Rattle.rvd_an_strings.specs.Parts.{cell_room, room_asks, text_asks};

use rvd_ask::{Ask, Reads, View, ask_block, ask_bytes, ask_cell};
use rvd_fact::{Addr, Cell, Key, Kind, Value};
use std::alloc::{AllocError, Global};

// The fewest bytes of text of a string, without its zero.
const SHORTEST: u16 = 5;

// The most bytes of a string, with its zero.
const LONGEST: u32 = 256;

// How many bytes the block that begins at `start` has from an address on, where it is initialised; else 0.
fn cell_room(cell: Option<&Cell>, start: Addr, at: Addr) -> u32
    ensures { result ≡ cell_room start at (option_copied cell.entry) }
{
    match cell {
        None => 0,
        Some(cell) => match &cell.value {
            Value::Block {
                len,
                bytes: Some(_),
                ..
            } => len.saturating_sub(at.saturating_sub(start)),
            _ => 0,
        },
    }
}

// How many bytes the initialised block around an address has from there on; 0 where none is there.
fn ask_room<V: View>(view: &V, reads: &mut Reads, at: Addr) -> Result<u32, AllocError>
    requires { IsValid (V.program view.now) }
    ensures answer { IfOk result (λ room. room ≡ length (tail (V.program view.now) at)) }
    ensures reads { let P = V.program view.now in
        OnOk result (reads.new.items ≡ reads.old.items ++ told P (room_asks P at)) }
{
    let Some(start) = ask_block(view, reads, at)? else {
        return Ok(0);
    };
    let key = Key {
        at: start,
        kind: Kind::Block,
        sub: 0,
    };
    let cell = ask_cell(view, reads, key)?;
    Ok(cell_room(cell, start, at))
}

// The byte at an address, where one is.
fn ask_byte<V: View>(
    alloc: Global,
    view: &V,
    reads: &mut Reads,
    at: Addr,
) -> Result<Option<u8>, AllocError>
    ensures answer { IfOk result (λ byte. byte ≡ byte_at (V.program view.now) at) }
    ensures reads { let P = V.program view.now in
        OnOk result (reads.new.items ≡ reads.old.items ++ told P (Ask.Bytes at 1 ∷ [])) }
{
    match ask_bytes(alloc, view, reads, at, 1)? {
        None => Ok(None),
        Some(bytes) => Ok(Some(bytes.list()[0])),
    }
}

// Whether a byte is there, and is one of text: a printing character, a tab, a line feed or a carriage return.
fn is_text(byte: Option<u8>) -> bool
    ensures { result ≡ option_map_or is_text_byte byte false }
{
    matches!(byte, Some(b' '..=b'~' | b'\t' | b'\n' | b'\r'))
}

// How many bytes of text stand before a zero, at most 255, where nothing else comes between.
fn text_len<V: View>(
    alloc: Global,
    view: &V,
    reads: &mut Reads,
    at: Addr,
    room: u32,
) -> Result<Option<u16>, AllocError>
    requires valid { IsValid (V.program view.now) }
    requires room { room ≡ length (tail (V.program view.now) at) }
    ensures answer { IfOk result (λ len. len ≡ text_len 255 (tail (V.program view.now) at)) }
    ensures reads { let P = V.program view.now in
        OnOk result (reads.new.items ≡ reads.old.items ++ told P (byte_asks at 255 (tail P at))) }
{
    for offset in 0..room.min(LONGEST) {
        let byte = ask_byte(alloc, view, reads, at + offset)?;
        if byte == Some(0) {
            return Ok(Some(offset as u16));
        }
        if !is_text(byte) {
            return Ok(None);
        }
    }
    Ok(None)
}

/// The length of the string at an address with its zero, where there is one in one initialised block: 5 to 255 bytes of
/// text and a zero.
pub fn ask_string<V: View>(
    alloc: Global,
    view: &V,
    reads: &mut Reads,
    at: Addr,
) -> Result<Option<u16>, AllocError>
    requires { IsValid (V.program view.now) }
    ensures answer { IfOk result (λ len. len ≡ string_len (V.program view.now) at) }
    ensures within { IfOk result (λ len. IfSome len (λ n. at + n ≤ 2 ^ 32)) }
    ensures reads { let P = V.program view.now in
        OnOk result (reads.new.items ≡ reads.old.items ++ told P (text_asks P at)) }
{
    let room = ask_room(view, reads, at)?;
    if room <= u32::from(SHORTEST) {
        return Ok(None);
    }
    match text_len(alloc, view, reads, at, room)? {
        Some(len) if len >= SHORTEST => Ok(Some(len + 1)),
        _ => Ok(None),
    }
}
