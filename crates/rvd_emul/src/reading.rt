ghost use Rattle.std.specs.Prelude.{◌≡◌, ◌<◌, ◌≤◌, true, unwrap_or};
ghost use Rattle.rvd_emul.specs.Effects.{loaded, width};
ghost use Rattle.rvd_emul.specs.Machine.{lies_in, memory_byte, memory_half, memory_word, newest, own_byte};

use crate::memory::{around, own_byte};
use crate::stored::{StoredByte, stored_at};
use rvd_decode::Op;
use rvd_fact::{Addr, Value};
use rvd_program::Program;
use rvd_table::Table;

// A byte of memory in a block.
fn byte_in(stored: &Table<Addr, StoredByte>, start: Addr, value: &Value, at: Addr) -> u8
    requires { start ≤ at }
    ensures { result ≡ unwrap_or (newest stored.now at) (own_byte start value.now at) }
{
    match stored_at(stored, at) {
        Some(byte) => byte,
        None => own_byte(start, value, at),
    }
}

/// The byte at an address that is open to an access.
pub fn memory_byte(program: &Program, stored: &Table<Addr, StoredByte>, at: Addr) -> u8
    requires { lies_in program.now at 1 ≡ true }
    ensures { result ≡ memory_byte program.now stored.now at }
{
    let (start, value) = around(program, at).unwrap();
    byte_in(stored, start, value, at)
}

/// The number of two bytes that are open to an access, the lowest first.
pub fn memory_half(program: &Program, stored: &Table<Addr, StoredByte>, at: Addr) -> u16
    requires { lies_in program.now at 2 ≡ true }
    ensures { result ≡ memory_half program.now stored.now at }
{
    let (start, value) = around(program, at).unwrap();
    let first = byte_in(stored, start, value, at);
    let second = byte_in(stored, start, value, at + 1);
    u16::from_le_bytes([first, second])
}

/// The word of four bytes that are open to an access, the lowest first.
pub fn memory_word(program: &Program, stored: &Table<Addr, StoredByte>, at: Addr) -> u32
    requires { lies_in program.now at 4 ≡ true }
    ensures { result ≡ memory_word program.now stored.now at }
{
    let (start, value) = around(program, at).unwrap();
    let first = byte_in(stored, start, value, at);
    let second = byte_in(stored, start, value, at + 1);
    let third = byte_in(stored, start, value, at + 2);
    let fourth = byte_in(stored, start, value, at + 3);
    u32::from_le_bytes([first, second, third, fourth])
}

/// What a load loads from an address that is open to it.
pub fn loaded(program: &Program, stored: &Table<Addr, StoredByte>, op: Op, at: Addr) -> u32
    requires { lies_in program.now at (width op) ≡ true }
    ensures { result ≡ loaded program.now stored.now op at }
{
    match op {
        Op::Lb => {
            let byte = memory_byte(program, stored, at);
            i32::from(byte.cast_signed()).cast_unsigned()
        }
        Op::Lh => {
            let half = memory_half(program, stored, at);
            i32::from(half.cast_signed()).cast_unsigned()
        }
        Op::Lw => memory_word(program, stored, at),
        Op::Lbu => u32::from(memory_byte(program, stored, at)),
        Op::Lhu => u32::from(memory_half(program, stored, at)),
        _ => 0,
    }
}
