ghost use Rattle.std.specs.Prelude.{◌≡◌, ◌+◌, ◌^◌, ◌<◌, ◌&&◌, nat_lt, length, IfOk};
ghost use Rattle.std.specs.List.{count_by};
ghost use Rattle.rvd_fact.specs.Memory.{block_len, form_len, key_of, unit_len};
ghost use Rattle.rvd_fact.specs.Valid.{block_span};
ghost use Rattle.rvd_edit.specs.Steps.{GivesBy};
ghost use Rattle.rvd_edit.specs.Spaces.{aligned, first_met, gone_there, in_memory, in_one_block, in_space, is_block, is_decoded, is_left, meets, no_block_met, no_unit_met, not_there, one_block_more, room, stored, there};

use crate::edit_error::EditError;
use rvd_decode::decode;
use rvd_event::EditRefusal;
use rvd_fact::{Addr, Bytes, Cell, Form, Key, Kind, Value};
use rvd_program::{Kept, Program};
use std::alloc::Global;

/// How many addresses there are.
const ADDRESSES: u64 = 0x1_0000_0000;

/// How many blocks a program may have.
const MAX_BLOCKS: usize = 64;

/// The key of a kind at an address, with the `sub` 0.
pub fn key_at(at: Addr, kind: Kind) -> Key
    ensures { result ≡ key_of kind at }
{
    Key { at, kind, sub: 0 }
}

/// How many bytes a data unit of a form takes.
pub fn form_len(form: Form) -> u16
    ensures { result ≡ form_len form }
{
    match form {
        Form::Byte => 1,
        Form::Half => 2,
        Form::Word => 4,
        Form::Str(len) => len,
    }
}

fn unit_len(value: &Value) -> u32
    ensures { result ≡ unit_len value.now }
{
    match value {
        Value::Code(_) => 4,
        Value::Plain(form) => u32::from(form_len(*form)),
        _ => 0,
    }
}

fn block_len(value: &Value) -> u32
    ensures { result ≡ block_len value.now }
{
    match value {
        Value::Block { len, .. } => *len,
        _ => 0,
    }
}

fn block_span(program: &Program, start: Addr) -> u32
    ensures { result ≡ block_span program.now start }
{
    match program.cell(key_at(start, Kind::Block)) {
        None => 0,
        Some(cell) => block_len(&cell.value),
    }
}

/// Refuses an address that isn't a multiple of a size.
pub fn check_aligned(at: Addr, size: u32) -> Result<(), EditRefusal>
    requires { 0 < size }
    ensures { result ≡ aligned at size }
{
    if at % size == 0 {
        Ok(())
    } else {
        Err(EditRefusal::Unaligned(at))
    }
}

/// Refuses an address that is in no block.
pub fn check_in_memory(program: &Program, at: Addr) -> Result<(), EditRefusal>
    ensures { result ≡ in_memory program.now at }
{
    match program.block(at) {
        None => Err(EditRefusal::NoBlock(at)),
        Some(_) => Ok(()),
    }
}

// How many bytes the block around an address has from there on, and 0 where the address is in no block.
fn room(program: &Program, at: Addr) -> u64
    ensures room { result ≡ room program.now at }
    ensures short { result < 2 ^ 33 }
{
    match program.block(at) {
        None => 0,
        Some(start) => (u64::from(start) + u64::from(block_span(program, start))).saturating_sub(
            u64::from(at),
        ),
    }
}

/// Refuses the first of `n` bytes that doesn't lie in the block around the first byte.
pub fn check_in_one_block(program: &Program, at: Addr, n: u16) -> Result<(), EditRefusal>
    ensures { result ≡ in_one_block program.now at n }
{
    let room = room(program, at);
    if u64::from(n) <= room {
        return Ok(());
    }
    let outside = (u64::from(at) + room) % ADDRESSES;
    Err(EditRefusal::NoBlock(outside as u32))
}

/// The `n` bytes from an address on, which are refused in an uninitialised block.
pub fn read_stored(alloc: Global, program: &Program, at: Addr, n: u16) -> Result<Bytes, EditError>
    ensures bytes { GivesBy (λ b. b) result (stored program.now at n) }
    ensures len { IfOk result (λ b. length b ≡ n) }
{
    match program.bytes(alloc, at, n)? {
        None => Err(EditError::Refused(EditRefusal::NoBytes(at))),
        Some(bytes) => Ok(bytes),
    }
}

// Whether `len` bytes from `start` on have one of the `n` bytes from `at` on.
fn meets(start: Addr, len: u32, at: Addr, n: u32) -> bool
    ensures { result ≡ (nat_lt 0 len && (nat_lt at (start + len) && nat_lt start (at + n))) }
{
    0 < len
        && u64::from(at) < u64::from(start) + u64::from(len)
        && u64::from(start) < u64::from(at) + u64::from(n)
}

// Where the lowest unit begins that has one of the bytes.
fn first_unit_met(entries: &[(Key, Kept)], at: Addr, n: u32) -> Option<Addr>
    ensures { result ≡ first_met unit_len entries.now at n }
{
    for entry in entries {
        if meets(entry.0.at, unit_len(&entry.1.cell().value), at, n) {
            return Some(entry.0.at);
        }
    }
    None
}

// Where the lowest block begins that has one of the bytes.
fn first_block_met(entries: &[(Key, Kept)], at: Addr, n: u32) -> Option<Addr>
    ensures { result ≡ first_met block_len entries.now at n }
{
    for entry in entries {
        if meets(entry.0.at, block_len(&entry.1.cell().value), at, n) {
            return Some(entry.0.at);
        }
    }
    None
}

/// Refuses the lowest present unit that has one of the `n` bytes.
pub fn check_no_unit_met(program: &Program, at: Addr, n: u16) -> Result<(), EditRefusal>
    ensures { result ≡ no_unit_met program.now at n }
{
    match first_unit_met(program.entries(), at, u32::from(n)) {
        None => Ok(()),
        Some(start) => Err(EditRefusal::Overlap(start)),
    }
}

/// Refuses a range of `n` bytes that passes the end of the address space.
pub fn check_in_space(at: Addr, n: u32) -> Result<(), EditRefusal>
    ensures { result ≡ in_space at n }
{
    if u64::from(at) + u64::from(n) <= ADDRESSES {
        Ok(())
    } else {
        Err(EditRefusal::LeavesSpace(at))
    }
}

/// Refuses the lowest block that has one of the `n` bytes.
pub fn check_no_block_met(program: &Program, at: Addr, n: u32) -> Result<(), EditRefusal>
    ensures { result ≡ no_block_met program.now at n }
{
    match first_block_met(program.entries(), at, n) {
        None => Ok(()),
        Some(start) => Err(EditRefusal::BlockOverlap(start)),
    }
}

fn count_blocks(entries: &[(Key, Kept)]) -> usize
    ensures { result ≡ count_by is_block entries.now }
{
    let mut count = 0;
    for entry in entries {
        if block_len(&entry.1.cell().value) > 0 {
            count += 1;
        }
    }
    count
}

/// Refuses a block more than a program may have.
pub fn check_one_block_more(program: &Program) -> Result<(), EditRefusal>
    ensures { result ≡ one_block_more program.now }
{
    if count_blocks(program.entries()) < MAX_BLOCKS {
        Ok(())
    } else {
        Err(EditRefusal::BlocksFull)
    }
}

/// Refuses a word that is no instruction.
pub fn check_decoded(word: u32) -> Result<(), EditRefusal>
    ensures { result ≡ is_decoded word }
{
    match decode(word) {
        None => Err(EditRefusal::BadInstruction(word)),
        Some(_) => Ok(()),
    }
}

fn is_gone(cell: &Cell) -> bool
    ensures { result ≡ is_left (Some cell.now) }
{
    matches!(cell.value, Value::Gone)
}

/// Refuses a key where no fact is present.
pub fn check_there(program: &Program, key: Key) -> Result<(), EditRefusal>
    ensures { result ≡ there program.now key }
{
    match program.cell(key) {
        Some(cell) if !is_gone(cell) => Ok(()),
        _ => Err(EditRefusal::NoSuch(key)),
    }
}

/// Refuses a key where a fact is present.
pub fn check_not_there(program: &Program, key: Key) -> Result<(), EditRefusal>
    ensures { result ≡ not_there program.now key }
{
    match program.cell(key) {
        Some(cell) if !is_gone(cell) => Err(EditRefusal::Present(key)),
        _ => Ok(()),
    }
}

/// Refuses a key where no deleted fact left Gone.
pub fn check_gone(program: &Program, key: Key) -> Result<(), EditRefusal>
    ensures { result ≡ gone_there program.now key }
{
    match program.cell(key) {
        Some(cell) if is_gone(cell) => Ok(()),
        _ => Err(EditRefusal::NoSuch(key)),
    }
}
