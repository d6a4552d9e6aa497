ghost use Rattle.std.specs.Prelude.{◌≡◌, ℕ, ◌+◌, ◌-◌, ◌<◌, ◌≤◌, ◌&&◌, ◌||◌, nat_lt, nat_le, MatchOption};
ghost use Rattle.rvd_fact.specs.Memory.{block, block_key, cover, unit_key};
ghost use Rattle.rvd_fact.specs.Valid.{IsValid, block_span, unit_span};
ghost use Rattle.rvd_program.specs.Lookup.{NoneStarts, NoneStartsFrom};

use crate::kept::{Kept, cell_in};
use crate::spans::{block_len, unit_len};
use rvd_fact::{Addr, Key, Kind};
use rvd_table::Table;

// The most bytes of a unit.
const LONGEST_UNIT: u32 = 256;

/// The key of a block that starts at an address.
pub fn block_key(at: Addr) -> Key
    ensures { result ≡ block_key at }
{
    Key {
        at,
        kind: Kind::Block,
        sub: 0,
    }
}

fn unit_key(at: Addr) -> Key
    ensures { result ≡ unit_key at }
{
    Key {
        at,
        kind: Kind::Unit,
        sub: 0,
    }
}

// How many bytes the block that starts at an address has, and 0 where none does.
fn block_span(cells: &Table<Key, Kept>, at: Addr) -> u32
    ensures { result ≡ block_span cells.now at }
{
    match cell_in(cells, &block_key(at)) {
        None => 0,
        Some(cell) => block_len(&cell.value),
    }
}

// How many bytes the present unit that starts at an address takes, and 0 where none does.
fn unit_span(cells: &Table<Key, Kept>, at: Addr) -> u32
    ensures { result ≡ unit_span cells.now at }
{
    match cell_in(cells, &unit_key(at)) {
        None => 0,
        Some(cell) => unit_len(&cell.value),
    }
}

// The least address, not below `from`, at which something stands. No block starts before it.
fn next_address(cells: &Table<Key, Kept>, from: Addr) -> Option<Addr>
    requires { IsValid cells.now }
    ensures { MatchOption result (NoneStartsFrom (block_span cells.now) from) (λ next. (from ≤ next) × NoneStarts (block_span cells.now) from next) }
{
    match cells.next_at_or_after(&block_key(from)) {
        None => None,
        Some((key, _)) => Some(key.at),
    }
}

// The greatest address, not above `from`, at which something stands. No unit starts behind it.
fn last_address(cells: &Table<Key, Kept>, from: Addr) -> Option<Addr>
    requires { IsValid cells.now }
    ensures { MatchOption result (NoneStarts (unit_span cells.now) 0 (from + 1)) (λ last. (last ≤ from) × NoneStarts (unit_span cells.now) (last + 1) (from + 1)) }
{
    let top = Key {
        at: from,
        kind: Kind::Ref,
        sub: u8::MAX,
    };
    match cells.last_at_or_before(&top) {
        None => None,
        Some((key, _)) => Some(key.at),
    }
}

// Whether `len` bytes from `start` on have the byte at an address.
fn has_byte(start: Addr, len: u32, at: Addr) -> bool
    ensures { result ≡ (nat_le start at && nat_lt at (start + len)) }
{
    start <= at && at - start < len
}

// The address behind `len` bytes from `start` on, and at least the one behind `start`.
fn address_behind(start: Addr, len: u32) -> u64
    ensures above { start < result }
    ensures within { (b : ℕ) → start < b → b < result → b < start + len }
{
    if len == 0 {
        u64::from(start) + 1
    } else {
        u64::from(start) + u64::from(len)
    }
}

// Whether no unit that starts below `start`, where one of `len` bytes starts, can have the byte at an address.
fn hides_lower(start: Addr, len: u32, at: Addr) -> bool
    requires { start ≤ at }
    ensures { result ≡ (nat_lt 0 len || nat_le 256 (at - start)) }
{
    len > 0 || at - start >= LONGEST_UNIT
}

/// The start of the block around an address, or None where there is none. Each block is found by a look-up behind the end of
/// the one before.
pub fn block_start(cells: &Table<Key, Kept>, at: Addr) -> Option<Addr>
    requires { IsValid cells.now }
    ensures { result ≡ block cells.now at }
{
    let mut from: u64 = 0;
    while from <= u64::from(at) {
        match next_address(cells, from as u32) {
            None => return None,
            Some(start) => {
                let len = block_span(cells, start);
                if has_byte(start, len, at) {
                    return Some(start);
                }
                from = address_behind(start, len);
            }
        }
    }
    None
}

/// The start of the present unit that has the byte at an address, or None where none has it. Units are looked for from the
/// address down, as far as the nearest one, and at most as far as a unit is long.
pub fn unit_start(cells: &Table<Key, Kept>, at: Addr) -> Option<Addr>
    requires { IsValid cells.now }
    ensures { result ≡ cover cells.now at }
{
    let mut below: u64 = u64::from(at) + 1;
    while below > 0 {
        match last_address(cells, (below - 1) as u32) {
            None => return None,
            Some(start) => {
                let len = unit_span(cells, start);
                if has_byte(start, len, at) {
                    return Some(start);
                }
                if hides_lower(start, len, at) {
                    return None;
                }
                below = u64::from(start);
            }
        }
    }
    None
}
