ghost use Rattle.std.specs.Prelude.{◌≡◌, ◌+◌, ◌&&◌, not, ◌==◌, nat_lt, nat_le};
ghost use Rattle.std.specs.List.{list_any};
ghost use Rattle.rvd_fact.specs.Memory.{unit_len, block_len, word};
ghost use Rattle.rvd_fact.specs.Valid.{span};
ghost use Rattle.rvd_program.specs.Checks.{crowds, is_free, encloses, agrees, hangs, hangs_at, units_stand, stays_valid};

use crate::kept::Kept;
use crate::memory::word;
use crate::spans::{block_len, unit_len};
use crate::suiting::{may_be, rank};
use rvd_fact::{Addr, Cell, Key, Kind, Value};

/// Whether a valid program is still valid with this at a key, a cell or none, where the entries are those of the program
/// with it.
pub fn stays_valid(entries: &[(Key, Kept)], key: Key, cell: &Option<Cell>) -> bool
    ensures { result ≡ stays_valid entries.now key cell.now }
{
    may_be(key, cell)
        && has_own_blocks(entries, key.at, block_span(cell))
        && has_own_units(entries, key.at, unit_span(cell))
        && units_stand(entries, key, cell)
}

fn block_span(cell: &Option<Cell>) -> u32
    ensures { result ≡ span block_len cell.now }
{
    match cell {
        None => 0,
        Some(cell) => block_len(&cell.value),
    }
}

fn unit_span(cell: &Option<Cell>) -> u32
    ensures { result ≡ span unit_len cell.now }
{
    match cell {
        None => 0,
        Some(cell) => unit_len(&cell.value),
    }
}

// Whether `len` bytes from `start` on, at another address than `at`, have one of the `n` bytes from `at` on.
fn meets(start: Addr, len: u32, at: Addr, n: u32) -> bool
    ensures { result ≡ (nat_lt 0 n && (not (start == at) && (nat_lt 0 len && (nat_lt at (start + len) && nat_lt start (at + n))))) }
{
    0 < n
        && start != at
        && 0 < len
        && u64::from(at) < u64::from(start) + u64::from(len)
        && u64::from(start) < u64::from(at) + u64::from(n)
}

// Whether no other block has one of the bytes.
fn has_own_blocks(entries: &[(Key, Kept)], at: Addr, n: u32) -> bool
    ensures { result ≡ is_free block_len entries.now at n }
{
    n == 0 || !any_block_meets(entries, at, n)
}

fn any_block_meets(entries: &[(Key, Kept)], at: Addr, n: u32) -> bool
    ensures { result ≡ list_any (crowds block_len at n) entries.now }
{
    entries.iter().any(|entry| meets(entry.0.at, block_len(&entry.1.cell().value), at, n))
}

// Whether no other unit has one of the bytes.
fn has_own_units(entries: &[(Key, Kept)], at: Addr, n: u32) -> bool
    ensures { result ≡ is_free unit_len entries.now at n }
{
    n == 0 || !any_unit_meets(entries, at, n)
}

fn any_unit_meets(entries: &[(Key, Kept)], at: Addr, n: u32) -> bool
    ensures { result ≡ list_any (crowds unit_len at n) entries.now }
{
    entries.iter().any(|entry| meets(entry.0.at, unit_len(&entry.1.cell().value), at, n))
}

// Whether the units that a change at a key can touch lie in blocks, with their words.
fn units_stand(entries: &[(Key, Kept)], key: Key, cell: &Option<Cell>) -> bool
    ensures { result ≡ units_stand entries.now key cell.now }
{
    if rank(key.kind) == rank(Kind::Block) {
        !any_hangs(entries)
    } else {
        !hangs_at(entries, key, cell)
    }
}

fn any_hangs(entries: &[(Key, Kept)]) -> bool
    ensures { result ≡ list_any (hangs entries.now) entries.now }
{
    entries
        .iter()
        .any(|entry| hangs(entries, entry.0.at, &entry.1.cell().value))
}

fn hangs_at(entries: &[(Key, Kept)], key: Key, cell: &Option<Cell>) -> bool
    ensures { result ≡ hangs_at entries.now key cell.now }
{
    match cell {
        None => false,
        Some(cell) => hangs(entries, key.at, &cell.value),
    }
}

// Whether a value is a unit that isn't in a block, or an instruction of another word than memory has.
fn hangs(entries: &[(Key, Kept)], at: Addr, value: &Value) -> bool
    ensures { result ≡ (nat_lt 0 (unit_len value.now) && not (list_any (encloses at (unit_len value.now)) entries.now && agrees (word entries.now at) value.now)) }
{
    let len = unit_len(value);
    0 < len && !(is_enclosed(entries, at, len) && agrees(entries, at, value))
}

fn is_enclosed(entries: &[(Key, Kept)], at: Addr, n: u32) -> bool
    ensures { result ≡ list_any (encloses at n) entries.now }
{
    entries.iter().any(|entry| encloses(entry.0.at, block_len(&entry.1.cell().value), at, n))
}

// Whether `len` bytes from `start` on have the `n` bytes from `at` on.
fn encloses(start: Addr, len: u32, at: Addr, n: u32) -> bool
    ensures { result ≡ (nat_lt 0 len && (nat_le start at && nat_le (at + n) (start + len))) }
{
    0 < len && start <= at && u64::from(at) + u64::from(n) <= u64::from(start) + u64::from(len)
}

// Whether a value is no instruction, or the one whose word memory has.
fn agrees(entries: &[(Key, Kept)], at: Addr, value: &Value) -> bool
    ensures { result ≡ agrees (word entries.now at) value.now }
{
    match value {
        Value::Code(code) => word(entries, at) == Some(*code),
        _ => true,
    }
}
