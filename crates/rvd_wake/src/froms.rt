ghost use Rattle.std.specs.Prelude.{◌≡◌, IfOk, filter_map};
ghost use Rattle.rvd_ask.specs.Wake.{goes_to, meets};
ghost use Rattle.rvd_wake.specs.Picks.{from_near as near_of, from_of, goes_near};

use crate::places::at_if;
use rvd_fact::{Addr, Key, Value};
use rvd_program::Kept;
use std::alloc::{AllocError, Global};

/// How many bytes an instruction takes.
pub const WORD: u64 = 4;

/// The addresses that have a present reference to an address.
pub fn froms_of(
    alloc: Global,
    entries: &[(Key, Kept)],
    target: Addr,
) -> Result<Vec<Addr>, AllocError>
    ensures { IfOk result (λ places. places.items ≡ filter_map (λ e. from_of target e.0 e.1.value) entries.now) }
{
    entries
        .iter()
        .filter_map(|entry| at_if(goes_to(target, &entry.1.cell().value), &entry.0))
        .collect(alloc)
}

/// The addresses that have a present reference to a word, at a multiple of 4, that meets the `n` bytes from `at` on.
pub fn froms_near(
    alloc: Global,
    entries: &[(Key, Kept)],
    at: Addr,
    n: u32,
) -> Result<Vec<Addr>, AllocError>
    ensures { IfOk result (λ places. places.items ≡ filter_map (λ e. near_of at n e.0 e.1.value) entries.now) }
{
    entries
        .iter()
        .filter_map(|entry| at_if(goes_near(at, n, &entry.1.cell().value), &entry.0))
        .collect(alloc)
}

fn goes_to(target: Addr, value: &Value) -> bool
    ensures { result ≡ goes_to target value.now }
{
    match value {
        Value::Ref { to, .. } => *to == target,
        _ => false,
    }
}

fn goes_near(at: Addr, n: u32, value: &Value) -> bool
    ensures { result ≡ goes_near at n value.now }
{
    match value {
        Value::Ref { to, .. } => meets(at, n, *to),
        _ => false,
    }
}

// Whether an address is a multiple of 4 whose four bytes meet the `n` bytes from `at` on.
fn meets(at: Addr, n: u32, word: Addr) -> bool
    ensures { result ≡ meets at n word }
{
    word % 4 == 0
        && 0 < n
        && u64::from(word) < u64::from(at) + u64::from(n)
        && u64::from(at) < u64::from(word) + WORD
}
