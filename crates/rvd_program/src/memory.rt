ghost use Rattle.std.specs.Prelude.{◌≡◌, ◌≤◌, length, IfOk, IfSome, find as first_where};
ghost use Rattle.std.specs.Option.{option_map, option_copied};
ghost use Rattle.std.specs.Int.{from_le_bytes, w32};
ghost use Rattle.rvd_fact.specs.Memory.{surrounds, cover, block, bytes, word, bytes_in};

use crate::kept::{Kept, cell_in};
use crate::near::{block_key, block_start, unit_start};
use crate::spans::block_len;
use crate::valid_map::Program;
use rvd_fact::{Addr, Bytes, Key, Value};
use std::alloc::{AllocError, Global};

impl Program {
    /// The start of the present unit that has the byte at an address, or None where none has it. It takes no memory. The
    /// unit is looked for from the address down, at most as far as a unit is long.
    pub fn cover(&self, at: Addr) -> Option<Addr>
        ensures { result ≡ cover self.now at }
    {
        unit_start(&self.cells, at)
    }

    /// The start of the block around an address, or None where there is none. It takes no memory. Blocks are passed over one
    /// by one, without a look at what lies in them.
    pub fn block(&self, at: Addr) -> Option<Addr>
        ensures { result ≡ block self.now at }
    {
        block_start(&self.cells, at)
    }

    /// The `len` bytes from an address on, or None where `len` is 0 or they don't lie in one initialised block. Only
    /// want of memory refuses it.
    pub fn bytes(&self, alloc: Global, at: Addr, len: u16) -> Result<Option<Bytes>, AllocError>
        ensures { IfOk result (λ answer. answer ≡ bytes self.now at len) }
    {
        match block_start(&self.cells, at) {
            None => Ok(None),
            Some(start) => match cell_in(&self.cells, &block_key(start)) {
                None => Ok(None),
                Some(cell) => bytes_in(alloc, start, at, len, &cell.value),
            },
        }
    }
}

/// The word of the four initialised bytes from an address on, the lowest first.
pub fn word(entries: &[(Key, Kept)], at: Addr) -> Option<u32>
    ensures { result ≡ word entries.now at }
{
    match surrounding(entries, at) {
        None => None,
        Some(block) => word_in(block.0.at, at, &block.1.cell().value),
    }
}

// The block around an address.
fn surrounding(entries: &[(Key, Kept)], at: Addr) -> Option<&(Key, Kept)>
    ensures entry { option_copied result ≡ first_where (surrounds at) entries.now }
    ensures start { IfSome result (λ entry. entry.now.0.at ≤ at) }
{
    for entry in entries {
        let start = entry.0.at;
        if start <= at && at - start < block_len(&entry.1.cell().value) {
            return Some(entry);
        }
    }
    None
}

// The bytes of a range from a block's bytes.
fn bytes_in(
    alloc: Global,
    start: Addr,
    at: Addr,
    len: u16,
    value: &Value,
) -> Result<Option<Bytes>, AllocError>
    requires { start ≤ at }
    ensures { IfOk result (λ answer. answer ≡ bytes_in start at len value.now) }
{
    match value {
        Value::Block {
            bytes: Some(all),
            ..
        } => {
            let all = all.list();
            let from = (at - start) as usize;
            let len = usize::from(len);
            if len > 0 && from + len <= all.len() {
                let list = all[from..from + len].to_vec(alloc)?;
                Ok(Some(Bytes::of(alloc, list)?))
            } else {
                Ok(None)
            }
        }
        _ => Ok(None),
    }
}

// The word of four bytes from a block's bytes.
fn word_in(start: Addr, at: Addr, value: &Value) -> Option<u32>
    requires { start ≤ at }
    ensures { result ≡ option_map (from_le_bytes w32) (bytes_in start at 4 value.now) }
{
    match value {
        Value::Block {
            bytes: Some(all),
            ..
        } => {
            let all = all.list();
            let from = (at - start) as usize;
            if from + 4 <= all.len() {
                Some(word_of(&all[from..from + 4]))
            } else {
                None
            }
        }
        _ => None,
    }
}

// The word of four bytes, the lowest first.
fn word_of(four: &[u8]) -> u32
    requires { length four.now ≡ 4 }
    ensures { result ≡ from_le_bytes w32 four.now }
{
    u32::from_le_bytes([four[0], four[1], four[2], four[3]])
}
