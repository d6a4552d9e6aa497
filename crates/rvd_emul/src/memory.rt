ghost use Rattle.std.specs.Prelude.{◌≡◌, ◌+◌, ◌<◌, ◌≤◌, ◌^◌, IsSome, IfSome};
ghost use Rattle.std.specs.Option.{option_map};
ghost use Rattle.rvd_fact.specs.Memory.{block_key, block_len};
ghost use Rattle.rvd_fact.specs.Valid.{IsValid};
ghost use Rattle.rvd_emul.specs.Machine.{around, block_permits, is_open, own_byte, permits};

use rvd_fact::{Addr, Key, Kind, Perm, Value};
use rvd_program::Program;

/// What is done with memory.
#[derive(Clone, Copy, Debug, PartialEq, Eq)]
pub enum Access {
    Fetch,
    Load,
    Store,
}

fn block_key(at: Addr) -> Key
    ensures { result ≡ block_key at }
{
    Key {
        at,
        kind: Kind::Block,
        sub: 0,
    }
}

/// The block around an address: its start and its value.
pub fn around(program: &Program, at: Addr) -> Option<(Addr, &Value)>
    ensures value { option_map (λ b. (b.0, b.1.now)) result ≡ around program.now at }
    ensures below { IfSome result (λ b. b.0 ≤ at) }
    ensures within { IfSome result (λ b. b.0 + block_len b.1.now ≤ 2 ^ 32) }
    ensures valid { IsSome result → IsValid program.now }
{
    let start = program.block(at)?;
    let cell = program.cell(block_key(start))?;
    Some((start, &cell.value))
}

fn permits(access: Access, perm: Perm) -> bool
    ensures { result ≡ permits access perm }
{
    match access {
        Access::Fetch => perm.x,
        Access::Load => perm.r,
        Access::Store => perm.w,
    }
}

// Whether a block permits an access.
fn block_permits(access: Access, value: &Value) -> bool
    ensures { result ≡ block_permits access value.now }
{
    match value {
        Value::Block { perm, .. } => permits(access, *perm),
        _ => false,
    }
}

// How many bytes a block has.
fn block_len(value: &Value) -> u32
    ensures { result ≡ block_len value.now }
{
    match value {
        Value::Block { len, .. } => *len,
        _ => 0,
    }
}

/// Whether `len` bytes from an address on lie in one block that permits an access.
pub fn is_open(program: &Program, access: Access, at: Addr, len: u32) -> bool
    ensures { result ≡ is_open program.now access at len }
{
    match around(program, at) {
        None => false,
        Some((start, value)) => {
            let end = u64::from(start) + u64::from(block_len(value));
            u64::from(at) + u64::from(len) <= end && block_permits(access, value)
        }
    }
}

/// The byte at an address in a block, and 0 where the block is uninitialised.
pub fn own_byte(start: Addr, value: &Value, at: Addr) -> u8
    requires { start ≤ at }
    ensures { result ≡ own_byte start value.now at }
{
    match value {
        Value::Block {
            bytes: Some(all),
            ..
        } => {
            let all = all.list();
            let index = (at - start) as usize;
            if index < all.len() { all[index] } else { 0 }
        }
        _ => 0,
    }
}
