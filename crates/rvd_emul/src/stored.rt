ghost use Rattle.std.specs.Prelude.{◌≡◌, ◌+◌, ◌^◌, ◌≤◌, length, OnOk};
ghost use Rattle.rvd_emul.specs.Machine.{SameBytes, newest, stored_from};

use rvd_fact::Addr;
use rvd_table::{Copied, Table};
use std::alloc::AllocError;
use std::marker::Model;

/// A byte that was stored, as a value of a table.
#[derive(Drop)]
pub struct StoredByte {
    byte: u8,
}

impl Model for StoredByte {
    ghost use Rattle.std.specs.Prelude.{ℕ};

    ghost Value = { ℕ };

    ghost view = { λ s. s.byte };
}

impl Copied for StoredByte {
    fn copied(&self) -> Result<StoredByte, AllocError> {
        Ok(StoredByte { byte: self.byte })
    }
}

impl StoredByte {
    fn byte(&self) -> u8
        ensures { result ≡ self.now }
    {
        self.byte
    }
}

/// The byte stored at an address, or None where nothing was.
pub fn stored_at(stored: &Table<Addr, StoredByte>, at: Addr) -> Option<u8>
    ensures { result ≡ newest stored.now at }
{
    match stored.get(&at) {
        None => None,
        Some(stored) => Some(stored.byte()),
    }
}

/// Stores bytes from an address on.
pub fn store(stored: &mut Table<Addr, StoredByte>, at: Addr, bytes: &[u8]) -> Result<(), AllocError>
    requires { at + length bytes.now ≤ 2 ^ 32 }
    ensures { OnOk result (SameBytes (stored_from at bytes.now stored.old) stored.new) }
{
    for (index, byte) in bytes.iter().enumerate() {
        let _ = stored.set(at + index as u32, StoredByte { byte: *byte })?;
    }
    Ok(())
}
