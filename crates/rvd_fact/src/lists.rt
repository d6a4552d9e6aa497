ghost use Rattle.std.specs.Prelude.{◌≡◌, ◌≤◌, ℕ, List, length, IfOk, vec_len};

use std::alloc::{AllocError, Global};
use std::marker::Model;

/// A name or a text: a list of at most 1,000 bytes.
#[derive(Debug, Drop)]
pub struct Text {
    bytes: Vec<u8>,
}

impl Model for Text {
    ghost Value = { List ℕ };

    ghost view = { λ text. text.bytes.items };

    ghost invariant = { λ text. length text.bytes.items ≤ 1000 };
}

impl Text {
    /// The text of these bytes, of which there are at most 1,000.
    pub fn of(_alloc: Global, list: Vec<u8>) -> Result<Text, AllocError>
        requires { vec_len list ≤ 1000 }
        ensures { IfOk result (λ text. text ≡ list.items) }
    {
        Ok(Text { bytes: list })
    }

    /// Its bytes.
    pub fn list(&self) -> &[u8]
        ensures value { result.now ≡ self.now }
        ensures short { length self.now ≤ 1000 }
    {
        self.bytes.as_slice()
    }

    /// An equal text.
    pub fn copy(&self) -> Result<Text, AllocError>
        ensures { IfOk result (λ copy. copy ≡ self.now) }
    {
        let bytes = self.bytes.clone()?;
        Ok(Text { bytes })
    }
}

/// The bytes of a block of memory.
#[derive(Debug, Drop)]
pub struct Bytes {
    bytes: Vec<u8>,
}

impl Model for Bytes {
    ghost Value = { List ℕ };

    ghost view = { λ memory. memory.bytes.items };
}

impl Bytes {
    /// These bytes.
    pub fn of(_alloc: Global, list: Vec<u8>) -> Result<Bytes, AllocError>
        ensures { IfOk result (λ memory. memory ≡ list.items) }
    {
        Ok(Bytes { bytes: list })
    }

    /// The bytes as a slice.
    pub fn list(&self) -> &[u8]
        ensures { result.now ≡ self.now }
    {
        self.bytes.as_slice()
    }

    /// Equal bytes.
    pub fn copy(&self) -> Result<Bytes, AllocError>
        ensures { IfOk result (λ copy. copy ≡ self.now) }
    {
        let bytes = self.bytes.clone()?;
        Ok(Bytes { bytes })
    }
}
