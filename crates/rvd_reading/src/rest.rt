ghost use Rattle.std.specs.Prelude.{◌≡◌, ◌≤◌, nat_eq, length, take, drop};
ghost use Rattle.std.specs.List.{starts_with};
ghost use Rattle.rvd_reading.specs.Steps.{behind, with_rest, without};

use crate::errors::Unread;
use std::marker::Model;

/// What is left of a text. Contracts see it as the list of its bytes.
#[derive(Drop)]
pub struct Rest<'a> {
    bytes: &'a [u8],
}

impl<'a> Model for Rest<'a> {
    ghost use Rattle.std.specs.Prelude.{List, ℕ};

    ghost Value = { List ℕ };

    ghost view = { λ rest. rest.bytes.now };
}

impl<'a> Rest<'a> {
    /// A whole text.
    pub fn of(bytes: &'a [u8]) -> Rest<'a>
        ensures { result ≡ bytes.now }
    {
        Rest { bytes }
    }

    /// The bytes that are left.
    pub fn bytes(&self) -> &'a [u8]
        ensures { result.now ≡ self.now }
    {
        self.bytes
    }

    /// Takes so many bytes, of which there are at least so many.
    pub fn take(&mut self, len: usize) -> &'a [u8]
        requires { len ≤ length self.old }
        ensures taken { result.now ≡ take len self.old }
        ensures rest { self.new ≡ drop len self.old }
    {
        let bytes = self.bytes;
        self.bytes = &bytes[len..];
        &bytes[..len]
    }

    /// Whether a fixed word comes first; then it is taken.
    pub fn strip(&mut self, word: &[u8]) -> bool
        ensures value { result ≡ starts_with nat_eq self.old word.now }
        ensures rest { self.new ≡ without word.now self.old }
    {
        let bytes = self.bytes;
        if bytes.starts_with(word) {
            self.bytes = &bytes[word.len()..];
            true
        } else {
            false
        }
    }

    /// Takes a fixed word.
    pub fn expect(&mut self, word: &[u8]) -> Result<(), Unread>
        ensures { behind word.now self.old ≡ with_rest self.new result }
    {
        if self.strip(word) {
            Ok(())
        } else {
            Err(Unread)
        }
    }
}
