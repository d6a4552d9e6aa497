ghost use Rattle.std.specs.Prelude.{◌≡◌, ◌<◌, length, replicate, slice_index};
ghost use Rattle.rvd_emul.specs.Machine.{written};

use std::marker::Model;

/// The registers x0 to x31. Contracts see them as the list of their words.
#[derive(Debug, Drop)]
pub struct Registers {
    words: [u32; 32],
}

impl Model for Registers {
    ghost use Rattle.std.specs.Prelude.{◌≡◌, ℕ, List, length, slice_index};

    ghost Value = { List ℕ };

    ghost view = { λ r. r.words };

    ghost invariant = { λ r. slice_index r.words 0 ≡ 0 };
}

impl Registers {
    /// Registers that are all 0.
    pub fn new() -> Registers
        ensures { result ≡ replicate 32 0 }
    {
        Registers { words: [0; 32] }
    }

    /// The value of a register.
    pub fn value(&self, number: u8) -> u32
        requires { number < 32 }
        ensures { result ≡ slice_index self.now number }
    {
        self.words[usize::from(number)]
    }

    /// Writes a register; x0 stays 0.
    pub fn write(&mut self, rd: u8, value: u32)
        requires { rd < 32 }
        ensures { self.new ≡ written self.old rd value }
    {
        if rd != 0 {
            self.words[usize::from(rd)] = value;
        }
    }

    /// The words, of which the first is 0.
    pub fn words(&self) -> &[u32]
        ensures value { result.now ≡ self.now }
        ensures count { length self.now ≡ 32 }
        ensures zero { slice_index self.now 0 ≡ 0 }
    {
        &self.words
    }
}
