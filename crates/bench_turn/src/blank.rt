//! A story that nobody writes.
ghost use Rattle.std.specs.Prelude.{◌≡◌, [], length};

use rvd_turn::Storied;

/// The value behind either lock. Its story has no entries.
#[derive(Drop)]
pub struct Blank {
    size: u8,
}

impl Storied for Blank {
    type Head = u8;

    type Entry = u8;

    ghost head = { λ _. 0 };

    ghost entries = { λ _. [] };

    ghost owner = { λ e. e };

    fn count(&self) -> u64 {
        0
    }
}

impl Blank {
    /// The value.
    pub fn new() -> Blank {
        Blank { size: 0 }
    }
}
