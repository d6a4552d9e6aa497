ghost use Rattle.std.specs.Prelude.{◌≡◌};
ghost use Rattle.rvd_fact.specs.Order.{key_cmp};

use std::cmp::Ordering;

/// An address of the program, in bytes.
pub type Addr = u32;

/// What a fact is about. The order of the variants is the order of facts at one address.
#[derive(Clone, Copy, Debug, PartialEq, Eq, PartialOrd, Ord)]
pub enum Kind {
    /// A block of memory.
    Block,
    /// An entry point of the program.
    Mark,
    /// A function with this entry.
    Func,
    /// The addresses of the function at this entry.
    Body,
    /// A name.
    Symbol,
    /// A comment.
    Comment,
    /// A bookmark.
    Bookmark,
    /// An instruction or a datum.
    Unit,
    /// A reference from this address.
    Ref,
}

/// Where a fact stands. Keys are ordered by address, then by kind, then by `sub`.
#[derive(Clone, Copy, Debug, PartialEq, Eq, PartialOrd, Ord)]
pub struct Key {
    /// The address, in bytes.
    pub at: Addr,
    /// What the fact is about.
    pub kind: Kind,
    /// The slot of a symbol or a reference (0 to 63), the kind of a comment (0 plate, 1 pre, 2 eol,
    /// 3 post, 4 repeatable), the type of a bookmark (0 note, 1 info, 2 analysis, 3 warning,
    /// 4 error), and else 0.
    pub sub: u8,
}

impl Key {
    /// How this key stands to another in the order of keys.
    pub fn order(&self, other: &Key) -> Ordering
        ensures { result ≡ key_cmp self.now other.now }
    {
        self.cmp(other)
    }
}
