ghost use Rattle.std.specs.Prelude.{◌≡◌};
ghost use Rattle.rvd_ask.specs.Order.{priority, item_cmp};

use rvd_fact::{Addr, Key, RefClass};
use std::cmp::Ordering;

/// One of the analyzers, in the order of their priorities.
#[derive(Clone, Copy, Debug, PartialEq, Eq, PartialOrd, Ord)]
pub enum Analyzer {
    /// Disassembles along the flow of control.
    Flow,
    /// Finds the references of instructions.
    Refs,
    /// Finds functions at the targets of calls.
    Funcs,
    /// Finds the bodies of functions.
    Body,
    /// Finds texts.
    Strings,
}

/// A piece of work: an analyzer at an address. Items are ordered by priority, then by address.
#[derive(Clone, Copy, Debug, PartialEq, Eq, PartialOrd, Ord)]
pub struct Item {
    /// The analyzer.
    pub analyzer: Analyzer,
    /// The address, in bytes.
    pub at: Addr,
}

/// A question to a program.
#[derive(Clone, Copy, Debug, PartialEq, Eq)]
pub enum Ask {
    /// The cell at a key.
    Cell(Key),
    /// The start of the present unit on a byte.
    Cover(Addr),
    /// The start of the block around a byte.
    Block(Addr),
    /// The bytes of a range that lies in one initialised block: its first address, and how many.
    Bytes(Addr, u16),
    /// Whether a present reference of a class goes to an address.
    To(Addr, RefClass),
    /// The present references from an address.
    From(Addr),
}

impl Analyzer {
    /// Its priority. The analyzer with the lowest number works first.
    pub fn priority(self) -> u32
        ensures { result ≡ priority self }
    {
        match self {
            Analyzer::Flow => 300,
            Analyzer::Refs => 400,
            Analyzer::Funcs => 500,
            Analyzer::Body => 600,
            Analyzer::Strings => 700,
        }
    }
}

impl Item {
    /// How this item stands to another in the order of items.
    pub fn order(&self, other: &Item) -> Ordering
        ensures { result ≡ item_cmp self.now other.now }
    {
        self.cmp(other)
    }
}
