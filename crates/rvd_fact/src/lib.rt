//! The facts of a program: keys, values with their sources, changes, and the lists and sets of
//! addresses inside them.
//!
//! * [`Key`] says where a fact stands: an address, a [`Kind`] and a number (`sub`).
//! * [`Cell`] is a fact with its [`Source`]; [`Value`] is the fact alone.
//! * [`Change`] is what becomes of one key.
//! * [`Text`], [`Bytes`] and [`RangeSet`] are the lists and the set that values hold.
//! * [`What`] and [`TextCause`] name what a limit counts, and why a line of text is refused.
//!
//! The definitions that contracts cite stand in `specs/`: `Order` (the order of keys), `Program` (a
//! map from keys to cells), `Memory` (what a program has at an address), `Valid` (which programs
//! are valid, and which changes fit) and `Ranges` (sets of addresses).
#![tactic(auto)]

mod causes;
mod cells;
mod keys;
mod lists;
mod ranges;
mod values;

pub use causes::{TextCause, What};
pub use cells::{Cell, Change};
pub use keys::{Addr, Key, Kind};
pub use lists::{Bytes, Text};
pub use ranges::RangeSet;
pub use std::alloc::AllocError as OutOfMemory;
pub use values::{Form, Perm, RefClass, Source, Value};
