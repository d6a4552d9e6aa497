//! A finite map that keeps its keys in order.
//!
//! - `Table` is the map. It is made by `new` and `copy`, read by `get`, `next_at_or_after`, `last_at_or_before`,
//!   `entries`, `entries_from`, `len` and `is_empty`, and changed by `set` and `unset`.
//! - `Copied` is what a value must be able to do, so that a map of it can be copied.
//! - `map_law` states what reading gives after each change, and that the neighbours of a key are the nearest keys.
//!
//! The map is a vector of pairs in the order of their keys. Looking up takes a number of comparisons that grows as the
//! logarithm of the number of keys. A key above the last one is appended, so that a map is built from keys that come in
//! order in a time that grows as their number. Any other new key, and a key that is taken away, moves the pairs behind it.
//! A copy shares the vector with its original, and the first of them that changes copies it.
//!
//! The definitions that the contracts cite stand in `specs/`: `Table` says what a map answers, and `Places` what stands
//! at a place of the vector.
#![tactic(auto)]

mod entries;
mod laws;
mod place;
mod plain;
#[cfg(test)]
mod tests;
mod value;

pub use laws::map_law;
pub use plain::Table;
pub use std::alloc::AllocError as OutOfMemory;
pub use value::Copied;
