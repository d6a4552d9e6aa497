//! The journal of a desk: every call with its reply, in order.
//!
//! * [`Entry`] is one call of an actor: the event, the reply, and the Settled step that followed it.
//! * [`Journal`] is a list of entries with a spare room. It is made by `new` and `copy`; `reserve` makes room, and `push`
//!   appends an entry in it; `len` and `entries` read it.
//!
//! The definitions that contracts cite stand in `specs/`: `Entries` (the ranges of an event's parts) and `Journal` (entries
//! and room).
#![tactic(auto)]

mod entries;
mod journal;

pub use entries::Entry;
pub use journal::Journal;
pub use std::alloc::AllocError as OutOfMemory;
