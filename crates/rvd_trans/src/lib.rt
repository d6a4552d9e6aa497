//! One open transaction, which any number of actors may join, and which ends as a whole.
//!
//! * [`Joint`] is the transaction. It is made by `start` with one entry, gains entries by `join` and
//!   loses them by `end` and `end_all`; it gathers changes by `note`, and gives them by `into_parts`.
//! * [`Entry`] is an actor's part in it.
//!
//! An entry that has ended isn't kept: what lasts of it is whether it aborted. So each call's work
//! is bounded by [`MOST_LIVE`] entries, however many actors came and went.
//!
//! The definitions that contracts cite stand in `specs/`: `Transaction` (what a transaction is, and
//! what it becomes when an entry joins, ends or aborts and when a change is noted).
#![tactic(auto)]

mod entries;
mod joint_transaction;

pub use entries::{Entry, MOST_LIVE};
pub use joint_transaction::Joint;
pub use std::alloc::AllocError as OutOfMemory;
