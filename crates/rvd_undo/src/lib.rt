//! Undo and redo of whole transactions.
//!
//! * [`Undos`] holds the changes of transactions that can be undone, and of those that can be redone. It is made by
//!   `new`; `push` adds the changes of a transaction that was committed, `undo` takes back the latest one and `redo`
//!   brings back the latest one undone; `reserve` makes room for a push, and `depth` and `height` count the records.
//! * [`UNDO_DEPTH`] is how many records are kept.
//!
//! A record is the list of the changes of one transaction, so that it takes memory only for what the transaction
//! changed. An undo or a redo moves one record from one list to the other, and copies none; a push lets at most the
//! oldest record go.
//!
//! The definitions that contracts cite stand in `specs/`: `History` says what commits, undos and redos do to a history of
//! whole programs, and `Records` which history the records stand for with a program.
#![tactic(auto)]

mod changes;
mod limit;
mod records;
#[cfg(test)]
mod tests;

pub use limit::UNDO_DEPTH;
pub use records::Undos;
pub use std::alloc::AllocError as OutOfMemory;
