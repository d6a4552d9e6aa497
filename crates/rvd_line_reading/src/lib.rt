//! Reads the lines of a journal's entries, as `rvd_journal_text` prints them.
//!
//! * [`read_line`] reads a whole line: the number of an entry, and the entry. What isn't spelled just as an entry is printed is a
//!   [`LineError::BadLine`].
//! * [`read_head`], [`read_next`] and [`is_end`] take the lines of a journal one by one from the front of its text: the head line,
//!   the line of the entry with a number, and the `end` line.
//!
//! Each works in two steps. A reader that may read more than what is printed, as leading zeros, reads the line; then what it read
//! is printed again, and the line has to be the same. The time is linear in the length of a line that is read, and not in what stands
//! behind it.
//!
//! The definitions that the contracts cite stand in `specs/`: `Replies`, `Edits` and `Events` for the parts of an entry, `Lines` for
//! a whole line, `Front` for the lines at the front of a text, and `Laws` for what is read back, which [`reading_law`] states, and
//! for what the lines at the front of one text share, which [`front_law`] states.
#![tactic(auto)]

mod edits;
mod events;
mod front;
mod laws;
mod lines;
mod parts;
mod range_words;
mod replies;
#[cfg(test)]
mod tests;

pub use front::{is_end, read_head, read_next};
pub use laws::{front_law, reading_law};
pub use lines::{LineError, read_line};
pub use std::alloc::AllocError as OutOfMemory;
