//! Replays a journal over a program.
//!
//! * [`replay`] reads a journal's text line by line, and does each entry that is a step on a desk. It accepts exactly the texts of
//!   legal journals, up to their end line, and names the first line of another text that is none.
//! * [`bare_entries_are_steps`] says that the text tells enough of an entry: the bytes of blocks, which it leaves out, are not
//!   compared.
//!
//! The time is linear in the text, besides what the machine does for each entry, and no second copy of the text is made.
//!
//! The definitions that the contracts cite stand in `specs/`: `Replayed` for texts and journals, `Steps` for entries as their text
//! tells them, and `Replaying` for how a replay goes on.
#![tactic(auto)]

mod laws;
mod replaying;

pub use laws::bare_entries_are_steps;
pub use replaying::{Replayed, replay};
pub use std::alloc::AllocError as OutOfMemory;
