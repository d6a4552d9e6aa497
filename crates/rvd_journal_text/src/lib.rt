//! The text of a journal: a head line, a line for each entry with its number, and an `end` line.
//!
//! * [`print`] appends the text of a whole journal, and [`push_entry`] the line of one entry. Where there is no memory, these leave
//!   the text that they append to as it was.
//! * [`push_head`], [`push_full_line`] and [`push_end`] append the lines of a journal one by one, each with its line feed. Where
//!   there is no memory, some of the line may stand behind what was there.
//! * [`event_forms`] and [`reply_forms`] hand a macro the forms that are a word, or a word and a number, so that a reader goes by
//!   the same list as printing.
//!
//! The definitions stand in `specs/`: `Edits`, `Events`, `Answers`, `Verdicts` and `Replies` have how each part of an entry is
//! written, and `Lines` has the lines, with `entry_line` and `journal_text`.
#![tactic(auto)]

mod answers;
mod edits;
mod events;
mod forms;
mod lines;
mod printing;
mod replies;
mod verdicts;
mod words;

pub use lines::{push_end, push_entry, push_full_line, push_head};
pub use printing::print;
pub use std::alloc::AllocError as OutOfMemory;
