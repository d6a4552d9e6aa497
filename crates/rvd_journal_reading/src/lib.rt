//! Reads the verdicts and the refusals of a journal's lines, with the asks and answers of verdicts, as `rvd_journal_text`
//! prints them.
//!
//! * [`verdict`] reads a verdict, [`ask`] an ask, [`answer`] an answer to an ask, and [`refusal`] a refusal.
//!
//! A reader may read more than what is printed, as leading zeros. Whether a text is spelled as it is printed, a caller tells by
//! printing what was read.
//!
//! The definitions that the contracts cite stand in `specs/`: `Asks`, `Answers`, `Verdicts` and `Refusals`, and `Laws` for what
//! is read back, which [`reading_law`] states.
#![tactic(auto)]

mod answers;
mod asks;
mod laws;
mod refusals;
mod verdicts;

pub use answers::answer;
pub use asks::ask;
pub use laws::reading_law;
pub use refusals::refusal;
pub use rvd_reading::{ReadError, Rest, Unread};
pub use std::alloc::AllocError as OutOfMemory;
pub use verdicts::verdict;
