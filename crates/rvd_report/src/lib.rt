//! Reports of a program: its listing and its history, and the answers to queries.
//!
//! * [`listing`] appends the listing of a program, as `specs/Listing.antt` defines it.
//! * [`history`] appends the history of its steps, as `specs/History.antt` defines it.
//! * [`answers`] appends the answers to queries, each an [`Answered`], as `specs/Answers.antt` defines it.
//!
//! Where there is no memory, a call leaves the text that it appends to as it was.
#![tactic(auto)]

mod answer_lines;
mod listings;
mod steps;

pub use answer_lines::{Answered, answers};
pub use listings::listing;
pub use steps::history;
