//! The vocabulary of the desk: what is asked of it, what it answers, and what it notes.
//!
//! * [`Edit`] is an analyst's edit, and [`EditRefusal`] why it is refused.
//! * [`Event`] is a call of the desk by a session or a worker, [`Reply`] what it answers, and
//!   [`Refusal`] why it refuses.
//! * [`Verdict`] is what became of one item of a job; [`VerdictList`] lists them.
//! * [`Step`] is a step of the history.
//! * [`Query`] is a question about a program whose answer is a text, and [`Names`] tells how actors
//!   are named.
//!
//! The definitions that contracts cite stand in `specs/`: `Edits` (the ranges of an edit's parts)
//! and `Verdicts` (the forms of the answers in a verdict).
#![tactic(auto)]

mod edits;
mod events;
mod queries;
mod replies;
mod steps;
mod verdicts;

pub use edits::{Edit, EditRefusal};
pub use events::Event;
pub use queries::{Names, Query};
pub use replies::{Refusal, Reply};
pub use std::alloc::AllocError as OutOfMemory;
pub use steps::Step;
pub use verdicts::{Verdict, VerdictList};
