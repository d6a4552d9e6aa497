//! Answers of queries: the line of a unit, a name, references, functions, and how many facts there are.
//!
//! * [`answer`] appends the answer to a query on a program, as `specs/Reply.antt` defines it.
//!
//! Where there is no memory, it leaves the text that it appends to as it was. How facts are counted is defined in
//! `specs/Counts.antt`.
#![tactic(auto)]

mod answering;
mod counting;
mod words;

pub use answering::answer;
