//! A small story behind a turn, written by any number of threads: the smallest whole use of `rvd_turn`.
//!
//! A [`Story`] is a title and a list of notes of (owner, number). A [`Writer`] has a pass of the turn and adds
//! notes of its own number, reads the story and meets other writers. [`write_together`] gives each list of
//! numbers to a writer in a thread of its own, lets all passes meet and closes the turn: its contract says
//! that the story then has of each writer just its numbers, in order. [`split_and_meet`] is the shortest life
//! of a turn: a pass is split off and met again, and the turn closes to the value that it was made with.
//!
//! Definitions, in `specs/`: `Written` (the story as contracts see it) and `Runs` (what many writers leave).
#![tactic(auto)]

mod once;
mod story;
mod task;
#[cfg(test)]
mod tests;
mod together;
mod writer;

pub use once::split_and_meet;
pub use rvd_turn::OutOfMemory;
pub use story::{Note, Story};
pub use task::{Done, Task};
pub use together::write_together;
pub use writer::Writer;
