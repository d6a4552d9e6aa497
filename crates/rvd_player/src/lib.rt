//! What a command does over a desk, on one thread: it plays the lines of an event file, or it analyses a whole program.
//!
//! * [`play`] makes the calls of an event file's lines in order, and answers its queries: [`Played`].
//! * [`analyse`] asks for a whole analysis and settles it.
//!
//! The definitions stand in `specs/`: `Lines` says which entries of a journal a line has, `Seen` what sessions see and what
//! is answered to their queries, `Plays` what is played of a file, and `Analysed` what stands after a whole analysis.
#![tactic(auto)]

mod analysing;
mod calls;
mod playing;
mod reads;

pub use analysing::analyse;
pub use playing::{Played, play};
pub use rvd_desk::OutOfMemory;
