//! The commands: words, files, text and the ending.
//!
//! * [`run`] answers every command, and [`run_plain`] each one that waits for nobody.
//! * [`Ending`] says how a command ended, and [`Ending::status`] is its exit status.
//!
//! A command fetches its files in word order, answers them with a text, or with the ending that comes in its place, and puts the
//! text. What a run promises is one record, [`Runs`](specs/Runs.antt), that both calls cite. The other definitions in `specs/` are
//! `Words` (which words are a command, and which of them name files), `Fetching` (how files are fetched), `Answers` (what each
//! command answers to its files), `Texts`, `Plays`, `Replays` and `Summary` (what is printed), and `Endings`.
#![tactic(auto)]

mod commands;
mod endings;
mod fetching;
mod outcomes;
mod putting;
mod runs;
mod summary;
mod texts;
mod words;

pub use endings::Ending;
pub use runs::{run, run_plain};
pub use words::{Command, MAX_FILE, MAX_JOURNAL};
