//! Reads scripts and event files: lines of text that call the desk.
//!
//! * [`read`] reads a script, the calls of one session, and [`read_events`] an event file, the calls
//!   of several sessions and workers in one order. Both give the lines that aren't skipped.
//! * [`Script`] and [`EventFile`] are what was read. Each of their lines has its number in the file
//!   and a [`What1`]: a call, a query, or the work of a worker until none is left.
//! * [`number_of`] reads a number in a range, as it is written in these files.
//! * [`ScriptError`] says why a file isn't read: it has too many lines, or names the first line that
//!   isn't in the grammar, with the cause of its first bad part from the left.
//!
//! The modules follow the text: `lines` (the lines of a file), `words` (the words of a line),
//! `values` and `fixed_words` (what one word says), `parts` (the next part of a line), `edit_lines`
//! with `range_lines`, `event_lines` and `actor_lines` (whole lines), and `reading` (whole files).
//!
//! The definitions that contracts cite stand in `specs/`: `Files` (scripts and event files),
//! `Lines` and `Words` (how text falls into lines and words), `Steps` (parts that are read from the
//! left), `Parts` (addresses, numbers, texts and fixed words), `EditLines`, `RangeLines` and
//! `EventLines` (the grammar of lines, with the cause of each refusal), and `Legal` (what each line
//! that was read keeps).
//!
//! Reading takes time by the size of the file. A word is no copy: it is a part of the file's bytes.
#![tactic(auto)]

mod actor_lines;
mod edit_lines;
mod errors;
mod event_lines;
mod fixed_words;
mod lines;
mod parts;
mod range_lines;
mod reading;
mod script_files;
mod script_lines;
#[cfg(test)]
mod tests;
mod values;
mod words;

pub use errors::ScriptError;
pub use reading::{read, read_events};
pub use script_files::{EventFile, Script};
pub use script_lines::{EventLine, ScriptLine, What1};
pub use values::number_of;
