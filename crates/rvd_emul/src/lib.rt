//! An emulator: it runs the code of a program from an address, for some steps, and tells where it went and why it stopped.
//!
//! - `emulate` runs, and gives a `Trace` of the steps with the `End` that stopped them.
//! - `text` appends a trace as lines.
//!
//! The machine has the registers of RV32I and the program's blocks as its memory. What it stores is kept beside the program,
//! which stays as it is. A step takes a few look-ups, whatever the size of the program.
//!
//! The definitions that the contracts cite stand in `specs/`: `Machine` has a machine's state and its memory, `Classes` the
//! instructions by the sections of the manual, `Effects` what each of them does, `Run` when a run ends and what a run is, and
//! `Text` the lines of a trace.
#![tactic(auto)]

mod classes;
mod ends;
mod machine;
mod memory;
mod operations;
mod printing;
mod reading;
mod registers;
mod running;
mod steps;
mod stored;
#[cfg(test)]
mod tests;
mod trace;

pub use ends::End;
pub use printing::text;
pub use running::emulate;
pub use std::alloc::AllocError as OutOfMemory;
pub use trace::Trace;
