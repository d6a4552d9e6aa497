//! What a listing shows of a program: the names of addresses, the unit on a byte, and the lines of facts.
//!
//! * [`primary_name`] and [`default_name`] are the names of an address; [`push_name`] appends the one that
//!   is shown.
//! * [`unit_at`] is the start of the unit on a byte, and [`unit_line`] the line of a unit.
//! * [`next_unit`] is the next unit above an address, [`function_of`] the functions whose bodies have it, and
//!   [`xrefs_to`] the references to it.
//! * [`push_line`] appends the line of any entry of a program.
//!
//! Where there is no memory, a call leaves the text that it appends to as it was. The definitions stand in
//! `specs/`: `Names`, `Lookups` and `Lines`.
#![tactic(auto)]

mod laws;
mod lines;
mod lookups;
mod names;
mod units;

pub use laws::{next_unit_law, primary_law};
pub use lines::push_line;
pub use lookups::{function_of, next_unit, xrefs_to};
pub use names::{default_name, primary_name, push_name};
pub use units::{unit_at, unit_line};
