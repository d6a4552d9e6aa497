//! The machine of one thread in memory: its state, with a method for each event.
//!
//! * [`Machine`] is the state. Contracts see it as the state that rvd_machine defines. `new` makes the one at the start;
//!   `perform` does a session's event, `take` and `offer` a worker's, and each counts the event and notes the Settled step
//!   that follows it. `admit_offer` does an offer with the reply that it had.
//! * [`Switches`] tells which analyzers are enabled.
//!
//! Programs are copied where want of memory would otherwise leave a half: an edit that wakes items, and an offer, work on a
//! copy of the working program, which then takes its place.
//!
//! The definitions stand in `specs/`: `Inside` says how the parts stand for the state, `Performed` what a call does, `Offered`
//! what a worker gets and brings back, `Settling` which Settled step follows, and `Admitted` what becomes of an event whose
//! answer was given before.
#![tactic(auto)]

mod admitting;
mod analysis;
mod counts;
mod entries;
mod history;
mod jobs;
mod machine;
mod offers;
mod parts;
mod performing;
mod switches;
mod working;

pub use counts::{is_same_step, settled_if};
pub use jobs::Given;
pub use machine::{MOST_ENTRIES, Machine};
pub use performing::Made;
pub use std::alloc::AllocError as OutOfMemory;
pub use switches::Switches;
