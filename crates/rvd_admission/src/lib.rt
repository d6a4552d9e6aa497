//! Admission: an entry of a journal is judged as a step of the machine, and done.
//!
//! * [`admit`] does an event with the reply and the Settled step that it had, where they may be its, and else changes nothing.
//!   It looks first, without a change: which reply the event has here, and which Settled step would follow.
//! * [`may_call`] tells who may call what, and [`is_event`] whether an event's parts are in their ranges.
//!
//! Which replies may be an event's is defined in rvd_machine (`Replies`, `Verdicts`), and what a call does with one in
//! rvd_engine (`Admitted`). Session events and takes have one reply; an offer may have any that is legal, and rvd_engine judges
//! it. `specs/Looks.antt` has the parts of the two looks.
#![tactic(auto)]

mod admitting;
mod callers;
mod looks;
mod previews;
mod sameness;

pub use admitting::admit;
pub use callers::{is_event, may_call};
pub use std::alloc::AllocError as OutOfMemory;
