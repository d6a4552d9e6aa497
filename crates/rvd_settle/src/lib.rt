//! Analysis on one thread: a worker takes jobs and offers what the analyzers propose for them, until nothing is left to take.
//!
//! * [`settle`] takes and offers again and again.
//! * [`offer_taken`] makes the proposals for one job that is taken, on the job's own program, and offers them.
//!
//! The definitions stand in `specs/`: `Offering` says when such an offer is refused, and `Settling` how the journal goes on.
//! What such offers are answered is defined in rvd_machine (`Proper`).
#![tactic(auto)]

mod offering;
mod settling;

pub use offering::offer_taken;
pub use rvd_desk::OutOfMemory;
pub use settling::settle;
