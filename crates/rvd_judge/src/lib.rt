//! The verdicts of an offer: what becomes of the proposals for a job's items, and what follows from it.
//!
//! * [`judge`] judges one proposal for each item of a job, in order, on the working program as the earlier ones left it. It
//!   asks each read of the working program once, and the job's program only at the one that differs; no rule is run again.
//! * [`check_verdicts`] tells whether verdicts that are given may be the ones, and does what follows from them. It runs the
//!   rule of each item that joined or proposed nothing, and asks what the other verdicts name.
//! * [`apply_in_turn`] applies changes, and adds the items that each wakes.
//! * [`misfit`] is the first place where the items of proposals aren't those of a job.
//!
//! Which verdict is the exact one, which may be given, and what a batch becomes by it, is defined in rvd_machine (`Exact`,
//! `Verdicts`). The definitions in `specs/` say it of what a call can hand out: `Effects` has the changes that verdicts apply
//! and the items that they add to the queue, `Batches` the batch before its first verdict, `Differing` the verdict at the
//! first read that differs, and `Checks` the verdicts that may be given, told by the two programs.
#![tactic(auto)]

mod checking;
mod joining;
mod judging;
mod places;
mod reads;

pub use checking::check_verdicts;
pub use joining::apply_in_turn;
pub use judging::judge;
pub use places::misfit;
pub use std::alloc::AllocError as OutOfMemory;
