//! Workers: each takes jobs of the desk in one turn, proposes for them without the turn, and offers in another turn.
//!
//! [`work_loop`] is a worker's life. It calls a [`Proposer`] between its two turns, and a gate before and after each offer;
//! [`RuleProposer`] proposes by the analyzers' rules. What a worker adds to the journal is, in turn, a take and the offer of the
//! ticket that it gave, and each of its offers is answered properly, whatever other threads did meanwhile: nothing is Foreign
//! or a Misfit, and a Stale verdict names an ask of the item's rule on the job's program.
//!
//! What a contract knows of a turn is defined in rvd_desk (`Turns`), and what is proper in rvd_machine (`Proper`).
//! `specs/Working.antt` says what a worker's pass tells behind its turns and at the end.
#![tactic(auto)]

mod proposer;
mod turns;
mod working;

pub use proposer::{Proposer, RuleProposer};
pub use rvd_desk::OutOfMemory;
pub use working::work_loop;
