//! Candidates, what a change wakes, and what is proposed: the analyzers together.
//!
//! * [`candidates`] lists the items of an analyzer that may be unsettled in a program.
//! * [`woken`] adds the items that a change may have unsettled.
//! * [`propose`] asks an item's analyzer what it proposes, and [`proposals_on`] does so for some items in order.
//!
//! Both lists have each item once, by priority and address. A change that has to be looked up walks over the entries of the
//! program a few times, and not once for each item; most changes need no walk.
//!
//! Which items are listed is defined in rvd_ask (`Wake` and `Unsettled`), and so is what is proposed (`Rules` and
//! `Promise`). `specs/Made.antt` says when proposals were made on a program, and `specs/Walks.antt` and `specs/Picks.antt` have what the walks over the entries of a program pick.
//!
//! What all this is good for is one law, [`analysis_laws`]: its parts stand in `specs/Laws.antt`.
#![tactic(auto)]

mod bodies;
mod candidate;
mod flow;
mod froms;
mod gone;
mod laws;
mod ordering;
mod places;
mod proposing;
mod refs;
mod targets;
mod waking;

pub use candidate::candidates;
pub use laws::analysis_laws;
pub use proposing::{proposals_on, propose};
pub use std::alloc::AllocError as OutOfMemory;
pub use waking::woken;
