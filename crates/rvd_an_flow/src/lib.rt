//! The analyzer of flow: it disassembles along the flow of control.
//!
//! * [`FlowRule`] is its rule. At an address it proposes the instructions that follow from there, as one run of up to 256
//!   of them, or the bookmark of an error where the word that control comes to is no instruction.
//!
//! * [`flow_fit`] is a law of the rule: its changes fit a valid program. [`wake_law`] is another: a change that doesn't wake
//!   flow at an address leaves it without changes where it had none.
//!
//! What it proposes and what it asks is defined in rvd_ask (`Flow`); `specs/Parts.antt` names the parts of its work,
//! and rvd_ask states the laws (`Fitting`, `Wake`).
#![tactic(auto)]

mod first;
mod laws;
mod opening;
mod rule;
mod runs;
mod starts;
mod words;

pub use laws::{flow_fit, wake_law};
pub use rule::FlowRule;
pub use std::alloc::AllocError as OutOfMemory;
