//! The analyzer of references: where instructions lead, and which addresses they compute.
//!
//! * [`RefsRule`] is the rule of references. It proposes, for an instruction, a reference to the target that its
//!   immediate tells (JAL and branches), and one to the address that it computes with the upper value that LUI or
//!   AUIPC just before it leaves in its register (ADDI, loads, stores and JALR).
//!
//! The rule and what it asks are defined in rvd_ask (`Refs`), and so is which changes wake it (`Wake`) and what it means
//! that its changes fit (`Fitting`). `specs/Slots.antt` names the parts of what it asks.
//!
//! Two laws say what the rule is good for: [`wake_law`] and [`refs_fit`].
#![tactic(auto)]

mod asking;
mod laws;
mod rule;
mod targets;

pub use laws::{refs_fit, wake_law};
pub use rule::RefsRule;
pub use std::alloc::AllocError as OutOfMemory;
