//! The analyzers of functions and of bodies: where calls begin functions, and which bytes a function has.
//!
//! * [`FuncsRule`] is the rule of functions. It proposes a function at the target of a call, where an instruction is there
//!   and no cell says what begins there.
//! * [`BodyRule`] is the rule of bodies. It walks over what control comes to from the entry of a function without a call,
//!   up to other functions, and proposes the bytes of these instructions as the function's body.
//!
//! The rules and what they ask are defined in rvd_ask (`Funcs`, `Reach` and `Body`), and so is which changes wake them
//! (`Wake`) and what it means that their changes fit (`Fitting`). `specs/Walks.antt` has the steps of the walk, and
//! `specs/Laws.antt` that a rule's changes leave it nothing to change.
//!
//! Five laws say what the rules are good for: [`funcs_fit`] and [`funcs_wake_law`], and [`body_fit`], [`body_wake_law`] and
//! [`body_settled`].
#![tactic(auto)]

mod body;
mod functions;
mod keys;
mod laws;
mod ranges;
mod walk;
mod ways;

pub use body::BodyRule;
pub use functions::FuncsRule;
pub use laws::{body_fit, body_settled, body_wake_law, funcs_fit, funcs_wake_law};
pub use std::alloc::AllocError as OutOfMemory;
