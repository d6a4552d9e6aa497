//! The analyzer of strings: texts that something refers to.
//!
//! * [`StringsRule`] is the rule of strings. It proposes, for an address that is computed or read, a string unit over the 5 to
//!   255 bytes of text and the zero that stand there in one initialised block, where no unit has one of them.
//!
//! The rule and what it asks are defined in rvd_ask (`Strings`), and so are which changes wake it (`Wake`) and that its
//! changes fit (`Fitting`). `specs/Parts.antt` names the parts of what it asks.
//!
//! Two laws say what the rule is good for: [`wake_law`] and [`strings_fit`].
#![tactic(auto)]

mod laws;
mod rule;
#[cfg(test)]
mod tests;
mod texts;

pub use laws::{strings_fit, wake_law};
pub use rule::StringsRule;
pub use std::alloc::AllocError as OutOfMemory;
