//! An analyst's edit as changes of the program, or the first reason why it is refused.
//!
//! * [`changes_of`] gives the changes of an edit, each with the cell that stands at its key before, or
//!   its refusal. New cells are an analyst's.
//! * [`EditError`] is a refusal, or want of memory.
//! * [`edits_fit`], [`edits_set_no_analysis`] and [`overlap_is_first_met`] are laws over the definition
//!   of an edit, and no work.
//!
//! The modules: `edits` has a function for each kind of edit; `spaces` has the tests of memory and of
//! cells, each of which gives its refusal; `slots` looks through the 64 slots for names and references
//! of an address; `changing` makes the changes.
//!
//! The definitions that contracts cite stand in `specs/`: `Edits` (each edit with its refusals in their
//! order and its changes), `Spaces` (the tests), `Slots`, `Changes`, `Steps` (how the first refusal
//! decides) and `Laws`.
#![tactic(auto)]

mod changing;
mod edit_error;
mod edits;
mod laws;
mod slots;
mod spaces;
#[cfg(test)]
mod tests;

pub use edit_error::EditError;
pub use edits::changes_of;
pub use laws::{edits_fit, edits_set_no_analysis, overlap_is_first_met};
pub use std::alloc::AllocError as OutOfMemory;
