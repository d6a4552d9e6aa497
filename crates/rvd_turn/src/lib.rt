//! A lock whose value tells its story.
//!
//! A *story* is a head and a list of entries, each with an owner number. A [`Turn`] keeps one value that
//! stands for a story, and the threads that share it take turns at the value: each has a [`Pass`] with a
//! number of its own, takes the value, adds entries whose owner is that number, and gives the value back.
//! What a thread then knows is proved, whatever the others do:
//!
//! - the value that it takes begins with all that its pass has seen, and has of its number just the entries
//!   that it added itself, each once and in order;
//! - when all passes have met the first one, the turn is closed to its value, which begins with all that any
//!   pass saw and has of each number just that pass's own entries.
//!
//! Calls: [`Turn::new`], [`Turn::split`], [`Turn::take`], [`Turn::give`], [`Turn::meet`], [`Turn::close`].
//!
//! Definitions, in `specs/`: `Story` (entries and their owners), `Known` (what a contract sees of a pass, and
//! what each call makes of it), `Views` and `Steps` (what a pass knows inside, and the kinds of step), `Rule`
//! (what holds between any two steps). `docs/turn.md` of the repository explains them from the beginning.
#![tactic(auto)]

mod pass;
mod rule;
mod steps;
mod storied;
#[cfg(test)]
mod tests;
mod turn;
mod view;

pub use pass::Pass;
pub use std::alloc::AllocError as OutOfMemory;
pub use storied::Storied;
pub use turn::Turn;
