//! Sessions: an analyst's calls of the desk, a turn each, and queries that take none.
//!
//! [`Session`] has a pass of the turn round the desk, and its latest read: `call` makes an event's call in one turn, `wait`
//! takes a turn for each look until the analysis has ended, `halt` stops the desk, and `ask` answers a query from the latest
//! read without the turn. So no query waits for another thread, and a session's reads never show fewer steps than an earlier
//! one.
//!
//! What a contract knows of a turn is defined in rvd_desk (`Turns`): the story that the pass took is legal, begins with all
//! that the pass had seen, and has of its number just its own entries. `specs/Sitting.antt` says what is seen of a session,
//! and what each of its calls makes of it.
#![tactic(auto)]

mod calls;
mod session;
#[cfg(test)]
mod tests;

pub use rvd_desk::OutOfMemory;
pub use session::Session;
