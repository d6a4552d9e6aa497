//! The desk: one shared state that keeps its own journal.
//!
//! * [`Desk`] is the state. Contracts see its head, its journal, and whether it was stopped; the state is the one that the
//!   journal leads to, and the type keeps that the journal is legal. So each call that is answered is a step of the machine
//!   of one thread, and no event is lost.
//! * Sessions call `call` with any event but a wait, or `begin`, `edit`, `end`, `undo`, `redo`, `full`, `cancel`, `enable`,
//!   `read`, `wait_test` and `close_session`; workers call `take` and `offer`. A refused call is journaled and changes
//!   nothing else. `status` tells what stands, `stop` and `stop_after` stop the desk for good, and `close` gives what it has.
//! * `admit` judges an entry of a journal as the next step, and does it.
//! * [`Snapshot`] is what a read gives, [`Job`] what a take gives.
//!
//! A desk is a story for the turn (rvd_turn): its head, and its entries, each of its actor.
//!
//! The definitions stand in `specs/`: `Story` says what contracts see of a desk, `Calls` what a call does, `Shown` what a call
//! lets its caller see, `Admission` what the admission of an entry does, `Turns` what one turn round a desk tells, and `Owners`
//! what holds of each entry of one actor.
#![tactic(auto)]

mod admission;
mod answers;
mod calls;
mod desk;
mod snapshots;
mod storied;
mod worker_calls;

pub use answers::{DeskError, Halt, Job, Took, Waited};
pub use desk::{Desk, Head, Status};
pub use snapshots::Snapshot;
pub use std::alloc::AllocError as OutOfMemory;
