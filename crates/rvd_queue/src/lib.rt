//! The queue of items that wait for an analyzer, and the jobs that are taken.
//!
//! * [`Queues`] is two sets of items: those that are queued, and those that are kept while a transaction is open. It is
//!   made by `new`; `add_all` and `remove_all` add and remove items, `remove_analyzer` those of one analyzer; `least` gives
//!   the queued items that come first, and `len` their number; `kept_len` and `others_len` count the kept ones and the
//!   queued ones of other analyzers. `keep_queued`, `restore` and `forget` are for the begin, the
//!   rollback and the commit of a transaction; `clear` empties both sets.
//! * [`Taken`] is a list of jobs, each with its ticket, items and program. It is made by `new`; `put` appends a job, `find`
//!   and `at` look one up by its ticket or its place, `drop_ticket` takes one out, and `len` and `clear` are as usual.
//! * [`set_law`] says which items a set has after each operation.
//!
//! An item in either set has one cell, in an ordered map, which says whether it is queued and whether it is kept. So only
//! `add_all` needs memory for cells, and it makes all of them before it changes a set; where it is refused some, those that
//! it made stay, in neither set, for a later call. Adding and removing an item takes a
//! time that grows as the logarithm of the number of cells. The queue remembers where its least item stands: `least`
//! begins there, and passes only the items that it gives and those between them that are kept alone. `remove_all` moves
//! this place on, past the items that are kept alone, and `add_all` moves it back where it has to. `keep_queued`,
//! `restore`, `forget` and `remove_analyzer` go over all cells once. `Taken` finds a ticket by its hash; `drop_ticket` moves
//! the jobs behind it.
//!
//! The definitions that contracts cite stand in `specs/`: `Sets` has the operations on sets of items, `Cells` what the
//! cells stand for, and `Jobs` lists of jobs.
#![tactic(auto)]

mod cells;
mod laws;
mod queues;
mod reads;
mod sweeps;
mod taken;
#[cfg(test)]
mod tests;

pub use laws::set_law;
pub use queues::Queues;
pub use std::alloc::AllocError as OutOfMemory;
pub use taken::Taken;
