//! The outside: where files come from, where text goes, and what a worker passes on its way.
//!
//! * [`Cabinet`] gives the bytes of a file. [`FileCabinet`] reads real files; [`MemoryCabinet`] and
//!   [`SteadyCabinet`] keep theirs in memory, and tell them to contracts.
//! * [`Sink`] takes text. [`WriteSink`] writes to a writer of std, [`MemorySink`] keeps its text in
//!   memory. [`put_all`] puts a text in pieces.
//! * [`Gate`] is passed before and after an offer; [`OpenGate`] does nothing.
//!
//! Cabinets and sinks count their faults: an answer that tells a fault comes only where the count
//! rose in that call. The definitions that contracts cite stand in `specs/`: `Causes` (when a count
//! rose), `Outside` (what a fetch gives and a put leaves) and `Memory` (the cabinets and the sink in
//! memory). `files` and `writers` are the trusted edge: what a real file holds and what a terminal
//! gets is said by no contract.
#![tactic(auto)]

mod cabinets;
mod files;
mod gates;
mod memory;
mod puts;
mod sinks;
mod trays;
mod writers;

pub use cabinets::{Cabinet, FetchError};
pub use files::FileCabinet;
pub use gates::{Gate, OpenGate};
pub use memory::{MemoryCabinet, SteadyCabinet};
pub use puts::put_all;
pub use sinks::{PutError, Sink};
pub use trays::MemorySink;
pub use writers::WriteSink;
