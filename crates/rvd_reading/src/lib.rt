//! What reads back the words that `rvd_notation` prints: fixed words, numbers, quoted texts and keys at the front of a text.
//!
//! * [`Rest`] is what is left of a text. Each reader takes its part from the front, and gives it.
//! * [`kind`], [`source`], [`class`] and [`analyzer`] read fixed words; [`hex8`] and [`number`] read numbers, [`quoted`] a quoted
//!   text, [`key`] a key, [`range`] a range and [`ranges`] a set of addresses. [`range_set`] makes a set of ranges that were read.
//! * [`perm`], [`form`], [`comment_kind`] and [`bookmark_type`] read parts of facts, [`cell`] a whole cell, and [`actor`] an actor.
//!
//! A reader may read more than what is printed, as digits of upper case or leading zeros. Whether a text is spelled as it is
//! printed, a caller tells by printing what was read.
//!
//! The definitions that the contracts cite stand in `specs/`: `Steps` for readers in general, `Fixed`, `Numbers`, `Quotes`, `Keys`,
//! `Facts`, `Actors`, `Lists` and `Values` for each part, and `Laws` for what is read back, which [`reading_law`] states.
#![tactic(auto)]

mod actors;
mod errors;
mod facts;
mod fixed_words;
mod keys;
mod laws;
mod numbers;
mod quotes;
mod range_sets;
mod rest;
mod values;

pub use actors::actor;
pub use errors::{ReadError, Unread};
pub use facts::{bookmark_type, comment_kind, form, perm};
pub use fixed_words::{analyzer, class, kind, source};
pub use keys::key;
pub use laws::reading_law;
pub use numbers::{hex8, number};
pub use quotes::quoted;
pub use range_sets::{range, range_set, ranges};
pub use rest::Rest;
pub use std::alloc::AllocError as OutOfMemory;
pub use values::cell;
