//! What analyzers ask of a program, what it answers, and what they propose.
//!
//! * [`Analyzer`] is one of the five analyzers, and [`Item`] one at an address: a piece of work.
//!   Items are ordered by priority, then by address; [`Items`] is a list of them.
//! * [`Ask`] is a question to a program, and [`Answer`] what it answers. [`RefList`] lists the
//!   references from one address. [`same`] tells whether two answers are the same.
//! * [`View`] is what can be asked: it stands for one valid program. [`answer_to`] is its answer to an ask.
//! * [`Reads`] is what was asked with the answers: [`ask_cell`] and the calls beside it ask a view and keep what it
//!   answers. [`addition`] is an analyzer's new fact.
//! * [`Rule`] is what an analyzer does, and [`Proposal`] what it proposes for an item. Its type keeps a
//!   promise: whatever valid program the reads of a proposal hold of, the changes of the item's rule
//!   there are its changes.
//!
//! The definitions that contracts cite stand in `specs/`. `Order` has the analyzers' priorities and
//! the order of items, `Forms` which answers have the form of an ask, and `Answers` what a program
//! answers and when reads hold of it. `Flow`, `Refs`, `Funcs`, `Body` and `Strings` have the rules of
//! the analyzers with what they ask, over `Places` and `Reach`; `Rules` has them all for an item.
//! `Promise` has what a proposal promises, `Fitting` that a rule's changes fit, `Wake` which items a change may unsettle, and `Unsettled`
//! these items as lists.
//!
//! Four laws say what the definitions are good for: [`reach_law`], [`listing_law`], [`candidate_law`] and
//! [`sparing_law`]. The lemmas that an analyzer needs on its reads stand in `proofs/`: `Told`, `Plain`, `FreeBytes` and
//! `Proposing`.
#![tactic(auto)]

mod answers;
mod asking;
mod asks;
mod cells;
mod items;
mod laws;
mod proposals;
mod sameness;
mod views;

pub use answers::{Answer, RefList};
pub use asking::{Reads, ask_block, ask_bytes, ask_cell, ask_cover, ask_free, ask_refs, ask_to};
pub use asks::{Analyzer, Ask, Item};
pub use cells::{addition, is_instruction, is_present};
pub use items::Items;
pub use laws::{candidate_law, listing_law, reach_law, sparing_law};
pub use proposals::{Proposal, Rule};
pub use sameness::same;
pub use std::alloc::AllocError as OutOfMemory;
pub use views::{View, answer_to};
