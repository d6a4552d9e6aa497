//! The program that is disassembled: a valid map from keys to cells.
//!
//! * [`Program`] is the map. It is made by `empty` and `copy`; its cells are read by `cell` and `next_cell`, its memory
//!   and units by `block`, `bytes` and `cover`, and its references by `has_ref_to` and `refs_from`. `fits` tells whether
//!   changes may be applied, `apply` applies them, and `revert` undoes them. As a `View` it can be asked.
//!
//! A program is valid at every moment. The cells stand in a table in the order of their keys, so that a cell, or the
//! first reference from an address, is found in a time that grows as the logarithm of their number, and a program is
//! built from facts in the order of their keys in a time that grows as their number. A unit is looked for from the address
//! down, at most 256 bytes, and a block past the blocks below it and the facts that stand in none.
//!
//! What a program is, when it is valid and what changes do to it is defined in rvd_fact (`Program`, `Memory` and
//! `Valid`); `specs/Lookup.antt` adds what a look-up by order finds.
#![tactic(auto)]

mod change_lists;
mod checks;
mod fitting;
mod kept;
mod memory;
mod near;
mod refs;
mod same;
mod spans;
mod suiting;
mod valid_map;
mod views;

pub use kept::Kept;
pub use std::alloc::AllocError as OutOfMemory;
pub use valid_map::Program;
