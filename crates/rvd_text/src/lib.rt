//! Numbers and quoted texts, to bytes and from bytes.
//!
//! - `push_hex8` and `push_dec` append a number; `push_quoted` appends the canonical spelling of a text.
//! - `read_quoted` reads a quoted text, and `read_hex` a hexadecimal number of 32 bits. Each refusal is a `TextError`.
//! - `text_law` states what a quoted text is, and that reading gives back what was printed.
//!
//! What is printed goes into a vector of the caller's, which keeps its allocator. What is read into a vector takes one.
//!
//! The definitions that the contracts cite stand in `specs/`: `Decimal` and `Hex` for numbers, `Quoted` for quoted
//! texts and `Answers` for when a reader refuses a word.
#![tactic(auto)]

mod decimal;
mod errors;
mod hex;
mod laws;
mod places;
mod quoted;
mod reading;
#[cfg(test)]
mod tests;

pub use decimal::push_dec;
pub use errors::{TEXT_LIMIT, TextError};
pub use hex::{digit, push_hex8, read_hex};
pub use laws::text_law;
pub use quoted::push_quoted;
pub use reading::read_quoted;
pub use std::alloc::AllocError as OutOfMemory;
