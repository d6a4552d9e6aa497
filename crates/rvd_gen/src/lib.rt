//! The generated image: an RV32I executable of a known shape and of any size, to try an analysis on.
//!
//! - `make` gives the image of a number of functions, from 1 to `MAX_FUNCTIONS`.
//! - `size_law` and `code_law` state what of the image a reader may rely on: its size, and what its
//!   code does.
//!
//! Function i of the image has eight instructions. They load the address of string i, call
//! function i + 1, or from the last function the first one, and return. So an analysis that begins
//! at the entry, function 0, finds all of the functions, the strings and two references from each
//! function.
//!
//! The definitions stand in `specs/`: `Layout` says where each part stands, `Header` has the file
//! header and the program headers, `Code` the instructions, `Strings` the strings, `Image` the
//! whole, and `Laws` what is stated of it.
#![tactic(auto)]

mod assembly;
mod code;
mod header;
mod image;
mod laws;
mod layout;
mod pushing;
mod strings;
#[cfg(test)]
mod tests;

pub use image::make;
pub use laws::{code_law, size_law};
pub use layout::MAX_FUNCTIONS;
pub use std::alloc::AllocError as OutOfMemory;
