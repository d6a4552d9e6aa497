//! Imports the facts of an RV32I executable from its ELF file: its blocks of memory, its entry
//! point, and the names and functions of its symbols.
//!
//! * [`import`] gives the facts as changes in key order, or the first refusal.
//! * [`ElfError`] says why a file isn't imported, and [`Part`] names a part of a file.
//!
//! The modules are those of the System V ABI: `header` (the ELF header), `segment` (program headers
//! and the memory that they make), `section` (section headers) and `symbol` (the symbol table and
//! its names). `facts` and `slots` make the facts of what they read.
//!
//! The definitions that contracts cite stand in `specs/`: `Import` (the whole import as steps of
//! which the first refusal decides), `Header`, `Segment`, `Section` and `Symbol` (each part's tests
//! and fields by the standard's names), `Facts` (the facts as a program), `Steps` and `Fields`.
//!
//! An import takes time by the size of the file and by n log n for n symbols: at most the first
//! 1,001 bytes of a name are looked at, and the facts are put into an ordered map by their keys.
#![tactic(auto)]

mod facts;
mod fields;
mod header;
mod imports;
mod refusals;
mod section;
mod segment;
mod slots;
mod symbol;

pub use imports::import;
pub use refusals::{ElfError, Part};

#[cfg(test)]
mod tests;
