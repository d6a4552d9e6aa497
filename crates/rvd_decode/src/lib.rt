//! The instructions of RV32I, the base integer instruction set of RISC-V for 32-bit registers
//! (RISC-V unprivileged ISA 2.1).
//!
//! - `decode` reads a word as an instruction, and `encode` gives an instruction's word.
//! - `text` appends an instruction in assembly notation, and `register` is the name of a register there.
//! - `is_call`, `is_jump` and `falls_through` tell of a word where control goes after it, and
//!   `Insn::target` gives the address that JAL or a branch leads to.
//! - `plain::decode` decodes by going through the table's rows, and `no_two_rows` is the law that
//!   a word matches one of them at the most.
//!
//! An `Insn` is a row's name with operands that are in the ranges of the row's format: its type
//! keeps that, so that each `Insn` has a word, which is read as that `Insn`.
//!
//! The definitions stand in `specs/`: `Instruction` has an instruction as a value, `Formats` the
//! fields and immediates of the formats, `Table` the forty rows and the instruction of a word,
//! `Encoding` the word of an instruction, `Flow` calls and jumps, `Text` the notation, and
//! `OpcodeMap` which operations share an opcode and a funct3.
#![tactic(auto)]

mod decoding;
mod encoding;
mod fields;
mod flow;
pub mod insn;
mod opcode_map;
pub mod plain;
mod printing;
mod table;
#[cfg(test)]
mod tests;

pub use decoding::decode;
pub use encoding::encode;
pub use flow::{falls_through, is_call, is_jump};
pub use insn::{Insn, Op};
pub use printing::{register, text};
pub use std::alloc::AllocError as OutOfMemory;
pub use table::no_two_rows;
