//! Decodes the words of a file: `bench_decode ROUNDS FILE` goes over the file's little-endian
//! words ROUNDS times, and prints how many of them were instructions, and the sum modulo 2^64 of
//! the operands, so that each field of each instruction is made.
#![tactic(auto)]

use anyhow::{Context, Result};
use rvd_decode::decode;
use std::alloc::{AllocError, Global};
use std::{env, fs};

#[derive(Drop)]
struct Tally {
    instructions: u64,
    operands: u64,
}

fn words(alloc: Global, bytes: &[u8]) -> Result<Vec<u32>, AllocError> {
    let mut words = Vec::new(alloc);
    for word in bytes.chunks_exact(4) {
        if let [a, b, c, d] = word {
            words.push(u32::from_le_bytes([*a, *b, *c, *d]))?;
        }
    }
    Ok(words)
}

fn add_words(tally: &mut Tally, words: &[u32]) {
    for word in words {
        if let Some(insn) = decode(*word) {
            let registers = u64::from(insn.rd) + u64::from(insn.rs1) + u64::from(insn.rs2);
            tally.instructions = tally.instructions.wrapping_add(1);
            tally.operands = tally
                .operands
                .wrapping_add(registers)
                .wrapping_add(u64::from(insn.imm.unsigned_abs()));
        }
    }
}

fn main(rt: HostRuntime) -> Result<()> {
    let mut args = env::args(&rt)?;
    let usage = "usage: bench_decode ROUNDS FILE";
    let _program = args.next();
    let rounds = args.next().context(usage)?.as_str().parse::<u32>()?;
    let file = args.next().context(usage)?;
    let bytes = fs::read(&rt, file.as_str())?;
    let words = words(rt.alloc(), &bytes)?;
    let mut tally = Tally {
        instructions: 0,
        operands: 0,
    };
    for _ in 0..rounds {
        add_words(&mut tally, &words);
    }
    println!(rt; "{} {}", tally.instructions, tally.operands)?;
    Ok(())
}
