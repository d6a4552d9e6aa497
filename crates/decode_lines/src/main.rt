//! Reads lines of an address and a word in hexadecimal digits, as `00010054 ff010113`, and prints
//! each with the instruction's text after it, or `??` where the word is no instruction.
#![tactic(auto)]

use anyhow::{Context, Result};
use rvd_decode::{decode, text};
use std::alloc::Global;
use std::io::{self, BufRead, BufReader, BufWriter, Write};

// The address and the word of a line.
fn parsed(line: &str) -> Result<(u32, u32)> {
    let (address, word) = line
        .split_once(' ')
        .context("a line has an address, a space and a word")?;
    let address = u32::from_str_radix(address, 16).context("the address")?;
    let word = u32::from_str_radix(word, 16).context("the word")?;
    Ok((address, word))
}

// Appends the text of a word at an address.
fn describe(alloc: Global, address: u32, word: u32, out: &mut Vec<u8>) -> Result<()> {
    match decode(word) {
        Some(insn) => text(alloc, &insn, address, out)?,
        None => out.extend_from_slice(b"??")?,
    }
    Ok(())
}

fn main(rt: HostRuntime) -> Result<()> {
    let mut output = BufWriter::new(rt.alloc(), io::writer(&rt))?;
    let mut out = Vec::new(rt.alloc());
    for line in BufReader::new(rt.alloc(), rt.reader())?.lines(rt.alloc()) {
        let line = line?;
        let (address, word) = parsed(line.as_str())?;
        out.clear();
        describe(rt.alloc(), address, word, &mut out)?;
        write!(output, "{address:08x} {word:08x} ")?;
        output.write_all(&out)?;
        output.write_all(b"\n")?;
    }
    output.flush()?;
    Ok(())
}
