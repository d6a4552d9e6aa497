ghost use Rattle.std.specs.Prelude.{◌≡◌, ◌++◌, ◌<◌, ◌≤◌, ◌+◌, length, OnOk, OnErr};
ghost use Rattle.rvd_text.specs.Hex.{hex8};
ghost use Rattle.rvd_notation.specs.Pieces.{Keeps};
ghost use Rattle.rvd_emul.specs.Text.{count_line, end_lines, end_text, register_line, register_lines, run_text, step_line, step_lines, word_text};

use crate::OutOfMemory;
use crate::ends::End;
use crate::trace::Trace;
use rvd_decode::{decode, register, text as push_instruction};
use rvd_fact::Addr;
use rvd_text::{push_dec, push_hex8};
use std::alloc::{AllocError, Global};

// Appends words and a number in eight digits.
fn push_at(out: &mut Vec<u8>, words: &[u8], number: u32) -> Result<(), AllocError>
    ensures ok { OnOk result (out.new.items ≡ out.old.items ++ (words.now ++ hex8 number)) }
    ensures err { OnErr result (Keeps out.old.items out.new.items) }
{
    out.extend_from_slice(words)?;
    push_hex8(out, number)
}

// Appends the words for an end.
#[tactic(auto, unfolding(crate::specs::Text::end_text))]
fn push_end(out: &mut Vec<u8>, end: &End) -> Result<(), AllocError>
    ensures ok { OnOk result (out.new.items ≡ out.old.items ++ end_text end.now) }
    ensures err { OnErr result (Keeps out.old.items out.new.items) }
{
    match end {
        End::Budget => out.extend_from_slice(b"budget"),
        End::MisalignedPc => out.extend_from_slice(b"misaligned pc"),
        End::NoFetch => out.extend_from_slice(b"no fetch"),
        End::Outside(word) => push_at(out, b"outside ", *word),
        End::Ecall => out.extend_from_slice(b"ecall"),
        End::Ebreak => out.extend_from_slice(b"ebreak"),
        End::Misaligned(at) => push_at(out, b"misaligned ", *at),
        End::NoLoad(at) => push_at(out, b"no load ", *at),
        End::NoStore(at) => push_at(out, b"no store ", *at),
    }
}

// Appends the instruction of a step.
fn push_word(alloc: Global, out: &mut Vec<u8>, at: Addr, word: u32) -> Result<(), AllocError>
    ensures ok { OnOk result (out.new.items ≡ out.old.items ++ word_text at word) }
    ensures err { OnErr result (out.new.items ≡ out.old.items) }
{
    match decode(word) {
        None => Ok(()),
        Some(insn) => push_instruction(alloc, &insn, at, out),
    }
}

// Appends the line of a step.
#[tactic(auto, unfolding(crate::specs::Text::step_line))]
fn push_step(alloc: Global, out: &mut Vec<u8>, at: Addr, word: u32) -> Result<(), AllocError>
    ensures ok { OnOk result (out.new.items ≡ out.old.items ++ step_line (at, word)) }
    ensures err { OnErr result (Keeps out.old.items out.new.items) }
{
    push_hex8(out, at)?;
    out.push(b' ')?;
    push_word(alloc, out, at, word)?;
    out.push(b'\n')?;
    Ok(())
}

fn push_steps(alloc: Global, out: &mut Vec<u8>, done: &[(Addr, u32)]) -> Result<(), AllocError>
    ensures ok { OnOk result (out.new.items ≡ out.old.items ++ step_lines done.now) }
    ensures err { OnErr result (Keeps out.old.items out.new.items) }
{
    for (at, word) in done {
        push_step(alloc, out, *at, *word)?;
    }
    Ok(())
}

// Appends the line of a register, where it isn't 0.
#[tactic(auto, unfolding(crate::specs::Text::register_line))]
fn push_register(out: &mut Vec<u8>, number: u8, value: u32) -> Result<(), AllocError>
    requires { number < 32 }
    ensures ok { OnOk result (out.new.items ≡ out.old.items ++ register_line number value) }
    ensures err { OnErr result (Keeps out.old.items out.new.items) }
{
    if value == 0 {
        return Ok(());
    }
    out.extend_from_slice(register(number).as_bytes())?;
    out.push(b' ')?;
    push_hex8(out, value)?;
    out.push(b'\n')?;
    Ok(())
}

fn push_registers(out: &mut Vec<u8>, regs: &[u32]) -> Result<(), AllocError>
    requires { length regs.now ≤ 32 }
    ensures ok { OnOk result (out.new.items ≡ out.old.items ++ register_lines 0 regs.now) }
    ensures err { OnErr result (Keeps out.old.items out.new.items) }
{
    for (number, value) in regs.iter().enumerate() {
        push_register(out, number as u8, *value)?;
    }
    Ok(())
}

// Appends the line of the number of steps.
#[tactic(auto, unfolding(crate::specs::Text::count_line))]
fn push_count(out: &mut Vec<u8>, count: u64) -> Result<(), AllocError>
    ensures ok { OnOk result (out.new.items ≡ out.old.items ++ count_line count) }
    ensures err { OnErr result (Keeps out.old.items out.new.items) }
{
    out.extend_from_slice(b"steps ")?;
    push_dec(out, count)?;
    out.push(b'\n')?;
    Ok(())
}

// Appends the lines of the end and of the program counter.
#[tactic(auto, unfolding(crate::specs::Text::end_lines))]
fn push_state(out: &mut Vec<u8>, end: &End, pc: Addr) -> Result<(), AllocError>
    ensures ok { OnOk result (out.new.items ≡ out.old.items ++ end_lines end.now pc) }
    ensures err { OnErr result (Keeps out.old.items out.new.items) }
{
    out.extend_from_slice(b"end ")?;
    push_end(out, end)?;
    out.extend_from_slice(b"\npc ")?;
    push_hex8(out, pc)?;
    out.push(b'\n')?;
    Ok(())
}

#[tactic(auto, unfolding(crate::specs::Text::run_text))]
fn push_trace(alloc: Global, trace: &Trace, out: &mut Vec<u8>) -> Result<(), AllocError>
    ensures ok { OnOk result (out.new.items ≡ out.old.items ++ run_text trace.now) }
    ensures err { OnErr result (Keeps out.old.items out.new.items) }
{
    push_count(out, trace.done().len() as u64)?;
    push_steps(alloc, out, trace.done())?;
    push_state(out, trace.end(), trace.pc())?;
    push_registers(out, trace.regs())
}

/// Appends a trace as lines: the number of its steps, a line for each with its address and its instruction, why the run ended,
/// the program counter, and each register that isn't 0. Only want of memory refuses it, and then `out` is as before.
pub fn text(alloc: Global, trace: &Trace, out: &mut Vec<u8>) -> Result<(), OutOfMemory>
    ensures ok { OnOk result (out.new.items ≡ out.old.items ++ run_text trace.now) }
    ensures err { OnErr result (out.new.items ≡ out.old.items) }
{
    let len = out.len();
    let pushed = push_trace(alloc, trace, out);
    if pushed.is_err() {
        out.truncate(len);
    }
    pushed
}
