ghost use Rattle.std.specs.Prelude.{◌≡◌, ◌<◌, ◌^◌, [], ◌∷◌, ◌++◌, codes, IfOk, OnOk, OnErr, string_bytes};
ghost use Rattle.std.specs.Fmt.{signed_decimal};
ghost use Rattle.rvd_decode.specs.Text.{register, indirect, upper, is_indirect, hex, listed, instruction_text};

use crate::OutOfMemory;
use crate::fields::bits;
use crate::insn::{Insn, Op};
use crate::table::{Format, mnemonic, row_of};
use std::alloc::{AllocError, Global};

static REGISTERS: [&str; 32] = [
    "zero", "ra", "sp", "gp", "tp", "t0", "t1", "t2", "s0", "s1", "a0", "a1", "a2", "a3", "a4",
    "a5", "a6", "a7", "s2", "s3", "s4", "s5", "s6", "s7", "s8", "s9", "s10", "s11", "t3", "t4",
    "t5", "t6",
];

/// The name of a register in the calling convention, by its number.
pub fn register(number: u8) -> &'static str
    requires { number < 32 }
    ensures { result.now ≡ register number }
{
    REGISTERS[number as usize]
}

// A number in eight hexadecimal digits.
#[tactic(auto, using(crate::proofs::Hex::padded_hex_8))]
fn hex_8(alloc: Global, n: u32) -> Result<String, AllocError>
    ensures { IfOk result (λ text. string_bytes text ≡ hex 8 n) }
{
    format!(in alloc; "{n:08x}")
}

// The upper twenty bits of an immediate.
#[tactic(auto, using(crate::proofs::Hex::padded_hex_5))]
fn upper(alloc: Global, imm: i32) -> Result<String, AllocError>
    ensures { IfOk result (λ text. string_bytes text ≡ upper imm) }
{
    let value = bits::<31, 12>(imm.cast_unsigned());
    format!(in alloc; "0x{value:05x}")
}

// An offset from a base register.
fn indirect(alloc: Global, offset: i32, base: u8) -> Result<String, AllocError>
    requires { base < 32 }
    ensures { IfOk result (λ text. string_bytes text ≡ indirect offset base) }
{
    let base = register(base);
    format!(in alloc; "{offset}({base})")
}

fn two(alloc: Global, name: &str, a: &str, b: &str) -> Result<String, AllocError>
    ensures { IfOk result (λ text. string_bytes text ≡ name.now ++ listed (a.now ∷ b.now ∷ [])) }
{
    format!(in alloc; "{name} {a}, {b}")
}

fn three(alloc: Global, name: &str, a: &str, b: &str, c: &str) -> Result<String, AllocError>
    ensures { IfOk result (λ text.
        string_bytes text ≡ name.now ++ listed (a.now ∷ b.now ∷ c.now ∷ [])) }
{
    format!(in alloc; "{name} {a}, {b}, {c}")
}

fn is_indirect(op: Op) -> bool
    ensures { result ≡ is_indirect op }
{
    matches!(op, Op::Jalr | Op::Lb | Op::Lh | Op::Lw | Op::Lbu | Op::Lhu)
}

// The text of an instruction at an address.
fn line(alloc: Global, insn: &Insn, at: u32) -> Result<String, AllocError>
    ensures { IfOk result (λ text. string_bytes text ≡ instruction_text insn.now at) }
{
    let name = mnemonic(insn.op);
    let rd = register(insn.rd);
    let rs1 = register(insn.rs1);
    let rs2 = register(insn.rs2);
    match row_of(insn.op).format {
        Format::R => three(alloc, name, rd, rs1, rs2),
        Format::I if is_indirect(insn.op) => {
            two(alloc, name, rd, &indirect(alloc, insn.imm, insn.rs1)?)
        }
        Format::I | Format::Shift => three(alloc, name, rd, rs1, &insn.imm.to_string(alloc)?),
        Format::S => two(alloc, name, rs2, &indirect(alloc, insn.imm, insn.rs1)?),
        Format::B => three(alloc, name, rs1, rs2, &hex_8(alloc, insn.target(at))?),
        Format::U => two(alloc, name, rd, &upper(alloc, insn.imm)?),
        Format::J => two(alloc, name, rd, &hex_8(alloc, insn.target(at))?),
        Format::Bare => String::from_str(alloc, name),
    }
}

/// Appends the text of an instruction that stands at the address `at`. It answers OutOfMemory,
/// with `out` as it was, where memory runs out.
pub fn text(alloc: Global, insn: &Insn, at: u32, out: &mut Vec<u8>) -> Result<(), OutOfMemory>
    ensures ok { OnOk result (out.new.items ≡ out.old.items ++ instruction_text insn.now at) }
    ensures err { OnErr result (out.new.items ≡ out.old.items) }
{
    let line = line(alloc, insn, at)?;
    out.extend_from_slice(line.as_bytes())
}
