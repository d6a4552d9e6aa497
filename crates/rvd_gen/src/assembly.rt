//! The instructions that functions are made of, by their operands in the order of assembly notation.
ghost use Rattle.std.specs.Prelude.{◌≡◌, ◌^◌, ◌<◌};
ghost use Rattle.rvd_decode.specs.Formats.{IsSigned, IsMultiple};
ghost use Rattle.rvd_gen.specs.Assembly.{addi, lw, jalr, sw, lui, jal};

use rvd_decode::{Insn, Op};

/// The numbers of the registers zero, ra, sp and a0.
pub const ZERO: u8 = 0;

pub const RA: u8 = 1;

pub const SP: u8 = 2;

pub const A0: u8 = 10;

/// `addi rd, rs1, imm`
pub fn addi(rd: u8, rs1: u8, imm: i32) -> Insn
    requires rd_is_register { rd < 32 }
    requires rs1_is_register { rs1 < 32 }
    requires imm_is_short { IsSigned 12 imm }
    ensures { result ≡ addi rd rs1 imm }
{
    Insn {
        op: Op::Addi,
        rd,
        rs1,
        rs2: 0,
        imm,
    }
}

/// `lw rd, imm(rs1)`
pub fn lw(rd: u8, imm: i32, rs1: u8) -> Insn
    requires rd_is_register { rd < 32 }
    requires rs1_is_register { rs1 < 32 }
    requires imm_is_short { IsSigned 12 imm }
    ensures { result ≡ lw rd imm rs1 }
{
    Insn {
        op: Op::Lw,
        rd,
        rs1,
        rs2: 0,
        imm,
    }
}

/// `sw rs2, imm(rs1)`
pub fn sw(rs2: u8, imm: i32, rs1: u8) -> Insn
    requires rs2_is_register { rs2 < 32 }
    requires rs1_is_register { rs1 < 32 }
    requires imm_is_short { IsSigned 12 imm }
    ensures { result ≡ sw rs2 imm rs1 }
{
    Insn {
        op: Op::Sw,
        rd: 0,
        rs1,
        rs2,
        imm,
    }
}

/// `lui rd, upper`, of an upper part that leaves the sign bit 0
pub fn lui(rd: u8, upper: u32) -> Insn
    requires rd_is_register { rd < 32 }
    requires upper_is_short { upper < 2 ^ 19 }
    ensures { result ≡ lui rd upper }
{
    Insn {
        op: Op::Lui,
        rd,
        rs1: 0,
        rs2: 0,
        imm: (4096 * upper) as i32,
    }
}

/// `jal rd, imm`, to the address that is `imm` bytes on
pub fn jal(rd: u8, imm: i32) -> Insn
    requires rd_is_register { rd < 32 }
    requires imm_is_short { IsSigned 21 imm }
    requires imm_is_even { IsMultiple 2 imm }
    ensures { result ≡ jal rd imm }
{
    Insn {
        op: Op::Jal,
        rd,
        rs1: 0,
        rs2: 0,
        imm,
    }
}

/// `jalr rd, imm(rs1)`
pub fn jalr(rd: u8, imm: i32, rs1: u8) -> Insn
    requires rd_is_register { rd < 32 }
    requires rs1_is_register { rs1 < 32 }
    requires imm_is_short { IsSigned 12 imm }
    ensures { result ≡ jalr rd imm rs1 }
{
    Insn {
        op: Op::Jalr,
        rd,
        rs1,
        rs2: 0,
        imm,
    }
}
