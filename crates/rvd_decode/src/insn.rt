use std::marker::Model;

/// The name of an instruction: a row of the manual's table of RV32I.
#[derive(Clone, Copy, Debug, PartialEq, Eq)]
pub enum Op {
    Lui,
    Auipc,
    Jal,
    Jalr,
    Beq,
    Bne,
    Blt,
    Bge,
    Bltu,
    Bgeu,
    Lb,
    Lh,
    Lw,
    Lbu,
    Lhu,
    Sb,
    Sh,
    Sw,
    Addi,
    Slti,
    Sltiu,
    Xori,
    Ori,
    Andi,
    Slli,
    Srli,
    Srai,
    Add,
    Sub,
    Sll,
    Slt,
    Sltu,
    Xor,
    Srl,
    Sra,
    Or,
    And,
    Fence,
    Ecall,
    Ebreak,
}

/// An instruction. Each number is in the range of the instruction's format,
/// and a field that the format lacks is 0.
#[derive(Clone, Copy, Debug, PartialEq, Eq)]
pub struct Insn {
    /// The name.
    pub op: Op,
    /// The destination register, 0 to 31.
    pub rd: u8,
    /// The first source register, 0 to 31.
    pub rs1: u8,
    /// The second source register, 0 to 31.
    pub rs2: u8,
    /// The immediate, sign-extended, or the amount of a shift.
    pub imm: i32,
}

impl Model for Insn {
    ghost use Rattle.rvd_decode.specs.Instruction.{Instruction};
    ghost use Rattle.rvd_decode.specs.Table.{IsInstruction};

    ghost Value = { Instruction };

    ghost view = { λ i. record { op = i.op; rd = i.rd; rs1 = i.rs1; rs2 = i.rs2; imm = i.imm } };

    ghost invariant = { λ i. IsInstruction (record { op = i.op; rd = i.rd; rs1 = i.rs1; rs2 = i.rs2; imm = i.imm }) };

    ghost inverse = { λ i. record { op = i.op; rd = i.rd; rs1 = i.rs1; rs2 = i.rs2; imm = i.imm } };
}
