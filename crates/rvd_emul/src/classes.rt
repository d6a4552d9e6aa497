ghost use Rattle.std.specs.Prelude.{◌≡◌};
ghost use Rattle.rvd_emul.specs.Classes.{class_of};

use rvd_decode::{Insn, Op};

/// The instructions by the sections of the manual that say what they do.
#[derive(Clone, Copy, Debug, PartialEq, Eq)]
pub enum Class {
    /// LUI and AUIPC.
    Upper,
    /// The unconditional jumps.
    Jump,
    /// The conditional branches.
    Branch,
    Load,
    Store,
    /// Integer operations on a register and an immediate.
    Immediate,
    /// Integer operations on two registers.
    Register,
    /// FENCE.
    MemoryOrdering,
    /// ECALL and EBREAK.
    Environment,
}

/// The class of an instruction.
pub fn class_of(insn: &Insn) -> Class
    ensures { result ≡ class_of insn.now.op }
{
    match insn.op {
        Op::Lui | Op::Auipc => Class::Upper,
        Op::Jal | Op::Jalr => Class::Jump,
        Op::Beq | Op::Bne | Op::Blt | Op::Bge | Op::Bltu | Op::Bgeu => Class::Branch,
        Op::Lb | Op::Lh | Op::Lw | Op::Lbu | Op::Lhu => Class::Load,
        Op::Sb | Op::Sh | Op::Sw => Class::Store,
        Op::Addi
        | Op::Slti
        | Op::Sltiu
        | Op::Xori
        | Op::Ori
        | Op::Andi
        | Op::Slli
        | Op::Srli
        | Op::Srai => Class::Immediate,
        Op::Add
        | Op::Sub
        | Op::Sll
        | Op::Slt
        | Op::Sltu
        | Op::Xor
        | Op::Srl
        | Op::Sra
        | Op::Or
        | Op::And => Class::Register,
        Op::Fence => Class::MemoryOrdering,
        Op::Ecall | Op::Ebreak => Class::Environment,
    }
}
