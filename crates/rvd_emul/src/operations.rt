ghost use Rattle.std.specs.Prelude.{◌≡◌, ◌<◌};
ghost use Rattle.rvd_emul.specs.Effects.{computed, is_taken, jump_target, upper, width};

use rvd_decode::Op;

/// What an integer operation makes of two words.
pub fn computed(op: Op, a: u32, b: u32) -> u32
    ensures { result ≡ computed op a b }
{
    match op {
        Op::Addi | Op::Add => a.wrapping_add(b),
        Op::Sub => a.wrapping_sub(b),
        Op::Slti | Op::Slt => u32::from(a.cast_signed() < b.cast_signed()),
        Op::Sltiu | Op::Sltu => u32::from(a < b),
        Op::Xori | Op::Xor => a ^ b,
        Op::Ori | Op::Or => a | b,
        Op::Andi | Op::And => a & b,
        Op::Slli | Op::Sll => a.wrapping_shl(b),
        Op::Srli | Op::Srl => a.wrapping_shr(b),
        Op::Srai | Op::Sra => a.cast_signed().wrapping_shr(b).cast_unsigned(),
        _ => 0,
    }
}

/// The upper immediate of LUI, and of AUIPC at an address.
pub fn upper(op: Op, pc: u32, imm: u32) -> u32
    ensures { result ≡ upper op pc imm }
{
    match op {
        Op::Lui => imm,
        Op::Auipc => pc.wrapping_add(imm),
        _ => 0,
    }
}

/// Where an unconditional jump leads from an address, with the value of its source register.
pub fn jump_target(op: Op, pc: u32, base: u32, imm: u32) -> u32
    ensures { result ≡ jump_target op pc base imm }
{
    match op {
        Op::Jal => pc.wrapping_add(imm),
        Op::Jalr => {
            let sum = base.wrapping_add(imm);
            sum - sum % 2
        }
        _ => 0,
    }
}

/// Whether a branch is taken.
pub fn is_taken(op: Op, a: u32, b: u32) -> bool
    ensures { result ≡ is_taken op a b }
{
    match op {
        Op::Beq => a == b,
        Op::Bne => a != b,
        Op::Blt => a.cast_signed() < b.cast_signed(),
        Op::Bge => a.cast_signed() >= b.cast_signed(),
        Op::Bltu => a < b,
        Op::Bgeu => a >= b,
        _ => false,
    }
}

/// How many bytes a load or a store moves.
pub fn width(op: Op) -> u32
    ensures value { result ≡ width op }
    ensures some { 0 < result }
{
    match op {
        Op::Lb | Op::Lbu | Op::Sb => 1,
        Op::Lh | Op::Lhu | Op::Sh => 2,
        _ => 4,
    }
}
