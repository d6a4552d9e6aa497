ghost use Rattle.std.specs.Prelude.{◌≡◌, ◌<◌, IfSome};
ghost use Rattle.rvd_decode.specs.Table.{read_as, instruction, field, IsInstruction};

use crate::fields::{bits, immediate};
use crate::insn::{Insn, Op};
use crate::opcode_map::operation;
use crate::table::row_of;

// A register's number, or 0 where the format lacks the field.
fn register(present: bool, number: u32) -> u8
    requires { number < 32 }
    ensures { result ≡ field present number }
{
    if present { number as u8 } else { 0 }
}

/// The instruction of an operation with the fields of a word.
pub fn read_as(word: u32, op: Op) -> Insn
    ensures value { result ≡ read_as word op }
    ensures in_format { IsInstruction result }
{
    let format = row_of(op).format;
    Insn {
        op,
        rd: register(format.has_rd(), bits::<11, 7>(word)),
        rs1: register(format.has_rs1(), bits::<19, 15>(word)),
        rs2: register(format.has_rs2(), bits::<24, 20>(word)),
        imm: immediate(format, word),
    }
}

/// The instruction of a word, or None exactly where the word matches no row of the table.
pub fn decode(word: u32) -> Option<Insn>
    ensures value { result ≡ instruction word }

    // Each operand is in the range of the instruction's format.
    ensures in_format { IfSome result IsInstruction }
{
    let op = operation(word)?;
    Some(read_as(word, op))
}
