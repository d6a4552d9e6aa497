ghost use Rattle.std.specs.Prelude.{◌≡◌, Some};
ghost use Rattle.rvd_decode.specs.Encoding.{complement, placed, encoding};
ghost use Rattle.rvd_decode.specs.Table.{instruction};

use crate::fields::bits;
use crate::insn::Insn;
use crate::table::{Format, row_of};

// The bits of an immediate in the places that a format has for them.
fn placed(format: Format, imm: u32) -> u32
    ensures { result ≡ placed format imm }
{
    match format {
        Format::R | Format::Bare => 0,
        Format::I => bits::<11, 0>(imm) << 20,
        Format::S => (bits::<11, 5>(imm) << 25) + (bits::<4, 0>(imm) << 7),
        Format::B => {
            let high = (bits::<12, 12>(imm) << 31) + (bits::<10, 5>(imm) << 25);
            high + (bits::<4, 1>(imm) << 8) + (bits::<11, 11>(imm) << 7)
        }
        Format::U => bits::<31, 12>(imm) << 12,
        Format::J => {
            let high = (bits::<20, 20>(imm) << 31) + (bits::<10, 1>(imm) << 21);
            high + (bits::<11, 11>(imm) << 20) + (bits::<19, 12>(imm) << 12)
        }
        Format::Shift => bits::<4, 0>(imm) << 20,
    }
}

/// The word of an instruction: the bits of its row, and its operands in their places. The bits
/// that the row leaves open and no operand fills are 0, so FENCE gives 0x0000000f.
pub fn encode(insn: &Insn) -> u32
    ensures word { result ≡ encoding insn.now }
    ensures decodes { instruction result ≡ Some insn.now }
{
    let row = row_of(insn.op);
    let registers = (u32::from(insn.rd) << 7)
        + (u32::from(insn.rs1) << 15)
        + (u32::from(insn.rs2) << 20);
    row.matching + (registers + placed(row.format, insn.imm.cast_unsigned()))
}
