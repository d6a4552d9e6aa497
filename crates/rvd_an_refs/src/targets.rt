ghost use Rattle.std.specs.Prelude.{◌≡◌};
ghost use Rattle.std.specs.Option.{option_map};
ghost use Rattle.rvd_ask.specs.Places.{moved};
ghost use Rattle.rvd_ask.specs.Refs.{call_or_jump, target_class, direct, computed_class, computed_address, upper_value, upper_for};

use rvd_decode::{Insn, Op};
use rvd_fact::{Addr, RefClass};

fn call_or_jump(rd: u8) -> RefClass
    ensures { result ≡ call_or_jump rd }
{
    if rd == 0 {
        RefClass::Jump
    } else {
        RefClass::Call
    }
}

fn target_class(op: Op, rd: u8) -> Option<RefClass>
    ensures { result ≡ target_class op rd }
{
    match op {
        Op::Jal => Some(call_or_jump(rd)),
        Op::Beq | Op::Bne | Op::Blt | Op::Bge | Op::Bltu | Op::Bgeu => Some(RefClass::Cond),
        _ => None,
    }
}

/// The class and the target of an instruction at an address, where it is JAL or a branch.
pub fn direct(at: Addr, insn: &Insn) -> Option<(RefClass, Addr)>
    ensures { result ≡ direct at insn.now }
{
    let class = target_class(insn.op, insn.rd)?;
    Some((class, insn.target(at)))
}

/// The class of the reference to the address that an operation computes with its first source register, where it is
/// ADDI, a load, a store or JALR.
pub fn computed_class(op: Op, rd: u8) -> Option<RefClass>
    ensures { result ≡ computed_class op rd }
{
    match op {
        Op::Addi => Some(RefClass::Datum),
        Op::Lb | Op::Lh | Op::Lw | Op::Lbu | Op::Lhu => Some(RefClass::Read),
        Op::Sb | Op::Sh | Op::Sw => Some(RefClass::Write),
        Op::Jalr => Some(call_or_jump(rd)),
        _ => None,
    }
}

fn moved(at: Addr, imm: i32) -> Addr
    ensures { result ≡ moved at imm }
{
    at.wrapping_add(imm.cast_unsigned())
}

// JALR clears bit 0.
fn computed_address(insn: &Insn, upper: Addr) -> Addr
    ensures { result ≡ computed_address insn.now.op (moved upper insn.now.imm) }
{
    let sum = moved(upper, insn.imm);
    match insn.op {
        Op::Jalr => sum - sum % 2,
        _ => sum,
    }
}

/// The class and the address that an instruction of a class computes with the value that an upper one leaves in its
/// first source register, where one does.
pub fn computed(class: RefClass, insn: &Insn, upper: Option<Addr>) -> Option<(RefClass, Addr)>
    ensures { result ≡ option_map (λ value. (class, computed_address insn.now.op (moved value insn.now.imm))) upper }
{
    let upper = upper?;
    Some((class, computed_address(insn, upper)))
}

fn upper_value(at: Addr, insn: &Insn) -> Option<Addr>
    ensures { result ≡ upper_value at insn.now }
{
    match insn.op {
        Op::Auipc => Some(moved(at, insn.imm)),
        Op::Lui => Some(moved(0, insn.imm)),
        _ => None,
    }
}

/// The value that AUIPC or LUI at an address gives to a register, where it gives it to this one, which isn't x0.
pub fn upper_for(register: u8, at: Addr, insn: &Insn) -> Option<Addr>
    ensures { result ≡ upper_for register at insn.now }
{
    if insn.rd == register && register != 0 {
        upper_value(at, insn)
    } else {
        None
    }
}
