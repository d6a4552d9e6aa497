ghost use Rattle.std.specs.Prelude.{◌≡◌, ◌<◌, true};
ghost use Rattle.rvd_decode.specs.declared.insn.Op.{Op};
ghost use Rattle.rvd_decode.specs.OpcodeMap.{twin, IsAmong};
ghost use Rattle.rvd_decode.specs.Table.{matches, operation};

use crate::insn::Op;
use crate::table::row_of;

// The operations by opcode and funct3: a line for each value of inst[6:2], in the order of the
// manual's map of base opcodes, and in it an entry for each value of funct3.
static OPCODE_MAP: [[Option<Op>; 8]; 32] = [
    // LOAD
    [
        Some(Op::Lb),
        Some(Op::Lh),
        Some(Op::Lw),
        None,
        Some(Op::Lbu),
        Some(Op::Lhu),
        None,
        None,
    ],
    [None; 8],
    [None; 8],
    // MISC-MEM
    [Some(Op::Fence), None, None, None, None, None, None, None],
    // OP-IMM
    [
        Some(Op::Addi),
        Some(Op::Slli),
        Some(Op::Slti),
        Some(Op::Sltiu),
        Some(Op::Xori),
        Some(Op::Srli),
        Some(Op::Ori),
        Some(Op::Andi),
    ],
    // AUIPC
    [Some(Op::Auipc); 8],
    [None; 8],
    [None; 8],
    // STORE
    [
        Some(Op::Sb),
        Some(Op::Sh),
        Some(Op::Sw),
        None,
        None,
        None,
        None,
        None,
    ],
    [None; 8],
    [None; 8],
    [None; 8],
    // OP
    [
        Some(Op::Add),
        Some(Op::Sll),
        Some(Op::Slt),
        Some(Op::Sltu),
        Some(Op::Xor),
        Some(Op::Srl),
        Some(Op::Or),
        Some(Op::And),
    ],
    // LUI
    [Some(Op::Lui); 8],
    [None; 8],
    [None; 8],
    [None; 8],
    [None; 8],
    [None; 8],
    [None; 8],
    [None; 8],
    [None; 8],
    [None; 8],
    [None; 8],
    // BRANCH
    [
        Some(Op::Beq),
        Some(Op::Bne),
        None,
        None,
        Some(Op::Blt),
        Some(Op::Bge),
        Some(Op::Bltu),
        Some(Op::Bgeu),
    ],
    // JALR
    [Some(Op::Jalr), None, None, None, None, None, None, None],
    [None; 8],
    // JAL
    [Some(Op::Jal); 8],
    // SYSTEM
    [Some(Op::Ecall), None, None, None, None, None, None, None],
    [None; 8],
    [None; 8],
    [None; 8],
];

// The operation that the map has for a word.
fn mapped(word: u32) -> Option<Op>
    ensures { (op : Op) → matches word op ≡ true → IsAmong result op }
{
    OPCODE_MAP[(word / 4 % 32) as usize][(word / 4096 % 8) as usize]
}

// The operation with the same opcode and funct3 that the map leaves out.
fn twin(op: Op) -> Option<Op>
    ensures { result ≡ twin op }
{
    match op {
        Op::Add => Some(Op::Sub),
        Op::Srl => Some(Op::Sra),
        Op::Srli => Some(Op::Srai),
        Op::Ecall => Some(Op::Ebreak),
        _ => None,
    }
}

fn matches(word: u32, op: Op) -> bool
    ensures { result ≡ matches word op }
{
    let row = row_of(op);
    word & row.mask == row.matching
}

/// The operation of a word, or None where the word matches no row of the table.
pub fn operation(word: u32) -> Option<Op>
    ensures { result ≡ operation word }
{
    let first = mapped(word)?;
    if matches(word, first) {
        return Some(first);
    }
    let second = twin(first)?;
    if matches(word, second) {
        Some(second)
    } else {
        None
    }
}
