ghost use Rattle.std.specs.Prelude.{◌≡◌};
ghost use Rattle.rvd_decode.specs.Formats.{has_rd, has_rs1, has_rs2};
ghost use Rattle.rvd_decode.specs.Table.{row_of, operation, NoTwoRows};
ghost use Rattle.rvd_decode.specs.Text.{mnemonic};

use crate::insn::Op;

/// A format of an instruction word: which fields it has and where.
#[derive(Clone, Copy, Debug, PartialEq, Eq)]
pub enum Format {
    R,
    I,
    S,
    B,
    U,
    J,
    /// The I-format of a shift by a constant, whose amount stands in bits 24 to 20.
    Shift,
    /// No fields.
    Bare,
}

impl Format {
    /// Whether a destination register stands in bits 11 to 7.
    pub fn has_rd(self) -> bool
        ensures { result ≡ has_rd self }
    {
        matches!(
            self,
            Format::R | Format::I | Format::U | Format::J | Format::Shift
        )
    }

    /// Whether a source register stands in bits 19 to 15.
    pub fn has_rs1(self) -> bool
        ensures { result ≡ has_rs1 self }
    {
        !matches!(self, Format::U | Format::J | Format::Bare)
    }

    /// Whether a source register stands in bits 24 to 20.
    pub fn has_rs2(self) -> bool
        ensures { result ≡ has_rs2 self }
    {
        matches!(self, Format::R | Format::S | Format::B)
    }
}

/// A row of the table: the words of an instruction are those whose bits
/// under `mask` are `matching`.
#[derive(Clone, Copy, Debug, PartialEq, Eq)]
pub struct Row {
    pub mask: u32,
    pub matching: u32,
    pub format: Format,
}

macro_rules! table {
    ($each:ident $($first:expr)?) => {
        $each! { $($first)?;
            Lui "lui" 0x0000_007f 0x0000_0037 U,
            Auipc "auipc" 0x0000_007f 0x0000_0017 U,
            Jal "jal" 0x0000_007f 0x0000_006f J,
            Jalr "jalr" 0x0000_707f 0x0000_0067 I,
            Beq "beq" 0x0000_707f 0x0000_0063 B,
            Bne "bne" 0x0000_707f 0x0000_1063 B,
            Blt "blt" 0x0000_707f 0x0000_4063 B,
            Bge "bge" 0x0000_707f 0x0000_5063 B,
            Bltu "bltu" 0x0000_707f 0x0000_6063 B,
            Bgeu "bgeu" 0x0000_707f 0x0000_7063 B,
            Lb "lb" 0x0000_707f 0x0000_0003 I,
            Lh "lh" 0x0000_707f 0x0000_1003 I,
            Lw "lw" 0x0000_707f 0x0000_2003 I,
            Lbu "lbu" 0x0000_707f 0x0000_4003 I,
            Lhu "lhu" 0x0000_707f 0x0000_5003 I,
            Sb "sb" 0x0000_707f 0x0000_0023 S,
            Sh "sh" 0x0000_707f 0x0000_1023 S,
            Sw "sw" 0x0000_707f 0x0000_2023 S,
            Addi "addi" 0x0000_707f 0x0000_0013 I,
            Slti "slti" 0x0000_707f 0x0000_2013 I,
            Sltiu "sltiu" 0x0000_707f 0x0000_3013 I,
            Xori "xori" 0x0000_707f 0x0000_4013 I,
            Ori "ori" 0x0000_707f 0x0000_6013 I,
            Andi "andi" 0x0000_707f 0x0000_7013 I,
            Slli "slli" 0xfe00_707f 0x0000_1013 Shift,
            Srli "srli" 0xfe00_707f 0x0000_5013 Shift,
            Srai "srai" 0xfe00_707f 0x4000_5013 Shift,
            Add "add" 0xfe00_707f 0x0000_0033 R,
            Sub "sub" 0xfe00_707f 0x4000_0033 R,
            Sll "sll" 0xfe00_707f 0x0000_1033 R,
            Slt "slt" 0xfe00_707f 0x0000_2033 R,
            Sltu "sltu" 0xfe00_707f 0x0000_3033 R,
            Xor "xor" 0xfe00_707f 0x0000_4033 R,
            Srl "srl" 0xfe00_707f 0x0000_5033 R,
            Sra "sra" 0xfe00_707f 0x4000_5033 R,
            Or "or" 0xfe00_707f 0x0000_6033 R,
            And "and" 0xfe00_707f 0x0000_7033 R,
            Fence "fence" 0x0000_707f 0x0000_000f Bare,
            Ecall "ecall" 0xffff_ffff 0x0000_0073 Bare,
            Ebreak "ebreak" 0xffff_ffff 0x0010_0073 Bare
        }
    };
}

macro_rules! rows {
    (; $($op:ident $mnemonic:literal $mask:literal $matching:literal $format:ident),*) => {
        [$(Row { mask: $mask, matching: $matching, format: Format::$format }),*]
    };
}

macro_rules! mnemonics {
    (; $($op:ident $mnemonic:literal $mask:literal $matching:literal $format:ident),*) => {
        [$($mnemonic),*]
    };
}

macro_rules! first_match {
    ($word:expr; $($op:ident $mnemonic:literal $mask:literal $matching:literal $format:ident),*) => {{
        $(if $word & $mask == $matching {
            return Some(Op::$op);
        })*
        None
    }};
}

/// The row of an instruction.
pub fn row_of(op: Op) -> Row
    ensures { result ≡ row_of op }
{
    static ROWS: [Row; 40] = table!(rows);
    ROWS[op as usize]
}

/// No word matches two rows of the table: a law, and no work.
pub fn no_two_rows()
    ensures { NoTwoRows }
{}

/// The mnemonic of an instruction.
pub fn mnemonic(op: Op) -> &'static str
    ensures { result.now ≡ mnemonic op }
{
    static MNEMONICS: [&str; 40] = table!(mnemonics);
    MNEMONICS[op as usize]
}

/// The name of the row that a word matches, found by going through the rows in their order.
#[tactic(auto, unfolding(crate::specs::Table::operation))]
pub fn walk(word: u32) -> Option<Op>
    ensures { result ≡ operation word }
{
    table!(first_match word)
}
