use rvd_elf::Part;
use std::fmt;
use std::fmt::{Display, Formatter, Write};

/// A part of an ELF file, as it is named in a line about a fault.
#[derive(Clone, Copy)]
pub struct PartName(pub Part);

impl Display for PartName {
    fn fmt<W: Write>(&self, f: &mut Formatter<W>) -> fmt::Result {
        match self.0 {
            Part::Header => f.write_str("the ELF header"),
            Part::ProgramTable => f.write_str("the program header table"),
            Part::Segment(index) => write!(f, "segment {index}"),
            Part::SectionTable => f.write_str("the section header table"),
            Part::SymbolTable => f.write_str("the symbol table"),
            Part::StringTable => f.write_str("the string table"),
        }
    }
}
