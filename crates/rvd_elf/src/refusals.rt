ghost use Rattle.std.specs.Prelude.{◌≡◌};
ghost use Rattle.rvd_elf.specs.declared.refusals.ElfError.TheVariants.{OutOfMemory};

use rvd_fact::{Addr, What};
use std::alloc::{AllocError, AllocFailed};
use thiserror::Error;

/// A part of an ELF file.
#[derive(Clone, Copy, Debug, PartialEq, Eq)]
pub enum Part {
    /// The ELF header.
    Header,
    /// The program header table.
    ProgramTable,
    /// The segment of the program header with this index.
    Segment(u32),
    /// The section header table.
    SectionTable,
    /// The symbol table.
    SymbolTable,
    /// The string table that the symbol table links to.
    StringTable,
}

/// Why a file isn't imported.
#[derive(Clone, Copy, Debug, PartialEq, Eq, Error)]
pub enum ElfError {
    /// The file doesn't begin with the magic number 7f 45 4c 46.
    #[error("the file doesn't begin with the ELF magic number")]
    NotElf,
    /// `EI_CLASS` isn't `ELFCLASS32`.
    #[error("the file class isn't ELFCLASS32")]
    NotElf32,
    /// `EI_DATA` isn't `ELFDATA2LSB`.
    #[error("the data encoding isn't ELFDATA2LSB")]
    NotLittle,
    /// `e_type` isn't `ET_EXEC`; it is this number.
    #[error("the file isn't executable: e_type is {0}")]
    NotExec(u16),
    /// `e_machine` isn't `EM_RISCV`; it is this number.
    #[error("the file isn't for RISC-V: e_machine is {0}")]
    NotRiscv(u16),
    /// `e_flags` has `EF_RISCV_RVC`.
    #[error("the file has compressed instructions")]
    Compressed,
    /// `e_flags` has `EF_RISCV_RVE`.
    #[error("the file is for the embedded register set")]
    Embedded,
    /// The entries of a part have a wrong size, this number of bytes.
    #[error("the entries of {0:?} have a wrong size, {1} bytes")]
    BadEntrySize(Part, u32),
    /// A part that begins at this offset, in bytes, leaves the file.
    #[error("{0:?} at offset {1} leaves the file")]
    Truncated(Part, u32),
    /// The segment of this program header has more bytes in the file than in memory, or passes the
    /// end of the address space.
    #[error("the segment of program header {0} has a wrong range of memory")]
    BadRange(u32),
    /// The memory that begins at the first address reaches into that at the second.
    #[error("segments overlap at {0:08x} and {1:08x}")]
    Overlap(Addr, Addr),
    /// The symbol table links to this section, which isn't a string table.
    #[error("the symbol table links to section {0}, which isn't a string table")]
    BadLink(u32),
    /// The symbol with this index has no name that ends in the string table.
    #[error("the name of symbol {0} doesn't end in the string table")]
    BadName(u32),
    /// There are more of these than the limit: so many.
    #[error("too many of {0:?}: {1}")]
    TooMany(What, u64),
    /// An allocation failed.
    #[error("out of memory")]
    OutOfMemory,
}

impl From<AllocError> for ElfError {
    ghost from_gives = { λ _ e. e ≡ OutOfMemory };

    fn from(_: AllocError) -> ElfError {
        ElfError::OutOfMemory
    }
}

impl<T: Drop> From<AllocFailed<T>> for ElfError {
    ghost from_gives = { λ _ e. e ≡ OutOfMemory };

    fn from(_: AllocFailed<T>) -> ElfError {
        ElfError::OutOfMemory
    }
}
