//! Damages of the second executable, each with the refusal that it leads to.

use crate::{ElfError, Part};

/// A place of a file, in bytes, and its new byte.
pub type Patch = (usize, u8);

// A byte that each file has already.
const SAME: Patch = (6, 1);

/// A damage by its name, its patches, and the refusal.
pub const DAMAGED: [(&str, [Patch; 4], Option<ElfError>); 34] = [
    ("nothing", [SAME, SAME, SAME, SAME], None),
    (
        "magic number",
        [(0, 0), SAME, SAME, SAME],
        Some(ElfError::NotElf),
    ),
    (
        "class",
        [(4, 2), SAME, SAME, SAME],
        Some(ElfError::NotElf32),
    ),
    (
        "data encoding",
        [(5, 2), SAME, SAME, SAME],
        Some(ElfError::NotLittle),
    ),
    (
        "class before type",
        [(4, 2), (16, 3), SAME, SAME],
        Some(ElfError::NotElf32),
    ),
    (
        "type",
        [(16, 3), SAME, SAME, SAME],
        Some(ElfError::NotExec(3)),
    ),
    (
        "machine",
        [(18, 62), SAME, SAME, SAME],
        Some(ElfError::NotRiscv(62)),
    ),
    (
        "machine before flags",
        [(18, 62), (36, 1), SAME, SAME],
        Some(ElfError::NotRiscv(62)),
    ),
    (
        "RVC",
        [(36, 1), SAME, SAME, SAME],
        Some(ElfError::Compressed),
    ),
    ("RVE", [(36, 8), SAME, SAME, SAME], Some(ElfError::Embedded)),
    ("other flags", [(36, 6), SAME, SAME, SAME], None),
    (
        "size of a program header",
        [(42, 33), SAME, SAME, SAME],
        Some(ElfError::BadEntrySize(Part::ProgramTable, 33)),
    ),
    (
        "program header table",
        [(30, 1), SAME, SAME, SAME],
        Some(ElfError::Truncated(Part::ProgramTable, 65_588)),
    ),
    (
        "more in the file than in memory",
        [(100, 17), SAME, SAME, SAME],
        Some(ElfError::BadRange(1)),
    ),
    (
        "past the address space",
        [(92, 0xf8), (93, 0xff), (94, 0xff), (95, 0xff)],
        Some(ElfError::BadRange(1)),
    ),
    (
        "up to the end of the address space",
        [(92, 0xf0), (93, 0xff), (94, 0xff), (95, 0xff)],
        None,
    ),
    (
        "segment",
        [(90, 1), SAME, SAME, SAME],
        Some(ElfError::Truncated(Part::Segment(1), 65_684)),
    ),
    (
        "range before a later segment",
        [(100, 17), (122, 1), SAME, SAME],
        Some(ElfError::BadRange(1)),
    ),
    (
        "segment before a later range",
        [(90, 1), (132, 9), SAME, SAME],
        Some(ElfError::Truncated(Part::Segment(1), 65_684)),
    ),
    (
        "overlap",
        [(124, 8), (125, 0), SAME, SAME],
        Some(ElfError::Overlap(0x10000, 0x10008)),
    ),
    (
        "overlap before sections",
        [(124, 8), (125, 0), (46, 41), SAME],
        Some(ElfError::Overlap(0x10000, 0x10008)),
    ),
    (
        "touching segments",
        [(124, 0x10), (125, 0), SAME, SAME],
        None,
    ),
    (
        "size of a section header",
        [(46, 41), SAME, SAME, SAME],
        Some(ElfError::BadEntrySize(Part::SectionTable, 41)),
    ),
    (
        "section header table",
        [(34, 1), SAME, SAME, SAME],
        Some(ElfError::Truncated(Part::SectionTable, 65_916)),
    ),
    ("no section headers", [(48, 0), (46, 41), SAME, SAME], None),
    (
        "size of a symbol",
        [(576, 17), SAME, SAME, SAME],
        Some(ElfError::BadEntrySize(Part::SymbolTable, 17)),
    ),
    (
        "size of a symbol before its link",
        [(576, 17), (564, 3), SAME, SAME],
        Some(ElfError::BadEntrySize(Part::SymbolTable, 17)),
    ),
    (
        "symbol table",
        [(558, 1), SAME, SAME, SAME],
        Some(ElfError::Truncated(Part::SymbolTable, 65_704)),
    ),
    (
        "link to another section",
        [(564, 3), SAME, SAME, SAME],
        Some(ElfError::BadLink(3)),
    ),
    (
        "link to no section",
        [(564, 6), SAME, SAME, SAME],
        Some(ElfError::BadLink(6)),
    ),
    (
        "string table",
        [(598, 1), SAME, SAME, SAME],
        Some(ElfError::Truncated(Part::StringTable, 65_848)),
    ),
    (
        "name behind the string table",
        [(248, 66), SAME, SAME, SAME],
        Some(ElfError::BadName(5)),
    ),
    (
        "name without an end",
        [(600, 65), (310, 1), SAME, SAME],
        Some(ElfError::BadName(8)),
    ),
    (
        "name of a skipped type",
        [(200, 200), SAME, SAME, SAME],
        None,
    ),
];
