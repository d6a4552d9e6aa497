ghost use Rattle.std.specs.Prelude.{◌≡◌, ◌++◌, ◌≤◌, OnOk};
ghost use Rattle.rvd_gen.specs.Header.{file_header, file_header_bytes, code_header, strings_header, program_header_bytes, headers};

use crate::layout::{CODE_START, MAX_FUNCTIONS, STRINGS_START, code_size, strings_size};
use crate::pushing::{push_halves, push_words};
use std::alloc::AllocError;

/// The file header of a 32-bit ELF file, but for its identification. The fields are those of the
/// ELF standard, "ELF Header".
#[derive(Clone, Copy, Debug, PartialEq, Eq)]
pub struct FileHeader {
    pub e_type: u16,
    pub e_machine: u16,
    pub e_version: u32,
    pub e_entry: u32,
    pub e_phoff: u32,
    pub e_shoff: u32,
    pub e_flags: u32,
    pub e_ehsize: u16,
    pub e_phentsize: u16,
    pub e_phnum: u16,
    pub e_shentsize: u16,
    pub e_shnum: u16,
    pub e_shstrndx: u16,
}

/// A program header of a 32-bit ELF file. The fields are those of the ELF standard, "Program
/// Header".
#[derive(Clone, Copy, Debug, PartialEq, Eq)]
pub struct ProgramHeader {
    pub p_type: u32,
    pub p_offset: u32,
    pub p_vaddr: u32,
    pub p_paddr: u32,
    pub p_filesz: u32,
    pub p_memsz: u32,
    pub p_flags: u32,
    pub p_align: u32,
}

/// The type of a segment that is loaded.
const PT_LOAD: u32 = 1;

/// The flags of a segment that may be executed, and of one that may be read.
const PF_X: u32 = 1;

const PF_R: u32 = 4;

/// The offset of the first segment: what follows the file header and two program headers.
const CODE_OFFSET: u32 = 116;

// The file header of an executable for RISC-V with two program headers.
fn file_header() -> FileHeader
    ensures { result ≡ file_header }
{
    FileHeader {
        e_type: 2,
        e_machine: 243,
        e_version: 1,
        e_entry: CODE_START,
        e_phoff: 52,
        e_shoff: 0,
        e_flags: 0,
        e_ehsize: 52,
        e_phentsize: 32,
        e_phnum: 2,
        e_shentsize: 0,
        e_shnum: 0,
        e_shstrndx: 0,
    }
}

// The program header of the code of n functions.
fn code_header(n: u32) -> ProgramHeader
    requires { n ≤ MAX_FUNCTIONS }
    ensures { result ≡ code_header n }
{
    ProgramHeader {
        p_type: PT_LOAD,
        p_offset: CODE_OFFSET,
        p_vaddr: CODE_START,
        p_paddr: CODE_START,
        p_filesz: code_size(n),
        p_memsz: code_size(n),
        p_flags: PF_R + PF_X,
        p_align: 4,
    }
}

// The program header of n strings.
fn strings_header(n: u32) -> ProgramHeader
    requires { n ≤ MAX_FUNCTIONS }
    ensures { result ≡ strings_header n }
{
    ProgramHeader {
        p_type: PT_LOAD,
        p_offset: CODE_OFFSET + code_size(n),
        p_vaddr: STRINGS_START,
        p_paddr: STRINGS_START,
        p_filesz: strings_size(n),
        p_memsz: strings_size(n),
        p_flags: PF_R,
        p_align: 4,
    }
}

// Appends the identification of a little-endian ELF file of 32 bits, and its header.
#[tactic(auto, unfolding(crate::specs::Header::file_header_bytes))]
fn push_file_header(out: &mut Vec<u8>, header: &FileHeader) -> Result<(), AllocError>
    ensures { OnOk result (out.new.items ≡ out.old.items ++ file_header_bytes header.now) }
{
    out.extend_from_slice(&[0x7f, b'E', b'L', b'F', 1, 1, 1, 0, 0, 0, 0, 0, 0, 0, 0, 0])?;
    push_halves(out, &[header.e_type, header.e_machine])?;
    push_words(
        out,
        &[
            header.e_version,
            header.e_entry,
            header.e_phoff,
            header.e_shoff,
            header.e_flags,
        ],
    )?;
    push_halves(
        out,
        &[
            header.e_ehsize,
            header.e_phentsize,
            header.e_phnum,
            header.e_shentsize,
            header.e_shnum,
            header.e_shstrndx,
        ],
    )
}

#[tactic(auto, unfolding(crate::specs::Header::program_header_bytes))]
fn push_program_header(out: &mut Vec<u8>, header: &ProgramHeader) -> Result<(), AllocError>
    ensures { OnOk result (out.new.items ≡ out.old.items ++ program_header_bytes header.now) }
{
    push_words(
        out,
        &[
            header.p_type,
            header.p_offset,
            header.p_vaddr,
            header.p_paddr,
            header.p_filesz,
            header.p_memsz,
            header.p_flags,
            header.p_align,
        ],
    )
}

/// Appends the headers of the image of n functions: the file header, and the program headers of
/// the code and of the strings.
pub fn push_headers(out: &mut Vec<u8>, n: u32) -> Result<(), AllocError>
    requires { n ≤ MAX_FUNCTIONS }
    ensures { OnOk result (out.new.items ≡ out.old.items ++ headers n) }
{
    push_file_header(out, &file_header())?;
    push_program_header(out, &code_header(n))?;
    push_program_header(out, &strings_header(n))
}
