ghost use Rattle.std.specs.Prelude.{◌≡◌, ◌≤◌, length, Ok, IfOk};
ghost use Rattle.rvd_elf.specs.Header.{fields_of, has_magic, header_of, ident_of, target_of};

use crate::fields::{half_at, word_at};
use crate::refusals::{ElfError, Part};

const HEADER_SIZE: usize = 52;

const ELFCLASS32: u8 = 1;

const ELFDATA2LSB: u8 = 1;

const ET_EXEC: u16 = 2;

const EM_RISCV: u16 = 243;

const EF_RISCV_RVC: u32 = 1;

const EF_RISCV_RVE: u32 = 8;

/// The fields of the ELF header that an import needs.
#[derive(Clone, Copy, Debug)]
pub struct Header {
    /// The address of the entry point.
    pub e_entry: u32,
    /// Where the program header table begins, in bytes.
    pub e_phoff: u32,
    /// Where the section header table begins, in bytes.
    pub e_shoff: u32,
    /// The size of a program header, in bytes.
    pub e_phentsize: u16,
    /// How many program headers there are.
    pub e_phnum: u16,
    /// The size of a section header, in bytes.
    pub e_shentsize: u16,
    /// How many section headers there are.
    pub e_shnum: u16,
}

fn begins_with_magic(bytes: &[u8]) -> bool
    ensures { result ≡ has_magic bytes.now }
{
    bytes.len() >= 4 && bytes[0] == 0x7f && bytes[1] == b'E' && bytes[2] == b'L' && bytes[3] == b'F'
}

#[tactic(auto, unfolding(crate::specs::Header::ident_of))]
fn check_ident(bytes: &[u8]) -> Result<(), ElfError>
    ensures value { result ≡ ident_of bytes.now }
    ensures whole { IfOk result (λ _. 52 ≤ length bytes.now) }
{
    if !begins_with_magic(bytes) {
        return Err(ElfError::NotElf);
    }
    if bytes.len() < HEADER_SIZE {
        return Err(ElfError::Truncated(Part::Header, 0));
    }
    if bytes[4] != ELFCLASS32 {
        return Err(ElfError::NotElf32);
    }
    if bytes[5] != ELFDATA2LSB {
        return Err(ElfError::NotLittle);
    }
    Ok(())
}

#[tactic(auto, unfolding(crate::specs::Header::target_of))]
fn check_target(bytes: &[u8]) -> Result<(), ElfError>
    requires { 52 ≤ length bytes.now }
    ensures { result ≡ target_of bytes.now }
{
    let e_type = half_at(bytes, 16);
    if e_type != ET_EXEC {
        return Err(ElfError::NotExec(e_type));
    }
    let e_machine = half_at(bytes, 18);
    if e_machine != EM_RISCV {
        return Err(ElfError::NotRiscv(e_machine));
    }
    let e_flags = word_at(bytes, 36);
    if e_flags & EF_RISCV_RVC != 0 {
        return Err(ElfError::Compressed);
    }
    if e_flags & EF_RISCV_RVE != 0 {
        return Err(ElfError::Embedded);
    }
    Ok(())
}

fn read_fields(bytes: &[u8]) -> Header
    requires { 52 ≤ length bytes.now }
    ensures { result ≡ fields_of bytes.now }
{
    Header {
        e_entry: word_at(bytes, 24),
        e_phoff: word_at(bytes, 28),
        e_shoff: word_at(bytes, 32),
        e_phentsize: half_at(bytes, 42),
        e_phnum: half_at(bytes, 44),
        e_shentsize: half_at(bytes, 46),
        e_shnum: half_at(bytes, 48),
    }
}

/// The header of a file, or the first test of it that fails.
#[tactic(auto, unfolding(crate::specs::Header::header_of))]
pub fn read_header(bytes: &[u8]) -> Result<Header, ElfError>
    ensures { result ≡ header_of bytes.now }
{
    check_ident(bytes)?;
    check_target(bytes)?;
    Ok(read_fields(bytes))
}
