ghost use Rattle.std.specs.Prelude.{◌≡◌, ◌≤◌, ◌<◌, ◌+◌, ◌*◌, Ok, length, map, slice_get, IfOk};
ghost use Rattle.std.specs.List.{range_with_len};
ghost use Rattle.rvd_elf.specs.Steps.{GivesBy};
ghost use Rattle.rvd_elf.specs.Section.{linked, section_count, section_header_of, section_table_of, sections_of, string_table_of};

use crate::fields::word_at;
use crate::header::Header;
use crate::refusals::{ElfError, Part};
use std::alloc::{AllocError, Global};

const SECTION_HEADER_SIZE: u16 = 40;

const SHT_STRTAB: u32 = 3;

/// The fields of a section header that an import needs.
#[derive(Clone, Copy, Debug)]
pub struct SectionHeader {
    /// The type of the section.
    pub sh_type: u32,
    /// Where the section begins in the file, in bytes.
    pub sh_offset: u32,
    /// How many bytes it has.
    pub sh_size: u32,
    /// The index of the section that it links to.
    pub sh_link: u32,
    /// The size of an entry, in bytes.
    pub sh_entsize: u32,
}

fn read_section_header(bytes: &[u8], header: &Header, index: u32) -> SectionHeader
    requires { header.now.e_shoff + 40 * index + 40 ≤ length bytes.now }
    ensures { result ≡ section_header_of bytes.now header.now index }
{
    let at = header.e_shoff as usize + usize::from(SECTION_HEADER_SIZE) * index as usize;
    SectionHeader {
        sh_type: word_at(bytes, at + 4),
        sh_offset: word_at(bytes, at + 16),
        sh_size: word_at(bytes, at + 20),
        sh_link: word_at(bytes, at + 24),
        sh_entsize: word_at(bytes, at + 36),
    }
}

fn count_sections(header: &Header) -> u16
    ensures { result ≡ section_count header.now }
{
    if header.e_shoff == 0 {
        0
    } else {
        header.e_shnum
    }
}

#[tactic(auto, unfolding(crate::specs::Section::section_table_of))]
fn check_section_table(bytes: &[u8], header: &Header) -> Result<(), ElfError>
    ensures value { result ≡ section_table_of bytes.now header.now }
    ensures whole { IfOk result (λ _. 0 < section_count header.now → header.now.e_shoff + 40 * section_count header.now ≤ length bytes.now) }
{
    if count_sections(header) == 0 {
        return Ok(());
    }
    if header.e_shentsize != SECTION_HEADER_SIZE {
        return Err(ElfError::BadEntrySize(Part::SectionTable, u32::from(header.e_shentsize)));
    }
    let size = usize::from(SECTION_HEADER_SIZE) * usize::from(header.e_shnum);
    if header.e_shoff as usize + size > bytes.len() {
        return Err(ElfError::Truncated(Part::SectionTable, header.e_shoff));
    }
    Ok(())
}

fn collect_sections(
    alloc: Global,
    bytes: &[u8],
    header: &Header,
) -> Result<Vec<SectionHeader>, AllocError>
    requires { 0 < section_count header.now → header.now.e_shoff + 40 * section_count header.now ≤ length bytes.now }
    ensures { IfOk result (λ v. v.items ≡ map (section_header_of bytes.now header.now) (range_with_len 0 (section_count header.now))) }
{
    let mut sections = Vec::new(alloc);
    for index in 0..u32::from(count_sections(header)) {
        sections.push(read_section_header(bytes, header, index))?;
    }
    Ok(sections)
}

/// The section headers in table order, none where the file has no section header table.
#[tactic(auto, unfolding(crate::specs::Section::sections_of))]
pub fn read_sections(
    alloc: Global,
    bytes: &[u8],
    header: &Header,
) -> Result<Vec<SectionHeader>, ElfError>
    ensures { GivesBy (λ v. v.items) result (sections_of bytes.now header.now) }
{
    check_section_table(bytes, header)?;
    let sections = collect_sections(alloc, bytes, header)?;
    Ok(sections)
}

fn follow_link(sections: &[SectionHeader], link: u32) -> Result<SectionHeader, ElfError>
    ensures { result ≡ linked link (slice_get sections.now link) }
{
    match sections.get(link as usize) {
        None => Err(ElfError::BadLink(link)),
        Some(section) if section.sh_type == SHT_STRTAB => Ok(*section),
        Some(_) => Err(ElfError::BadLink(link)),
    }
}

/// The string table that a section links to.
#[tactic(auto, unfolding(crate::specs::Section::string_table_of))]
pub fn read_string_table(
    bytes: &[u8],
    sections: &[SectionHeader],
    link: u32,
) -> Result<SectionHeader, ElfError>
    ensures value { result ≡ string_table_of bytes.now sections.now link }
    ensures whole { IfOk result (λ s. s.sh_offset + s.sh_size ≤ length bytes.now) }
{
    let section = follow_link(sections, link)?;
    if section.sh_offset as usize + section.sh_size as usize > bytes.len() {
        return Err(ElfError::Truncated(Part::StringTable, section.sh_offset));
    }
    Ok(section)
}
