ghost use Rattle.std.specs.Prelude.{◌≡◌, ◌≤◌, ◌<◌, ◌+◌, ◌*◌, length, vec_len, sum_by, nat_lt, IfOk, OnOk, ◌++◌};
ghost use Rattle.std.specs.List.{All};
ghost use Rattle.rvd_elf.specs.Steps.{GivesBy, behind, in_turn};
ghost use Rattle.rvd_elf.specs.Segment.{IsRegion, apart, by_start, is_load, load_step, loaded_len, loads_of, memory_of, perm_of, program_header_at, program_table_of, range_of, regions_of, within_limits};

use crate::fields::word_at;
use crate::header::Header;
use crate::refusals::{ElfError, Part};
use rvd_fact::{Perm, What};
use std::alloc::{AllocError, Global};

const PROGRAM_HEADER_SIZE: u16 = 32;

const PT_LOAD: u32 = 1;

const PF_X: u32 = 1;

const PF_W: u32 = 2;

const PF_R: u32 = 4;

const MAX_BLOCKS: usize = 64;

const MAX_LOADED: u64 = 4_194_304;

const ADDRESS_SPACE: u64 = 0x1_0000_0000;

/// The fields of a program header that an import needs.
#[derive(Clone, Copy, Debug)]
pub struct ProgramHeader {
    /// The type of the segment.
    pub p_type: u32,
    /// Where the segment begins in the file, in bytes.
    pub p_offset: u32,
    /// The address of its first byte in memory.
    pub p_vaddr: u32,
    /// How many bytes the file holds of it.
    pub p_filesz: u32,
    /// How many bytes it takes in memory.
    pub p_memsz: u32,
    /// Its flags.
    pub p_flags: u32,
}

/// A range of memory that becomes a block.
#[derive(Clone, Copy, Debug)]
pub struct Region {
    /// The address of its first byte.
    pub start: u32,
    /// How many bytes it has.
    pub len: u32,
    /// What may be done with it.
    pub perm: Perm,
    /// Where its bytes begin in the file, in bytes, where it is initialised.
    pub offset: Option<u32>,
}

fn read_program_header(bytes: &[u8], at: usize) -> ProgramHeader
    requires { at + 32 ≤ length bytes.now }
    ensures { result ≡ program_header_at bytes.now at }
{
    ProgramHeader {
        p_type: word_at(bytes, at),
        p_offset: word_at(bytes, at + 4),
        p_vaddr: word_at(bytes, at + 8),
        p_filesz: word_at(bytes, at + 16),
        p_memsz: word_at(bytes, at + 20),
        p_flags: word_at(bytes, at + 24),
    }
}

fn takes_memory(p: &ProgramHeader) -> bool
    ensures { result ≡ is_load p.now }
{
    p.p_type == PT_LOAD && p.p_memsz > 0
}

#[tactic(auto, unfolding(crate::specs::Segment::range_of))]
fn check_range(bytes: &[u8], index: u32, p: &ProgramHeader) -> Result<(), ElfError>
    ensures value { result ≡ range_of bytes.now index p.now }
    ensures file { IfOk result (λ _. p.now.p_filesz ≤ p.now.p_memsz) }
    ensures memory { IfOk result (λ _. p.now.p_vaddr + p.now.p_memsz ≤ 4294967296) }
{
    let end = u64::from(p.p_vaddr) + u64::from(p.p_memsz);
    if p.p_filesz > p.p_memsz || end > ADDRESS_SPACE {
        return Err(ElfError::BadRange(index));
    }
    if p.p_offset as usize + p.p_filesz as usize > bytes.len() {
        return Err(ElfError::Truncated(Part::Segment(index), p.p_offset));
    }
    Ok(())
}

fn perm_from(flags: u32) -> Perm
    ensures { result ≡ perm_of flags }
{
    Perm {
        r: flags & PF_R != 0,
        w: flags & PF_W != 0,
        x: flags & PF_X != 0,
    }
}

// Adds the bytes of a segment that the file holds, and the rest of its memory.
fn add_regions(regions: &mut Vec<Region>, p: &ProgramHeader) -> Result<(), AllocError>
    requires file { p.now.p_filesz ≤ p.now.p_memsz }
    requires memory { p.now.p_vaddr + p.now.p_memsz ≤ 4294967296 }
    ensures { OnOk result (regions.new.items ≡ regions.old.items ++ regions_of p.now) }
{
    let perm = perm_from(p.p_flags);
    if p.p_filesz > 0 {
        regions.push(Region {
            start: p.p_vaddr,
            len: p.p_filesz,
            perm,
            offset: Some(p.p_offset),
        })?;
    }
    if p.p_filesz < p.p_memsz {
        regions.push(Region {
            start: p.p_vaddr + p.p_filesz,
            len: p.p_memsz - p.p_filesz,
            perm,
            offset: None,
        })?;
    }
    Ok(())
}

// Adds the memory of a program header's segment, where it is loaded.
#[tactic(auto, unfolding(crate::specs::Segment::load_at))]
fn add_load(
    regions: &mut Vec<Region>,
    bytes: &[u8],
    header: &Header,
    index: u32,
) -> Result<(), ElfError>
    requires { header.now.e_phoff + 32 * index + 32 ≤ length bytes.now }
    ensures { GivesBy (λ _. regions.new.items) result (behind regions.old.items (load_step bytes.now header.now index)) }
{
    let at = header.e_phoff as usize + usize::from(PROGRAM_HEADER_SIZE) * index as usize;
    let p = read_program_header(bytes, at);
    if !takes_memory(&p) {
        return Ok(());
    }
    check_range(bytes, index, &p)?;
    add_regions(regions, &p)?;
    Ok(())
}

#[tactic(auto, unfolding(crate::specs::Segment::program_table_of))]
fn check_program_table(bytes: &[u8], header: &Header) -> Result<(), ElfError>
    ensures value { result ≡ program_table_of bytes.now header.now }
    ensures whole { IfOk result (λ _. 0 < header.now.e_phnum → header.now.e_phoff + 32 * header.now.e_phnum ≤ length bytes.now) }
{
    if header.e_phnum == 0 {
        return Ok(());
    }
    if header.e_phentsize != PROGRAM_HEADER_SIZE {
        return Err(ElfError::BadEntrySize(Part::ProgramTable, u32::from(header.e_phentsize)));
    }
    let size = usize::from(PROGRAM_HEADER_SIZE) * usize::from(header.e_phnum);
    if header.e_phoff as usize + size > bytes.len() {
        return Err(ElfError::Truncated(Part::ProgramTable, header.e_phoff));
    }
    Ok(())
}

fn collect_loads(alloc: Global, bytes: &[u8], header: &Header) -> Result<Vec<Region>, ElfError>
    requires { 0 < header.now.e_phnum → header.now.e_phoff + 32 * header.now.e_phnum ≤ length bytes.now }
    ensures { GivesBy (λ v. v.items) result (in_turn (load_step bytes.now header.now) header.now.e_phnum) }
{
    let mut regions = Vec::new(alloc);
    for index in 0..u32::from(header.e_phnum) {
        add_load(&mut regions, bytes, header, index)?;
    }
    Ok(regions)
}

#[tactic(auto, unfolding(crate::specs::Segment::loads_of))]
fn read_loads(alloc: Global, bytes: &[u8], header: &Header) -> Result<Vec<Region>, ElfError>
    ensures { GivesBy (λ v. v.items) result (loads_of bytes.now header.now) }
{
    check_program_table(bytes, header)?;
    collect_loads(alloc, bytes, header)
}

fn count_loaded(regions: &[Region]) -> u64
    requires { length regions.now ≤ 64 }
    ensures { result ≡ sum_by loaded_len regions.now }
{
    let mut loaded = 0;
    for region in regions {
        if region.offset.is_some() {
            loaded += u64::from(region.len);
        }
    }
    loaded
}

#[tactic(auto, unfolding(crate::specs::Segment::within_limits))]
fn check_limits(regions: &[Region]) -> Result<(), ElfError>
    ensures { result ≡ within_limits regions.now }
{
    let blocks = regions.len();
    if blocks > MAX_BLOCKS {
        return Err(ElfError::TooMany(What::Blocks, blocks as u64));
    }
    let loaded = count_loaded(regions);
    if loaded > MAX_LOADED {
        return Err(ElfError::TooMany(What::LoadedBytes, loaded));
    }
    Ok(())
}

// Whether a region reaches into the one behind it.
fn reaches_into(region: &Region, next: &Region) -> bool
    ensures { result ≡ nat_lt next.now.start (region.now.start + region.now.len) }
{
    u64::from(next.start) < u64::from(region.start) + u64::from(region.len)
}

fn check_apart(regions: &[Region]) -> Result<(), ElfError>
    ensures { result ≡ apart regions.now }
{
    for i in 1..regions.len() {
        let region = &regions[i - 1];
        let next = &regions[i];
        if reaches_into(region, next) {
            return Err(ElfError::Overlap(region.start, next.start));
        }
    }
    Ok(())
}

fn sort_by_start(regions: &mut Vec<Region>) -> Result<(), AllocError>
    ensures { OnOk result (regions.new.items ≡ by_start regions.old.items) }
{
    regions.sort_by_key(|region| region.start)
}

#[tactic(auto, unfolding(crate::specs::Segment::memory_of))]
fn sorted_memory(alloc: Global, bytes: &[u8], header: &Header) -> Result<Vec<Region>, ElfError>
    ensures { GivesBy (λ v. v.items) result (memory_of bytes.now header.now) }
{
    let mut regions = read_loads(alloc, bytes, header)?;
    check_limits(&regions)?;
    sort_by_start(&mut regions)?;
    check_apart(&regions)?;
    Ok(regions)
}

/// The memory of the loaded segments, sorted by start, or the first test of the program headers
/// that fails.
pub fn read_memory(alloc: Global, bytes: &[u8], header: &Header) -> Result<Vec<Region>, ElfError>
    ensures value { GivesBy (λ v. v.items) result (memory_of bytes.now header.now) }
    ensures regions { IfOk result (λ v. All (IsRegion bytes.now) v.items) }
{
    sorted_memory(alloc, bytes, header)
}
