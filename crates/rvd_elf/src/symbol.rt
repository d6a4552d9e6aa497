ghost use Rattle.std.specs.Prelude.{◌≡◌, ◌≤◌, ◌<◌, ◌+◌, ◌*◌, ◌/◌, ◌==◌, Some, Ok, length, find, position, IfOk};
ghost use Rattle.std.specs.List.{All};
ghost use Rattle.std.specs.Option.{option_to_list};
ghost use Rattle.rvd_elf.specs.Section.{section_bytes};
ghost use Rattle.rvd_elf.specs.Steps.{GivesBy, behind, in_turn};
ghost use Rattle.rvd_elf.specs.Symbol.{IsNamed, LastEnd, entry_at, entry_count, is_defined, is_mapping, is_symbol_table, name_len, name_of, named, symbol_of, symbol_step, symbol_table_of, symbols_of, table_symbols};

use crate::fields::{half_at, word_at};
use crate::header::Header;
use crate::refusals::{ElfError, Part};
use crate::section::{SectionHeader, read_sections, read_string_table};
use rvd_fact::What;
use std::alloc::Global;

const SHT_SYMTAB: u32 = 2;

const ENTRY_SIZE: u32 = 16;

const MAX_SYMBOLS: u32 = 200_000;

const MAX_NAME: usize = 1_000;

const SHN_UNDEF: u16 = 0;

const SHN_COMMON: u16 = 0xfff2;

const STB_LOCAL: u8 = 0;

const STT_NOTYPE: u8 = 0;

const STT_FUNC: u8 = 2;

/// The fields of a symbol table's entry that an import needs.
#[derive(Clone, Copy, Debug)]
pub struct SymbolEntry {
    /// Where the name begins in the string table, in bytes.
    pub st_name: u32,
    /// The address of the symbol.
    pub st_value: u32,
    /// The binding in the high four bits, the type in the low four.
    pub st_info: u8,
    /// The index of the section that the symbol is defined in.
    pub st_shndx: u16,
}

/// A symbol with its name.
#[derive(Clone, Copy, Debug)]
pub struct Symbol {
    /// Its address.
    pub value: u32,
    /// Whether it is a function.
    pub is_function: bool,
    /// Where its name begins in the file, in bytes.
    pub name_at: usize,
    /// How many bytes the name has.
    pub name_len: usize,
}

fn read_entry(bytes: &[u8], at: usize) -> SymbolEntry
    requires { at + 16 ≤ length bytes.now }
    ensures { result ≡ entry_at bytes.now at }
{
    SymbolEntry {
        st_name: word_at(bytes, at),
        st_value: word_at(bytes, at + 4),
        st_info: bytes[at + 12],
        st_shndx: half_at(bytes, at + 14),
    }
}

fn is_considered(entry: &SymbolEntry) -> bool
    ensures { result ≡ is_defined entry.now }
{
    entry.st_info % 16 <= STT_FUNC && entry.st_shndx != SHN_UNDEF && entry.st_shndx != SHN_COMMON
}

fn maps_code(entry: &SymbolEntry, first: u8) -> bool
    ensures { result ≡ is_mapping entry.now first }
{
    entry.st_info / 16 == STB_LOCAL && entry.st_info % 16 == STT_NOTYPE && first == b'$'
}

// The place behind the last zero byte of a string table, 0 where it has none.
fn last_end(strings: &[u8]) -> usize
    ensures { LastEnd strings.now result }
{
    let mut end = strings.len();
    while end > 0 && strings[end - 1] != 0 {
        end -= 1;
    }
    end
}

fn first_zero(front: &[u8]) -> Option<usize>
    ensures { result ≡ position (λ c. c == 0) front.now }
{
    front.iter().position(|c| *c == 0)
}

// The length of the name from a place on, where it has 1 to 1,000 bytes. Only as many bytes are
// looked at, so that no name takes long.
fn read_name_len(
    strings: &[u8],
    end: usize,
    index: u32,
    at: usize,
) -> Result<Option<usize>, ElfError>
    requires { LastEnd strings.now end }
    ensures value { result ≡ name_of index (name_len strings.now at) }
    ensures place { IfOk result (λ _. at < length strings.now) }
{
    if at >= end {
        return Err(ElfError::BadName(index));
    }
    let most = (end - at).min(MAX_NAME + 1);
    match first_zero(&strings[at..at + most]) {
        Some(len) if len > 0 => Ok(Some(len)),
        Some(_) => Ok(None),
        None => Ok(None),
    }
}

// The symbol of an entry, where an import considers it.
#[tactic(auto, unfolding(crate::specs::Symbol::symbol_of))]
fn read_symbol(
    bytes: &[u8],
    strings: &SectionHeader,
    end: usize,
    index: u32,
    entry: &SymbolEntry,
) -> Result<Option<Symbol>, ElfError>
    requires whole { strings.now.sh_offset + strings.now.sh_size ≤ length bytes.now }
    requires end { LastEnd (section_bytes bytes.now strings.now) end }
    ensures { GivesBy option_to_list result (symbol_of bytes.now strings.now index entry.now) }
{
    if !is_considered(entry) {
        return Ok(None);
    }
    let offset = strings.sh_offset as usize;
    let table = &bytes[offset..offset + strings.sh_size as usize];
    let at = entry.st_name as usize;
    let Some(name_len) = read_name_len(table, end, index, at)? else {
        return Ok(None);
    };
    if maps_code(entry, table[at]) {
        return Ok(None);
    }
    Ok(Some(Symbol {
        value: entry.st_value,
        is_function: entry.st_info % 16 == STT_FUNC,
        name_at: offset + at,
        name_len,
    }))
}

fn add_symbol(
    symbols: &mut Vec<Symbol>,
    bytes: &[u8],
    table: &SectionHeader,
    strings: &SectionHeader,
    end: usize,
    index: u32,
) -> Result<(), ElfError>
    requires entry { table.now.sh_offset + 16 * index + 16 ≤ length bytes.now }
    requires whole { strings.now.sh_offset + strings.now.sh_size ≤ length bytes.now }
    requires end { LastEnd (section_bytes bytes.now strings.now) end }
    ensures { GivesBy (λ _. symbols.new.items) result (behind symbols.old.items (symbol_step bytes.now table.now strings.now index)) }
{
    if index == 0 {
        return Ok(());
    }
    let entry = read_entry(
        bytes,
        table.sh_offset as usize + ENTRY_SIZE as usize * index as usize,
    );
    if let Some(symbol) = read_symbol(bytes, strings, end, index, &entry)? {
        symbols.push(symbol)?;
    }
    Ok(())
}

fn collect_symbols(
    alloc: Global,
    bytes: &[u8],
    table: &SectionHeader,
    strings: &SectionHeader,
    end: usize,
) -> Result<Vec<Symbol>, ElfError>
    requires table { table.now.sh_offset + table.now.sh_size ≤ length bytes.now }
    requires whole { strings.now.sh_offset + strings.now.sh_size ≤ length bytes.now }
    requires end { LastEnd (section_bytes bytes.now strings.now) end }
    ensures { GivesBy (λ v. v.items) result (in_turn (symbol_step bytes.now table.now strings.now) (entry_count table.now)) }
{
    let mut symbols = Vec::new(alloc);
    for index in 0..table.sh_size / ENTRY_SIZE {
        add_symbol(&mut symbols, bytes, table, strings, end, index)?;
    }
    Ok(symbols)
}

#[tactic(auto, unfolding(crate::specs::Symbol::symbol_table_of))]
fn check_symbol_table(bytes: &[u8], table: &SectionHeader) -> Result<(), ElfError>
    ensures value { result ≡ symbol_table_of bytes.now table.now }
    ensures whole { IfOk result (λ _. table.now.sh_offset + table.now.sh_size ≤ length bytes.now) }
{
    if table.sh_entsize != ENTRY_SIZE {
        return Err(ElfError::BadEntrySize(Part::SymbolTable, table.sh_entsize));
    }
    if table.sh_offset as usize + table.sh_size as usize > bytes.len() {
        return Err(ElfError::Truncated(Part::SymbolTable, table.sh_offset));
    }
    let entries = table.sh_size / ENTRY_SIZE;
    if entries > MAX_SYMBOLS {
        return Err(ElfError::TooMany(What::Symbols, u64::from(entries)));
    }
    Ok(())
}

fn find_symbol_table(sections: &[SectionHeader]) -> Option<SectionHeader>
    ensures { result ≡ find is_symbol_table sections.now }
{
    sections
        .iter()
        .copied()
        .find(|section| section.sh_type == SHT_SYMTAB)
}

#[tactic(auto, unfolding(crate::specs::Symbol::table_symbols))]
fn read_symbol_table(
    alloc: Global,
    bytes: &[u8],
    sections: &[SectionHeader],
    table: &SectionHeader,
) -> Result<Vec<Symbol>, ElfError>
    ensures { GivesBy (λ v. v.items) result (table_symbols bytes.now sections.now (Some table.now)) }
{
    check_symbol_table(bytes, table)?;
    let strings = read_string_table(bytes, sections, table.sh_link)?;
    let offset = strings.sh_offset as usize;
    let end = last_end(&bytes[offset..offset + strings.sh_size as usize]);
    collect_symbols(alloc, bytes, table, &strings, end)
}

#[tactic(auto, unfolding(crate::specs::Symbol::symbols_of, crate::specs::Symbol::table_symbols))]
fn first_table_symbols(
    alloc: Global,
    bytes: &[u8],
    header: &Header,
) -> Result<Vec<Symbol>, ElfError>
    ensures { GivesBy (λ v. v.items) result (symbols_of bytes.now header.now) }
{
    let sections = read_sections(alloc, bytes, header)?;
    match find_symbol_table(&sections) {
        None => Ok(Vec::new(alloc)),
        Some(table) => read_symbol_table(alloc, bytes, &sections, &table),
    }
}

/// The symbols of the first symbol table in table order, or the first test of the sections and
/// symbols that fails.
pub fn read_symbols(alloc: Global, bytes: &[u8], header: &Header) -> Result<Vec<Symbol>, ElfError>
    ensures value { GivesBy (λ v. v.items) result (symbols_of bytes.now header.now) }
    ensures named { IfOk result (λ v. All (IsNamed bytes.now) v.items) }
{
    first_table_symbols(alloc, bytes, header)
}
