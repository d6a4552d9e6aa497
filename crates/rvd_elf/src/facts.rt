ghost use Rattle.std.specs.Prelude.{◌≡◌, OnOk, IfOk, [], ◌∷◌, map};
ghost use Rattle.std.specs.List.{All};
ghost use Rattle.std.specs.FinMap.{put};
ghost use Rattle.rvd_fact.specs.Order.{key_cmp};
ghost use Rattle.rvd_fact.specs.Memory.{key_of};
ghost use Rattle.rvd_elf.specs.Segment.{IsRegion};
ghost use Rattle.rvd_elf.specs.Facts.{TakesSlot, block_fact, bytes_of, changes_of, facts_of, func_facts, imported, in_block, mark_facts, may_begin, name_bytes, slot_at, slot_facts, symbol_facts, with_facts};
ghost use Rattle.rvd_elf.specs.Symbol.{IsNamed};

use crate::header::Header;
use crate::segment::Region;
use crate::slots::take_slot;
use crate::symbol::Symbol;
use rvd_fact::{Addr, Bytes, Cell, Change, Key, Kind, Source, Text, Value};
use std::alloc::{AllocError, Global};
use std::collections::BTreeMap;

fn key_at(at: Addr, kind: Kind) -> Key
    ensures { result ≡ key_of kind at }
{
    Key { at, kind, sub: 0 }
}

// Puts an imported fact at its key.
fn put_fact(cells: &mut BTreeMap<Key, Cell>, key: Key, value: Value) -> Result<(), AllocError>
    ensures { OnOk result (cells.new.entries ≡ put key_cmp key (imported value) cells.old.entries) }
{
    let source = Source::Imported;
    cells.insert(key, Cell { value, source })?;
    Ok(())
}

// Whether an address lies in a region.
fn lies_in_block(regions: &[Region], at: Addr) -> bool
    ensures { result ≡ in_block regions.now at }
{
    regions.iter().any(|region| region.start <= at
        && u64::from(at) < u64::from(region.start) + u64::from(region.len))
}

// Whether an instruction may begin at an address.
fn is_code_start(regions: &[Region], at: Addr) -> bool
    ensures { result ≡ may_begin regions.now at }
{
    at % 4 == 0 && lies_in_block(regions, at)
}

fn copy_bytes(alloc: Global, bytes: &[u8], region: &Region) -> Result<Option<Bytes>, AllocError>
    requires { IsRegion bytes.now region.now }
    ensures { IfOk result (λ copy. copy ≡ bytes_of bytes.now region.now) }
{
    match region.offset {
        None => Ok(None),
        Some(offset) => {
            let offset = offset as usize;
            let copied = Vec::from_slice(alloc, &bytes[offset..offset + region.len as usize])?;
            Ok(Some(Bytes::of(alloc, copied)?))
        }
    }
}

fn put_block(
    alloc: Global,
    cells: &mut BTreeMap<Key, Cell>,
    bytes: &[u8],
    region: &Region,
) -> Result<(), AllocError>
    requires { IsRegion bytes.now region.now }
    ensures { OnOk result (cells.new.entries ≡ with_facts cells.old.entries (block_fact bytes.now region.now ∷ [])) }
{
    let value = Value::Block {
        len: region.len,
        perm: region.perm,
        bytes: copy_bytes(alloc, bytes, region)?,
    };
    put_fact(cells, key_at(region.start, Kind::Block), value)
}

fn put_blocks(
    alloc: Global,
    cells: &mut BTreeMap<Key, Cell>,
    bytes: &[u8],
    regions: &[Region],
) -> Result<(), AllocError>
    requires { All (IsRegion bytes.now) regions.now }
    ensures { OnOk result (cells.new.entries ≡ with_facts cells.old.entries (map (block_fact bytes.now) regions.now)) }
{
    for region in regions {
        put_block(alloc, cells, bytes, region)?;
    }
    Ok(())
}

fn put_mark(
    cells: &mut BTreeMap<Key, Cell>,
    header: &Header,
    regions: &[Region],
) -> Result<(), AllocError>
    ensures { OnOk result (cells.new.entries ≡ with_facts cells.old.entries (mark_facts regions.now header.now)) }
{
    if is_code_start(regions, header.e_entry) {
        put_fact(cells, key_at(header.e_entry, Kind::Mark), Value::Mark)?;
    }
    Ok(())
}

fn copy_name(alloc: Global, bytes: &[u8], symbol: &Symbol) -> Result<Text, AllocError>
    requires { IsNamed bytes.now symbol.now }
    ensures { IfOk result (λ name. name ≡ name_bytes bytes.now symbol.now) }
{
    let name = &bytes[symbol.name_at..symbol.name_at + symbol.name_len];
    Text::of(alloc, Vec::from_slice(alloc, name)?)
}

fn put_func(
    cells: &mut BTreeMap<Key, Cell>,
    regions: &[Region],
    symbol: &Symbol,
) -> Result<(), AllocError>
    ensures { OnOk result (cells.new.entries ≡ with_facts cells.old.entries (func_facts regions.now symbol.now)) }
{
    if symbol.is_function && is_code_start(regions, symbol.value) {
        put_fact(cells, key_at(symbol.value, Kind::Func), Value::Func)?;
    }
    Ok(())
}

// Puts a symbol in the next slot of its address, if one is left, and its function.
fn put_symbol(
    alloc: Global,
    cells: &mut BTreeMap<Key, Cell>,
    slots: &mut BTreeMap<Addr, u8>,
    bytes: &[u8],
    regions: &[Region],
    symbol: &Symbol,
) -> Result<(), AllocError>
    requires { IsNamed bytes.now symbol.now }
    ensures facts { OnOk result (cells.new.entries ≡ with_facts cells.old.entries (slot_facts bytes.now regions.now (slot_at slots.old symbol.now.value) symbol.now)) }
    ensures taken { OnOk result (TakesSlot slots.old slots.new symbol.now.value) }
{
    let Some(slot) = take_slot(slots, symbol.value)? else {
        return Ok(());
    };
    let key = Key {
        at: symbol.value,
        kind: Kind::Symbol,
        sub: slot,
    };
    put_fact(cells, key, Value::Symbol(copy_name(alloc, bytes, symbol)?))?;
    put_func(cells, regions, symbol)
}

fn put_symbols(
    alloc: Global,
    cells: &mut BTreeMap<Key, Cell>,
    bytes: &[u8],
    regions: &[Region],
    symbols: &[Symbol],
) -> Result<(), AllocError>
    requires { All (IsNamed bytes.now) symbols.now }
    ensures { OnOk result (cells.new.entries ≡ with_facts cells.old.entries (symbol_facts bytes.now regions.now [] symbols.now)) }
{
    let mut slots = BTreeMap::new(alloc);
    for symbol in symbols {
        put_symbol(alloc, cells, &mut slots, bytes, regions, symbol)?;
    }
    Ok(())
}

// The cells in key order, as changes with nothing before.
fn list_changes(alloc: Global, cells: BTreeMap<Key, Cell>) -> Result<Vec<Change>, AllocError>
    ensures { IfOk result (λ v. v.items ≡ changes_of cells.entries) }
{
    let mut changes = Vec::new(alloc);
    for (key, cell) in cells {
        changes.push(Change {
            key,
            before: None,
            after: Some(cell),
        })?;
    }
    Ok(changes)
}

/// The facts of a file with this header, this memory and these symbols, in key order.
pub fn list_facts(
    alloc: Global,
    bytes: &[u8],
    header: &Header,
    regions: &[Region],
    symbols: &[Symbol],
) -> Result<Vec<Change>, AllocError>
    requires regions { All (IsRegion bytes.now) regions.now }
    requires symbols { All (IsNamed bytes.now) symbols.now }
    ensures { IfOk result (λ v. v.items ≡ changes_of (with_facts [] (facts_of bytes.now header.now regions.now symbols.now))) }
{
    let mut cells = BTreeMap::new(alloc);
    put_blocks(alloc, &mut cells, bytes, regions)?;
    put_mark(&mut cells, header, regions)?;
    put_symbols(alloc, &mut cells, bytes, regions, symbols)?;
    list_changes(alloc, cells)
}
