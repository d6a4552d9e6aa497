ghost use Rattle.std.specs.Prelude.{◌≡◌, ◌<◌, ◌≤◌, ◌++◌, ℕ, None, Some, IfOk, IfSome, IfNone, OnOk, OnErr, MatchOption, codes, is_some};
ghost use Rattle.std.specs.Option.{option_map, option_copied};
ghost use Rattle.rvd_text.specs.Hex.{hex8};
ghost use Rattle.rvd_fact.specs.Program.{cell_at, is_present};
ghost use Rattle.rvd_fact.specs.Memory.{func_key};
ghost use Rattle.rvd_listing.specs.Names.{best_below, better, default_name, default_prefix, has_datum, is_reached, is_referred, is_symbol, primary, shown_name, slots, symbol_key};
ghost use Rattle.rvd_listing.specs.Answers.{AppendsName, HasNoCellFrom, IsNextSymbol, IsNoSlot};
ghost use Rattle.rvd_notation.specs.Pieces.{Keeps};

use rvd_fact::{Addr, Cell, Key, Kind, RefClass, Source, Text, Value};
use rvd_program::Program;
use rvd_text::{push_hex8, push_quoted};
use std::alloc::AllocError;

/// How many slots for symbols an address has.
const SLOTS: u8 = 64;

fn symbol_key(at: Addr, slot: u8) -> Key
    ensures { result ≡ symbol_key at slot }
{
    Key {
        at,
        kind: Kind::Symbol,
        sub: slot,
    }
}

// The slot of an address that a key names.
fn slot_of(key: &Key, at: Addr) -> Option<u8>
    ensures some { IfSome result (λ slot. (key.now ≡ symbol_key at slot) × (slot < slots)) }
    ensures none { IfNone result (IsNoSlot at key.now) }
{
    if key.at == at && key.kind == Kind::Symbol && key.sub < SLOTS {
        Some(key.sub)
    } else {
        None
    }
}

// The next cell in a slot for symbols of an address, from a slot on.
fn next_symbol(program: &Program, at: Addr, slot: u8) -> Option<(u8, &Cell)>
    ensures some { IfSome result (λ found. IsNextSymbol program.now at slot found.0 found.1.now) }
    ensures none { IfNone result (HasNoCellFrom program.now at slot slots) }
{
    match program.next_cell(symbol_key(at, slot)) {
        None => None,
        Some((key, cell)) => match slot_of(&key, at) {
            None => None,
            Some(found) => Some((found, cell)),
        },
    }
}

fn is_symbol(cell: &Cell) -> bool
    ensures { result ≡ is_symbol cell.now.value }
{
    matches!(cell.value, Value::Symbol(_))
}

// The better of two cells as a symbol: one of a higher source is better than one at a lower slot.
fn better<'a>(best: Option<&'a Cell>, cell: &'a Cell) -> Option<&'a Cell>
    ensures { option_copied result ≡ better (option_copied best.entry) (Some cell.now) }
{
    if !is_symbol(cell) {
        return best;
    }
    match best {
        Some(other) if other.source >= cell.source => best,
        _ => Some(cell),
    }
}

// The best symbol of an address.
fn best_symbol(program: &Program, at: Addr) -> Option<&Cell>
    ensures { option_copied result ≡ best_below program.now at slots }
{
    let mut best = None;
    let mut slot = 0;
    while slot < SLOTS {
        let Some((found, cell)) = next_symbol(program, at, slot) else {
            break;
        };
        best = better(best, cell);
        slot = found + 1;
    }
    best
}

/// The name of the present symbol of the highest source at an address, the lowest slot among these, or
/// `None` exactly where the address has no present symbol.
pub fn primary_name(program: &Program, at: Addr) -> Option<&Text>
    ensures { option_map (λ name. name.now) result ≡ primary program.now at }
{
    match &best_symbol(program, at)?.value {
        Value::Symbol(name) => Some(name),
        _ => None,
    }
}

fn is_function(program: &Program, at: Addr) -> bool
    ensures { result ≡ is_present (cell_at program.now (func_key at)) }
{
    let key = Key {
        at,
        kind: Kind::Func,
        sub: 0,
    };
    match program.cell(key) {
        None => false,
        Some(cell) => !matches!(cell.value, Value::Gone),
    }
}

fn has_datum(program: &Program, at: Addr) -> bool
    ensures { result ≡ has_datum program.now at }
{
    let key = Key {
        at,
        kind: Kind::Unit,
        sub: 0,
    };
    match program.cell(key) {
        None => false,
        Some(cell) => matches!(cell.value, Value::Plain(_)),
    }
}

fn is_reached(program: &Program, at: Addr) -> bool
    ensures { result ≡ is_reached program.now at }
{
    program.has_ref_to(at, RefClass::Call)
        || program.has_ref_to(at, RefClass::Jump)
        || program.has_ref_to(at, RefClass::Cond)
}

fn is_referred(program: &Program, at: Addr) -> bool
    ensures { result ≡ is_referred program.now at }
{
    program.has_ref_to(at, RefClass::Datum)
        || program.has_ref_to(at, RefClass::Read)
        || program.has_ref_to(at, RefClass::Write)
}

fn default_prefix(program: &Program, at: Addr) -> Option<&'static [u8]>
    ensures { option_map (λ prefix. prefix.now) result ≡ default_prefix program.now at }
{
    if is_function(program, at) {
        Some(b"FUN_")
    } else if is_reached(program, at) {
        Some(b"LAB_")
    } else if has_datum(program, at) || is_referred(program, at) {
        Some(b"DAT_")
    } else {
        None
    }
}

fn push_prefixed(out: &mut Vec<u8>, prefix: &[u8], at: Addr) -> Result<(), AllocError>
    ensures ok { OnOk result (out.new.items ≡ out.old.items ++ (prefix.now ++ hex8 at)) }
    ensures err { OnErr result (Keeps out.old.items out.new.items) }
{
    out.extend_from_slice(prefix)?;
    push_hex8(out, at)
}

/// Appends the default name of an address, whether or not a symbol is present, and answers whether there is
/// one: `FUN_` and eight digits where a function is present, else `LAB_` where a reference of control flow
/// goes there, else `DAT_` where data begins there or a reference to data goes there.
pub fn default_name(program: &Program, at: Addr, out: &mut Vec<u8>) -> Result<bool, AllocError>
    ensures ok { IfOk result (AppendsName out.old.items out.new.items (default_name program.now at)) }
    ensures err { OnErr result (out.new.items ≡ out.old.items) }
{
    let Some(prefix) = default_prefix(program, at) else {
        return Ok(false);
    };
    let len = out.len();
    match push_prefixed(out, prefix, at) {
        Ok(()) => Ok(true),
        Err(e) => {
            out.truncate(len);
            Err(e)
        }
    }
}

/// Appends the name that a listing shows of an address: its primary name quoted, else its default name. It
/// answers whether there is one.
#[tactic(auto, unfolding(crate::specs::Names::shown_name))]
pub fn push_name(program: &Program, at: Addr, out: &mut Vec<u8>) -> Result<bool, AllocError>
    ensures ok { IfOk result (AppendsName out.old.items out.new.items (shown_name program.now at)) }
    ensures err { OnErr result (out.new.items ≡ out.old.items) }
{
    match primary_name(program, at) {
        Some(name) => {
            push_quoted(out, name.list())?;
            Ok(true)
        }
        None => default_name(program, at, out),
    }
}
