ghost use Rattle.std.specs.Prelude.{◌≡◌, ◌++◌, filter_map, IfOk, OnOk};
ghost use Rattle.std.specs.Option.{option_copied};
ghost use Rattle.rvd_decode.specs.Table.{instruction};
ghost use Rattle.rvd_fact.specs.Memory.{key_of};
ghost use Rattle.rvd_ask.specs.Answers.{told};
ghost use Rattle.rvd_ask.specs.Flow.{flow_target, starts};
ghost use Rattle.rvd_an_flow.specs.Parts.{cell_code, following, given, place_asks};

use rvd_ask::{Reads, View, ask_cell, ask_refs, is_present};
use rvd_decode::falls_through;
use rvd_fact::{Addr, Cell, Key, Kind, RefClass, Value};
use std::alloc::{AllocError, Global};

fn key(at: Addr, kind: Kind) -> Key
    ensures { result ≡ key_of kind at }
{
    Key { at, kind, sub: 0 }
}

fn code(cell: Option<&Cell>) -> Option<u32>
    ensures { result ≡ cell_code (option_copied cell.entry) }
{
    match cell {
        None => None,
        Some(cell) => match &cell.value {
            Value::Code(word) => Some(*word),
            _ => None,
        },
    }
}

// The target of a reference that the flow of control follows.
fn flow_target(reference: &(u8, RefClass, Addr)) -> Option<Addr>
    ensures { result ≡ flow_target reference.now }
{
    match reference.1 {
        RefClass::Call | RefClass::Jump | RefClass::Cond => Some(reference.2),
        _ => None,
    }
}

fn add_targets(starts: &mut Vec<Addr>, refs: &[(u8, RefClass, Addr)]) -> Result<(), AllocError>
    ensures { OnOk result (starts.new.items ≡ starts.old.items ++ filter_map flow_target refs.now) }
{
    for reference in refs {
        if let Some(target) = flow_target(reference) {
            starts.push(target)?;
        }
    }
    Ok(())
}

fn add_next(starts: &mut Vec<Addr>, at: Addr, word: u32) -> Result<(), AllocError>
    ensures { OnOk result (starts.new.items ≡ starts.old.items ++ following (instruction word) at) }
{
    if falls_through(word) {
        starts.push(at.wrapping_add(4))?;
    }
    Ok(())
}

fn add_given(
    starts: &mut Vec<Addr>,
    at: Addr,
    mark: Option<&Cell>,
    func: Option<&Cell>,
) -> Result<(), AllocError>
    ensures { OnOk result (starts.new.items ≡ starts.old.items ++ given (option_copied mark.entry) (option_copied func.entry) at) }
{
    if is_present(mark) || is_present(func) {
        starts.push(at)?;
    }
    Ok(())
}

/// Where flow may go from an address: to the address itself where the program is entered or a function begins there, and
/// from an instruction to the next word and the targets of its references.
pub fn starts<V: View>(
    alloc: Global,
    view: &V,
    reads: &mut Reads,
    at: Addr,
) -> Result<Vec<Addr>, AllocError>
    ensures starts { IfOk result (λ found. found.items ≡ starts (V.program view.now) at) }
    ensures reads { OnOk result (reads.new.items ≡ reads.old.items ++ told (V.program view.now) (place_asks (V.program view.now) at)) }
{
    let mut starts = Vec::new(alloc);
    let mark = ask_cell(view, reads, key(at, Kind::Mark))?;
    let func = ask_cell(view, reads, key(at, Kind::Func))?;
    let unit = ask_cell(view, reads, key(at, Kind::Unit))?;
    add_given(&mut starts, at, mark, func)?;
    if let Some(word) = code(unit) {
        let refs = ask_refs(alloc, view, reads, at)?;
        add_next(&mut starts, at, word)?;
        add_targets(&mut starts, refs.list())?;
    }
    Ok(starts)
}
