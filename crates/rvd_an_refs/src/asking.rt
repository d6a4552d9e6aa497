ghost use Rattle.std.specs.Prelude.{◌≡◌, ◌++◌, IfOk, OnOk};
ghost use Rattle.std.specs.Option.{option_copied};
ghost use Rattle.rvd_ask.specs.Answers.{told};
ghost use Rattle.rvd_ask.specs.Places.{cell_instruction, instruction_at};
ghost use Rattle.rvd_an_refs.specs.Slots.{unit_asks};

use rvd_ask::{Reads, View, ask_cell};
use rvd_decode::{Insn, decode};
use rvd_fact::{Addr, Cell, Key, Kind, Value};
use std::alloc::AllocError;

fn instruction_of(cell: Option<&Cell>) -> Option<Insn>
    ensures { result ≡ cell_instruction (option_copied cell.entry) }
{
    match &cell?.value {
        Value::Code(word) => decode(*word),
        _ => None,
    }
}

/// Asks for the instruction at an address, and keeps the answer.
pub fn ask_instruction<V: View>(
    view: &V,
    reads: &mut Reads,
    at: Addr,
) -> Result<Option<Insn>, AllocError>
    ensures answer { IfOk result (λ insn. insn ≡ instruction_at (V.program view.now) at) }
    ensures reads { let P = V.program view.now in
        OnOk result (reads.new.items ≡ reads.old.items ++ told P (unit_asks at)) }
{
    let key = Key {
        at,
        kind: Kind::Unit,
        sub: 0,
    };
    let cell = ask_cell(view, reads, key)?;
    Ok(instruction_of(cell))
}
