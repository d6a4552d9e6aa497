ghost use Rattle.std.specs.Prelude.{◌≡◌, IfOk, OnErr};
ghost use Rattle.rvd_fact.specs.Program.{is_gone};
ghost use Rattle.rvd_fact.specs.Memory.{cover};
ghost use Rattle.rvd_listing.specs.Answers.{AppendsName};
ghost use Rattle.rvd_listing.specs.Lines.{line_of_unit};

use crate::lines::push_line;
use rvd_fact::{Addr, Cell, Key, Kind, Value};
use rvd_program::Program;
use std::alloc::{AllocError, Global};

/// The start of the present unit that has the byte at an address, or `None` exactly where none has it.
pub fn unit_at(program: &Program, at: Addr) -> Option<Addr>
    ensures { result ≡ cover program.now at }
{
    program.cover(at)
}

/// Whether a cell is what a deleted fact left behind.
pub fn is_gone(cell: &Cell) -> bool
    ensures { result ≡ is_gone cell.now.value }
{
    matches!(cell.value, Value::Gone)
}

/// Appends the line, without a line feed, of the present unit that begins at an address, and answers whether
/// one begins there.
#[tactic(auto, unfolding(crate::specs::Lines::line_of_unit))]
pub fn unit_line(
    alloc: Global,
    program: &Program,
    at: Addr,
    out: &mut Vec<u8>,
) -> Result<bool, AllocError>
    ensures ok { IfOk result (AppendsName out.old.items out.new.items (line_of_unit program.now at)) }
    ensures err { OnErr result (out.new.items ≡ out.old.items) }
{
    let key = Key {
        at,
        kind: Kind::Unit,
        sub: 0,
    };
    match program.cell(key) {
        Some(cell) if !is_gone(cell) => {
            push_line(alloc, out, program, &key, cell)?;
            Ok(true)
        }
        _ => Ok(false),
    }
}
