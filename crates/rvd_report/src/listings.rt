ghost use Rattle.std.specs.Prelude.{◌≡◌, ◌++◌, [], ◌∷◌, OnOk, OnErr, codes};
ghost use Rattle.std.specs.Fmt.{decimal};
ghost use Rattle.rvd_notation.specs.Pieces.{Keeps};
ghost use Rattle.rvd_report.specs.Listing.{full_line, lines, listing};

use rvd_fact::{Cell, Key};
use rvd_listing::push_line;
use rvd_program::Program;
use rvd_text::push_dec;
use std::alloc::{AllocError, Global};

#[tactic(auto, unfolding(crate::specs::Listing::full_line))]
fn push_full_line(
    alloc: Global,
    out: &mut Vec<u8>,
    program: &Program,
    key: &Key,
    cell: &Cell,
) -> Result<(), AllocError>
    ensures ok { OnOk result (out.new.items ≡ out.old.items ++ full_line program.now (key.now, cell.now)) }
    ensures err { OnErr result (Keeps out.old.items out.new.items) }
{
    push_line(alloc, out, program, key, cell)?;
    out.push(b'\n')?;
    Ok(())
}

fn push_lines(alloc: Global, out: &mut Vec<u8>, program: &Program) -> Result<(), AllocError>
    ensures ok { OnOk result (out.new.items ≡ out.old.items ++ lines program.now program.now) }
    ensures err { OnErr result (Keeps out.old.items out.new.items) }
{
    let entries = program.entries();
    for entry in entries {
        push_full_line(alloc, out, program, &entry.0, entry.1.cell())?;
    }
    Ok(())
}

fn push_head(out: &mut Vec<u8>, count: u64) -> Result<(), AllocError>
    ensures ok { OnOk result (out.new.items ≡ out.old.items ++ (codes "listing " ++ decimal count ++ 10 ∷ [])) }
    ensures err { OnErr result (Keeps out.old.items out.new.items) }
{
    out.extend_from_slice(b"listing ")?;
    push_dec(out, count)?;
    out.push(b'\n')?;
    Ok(())
}

#[tactic(auto, unfolding(crate::specs::Listing::listing))]
fn push_listing(alloc: Global, program: &Program, out: &mut Vec<u8>) -> Result<(), AllocError>
    ensures ok { OnOk result (out.new.items ≡ out.old.items ++ listing program.now) }
    ensures err { OnErr result (Keeps out.old.items out.new.items) }
{
    push_head(out, program.entries().len() as u64)?;
    push_lines(alloc, out, program)
}

/// Appends the listing of a program: a line with the number of its facts, and a line for each fact in the
/// order of addresses, kinds and slots.
pub fn listing(alloc: Global, program: &Program, out: &mut Vec<u8>) -> Result<(), AllocError>
    ensures ok { OnOk result (out.new.items ≡ out.old.items ++ listing program.now) }
    ensures err { OnErr result (out.new.items ≡ out.old.items) }
{
    let len = out.len();
    let pushed = push_listing(alloc, program, out);
    if pushed.is_err() {
        out.truncate(len);
    }
    pushed
}
