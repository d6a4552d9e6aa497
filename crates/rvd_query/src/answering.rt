ghost use Rattle.std.specs.Prelude.{◌≡◌, ◌++◌, IfOk, OnOk, OnErr};
ghost use Rattle.rvd_notation.specs.Pieces.{Keeps};
ghost use Rattle.rvd_listing.specs.Answers.{AppendsName};
ghost use Rattle.rvd_listing.specs.Names.{shown_name};
ghost use Rattle.rvd_query.specs.Reply.{line_at, or_none, reply};

use crate::counting::{counts_of, push_counts};
use crate::words::{push_addresses, push_xrefs};
use rvd_event::Query;
use rvd_fact::Addr;
use rvd_listing::{function_of, push_name, unit_at, unit_line, xrefs_to};
use rvd_program::Program;
use std::alloc::{AllocError, Global};

// Appends the line of the unit that has a byte, and answers whether there is one.
fn push_line_at(
    alloc: Global,
    program: &Program,
    at: Addr,
    out: &mut Vec<u8>,
) -> Result<bool, AllocError>
    ensures ok { IfOk result (AppendsName out.old.items out.new.items (line_at program.now at)) }
    ensures err { OnErr result (out.new.items ≡ out.old.items) }
{
    match unit_at(program, at) {
        None => Ok(false),
        Some(start) => unit_line(alloc, program, start, out),
    }
}

fn push_unit(
    alloc: Global,
    program: &Program,
    at: Addr,
    out: &mut Vec<u8>,
) -> Result<(), AllocError>
    ensures ok { OnOk result (out.new.items ≡ out.old.items ++ or_none (line_at program.now at)) }
    ensures err { OnErr result (out.new.items ≡ out.old.items) }
{
    if push_line_at(alloc, program, at, out)? {
        return Ok(());
    }
    out.extend_from_slice(b"none")
}

fn push_shown_name(program: &Program, at: Addr, out: &mut Vec<u8>) -> Result<(), AllocError>
    ensures ok { OnOk result (out.new.items ≡ out.old.items ++ or_none (shown_name program.now at)) }
    ensures err { OnErr result (out.new.items ≡ out.old.items) }
{
    if push_name(program, at, out)? {
        return Ok(());
    }
    out.extend_from_slice(b"none")
}

#[tactic(auto, unfolding(crate::specs::Reply::reply))]
fn push_answer(
    alloc: Global,
    program: &Program,
    query: &Query,
    out: &mut Vec<u8>,
) -> Result<(), AllocError>
    ensures ok { OnOk result (out.new.items ≡ out.old.items ++ reply program.now query.now) }
    ensures err { OnErr result (Keeps out.old.items out.new.items) }
{
    match query {
        Query::Unit(at) => push_unit(alloc, program, *at, out),
        Query::Name(at) => push_shown_name(program, *at, out),
        Query::Xrefs(at) => push_xrefs(out, &xrefs_to(alloc, program, *at)?),
        Query::Func(at) => push_addresses(out, &function_of(alloc, program, *at)?),
        Query::Count => push_counts(out, &counts_of(program)),
    }
}

/// Appends the answer to a query on a program: the line of the present unit on a byte, the name of an address, the
/// references to it, the functions that have it, or how many facts of each kind are present. Where there is none,
/// the answer is `none`.
pub fn answer(
    alloc: Global,
    program: &Program,
    query: &Query,
    out: &mut Vec<u8>,
) -> Result<(), AllocError>
    ensures ok { OnOk result (out.new.items ≡ out.old.items ++ reply program.now query.now) }
    ensures err { OnErr result (out.new.items ≡ out.old.items) }
{
    let len = out.len();
    let pushed = push_answer(alloc, program, query, out);
    if pushed.is_err() {
        out.truncate(len);
    }
    pushed
}
