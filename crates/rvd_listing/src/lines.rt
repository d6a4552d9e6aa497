ghost use Rattle.std.specs.Prelude.{◌≡◌, ◌++◌, OnOk, OnErr};
ghost use Rattle.rvd_fact.specs.Memory.{form_len};
ghost use Rattle.rvd_notation.specs.Pieces.{Keeps};
ghost use Rattle.rvd_listing.specs.Lines.{data_text, datum_text, line, number_text, suffix, word_text};

use crate::names::push_name;
use rvd_decode::{decode, text};
use rvd_fact::{Addr, Cell, Form, Key, Value};
use rvd_notation::{hex2, push_value};
use rvd_program::Program;
use rvd_text::{push_hex8, push_quoted};
use std::alloc::{AllocError, Global};

// Appends the text of the instruction of a word, or two question marks where it is none.
fn push_word(alloc: Global, out: &mut Vec<u8>, at: Addr, word: u32) -> Result<(), AllocError>
    ensures ok { OnOk result (out.new.items ≡ out.old.items ++ word_text at word) }
    ensures err { OnErr result (out.new.items ≡ out.old.items) }
{
    match decode(word) {
        Some(insn) => text(alloc, &insn, at, out),
        None => out.extend_from_slice(b"??"),
    }
}

// Appends bytes, the lowest first, as a number with its highest digits first.
fn push_number(out: &mut Vec<u8>, bytes: &[u8]) -> Result<(), AllocError>
    ensures ok { OnOk result (out.new.items ≡ out.old.items ++ number_text bytes.now) }
    ensures err { OnErr result (Keeps out.old.items out.new.items) }
{
    let [lowest, higher @ ..] = bytes else {
        return Ok(());
    };
    push_number(out, higher)?;
    out.extend_from_slice(&hex2(*lowest))
}

fn push_data(out: &mut Vec<u8>, form: Form, bytes: &[u8]) -> Result<(), AllocError>
    ensures ok { OnOk result (out.new.items ≡ out.old.items ++ data_text form bytes.now) }
    ensures err { OnErr result (Keeps out.old.items out.new.items) }
{
    match form {
        Form::Str(_) => push_quoted(out, bytes),
        _ => push_number(out, bytes),
    }
}

fn len_of(form: Form) -> u16
    ensures { result ≡ form_len form }
{
    match form {
        Form::Byte => 1,
        Form::Half => 2,
        Form::Word => 4,
        Form::Str(len) => len,
    }
}

// Appends the data of a form at an address, or two question marks where its bytes aren't known.
fn push_datum(
    alloc: Global,
    out: &mut Vec<u8>,
    program: &Program,
    at: Addr,
    form: Form,
) -> Result<(), AllocError>
    ensures ok { OnOk result (out.new.items ≡ out.old.items ++ datum_text program.now at form) }
    ensures err { OnErr result (Keeps out.old.items out.new.items) }
{
    match program.bytes(alloc, at, len_of(form))? {
        Some(bytes) => push_data(out, form, bytes.list()),
        None => out.extend_from_slice(b"??"),
    }
}

#[tactic(auto, unfolding(crate::specs::Lines::suffix))]
fn push_suffix_pieces(
    alloc: Global,
    out: &mut Vec<u8>,
    program: &Program,
    at: Addr,
    value: &Value,
) -> Result<(), AllocError>
    ensures ok { OnOk result (out.new.items ≡ out.old.items ++ suffix program.now at value.now) }
    ensures err { OnErr result (Keeps out.old.items out.new.items) }
{
    match value {
        Value::Func => {
            out.push(b' ')?;
            push_name(program, at, out)?;
            Ok(())
        }
        Value::Code(word) => {
            out.push(b' ')?;
            push_word(alloc, out, at, *word)
        }
        Value::Plain(form) => {
            out.push(b' ')?;
            push_datum(alloc, out, program, at, *form)
        }
        _ => Ok(()),
    }
}

// Appends what stands behind a value.
fn push_suffix(
    alloc: Global,
    out: &mut Vec<u8>,
    program: &Program,
    at: Addr,
    value: &Value,
) -> Result<(), AllocError>
    ensures ok { OnOk result (out.new.items ≡ out.old.items ++ suffix program.now at value.now) }
    ensures err { OnErr result (out.new.items ≡ out.old.items) }
{
    let len = out.len();
    let pushed = push_suffix_pieces(alloc, out, program, at, value);
    if pushed.is_err() {
        out.truncate(len);
    }
    pushed
}

fn push_line_pieces(
    alloc: Global,
    out: &mut Vec<u8>,
    program: &Program,
    key: &Key,
    cell: &Cell,
) -> Result<(), AllocError>
    ensures ok { OnOk result (out.new.items ≡ out.old.items ++ line program.now (key.now, cell.now)) }
    ensures err { OnErr result (Keeps out.old.items out.new.items) }
{
    push_hex8(out, key.at)?;
    out.push(b' ')?;
    push_value(out, key, cell)?;
    push_suffix(alloc, out, program, key.at, &cell.value)
}

/// Appends the line of a program's entry, without a line feed: its address, its cell, and behind it the
/// shown name of a function, the text of an instruction or the bytes of data.
pub fn push_line(
    alloc: Global,
    out: &mut Vec<u8>,
    program: &Program,
    key: &Key,
    cell: &Cell,
) -> Result<(), AllocError>
    ensures ok { OnOk result (out.new.items ≡ out.old.items ++ line program.now (key.now, cell.now)) }
    ensures err { OnErr result (out.new.items ≡ out.old.items) }
{
    let len = out.len();
    let pushed = push_line_pieces(alloc, out, program, key, cell);
    if pushed.is_err() {
        out.truncate(len);
    }
    pushed
}
