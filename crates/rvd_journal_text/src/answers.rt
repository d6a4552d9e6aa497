ghost use Rattle.std.specs.Prelude.{◌≡◌, ◌++◌, flat_map, OnOk, OnErr, codes};
ghost use Rattle.std.specs.Fmt.{decimal};
ghost use Rattle.rvd_text.specs.Hex.{hex8};
ghost use Rattle.rvd_notation.specs.Pieces.{Keeps};
ghost use Rattle.rvd_notation.specs.Words.{class_word, hex2};
ghost use Rattle.rvd_journal_text.specs.Answers.{address_answer, answer_text, ask_text, bytes_answer, cell_answer, more_references, reference_text, references_answer, truth_word};

use crate::words::{push_at, push_count, push_key_of, push_spaced};
use rvd_ask::{Answer, Ask};
use rvd_fact::{Addr, Bytes, Cell, Key, RefClass};
use rvd_notation::{class_word, hex2, push_value};
use rvd_text::{push_dec, push_hex8};
use std::alloc::AllocError;

fn push_bytes_ask(out: &mut Vec<u8>, at: Addr, len: u16) -> Result<(), AllocError>
    ensures ok { OnOk result (out.new.items ≡ out.old.items ++ (codes "bytes " ++ hex8 at ++ codes " " ++ decimal len)) }
    ensures err { OnErr result (Keeps out.old.items out.new.items) }
{
    push_at(out, b"bytes ", at)?;
    push_count(out, b" ", u64::from(len))
}

fn push_to_ask(out: &mut Vec<u8>, at: Addr, class: RefClass) -> Result<(), AllocError>
    ensures ok { OnOk result (out.new.items ≡ out.old.items ++ (codes "to " ++ hex8 at ++ codes " " ++ class_word class)) }
    ensures err { OnErr result (Keeps out.old.items out.new.items) }
{
    push_at(out, b"to ", at)?;
    push_spaced(out, class_word(class))
}

/// Appends an ask, or some of it where memory is wanting.
#[tactic(auto, unfolding(crate::specs::Answers::ask_text))]
pub fn push_ask(out: &mut Vec<u8>, ask: &Ask) -> Result<(), AllocError>
    ensures ok { OnOk result (out.new.items ≡ out.old.items ++ ask_text ask.now) }
    ensures err { OnErr result (Keeps out.old.items out.new.items) }
{
    match ask {
        Ask::Cell(key) => push_key_of(out, b"cell ", key),
        Ask::Cover(at) => push_at(out, b"cover ", *at),
        Ask::Block(at) => push_at(out, b"block ", *at),
        Ask::Bytes(at, len) => push_bytes_ask(out, *at, *len),
        Ask::To(at, class) => push_to_ask(out, *at, *class),
        Ask::From(at) => push_at(out, b"from ", *at),
    }
}

fn push_cell(out: &mut Vec<u8>, key: &Key, cell: &Cell) -> Result<(), AllocError>
    ensures ok { OnOk result (out.new.items ≡ out.old.items ++ cell_answer key.now (Some cell.now)) }
    ensures err { OnErr result (Keeps out.old.items out.new.items) }
{
    out.push(b'[')?;
    push_value(out, key, cell)?;
    out.push(b']')?;
    Ok(())
}

fn push_cell_answer(out: &mut Vec<u8>, key: &Key, cell: &Option<Cell>) -> Result<(), AllocError>
    ensures ok { OnOk result (out.new.items ≡ out.old.items ++ cell_answer key.now cell.now) }
    ensures err { OnErr result (Keeps out.old.items out.new.items) }
{
    match cell {
        None => out.extend_from_slice(b"none"),
        Some(cell) => push_cell(out, key, cell),
    }
}

fn push_address_answer(out: &mut Vec<u8>, at: Option<Addr>) -> Result<(), AllocError>
    ensures ok { OnOk result (out.new.items ≡ out.old.items ++ address_answer at) }
    ensures err { OnErr result (Keeps out.old.items out.new.items) }
{
    match at {
        None => out.extend_from_slice(b"none"),
        Some(at) => push_hex8(out, at),
    }
}

fn push_hex2(out: &mut Vec<u8>, byte: u8) -> Result<(), AllocError>
    ensures ok { OnOk result (out.new.items ≡ out.old.items ++ hex2 byte) }
    ensures err { OnErr result (Keeps out.old.items out.new.items) }
{
    out.extend_from_slice(&hex2(byte))
}

fn push_byte_digits(out: &mut Vec<u8>, bytes: &[u8]) -> Result<(), AllocError>
    ensures ok { OnOk result (out.new.items ≡ out.old.items ++ flat_map hex2 bytes.now) }
    ensures err { OnErr result (Keeps out.old.items out.new.items) }
{
    for byte in bytes {
        push_hex2(out, *byte)?;
    }
    Ok(())
}

fn push_bytes_answer(out: &mut Vec<u8>, bytes: &Option<Bytes>) -> Result<(), AllocError>
    ensures ok { OnOk result (out.new.items ≡ out.old.items ++ bytes_answer bytes.now) }
    ensures err { OnErr result (Keeps out.old.items out.new.items) }
{
    match bytes {
        None => out.extend_from_slice(b"none"),
        Some(bytes) => push_byte_digits(out, bytes.list()),
    }
}

fn truth_word(yes: bool) -> &'static [u8]
    ensures { result.now ≡ truth_word yes }
{
    if yes { b"yes" } else { b"no" }
}

fn push_reference(out: &mut Vec<u8>, reference: (u8, RefClass, Addr)) -> Result<(), AllocError>
    ensures ok { OnOk result (out.new.items ≡ out.old.items ++ reference_text reference) }
    ensures err { OnErr result (Keeps out.old.items out.new.items) }
{
    push_dec(out, u64::from(reference.0))?;
    out.push(b':')?;
    out.extend_from_slice(class_word(reference.1))?;
    push_at(out, b":", reference.2)
}

fn push_next_reference(out: &mut Vec<u8>, reference: (u8, RefClass, Addr)) -> Result<(), AllocError>
    ensures ok { OnOk result (out.new.items ≡ out.old.items ++ (codes "," ++ reference_text reference)) }
    ensures err { OnErr result (Keeps out.old.items out.new.items) }
{
    out.push(b',')?;
    push_reference(out, reference)
}

fn push_more_references(
    out: &mut Vec<u8>,
    references: &[(u8, RefClass, Addr)],
) -> Result<(), AllocError>
    ensures ok { OnOk result (out.new.items ≡ out.old.items ++ more_references references.now) }
    ensures err { OnErr result (Keeps out.old.items out.new.items) }
{
    for reference in references {
        push_next_reference(out, *reference)?;
    }
    Ok(())
}

fn push_references_answer(
    out: &mut Vec<u8>,
    references: &[(u8, RefClass, Addr)],
) -> Result<(), AllocError>
    ensures ok { OnOk result (out.new.items ≡ out.old.items ++ references_answer references.now) }
    ensures err { OnErr result (Keeps out.old.items out.new.items) }
{
    let [first, rest @ ..] = references else {
        return out.extend_from_slice(b"none");
    };
    push_reference(out, *first)?;
    push_more_references(out, rest)
}

/// Appends an answer to an ask, or some of it where memory is wanting. One that isn't of the ask's kind has no text.
#[tactic(auto, unfolding(crate::specs::Answers::answer_text))]
pub fn push_answer(out: &mut Vec<u8>, ask: &Ask, answer: &Answer) -> Result<(), AllocError>
    ensures ok { OnOk result (out.new.items ≡ out.old.items ++ answer_text ask.now answer.now) }
    ensures err { OnErr result (Keeps out.old.items out.new.items) }
{
    match (ask, answer) {
        (Ask::Cell(key), Answer::Cell(cell)) => push_cell_answer(out, key, cell),
        (Ask::Cover(_), Answer::At(start)) => push_address_answer(out, *start),
        (Ask::Block(_), Answer::At(start)) => push_address_answer(out, *start),
        (Ask::Bytes(_, _), Answer::Bytes(bytes)) => push_bytes_answer(out, bytes),
        (Ask::To(_, _), Answer::Yes(yes)) => out.extend_from_slice(truth_word(*yes)),
        (Ask::From(_), Answer::Refs(refs)) => push_references_answer(out, refs.list()),
        _ => Ok(()),
    }
}
