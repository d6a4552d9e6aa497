ghost use Rattle.std.specs.Prelude.{◌≡◌, ◌<◌, IfSome};
ghost use Rattle.rvd_text.specs.Quoted.{low_hex};
ghost use Rattle.rvd_reading.specs.Steps.{Reads, with_rest};
ghost use Rattle.rvd_reading.specs.Lists.{Appends};
ghost use Rattle.rvd_journal_reading.specs.Answers.{answer_of, bracket_of, bytes_answer_of, bytes_of, cell_answer_of, hex2_of, more_references_of, reference_of, references_answer_of, references_of, start_of, truth_of};

use rvd_ask::{Answer, Ask, RefList};
use rvd_fact::{Addr, Bytes, RefClass};
use rvd_reading::{ReadError, Rest, Unread, cell, class, hex8, number};
use std::alloc::Global;

fn start(rest: &mut Rest) -> Result<Answer, Unread>
    ensures { start_of rest.old ≡ with_rest rest.new result }
{
    if rest.strip(b"none") {
        Ok(Answer::At(None))
    } else {
        Ok(Answer::At(Some(hex8(rest)?)))
    }
}

fn truth(rest: &mut Rest) -> Result<Answer, Unread>
    ensures { truth_of rest.old ≡ with_rest rest.new result }
{
    if rest.strip(b"yes") {
        Ok(Answer::Yes(true))
    } else if rest.strip(b"no") {
        Ok(Answer::Yes(false))
    } else {
        Err(Unread)
    }
}

#[tactic(auto, unfolding(crate::specs::Answers::bracket_of))]
fn bracket(alloc: Global, rest: &mut Rest) -> Result<Answer, ReadError>
    ensures { Reads rest.new result (bracket_of rest.old) }
{
    let cell = cell(alloc, rest)?;
    rest.expect(b"]")?;
    Ok(Answer::Cell(Some(cell)))
}

fn cell_answer(alloc: Global, rest: &mut Rest) -> Result<Answer, ReadError>
    ensures { Reads rest.new result (cell_answer_of rest.old) }
{
    if rest.strip(b"none") {
        Ok(Answer::Cell(None))
    } else if rest.strip(b"[") {
        bracket(alloc, rest)
    } else {
        Err(ReadError::Unread)
    }
}

/// The value of a lower-case hexadecimal digit.
fn low_hex(byte: u8) -> Option<u8>
    ensures value { result ≡ low_hex byte }
    ensures small { IfSome result (λ h. h < 16) }
{
    match byte {
        b'0'..=b'9' => Some(byte - b'0'),
        b'a'..=b'f' => Some(byte - b'a' + 10),
        _ => None,
    }
}

/// A reference: its slot, its class and its target.
#[tactic(auto, unfolding(crate::specs::Answers::reference_of))]
fn reference(rest: &mut Rest) -> Result<(u8, RefClass, Addr), Unread>
    ensures { reference_of rest.old ≡ with_rest rest.new result }
{
    let slot = number(rest, 255)? as u8;
    rest.expect(b":")?;
    let class = class(rest)?;
    rest.expect(b":")?;
    let to = hex8(rest)?;
    Ok((slot, class, to))
}

/// Appends references, each with a comma before it.
#[tactic(auto, unfolding(crate::specs::Answers::more_references_of))]
fn push_more_references(
    rest: &mut Rest,
    out: &mut Vec<(u8, RefClass, Addr)>,
) -> Result<(), ReadError>
    ensures { Appends out.old.items out.new.items rest.new result (more_references_of rest.old) }
{
    let most = rest.bytes().len();
    for _taken in 0..most {
        if !rest.strip(b",") {
            return Ok(());
        }
        match reference(rest) {
            Ok(reference) => out.push(reference)?,
            Err(_) => return Err(ReadError::Unread),
        }
    }
    Ok(())
}

/// Appends references with a comma between two of them, or none where the word says so.
fn push_references(rest: &mut Rest, out: &mut Vec<(u8, RefClass, Addr)>) -> Result<(), ReadError>
    ensures { Appends out.old.items out.new.items rest.new result (references_of rest.old) }
{
    if rest.strip(b"none") {
        return Ok(());
    }
    out.push(reference(rest)?)?;
    push_more_references(rest, out)
}

fn references_answer(alloc: Global, rest: &mut Rest) -> Result<Answer, ReadError>
    ensures { Reads rest.new result (references_answer_of rest.old) }
{
    let mut list = Vec::new(alloc);
    push_references(rest, &mut list)?;
    Ok(Answer::Refs(RefList::of(alloc, list)?))
}

/// A byte in two digits.
fn hex2(rest: &mut Rest) -> Result<u8, Unread>
    ensures { hex2_of rest.old ≡ with_rest rest.new result }
{
    let [high, low, ..] = rest.bytes() else {
        return Err(Unread);
    };
    match (low_hex(*high), low_hex(*low)) {
        (Some(high), Some(low)) => {
            rest.take(2);
            Ok(high * 16 + low)
        }
        _ => Err(Unread),
    }
}

/// Appends so many bytes.
#[tactic(auto, unfolding(crate::specs::Answers::bytes_of))]
fn push_bytes(rest: &mut Rest, count: u16, out: &mut Vec<u8>) -> Result<(), ReadError>
    ensures { Appends out.old.items out.new.items rest.new result (bytes_of count rest.old) }
{
    for _taken in 0..count {
        match hex2(rest) {
            Ok(byte) => out.push(byte)?,
            Err(_) => return Err(ReadError::Unread),
        }
    }
    Ok(())
}

fn bytes_answer(alloc: Global, rest: &mut Rest, count: u16) -> Result<Answer, ReadError>
    ensures { Reads rest.new result (bytes_answer_of count rest.old) }
{
    if rest.strip(b"none") {
        return Ok(Answer::Bytes(None));
    }
    let mut list = Vec::new(alloc);
    push_bytes(rest, count, &mut list)?;
    Ok(Answer::Bytes(Some(Bytes::of(alloc, list)?)))
}

/// An answer to an ask.
#[tactic(auto, unfolding(crate::specs::Answers::answer_of))]
pub fn answer(alloc: Global, rest: &mut Rest, ask: &Ask) -> Result<Answer, ReadError>
    ensures { Reads rest.new result (answer_of ask.now rest.old) }
{
    match ask {
        Ask::Cell(_) => cell_answer(alloc, rest),
        Ask::Cover(_) => Ok(start(rest)?),
        Ask::Block(_) => Ok(start(rest)?),
        Ask::Bytes(_, len) => bytes_answer(alloc, rest, *len),
        Ask::To(_, _) => Ok(truth(rest)?),
        Ask::From(_) => references_answer(alloc, rest),
    }
}
