ghost use Rattle.std.specs.Prelude.{◌≡◌, ◌++◌, ◌<◌, ◌≤◌, IfOk, IfErr, IfSome, IsSome, OnOk, Some, length, vec_len};
ghost use Rattle.std.specs.Option.{option_map, option_to_list};
ghost use Rattle.rvd_text.specs.Quoted.{low_hex, IsPlace, step, text_from, text_of};
ghost use Rattle.rvd_text.specs.Answers.{IsTextRefusal};

use crate::errors::{TEXT_LIMIT, TextError};
use crate::places::Place;
use std::alloc::{AllocError, Global};

// The value of a lower-case hexadecimal digit.
fn low_hex(byte: u8) -> Option<u8>
    ensures value { result ≡ low_hex byte }
    ensures small { IfSome result (λ h. h < 16) }
{
    match byte {
        b'0'..=b'9' => Some(byte - b'0'),
        b'a'..=b'f' => Some(byte - b'a' + 10),
        _ => None,
    }
}

// Where a reader stands behind a byte, and the byte of the text that it has read by then.
fn step(place: Place, byte: u8) -> Option<(Place, Option<u8>)>
    requires { IsPlace place }
    ensures next { result ≡ step place byte }
    ensures place { IfSome result (λ s. IsPlace s.0) }
{
    match place {
        Place::Inside => match byte {
            b'"' => Some((Place::Done, None)),
            b'\\' => Some((Place::Escaped, None)),
            0x20..=0x7e => Some((Place::Inside, Some(byte))),
            _ => None,
        },
        Place::Escaped => match byte {
            b'x' => Some((Place::High, None)),
            b'"' | b'\\' => Some((Place::Inside, Some(byte))),
            b'n' => Some((Place::Inside, Some(b'\n'))),
            b't' => Some((Place::Inside, Some(b'\t'))),
            _ => None,
        },
        Place::High => match low_hex(byte) {
            Some(high) => Some((Place::Low(high), None)),
            None => None,
        },
        Place::Low(high) => match low_hex(byte) {
            Some(low) => Some((Place::Inside, Some(high * 16 + low))),
            None => None,
        },
        Place::Done => None,
    }
}

// The number of bytes of a text, from what stands behind its first quote; None where that ends no quoted text.
fn text_len(rest: &[u8]) -> Option<usize>
    ensures { result ≡ option_map length (text_from Place.Inside rest.now) }
{
    let mut count = 0;
    let mut place = Place::Inside;
    for byte in rest {
        match step(place, *byte) {
            Some((next, read)) => {
                place = next;
                count += usize::from(read.is_some());
            }
            None => return None,
        }
    }
    if place == Place::Done {
        Some(count)
    } else {
        None
    }
}

// Appends the byte that was read, if any.
fn push_read(out: &mut Vec<u8>, read: Option<u8>) -> Result<(), AllocError>
    ensures { OnOk result (out.new.items ≡ out.old.items ++ option_to_list read) }
{
    if let Some(byte) = read {
        out.push(byte)?;
    }
    Ok(())
}

// The bytes of a text, from what stands behind its first quote.
fn text(alloc: Global, rest: &[u8], count: usize) -> Result<Vec<u8>, AllocError>
    requires { IsSome (text_from Place.Inside rest.now) }
    ensures { IfOk result (λ t. text_from Place.Inside rest.now ≡ Some t.items) }
{
    let mut out = Vec::with_capacity(alloc, count)?;
    let mut place = Place::Inside;
    for byte in rest {
        match step(place, *byte) {
            Some((next, read)) => {
                place = next;
                push_read(&mut out, read)?;
            }
            None => unreachable!(),
        }
    }
    Ok(out)
}

/// Reads a quoted text, and gives its bytes.
///
/// `BadQuote` comes exactly where the word is no quoted text, `TooLong` exactly where it stands for more than `TEXT_LIMIT`
/// bytes, and `OutOfMemory` only where memory is wanting. Any quoted text is read, also one whose spelling isn't canonical.
pub fn read_quoted(alloc: Global, word: &[u8]) -> Result<Vec<u8>, TextError>
    ensures text { IfOk result (λ t. text_of word.now ≡ Some t.items) }
    ensures short { IfOk result (λ t. vec_len t ≤ TEXT_LIMIT) }
    ensures refused { IfErr result (IsTextRefusal TEXT_LIMIT (text_of word.now)) }
{
    let rest = match word {
        [b'"', rest @ ..] => rest,
        _ => return Err(TextError::BadQuote),
    };
    let count = match text_len(rest) {
        Some(count) => count,
        None => return Err(TextError::BadQuote),
    };
    if count > TEXT_LIMIT {
        return Err(TextError::TooLong);
    }
    Ok(text(alloc, rest, count)?)
}
