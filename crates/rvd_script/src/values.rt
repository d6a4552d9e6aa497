ghost use Rattle.std.specs.Prelude.{◌≡◌, ◌<◌, ◌≤◌, true, IfOk, vec_len};
ghost use Rattle.rvd_fact.specs.Valid.{is_text};
ghost use Rattle.rvd_event.specs.Edits.{is_name};
ghost use Rattle.std.specs.List.{list_all};
ghost use Rattle.std.specs.Char.{is_ascii_digit};
ghost use Rattle.rvd_script.specs.Parts.{IsAppended, IsValue, address_of, decimal_of, flag_of, length_of, name_of, number_of, perm_of, quoted_of, within};
ghost use Rattle.rvd_script.specs.Steps.{Tells};

use crate::errors::PartError;
use rvd_fact::{Addr, Perm, Text, TextCause};
use rvd_text::{TextError, read_hex, read_quoted};
use std::alloc::{AllocError, Global};

/// The address that a word spells.
pub fn address_of(word: &[u8]) -> Result<Addr, TextCause>
    ensures { result ≡ address_of word.now }
{
    match read_hex(word) {
        Ok(at) => Ok(at),
        Err(_) => Err(TextCause::BadAddress),
    }
}

/// The length of a block that a word spells.
pub fn length_of(word: &[u8]) -> Result<u32, TextCause>
    ensures value { result ≡ length_of word.now }
    ensures some { IfOk result (λ n. 0 < n) }
{
    let len = address_of(word)?;
    if len > 0 {
        Ok(len)
    } else {
        Err(TextCause::BadAddress)
    }
}

/// A number with one more digit, `None` where it takes more than 64 bits.
fn appended(number: u64, digit: u8) -> Option<u64>
    requires { is_ascii_digit digit ≡ true }
    ensures { IsAppended number digit result }
{
    number.checked_mul(10)?.checked_add(u64::from(digit - b'0'))
}

/// The number that digits write, `None` where it takes more than 64 bits.
fn value_of(digits: &[u8]) -> Option<u64>
    requires { list_all is_ascii_digit digits.now ≡ true }
    ensures { IsValue digits.now result }
{
    let mut number = 0;
    for digit in digits {
        match appended(number, *digit) {
            Some(more) => number = more,
            None => return None,
        }
    }
    Some(number)
}

/// Whether each byte is a decimal digit.
fn are_digits(bytes: &[u8]) -> bool
    ensures { result ≡ list_all is_ascii_digit bytes.now }
{
    bytes.iter().all(|byte| byte.is_ascii_digit())
}

/// The number that a word of digits writes, `None` where it isn't one, or takes more than 64 bits.
fn decimal_of(word: &[u8]) -> Option<u64>
    ensures { result ≡ within 0 18446744073709551615 (decimal_of word.now) }
{
    if word.is_empty() || !are_digits(word) {
        return None;
    }
    value_of(word)
}

/// The number from `low` to `high` that a word writes.
pub fn number_of(word: &[u8], low: u64, high: u64) -> Result<u64, TextCause>
    ensures value { result ≡ number_of low high word.now }
    ensures least { IfOk result (λ n. low ≤ n) }
    ensures most { IfOk result (λ n. n ≤ high) }
{
    match decimal_of(word) {
        Some(number) if low <= number && number <= high => Ok(number),
        _ => Err(TextCause::BadNumber),
    }
}

/// The text of some bytes.
fn text_of(alloc: Global, bytes: Vec<u8>) -> Result<Text, AllocError>
    requires { vec_len bytes ≤ 1000 }
    ensures value { IfOk result (λ text. text ≡ bytes.items) }
    ensures legal { IfOk result (λ text. is_text text ≡ true) }
{
    Text::of(alloc, bytes)
}

/// The text that a word quotes.
pub fn quoted_of(alloc: Global, word: &[u8]) -> Result<Text, PartError>
    ensures value { Tells result (quoted_of word.now) }
    ensures legal { IfOk result (λ text. is_text text ≡ true) }
{
    match read_quoted(alloc, word) {
        Ok(bytes) => Ok(text_of(alloc, bytes)?),
        Err(TextError::TooLong) => Err(PartError::Cause(TextCause::TooLong)),
        Err(TextError::OutOfMemory) => Err(PartError::OutOfMemory),
        Err(_) => Err(PartError::Cause(TextCause::BadText)),
    }
}

/// The name that a word quotes.
pub fn name_of(alloc: Global, word: &[u8]) -> Result<Text, PartError>
    ensures value { Tells result (name_of word.now) }
    ensures legal { IfOk result (λ name. is_name name ≡ true) }
{
    let name = quoted_of(alloc, word)?;
    if name.list().is_empty() {
        return Err(PartError::Cause(TextCause::BadText));
    }
    Ok(name)
}

/// Whether a flag is set: it is its letter or a dash.
fn flag_of(byte: u8, letter: u8) -> Result<bool, TextCause>
    ensures { result ≡ flag_of letter byte }
{
    if byte == letter {
        Ok(true)
    } else if byte == b'-' {
        Ok(false)
    } else {
        Err(TextCause::UnknownWord)
    }
}

/// The permission that a word spells.
pub fn perm_of(word: &[u8]) -> Result<Perm, TextCause>
    ensures { result ≡ perm_of word.now }
{
    match word {
        [r, w, x] => Ok(Perm {
            r: flag_of(*r, b'r')?,
            w: flag_of(*w, b'w')?,
            x: flag_of(*x, b'x')?,
        }),
        _ => Err(TextCause::UnknownWord),
    }
}
