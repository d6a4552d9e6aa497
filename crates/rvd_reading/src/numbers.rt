ghost use Rattle.std.specs.Prelude.{◌≡◌, ◌≤◌, true, IfOk, length, take, drop};
ghost use Rattle.std.specs.List.{list_all};
ghost use Rattle.std.specs.Char.{is_ascii_digit};
ghost use Rattle.rvd_reading.specs.Steps.{with_rest};
ghost use Rattle.rvd_reading.specs.Numbers.{IsAppended, IsValue, at_most, digit_count, hex8_of, number_of};

use crate::errors::Unread;
use crate::rest::Rest;
use rvd_text::read_hex;

/// A number of 32 bits in eight hexadecimal digits.
#[tactic(auto, unfolding(crate::specs::Numbers::hex8_of))]
pub fn hex8(rest: &mut Rest) -> Result<u32, Unread>
    ensures { hex8_of rest.old ≡ with_rest rest.new result }
{
    if rest.bytes().len() < 8 {
        return Err(Unread);
    }
    match read_hex(rest.take(8)) {
        Ok(number) => Ok(number),
        Err(_) => Err(Unread),
    }
}

/// How many decimal digits come first.
fn digit_count(bytes: &[u8]) -> usize
    ensures value { result ≡ digit_count bytes.now }
    ensures within { result ≤ length bytes.now }
    ensures digits { list_all is_ascii_digit (take result bytes.now) ≡ true }
{
    for (i, byte) in bytes.iter().enumerate() {
        if !byte.is_ascii_digit() {
            return i;
        }
    }
    bytes.len()
}

/// A number with one more digit, `None` where it takes more than 64 bits.
fn appended(number: u64, digit: u8) -> Option<u64>
    requires { is_ascii_digit digit ≡ true }
    ensures { IsAppended number digit result }
{
    number.checked_mul(10)?.checked_add(u64::from(digit - b'0'))
}

/// The number that digits write, `None` where it takes more than 64 bits.
fn value_of(digits: &[u8]) -> Option<u64>
    requires { list_all is_ascii_digit digits.now ≡ true }
    ensures { IsValue digits.now result }
{
    let mut number = 0;
    for digit in digits {
        match appended(number, *digit) {
            Some(more) => number = more,
            None => return None,
        }
    }
    Some(number)
}

/// The number that digits write, where there are some and it is at most `max`.
fn at_most(digits: &[u8], max: u64) -> Option<u64>
    requires { list_all is_ascii_digit digits.now ≡ true }
    ensures { result ≡ at_most max digits.now }
{
    if digits.is_empty() {
        return None;
    }
    match value_of(digits) {
        Some(number) if number <= max => Some(number),
        _ => None,
    }
}

/// The number that all decimal digits in front write, which is at most `max`.
#[tactic(auto, unfolding(crate::specs::Numbers::number_of))]
pub fn number(rest: &mut Rest, max: u64) -> Result<u64, Unread>
    ensures value { number_of max rest.old ≡ with_rest rest.new result }
    ensures most { IfOk result (λ n. n ≤ max) }
{
    let count = digit_count(rest.bytes());
    match at_most(rest.take(count), max) {
        Some(number) => Ok(number),
        None => Err(Unread),
    }
}
