ghost use Rattle.std.specs.Prelude.{◌≡◌, ◌++◌, ◌<◌, ◌≤◌, true, None, Some, OnOk, OnErr, IfOk, IfErr, length};
ghost use Rattle.std.specs.List.{list_all};
ghost use Rattle.std.specs.Char.{digit_char, digit_value, is_ascii_hexdigit};
ghost use Rattle.std.specs.Str.Parse.{digits_value};
ghost use Rattle.rvd_text.specs.Hex.{hex8, hex_of, without_prefix};

use crate::errors::TextError;
use std::alloc::AllocError;

/// The lower-case hexadecimal digit of a number below 16.
pub fn digit(value: u32) -> u8
    requires { value < 16 }
    ensures { result ≡ digit_char value }
{
    let value = value as u8;
    if value < 10 {
        b'0' + value
    } else {
        b'a' - 10 + value
    }
}

/// Appends a number in eight lower-case hexadecimal digits. Only want of memory refuses it, and then `out` is as before.
pub fn push_hex8(out: &mut Vec<u8>, n: u32) -> Result<(), AllocError>
    ensures ok { OnOk result (out.new.items ≡ out.old.items ++ hex8 n) }
    ensures err { OnErr result (out.new.items ≡ out.old.items) }
{
    let digits = [
        digit(n / 0x1000_0000 % 16),
        digit(n / 0x100_0000 % 16),
        digit(n / 0x10_0000 % 16),
        digit(n / 0x1_0000 % 16),
        digit(n / 0x1000 % 16),
        digit(n / 0x100 % 16),
        digit(n / 0x10 % 16),
        digit(n % 16),
    ];
    out.extend_from_slice(&digits)
}

// A word without its leading 0x, where it has one.
fn digits_in(word: &[u8]) -> &[u8]
    ensures { result.now ≡ without_prefix word.now }
{
    if word.starts_with(b"0x") {
        &word[2..]
    } else {
        word
    }
}

// Whether each byte is a hexadecimal digit.
fn are_digits(bytes: &[u8]) -> bool
    ensures { result ≡ list_all is_ascii_hexdigit bytes.now }
{
    bytes.iter().all(|byte| byte.is_ascii_hexdigit())
}

// The value of a hexadecimal digit of either case.
fn value_of(digit: u8) -> u32
    requires { is_ascii_hexdigit digit ≡ true }
    ensures value { result ≡ digit_value digit }
    ensures small { result < 16 }
{
    let value = match digit {
        b'0'..=b'9' => digit - b'0',
        b'a'..=b'f' => digit - b'a' + 10,
        b'A'..=b'F' => digit - b'A' + 10,
        _ => unreachable!(),
    };
    u32::from(value)
}

// The number that at most eight hexadecimal digits write.
fn number_of(digits: &[u8]) -> u32
    requires short { length digits.now ≤ 8 }
    requires hexadecimal { list_all is_ascii_hexdigit digits.now ≡ true }
    ensures { result ≡ digits_value 16 digits.now }
{
    let mut number = 0;
    for digit in digits {
        number = number * 16 + value_of(*digit);
    }
    number
}

/// Reads a hexadecimal number: an optional `0x`, and 1 to 8 digits of either case. It takes no memory.
///
/// `BadHex` comes exactly where the word is anything else, and no other refusal comes.
pub fn read_hex(word: &[u8]) -> Result<u32, TextError>
    ensures value { IfOk result (λ n. hex_of word.now ≡ Some n) }
    ensures bad_hex { IfErr result (λ e. (e ≡ TextError.BadHex) × (hex_of word.now ≡ None)) }
{
    let digits = digits_in(word);
    if digits.is_empty() || digits.len() > 8 || !are_digits(digits) {
        return Err(TextError::BadHex);
    }
    Ok(number_of(digits))
}
