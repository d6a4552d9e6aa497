ghost use Rattle.std.specs.Prelude.{◌≡◌, ◌<◌, ◌≤◌, ◌+◌, ◌-◌, ◌^◌};
ghost use Rattle.rvd_decode.specs.Formats.{bits, signed, imm_i, imm_s, imm_b, imm_u, imm_j, immediate};

use crate::table::Format;

/// The bits of a word from `HIGH` down to `LOW`.
pub fn bits<const HIGH: u32, const LOW: u32>(word: u32) -> u32
    requires ordered { LOW ≤ HIGH }
    requires within { HIGH < 32 }
    requires short { HIGH < LOW + 31 }
    ensures { result ≡ bits word HIGH LOW }
{
    (word >> LOW) % (1 << (HIGH + 1 - LOW))
}

// The number that has `value` as its two's complement of `WIDTH` bits.
fn signed<const WIDTH: u32>(value: u32) -> i32
    requires some { 0 < WIDTH }
    requires short { WIDTH < 31 }
    requires fits { value < 2 ^ WIDTH }
    ensures { result ≡ signed WIDTH value }
{
    let value = value as i32;
    if value < 1 << (WIDTH - 1) {
        value
    } else {
        value - (1 << WIDTH)
    }
}

fn imm_i(word: u32) -> i32
    ensures { result ≡ imm_i word }
{
    signed::<12>(bits::<31, 20>(word))
}

fn imm_s(word: u32) -> i32
    ensures { result ≡ imm_s word }
{
    signed::<12>((bits::<31, 25>(word) << 5) + bits::<11, 7>(word))
}

fn imm_b(word: u32) -> i32
    ensures { result ≡ imm_b word }
{
    let sign = bits::<31, 31>(word) << 12;
    let high = bits::<7, 7>(word) << 11;
    signed::<13>(sign + high + (bits::<30, 25>(word) << 5) + (bits::<11, 8>(word) << 1))
}

fn imm_u(word: u32) -> i32
    ensures { result ≡ imm_u word }
{
    (bits::<31, 12>(word) << 12).cast_signed()
}

fn imm_j(word: u32) -> i32
    ensures { result ≡ imm_j word }
{
    let sign = bits::<31, 31>(word) << 20;
    let high = bits::<19, 12>(word) << 12;
    signed::<21>(sign + high + (bits::<20, 20>(word) << 11) + (bits::<30, 21>(word) << 1))
}

/// The immediate of a word.
pub fn immediate(format: Format, word: u32) -> i32
    ensures { result ≡ immediate format word }
{
    match format {
        Format::R | Format::Bare => 0,
        Format::I => imm_i(word),
        Format::S => imm_s(word),
        Format::B => imm_b(word),
        Format::U => imm_u(word),
        Format::J => imm_j(word),
        Format::Shift => bits::<24, 20>(word) as i32,
    }
}
