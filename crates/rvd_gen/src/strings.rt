ghost use Rattle.std.specs.Prelude.{◌≡◌, ◌++◌, ◌<◌, OnOk};
ghost use Rattle.rvd_gen.specs.Strings.{digit, string, strings};

use std::alloc::AllocError;

// The decimal digit of a number at a place, by what a one is worth there.
fn digit(number: u32, worth: u32) -> u8
    requires { 0 < worth }
    ensures { result ≡ digit number worth }
{
    b'0' + (number / worth % 10) as u8
}

// Appends string i.
#[tactic(auto, unfolding(crate::specs::Strings::string))]
fn push_string(out: &mut Vec<u8>, i: u32) -> Result<(), AllocError>
    ensures { OnOk result (out.new.items ≡ out.old.items ++ string i) }
{
    out.extend_from_slice(b"string ")?;
    out.extend_from_slice(&[
        digit(i, 10_000_000),
        digit(i, 1_000_000),
        digit(i, 100_000),
        digit(i, 10_000),
        digit(i, 1_000),
        digit(i, 100),
        digit(i, 10),
        digit(i, 1),
        0,
    ])
}

/// Appends n strings.
pub fn push_strings(out: &mut Vec<u8>, n: u32) -> Result<(), AllocError>
    ensures { OnOk result (out.new.items ≡ out.old.items ++ strings n) }
{
    for i in 0..n {
        push_string(out, i)?;
    }
    Ok(())
}
