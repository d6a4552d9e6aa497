ghost use Rattle.std.specs.Prelude.{◌≡◌, ◌++◌, ◌+◌, ◌^◌, ◌<◌, ◌≤◌, OnOk};
ghost use Rattle.rvd_decode.specs.Formats.{IsSigned, IsMultiple};
ghost use Rattle.rvd_gen.specs.Code.{offset, upper, lower, successor, call_offset, function, function_bytes, code};

use crate::assembly::{A0, RA, SP, ZERO, addi, jal, jalr, lui, lw, sw};
use crate::layout::{MAX_FUNCTIONS, function_at, string_at};
use crate::pushing::push_words;
use rvd_decode::{Insn, encode};
use std::alloc::AllocError;

// How far an address is from another one.
fn offset(from: u32, to: u32) -> i32
    requires from_is_low { from < 2 ^ 31 }
    requires to_is_low { to < 2 ^ 31 }
    ensures { result ≡ offset from to }
{
    to as i32 - from as i32
}

// What LUI loads of an address, in units of 4,096.
fn upper(address: u32) -> u32
    requires { address < 2 ^ 30 }
    ensures { result ≡ upper address }
{
    (address + 2048) / 4096
}

// What ADDI adds to what LUI loads of an address.
fn lower(address: u32) -> i32
    requires { address < 2 ^ 30 }
    ensures value { result ≡ lower address }
    ensures is_short { IsSigned 12 result }
{
    offset(4096 * upper(address), address)
}

// The number of the function that function i of n calls.
fn successor(i: u32, n: u32) -> u32
    requires within { i < n }
    requires few { n ≤ MAX_FUNCTIONS }
    ensures value { result ≡ successor n i }
    ensures is_within { result < n }
{
    (i + 1) % n
}

// How far the function that function i of n calls is from the call.
fn call_offset(i: u32, n: u32) -> i32
    requires within { i < n }
    requires few { n ≤ MAX_FUNCTIONS }
    ensures value { result ≡ call_offset n i }
    ensures is_short { IsSigned 21 result }
    ensures is_even { IsMultiple 2 result }
{
    offset(function_at(i) + 16, function_at(successor(i, n)))
}

// The instructions of function i of n.
fn function(i: u32, n: u32) -> [Insn; 8]
    requires within { i < n }
    requires few { n ≤ MAX_FUNCTIONS }
    ensures { result ≡ function n i }
{
    let string = string_at(i);
    [
        addi(SP, SP, -16),
        sw(RA, 12, SP),
        lui(A0, upper(string)),
        addi(A0, A0, lower(string)),
        jal(RA, call_offset(i, n)),
        lw(RA, 12, SP),
        addi(SP, SP, 16),
        jalr(ZERO, 0, RA),
    ]
}

#[tactic(auto, unfolding(crate::specs::Code::function_bytes))]
fn push_function(out: &mut Vec<u8>, i: u32, n: u32) -> Result<(), AllocError>
    requires within { i < n }
    requires few { n ≤ MAX_FUNCTIONS }
    ensures { OnOk result (out.new.items ≡ out.old.items ++ function_bytes n i) }
{
    for insn in &function(i, n) {
        push_words(out, &[encode(insn)])?;
    }
    Ok(())
}

/// Appends the code of n functions.
pub fn push_code(out: &mut Vec<u8>, n: u32) -> Result<(), AllocError>
    requires { n ≤ MAX_FUNCTIONS }
    ensures { OnOk result (out.new.items ≡ out.old.items ++ code n) }
{
    for i in 0..n {
        push_function(out, i, n)?;
    }
    Ok(())
}
