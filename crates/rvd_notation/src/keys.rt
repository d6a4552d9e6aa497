ghost use Rattle.std.specs.Prelude.{◌≡◌, ◌++◌, OnOk, OnErr, codes};
ghost use Rattle.rvd_notation.specs.Words.{key_text, more_ranges, range_text, ranges_text};
ghost use Rattle.rvd_notation.specs.Pieces.{Keeps};

use crate::words::kind_word;
use rvd_fact::{Addr, Key, RangeSet};
use rvd_text::{push_dec, push_hex8};
use std::alloc::AllocError;

fn push_key_pieces(out: &mut Vec<u8>, key: &Key) -> Result<(), AllocError>
    ensures ok { OnOk result (out.new.items ≡ out.old.items ++ key_text key.now) }
    ensures err { OnErr result (Keeps out.old.items out.new.items) }
{
    out.extend_from_slice(kind_word(key.kind))?;
    out.push(b' ')?;
    push_hex8(out, key.at)?;
    out.push(b' ')?;
    push_dec(out, u64::from(key.sub))
}

/// Appends a key: its kind, its address in eight digits and its number.
pub fn push_key(out: &mut Vec<u8>, key: &Key) -> Result<(), AllocError>
    ensures ok { OnOk result (out.new.items ≡ out.old.items ++ key_text key.now) }
    ensures err { OnErr result (out.new.items ≡ out.old.items) }
{
    let len = out.len();
    let pushed = push_key_pieces(out, key);
    if pushed.is_err() {
        out.truncate(len);
    }
    pushed
}

/// Appends a range, its first and its last address, or a front of it where there is no memory.
pub fn push_range(out: &mut Vec<u8>, range: (Addr, Addr)) -> Result<(), AllocError>
    ensures ok { OnOk result (out.new.items ≡ out.old.items ++ range_text range) }
    ensures err { OnErr result (Keeps out.old.items out.new.items) }
{
    push_hex8(out, range.0)?;
    out.push(b'-')?;
    push_hex8(out, range.1)
}

fn push_next_range(out: &mut Vec<u8>, range: (Addr, Addr)) -> Result<(), AllocError>
    ensures ok { OnOk result (out.new.items ≡ out.old.items ++ (codes "," ++ range_text range)) }
    ensures err { OnErr result (Keeps out.old.items out.new.items) }
{
    out.push(b',')?;
    push_range(out, range)
}

// Appends ranges, each with a comma before it.
fn push_more_ranges(out: &mut Vec<u8>, ranges: &[(Addr, Addr)]) -> Result<(), AllocError>
    ensures ok { OnOk result (out.new.items ≡ out.old.items ++ more_ranges ranges.now) }
    ensures err { OnErr result (Keeps out.old.items out.new.items) }
{
    for range in ranges {
        push_next_range(out, *range)?;
    }
    Ok(())
}

fn push_range_list(out: &mut Vec<u8>, ranges: &[(Addr, Addr)]) -> Result<(), AllocError>
    ensures ok { OnOk result (out.new.items ≡ out.old.items ++ ranges_text ranges.now) }
    ensures err { OnErr result (Keeps out.old.items out.new.items) }
{
    let [first, rest @ ..] = ranges else {
        out.push(b'-')?;
        return Ok(());
    };
    push_range(out, *first)?;
    push_more_ranges(out, rest)
}

/// Appends a set of addresses: its ranges joined by commas, or a dash where it is empty.
pub fn push_ranges(out: &mut Vec<u8>, ranges: &RangeSet) -> Result<(), AllocError>
    ensures ok { OnOk result (out.new.items ≡ out.old.items ++ ranges_text ranges.now) }
    ensures err { OnErr result (out.new.items ≡ out.old.items) }
{
    let len = out.len();
    let pushed = push_range_list(out, ranges.ranges());
    if pushed.is_err() {
        out.truncate(len);
    }
    pushed
}
