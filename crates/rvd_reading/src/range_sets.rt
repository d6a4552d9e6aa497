ghost use Rattle.std.specs.Prelude.{◌≡◌, true, false, IfOk, IsErrOf};
ghost use Rattle.rvd_fact.specs.Ranges.{is_range_set};
ghost use Rattle.rvd_reading.specs.Steps.{Reads, with_rest};
ghost use Rattle.rvd_reading.specs.Lists.{Appends, more_ranges_of, range_list_of, range_of, ranges_of};

use crate::errors::{ReadError, Unread};
use crate::numbers::hex8;
use crate::rest::Rest;
use rvd_fact::{Addr, RangeSet};
use std::alloc::{AllocError, Global};

/// A range: its first and its last address.
#[tactic(auto, unfolding(crate::specs::Lists::range_of))]
pub fn range(rest: &mut Rest) -> Result<(Addr, Addr), Unread>
    ensures { range_of rest.old ≡ with_rest rest.new result }
{
    let first = hex8(rest)?;
    rest.expect(b"-")?;
    let last = hex8(rest)?;
    Ok((first, last))
}

/// Appends ranges, each with a comma before it.
#[tactic(auto, unfolding(crate::specs::Lists::more_ranges_of))]
fn push_more_ranges(rest: &mut Rest, out: &mut Vec<(Addr, Addr)>) -> Result<(), ReadError>
    ensures { Appends out.old.items out.new.items rest.new result (more_ranges_of rest.old) }
{
    let most = rest.bytes().len();
    for _taken in 0..most {
        if !rest.strip(b",") {
            return Ok(());
        }
        match range(rest) {
            Ok(range) => out.push(range)?,
            Err(_) => return Err(ReadError::Unread),
        }
    }
    Ok(())
}

/// Appends ranges with a comma between two of them, or none where a dash stands.
fn push_ranges(rest: &mut Rest, out: &mut Vec<(Addr, Addr)>) -> Result<(), ReadError>
    ensures { Appends out.old.items out.new.items rest.new result (range_list_of rest.old) }
{
    if rest.strip(b"-") {
        return Ok(());
    }
    out.push(range(rest)?)?;
    push_more_ranges(rest, out)
}

/// Whether ranges are in order, and neither meet nor touch.
fn is_range_set(ranges: &[(Addr, Addr)]) -> bool
    ensures { result ≡ is_range_set ranges.now }
{
    let mut low = 0;
    for range in ranges {
        if u64::from(range.0) < low || range.1 < range.0 {
            return false;
        }
        low = u64::from(range.1) + 2;
    }
    true
}

/// The set of ranges that are in order, and neither meet nor touch.
fn collect(alloc: Global, ranges: &[(Addr, Addr)]) -> Result<RangeSet, AllocError>
    requires { is_range_set ranges.now ≡ true }
    ensures { IfOk result (λ set. set ≡ ranges.now) }
{
    let mut set = RangeSet::new(alloc);
    for range in ranges {
        set.add(range.0, range.1)?;
    }
    Ok(set)
}

/// The set of addresses of these ranges. They are `Unread` where they aren't in order, or where two of them meet or touch.
pub fn range_set(alloc: Global, ranges: &[(Addr, Addr)]) -> Result<RangeSet, ReadError>
    ensures ok { IfOk result (λ set. (set ≡ ranges.now) × (is_range_set ranges.now ≡ true)) }
    ensures unread { IsErrOf result ReadError.Unread → is_range_set ranges.now ≡ false }
{
    if !is_range_set(ranges) {
        return Err(ReadError::Unread);
    }
    Ok(collect(alloc, ranges)?)
}

/// A set of addresses: its ranges with a comma between two of them, or a dash.
#[tactic(auto, unfolding(crate::specs::Lists::ranges_of))]
pub fn ranges(alloc: Global, rest: &mut Rest) -> Result<RangeSet, ReadError>
    ensures { Reads rest.new result (ranges_of rest.old) }
{
    let mut list = Vec::new(alloc);
    push_ranges(rest, &mut list)?;
    range_set(alloc, &list)
}
