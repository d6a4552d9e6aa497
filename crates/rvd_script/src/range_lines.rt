ghost use Rattle.std.specs.Prelude.{◌≡◌, ◌≤◌, ◌==◌, true, [], position, IfOk, OnOk};
ghost use Rattle.rvd_fact.specs.Ranges.{AreRanges, is_range_set};
ghost use Rattle.rvd_event.specs.Edits.{has_body_ranges};
ghost use Rattle.rvd_script.specs.RangeLines.{joined, range_of, ranges_of, with_range, with_ranges};
ghost use Rattle.rvd_script.specs.Steps.{Leaves, Reads};

use crate::errors::PartError;
use crate::values::address_of;
use crate::words::Words;
use rvd_fact::{Addr, RangeSet, TextCause};
use std::alloc::{AllocError, Global};

/// The most ranges of a body.
const MAX_RANGES: u8 = 64;

fn dash_in(word: &[u8]) -> Option<usize>
    ensures { result ≡ position (λ c. c == 45) word.now }
{
    word.iter().position(|byte| *byte == b'-')
}

/// The first and the last address of a range.
fn range_of(word: &[u8]) -> Result<(Addr, Addr), TextCause>
    ensures value { result ≡ range_of word.now }
    ensures order { IfOk result (λ r. r.0 ≤ r.1) }
{
    let dash = match dash_in(word) {
        Some(dash) => dash,
        None => return Err(TextCause::BadAddress),
    };
    let first = address_of(&word[..dash])?;
    let last = address_of(&word[dash + 1..])?;
    if first <= last {
        Ok((first, last))
    } else {
        Err(TextCause::BadAddress)
    }
}

/// Adds a range to a set.
fn join(set: &mut RangeSet, first: Addr, last: Addr) -> Result<(), AllocError>
    requires order { first ≤ last }
    requires ranges { AreRanges set.old }
    ensures value { OnOk result (set.new ≡ joined set.old first last) }
    ensures ranges { OnOk result (AreRanges set.new) }
{
    set.add(first, last)
}

/// Adds the range of a word to a set.
fn add_range(set: &mut RangeSet, word: &[u8]) -> Result<(), PartError>
    requires { AreRanges set.old }
    ensures value { Leaves set.new result (with_range set.old word.now) }
    ensures ranges { OnOk result (AreRanges set.new) }
{
    let (first, last) = range_of(word)?;
    join(set, first, last)?;
    Ok(())
}

/// The ranges of a body, where there is a word.
fn some_ranges(alloc: Global, words: &mut Words) -> Result<RangeSet, PartError>
    ensures value { Reads words.new result (with_ranges 0 [] words.old) }
    ensures legal { IfOk result (λ set. is_range_set set ≡ true) }
{
    let mut set = RangeSet::new(alloc);
    for count in 0..MAX_RANGES {
        if words.is_empty() {
            return Ok(set);
        }
        add_range(&mut set, words.word()?)?;
    }
    if words.is_empty() {
        Ok(set)
    } else {
        Err(PartError::Cause(TextCause::TooLong))
    }
}

/// The ranges of a body.
#[tactic(auto, unfolding(crate::specs::RangeLines::ranges_of))]
pub fn ranges(alloc: Global, words: &mut Words) -> Result<RangeSet, PartError>
    ensures value { Reads words.new result (ranges_of words.old) }
    ensures legal { IfOk result (λ set. has_body_ranges set ≡ true) }
{
    if words.is_empty() {
        return Err(PartError::Cause(TextCause::MissingPart));
    }
    some_ranges(alloc, words)
}
