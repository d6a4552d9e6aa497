ghost use Rattle.std.specs.Prelude.{◌≡◌, ℕ, ◌+◌, ◌-◌, ◌<◌, ◌≤◌, ◌&&◌, ◌||◌, not, nat_le, nat_lt, slice_index_or, true, false, List, [], ◌∷◌, ◌++◌, length, take, drop, IfOk, OnOk, OnErr};
ghost use Rattle.std.specs.List.{AllWithin};
ghost use Rattle.rvd_fact.specs.Ranges.{AreRanges, has_address, in_range, HasJust, IsOnlyList, IsLeast};

use crate::keys::Addr;
use std::alloc::{AllocError, Global};
use std::marker::Model;

/// A set of addresses: its ranges (first, last), both ends inside, in rising order, none of which
/// meets or touches another.
#[derive(Debug, Drop)]
pub struct RangeSet {
    ranges: Vec<(Addr, Addr)>,
}

impl Model for RangeSet {
    ghost Value = { List (ℕ × ℕ) };

    ghost view = { λ set. set.ranges.items };

    ghost invariant = { λ set. AreRanges set.ranges.items };
}

impl RangeSet {
    /// The empty set.
    pub fn new(alloc: Global) -> RangeSet
        ensures { result ≡ [] }
    {
        RangeSet {
            ranges: Vec::new(alloc),
        }
    }

    /// The ranges in order. A set has one such list.
    pub fn ranges(&self) -> &[(Addr, Addr)]
        ensures value { result.now ≡ self.now }
        ensures ranges { AreRanges self.now }
        ensures only { IsOnlyList self.now }
    {
        self.ranges.as_slice()
    }

    /// An equal set.
    pub fn copy(&self) -> Result<RangeSet, AllocError>
        ensures { IfOk result (λ copy. copy ≡ self.now) }
    {
        let ranges = self.ranges.clone()?;
        Ok(RangeSet { ranges })
    }

    /// Whether an address is in the set. The time is logarithmic in the number of ranges.
    pub fn contains(&self, at: Addr) -> bool
        ensures { result ≡ has_address at self.now }
    {
        begins_by(&self.ranges, place_of(&self.ranges, at), at)
    }

    /// The least address, `None` where the set is empty.
    pub fn first(&self) -> Option<Addr>
        ensures { IsLeast self.now result }
    {
        match self.ranges.first() {
            None => None,
            Some(range) => Some(range.0),
        }
    }

    /// Adds the addresses from `first` to `last`. The time is constant (amortised) for a range
    /// above the others, and at most linear in the number of ranges. Nothing changes where memory
    /// is wanting.
    pub fn add(&mut self, first: Addr, last: Addr) -> Result<(), AllocError>
        requires { first ≤ last }
        ensures ok { OnOk result (HasJust self.new (λ a. has_address a self.old || in_range a (first, last))) }
        ensures err { OnErr result (self.new ≡ self.old) }
    {
        let from = place_of(&self.ranges, first.saturating_sub(1));
        let mut low = first;
        let mut high = last;
        let mut to = from;
        while begins_by(&self.ranges, to, high.saturating_add(1)) {
            let (start, end) = self.ranges[to];
            low = low.min(start);
            high = high.max(end);
            to += 1;
        }
        put_in_place(&mut self.ranges, from, to, (low, high))
    }

    /// Takes the addresses from `first` to `last` out. The time is linear in the number of ranges.
    /// Nothing changes where memory is wanting.
    pub fn remove(&mut self, first: Addr, last: Addr) -> Result<(), AllocError>
        requires { first ≤ last }
        ensures ok { OnOk result (HasJust self.new (λ a. has_address a self.old && not (in_range a (first, last)))) }
        ensures err { OnErr result (self.new ≡ self.old) }
    {
        let mut rest = Vec::new(*self.ranges.allocator());
        for (start, end) in &self.ranges {
            if *start < first {
                rest.push((*start, (*end).min(first - 1)))?;
            }
            if last < *end {
                rest.push(((*start).max(last + 1), *end))?;
            }
        }
        self.ranges = rest;
        Ok(())
    }

    /// The addresses of both sets. The time is linear in the number of their ranges.
    pub fn union(&self, other: &RangeSet) -> Result<RangeSet, AllocError>
        ensures { IfOk result (λ both. HasJust both (λ a. has_address a self.now || has_address a other.now)) }
    {
        let mut both = RangeSet::new(*self.ranges.allocator());
        let mut i = 0;
        let mut j = 0;
        while i < self.ranges.len() || j < other.ranges.len() {
            if is_next(&self.ranges, i, &other.ranges, j) {
                let (first, last) = self.ranges[i];
                both.add(first, last)?;
                i += 1;
            } else {
                let (first, last) = other.ranges[j];
                both.add(first, last)?;
                j += 1;
            }
        }
        Ok(both)
    }

    /// The addresses of this set that aren't in the other. For n ranges of this set and m of the
    /// other the time is at most proportional to n log m + m.
    pub fn subtract(&self, other: &RangeSet) -> Result<RangeSet, AllocError>
        ensures { IfOk result (λ rest. HasJust rest (λ a. has_address a self.now && not (has_address a other.now))) }
    {
        let mut rest = RangeSet::new(*self.ranges.allocator());
        for (first, last) in &self.ranges {
            other.add_gaps(*first, *last, &mut rest)?;
        }
        Ok(rest)
    }

    /// Adds the addresses from `first` up to `end`, which isn't one of them. There may be none.
    fn add_up_to(&mut self, first: Addr, end: Addr) -> Result<(), AllocError>
        requires { AreRanges self.old }
        ensures { OnOk result (HasJust self.new (λ a. has_address a self.old || (nat_le first a && nat_lt a end))) }
    {
        if first < end {
            self.add(first, end - 1)
        } else {
            Ok(())
        }
    }

    /// Adds to `out` the addresses from `first` to `last` that aren't in this set.
    fn add_gaps(&self, first: Addr, last: Addr, out: &mut RangeSet) -> Result<(), AllocError>
        requires order { first ≤ last }
        requires out { AreRanges out.old }
        ensures { OnOk result (HasJust out.new (λ a. has_address a out.old || (in_range a (first, last) && not (has_address a self.now)))) }
    {
        let mut from = first;
        let mut place = place_of(&self.ranges, first);
        while begins_by(&self.ranges, place, last) {
            let (start, end) = self.ranges[place];
            out.add_up_to(from, start)?;
            if last <= end {
                return Ok(());
            }
            from = end + 1;
            place += 1;
        }
        out.add(from, last)
    }
}

/// The number of ranges that end below an address. Where all but the last end below it, the time is
/// constant, and else logarithmic in the number of ranges.
fn place_of(ranges: &[(Addr, Addr)], at: Addr) -> usize
    requires { AreRanges ranges.now }
    ensures bound { result ≤ length ranges.now }
    ensures below { AllWithin (λ r. r.1 < at) ranges.now 0 result }
    ensures above { AllWithin (λ r. at ≤ r.1) ranges.now result (length ranges.now) }
{
    let count = ranges.len();
    if count >= 2 && ranges[count - 2].1 < at {
        return place_from(ranges, count - 1, at);
    }
    place_from(ranges, 0, at)
}

/// The same by bisection, from a number of ranges that are known to end below the address.
fn place_from(ranges: &[(Addr, Addr)], known: usize, at: Addr) -> usize
    requires ranges { AreRanges ranges.now }
    requires within { known ≤ length ranges.now }
    requires known { AllWithin (λ r. r.1 < at) ranges.now 0 known }
    ensures bound { result ≤ length ranges.now }
    ensures below { AllWithin (λ r. r.1 < at) ranges.now 0 result }
    ensures above { AllWithin (λ r. at ≤ r.1) ranges.now result (length ranges.now) }
{
    let mut low = known;
    let mut high = ranges.len();
    while low < high {
        let mid = low + (high - low) / 2;
        if ranges[mid].1 < at {
            low = mid + 1;
        } else {
            high = mid;
        }
    }
    low
}

/// Whether there is a range at a place, and it begins at an address or below.
fn begins_by(ranges: &[(Addr, Addr)], place: usize, at: Addr) -> bool
    ensures { result ≡ (nat_lt place (length ranges.now) && nat_le (slice_index_or ranges.now place (0, 0)).0 at) }
{
    place < ranges.len() && ranges[place].0 <= at
}

/// Whether the range at a place of the first list comes next, and not that at a place of the second:
/// it is there, and begins by the other where that is there.
fn is_next(own: &[(Addr, Addr)], i: usize, other: &[(Addr, Addr)], j: usize) -> bool
    ensures own { result ≡ true → i < length own.now }
    ensures other { result ≡ false → i < length own.now → j < length other.now }
{
    i < own.len() && (j >= other.len() || own[i].0 <= other[j].0)
}

/// Puts one range in the place of those from `from` up to `to`. Nothing changes where memory is
/// wanting.
fn put_in_place(
    ranges: &mut Vec<(Addr, Addr)>,
    from: usize,
    to: usize,
    range: (Addr, Addr),
) -> Result<(), AllocError>
    requires order { from ≤ to }
    requires bound { to ≤ length ranges.old.items }
    ensures ok { OnOk result (ranges.new.items ≡ take from ranges.old.items ++ range ∷ drop to ranges.old.items) }
    ensures err { OnErr result (ranges.new.items ≡ ranges.old.items) }
{
    if from == to {
        ranges.insert(from, range)?;
        return Ok(());
    }
    if to - from == 1 {
        ranges[from] = range;
        return Ok(());
    }
    let mut joined = Vec::from_slice(*ranges.allocator(), &ranges[..from])?;
    joined.push(range)?;
    joined.extend_from_slice(&ranges[to..])?;
    *ranges = joined;
    Ok(())
}

#[cfg(test)]
mod tests {
    use super::*;
    use std::test::Fail;

    #[test]
    fn ranges_join_split_and_subtract(rt: HostRuntime) -> Result<(), Fail> {
        let mut set = RangeSet::new(rt.alloc());
        set.add(4, 7)?;
        set.add(8, 9)?;
        assert_eq!(rt; set.ranges(), [(4, 9)].as_slice());
        let whole = set.copy()?;
        set.remove(5, 5)?;
        assert_eq!(rt; set.ranges(), [(4, 4), (6, 9)].as_slice());
        let mut five = RangeSet::new(rt.alloc());
        five.add(5, 5)?;
        assert_eq!(rt; set.union(&five)?.ranges(), [(4, 9)].as_slice());
        assert_eq!(rt;
            whole.subtract(&five)?.ranges(),
            [(4, 4), (6, 9)].as_slice()
        );
        Ok(())
    }
}
