ghost use Rattle.std.specs.Prelude.{◌≡◌, ℕ, ◌+◌, ◌^◌, ◌≤◌, true, IfOk};
ghost use Rattle.rvd_fact.specs.Ranges.{AreRanges};
ghost use Rattle.rvd_ask.specs.Reach.{has, spans};

use rvd_fact::{Addr, RangeSet};
use std::alloc::{AllocError, Global};

// How far the last byte of an instruction is from its first.
const LAST: u32 = 3;

/// The bytes of instructions. The time is proportional to their number where they are in order.
pub fn ranges_of(alloc: Global, members: &[Addr]) -> Result<RangeSet, AllocError>
    requires ends { (z : ℕ) → has z members.now ≡ true → z + 4 ≤ 2 ^ 32 }
    requires ranges { AreRanges (spans members.now) }
    ensures { IfOk result (λ set. set ≡ spans members.now) }
{
    let mut set = RangeSet::new(alloc);
    for at in members {
        set.add(*at, *at + LAST)?;
    }
    Ok(set)
}
