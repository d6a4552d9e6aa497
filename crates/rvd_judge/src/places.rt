ghost use Rattle.std.specs.Prelude.{◌≡◌, ◌<◌, ◌^◌, ◌↔◌, length, map, IsNone};
ghost use Rattle.rvd_ask.specs.Order.{same_item};
ghost use Rattle.rvd_machine.specs.Exact.{first_misfit};

use rvd_ask::{Item, Proposal};
use std::cmp::Ordering;

/// The first place, from 0, where the items of proposals aren't those of a job: the number of the job's items where the
/// proposals go on behind them. None where they are the same items in order.
pub fn misfit(items: &[Item], proposals: &[Proposal]) -> Option<u32>
    requires { length items.now < 2 ^ 32 }
    ensures place { result ≡ first_misfit items.now proposals.now }
    ensures none { IsNone result ↔ (map (λ p. p.item) proposals.now ≡ items.now) }
{
    for (place, item) in items.iter().enumerate() {
        if place >= proposals.len() {
            return Some(place as u32);
        }
        if !is_same(*item, proposals[place].item()) {
            return Some(place as u32);
        }
    }
    if proposals.len() > items.len() {
        return Some(items.len() as u32);
    }
    None
}

fn is_same(a: Item, b: Item) -> bool
    ensures { result ≡ same_item a b }
{
    match a.order(&b) {
        Ordering::Equal => true,
        Ordering::Less | Ordering::Greater => false,
    }
}
