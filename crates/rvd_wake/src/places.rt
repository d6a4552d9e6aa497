ghost use Rattle.std.specs.Prelude.{◌≡◌, ◌==◌, [], ◌∷◌, IfOk};
ghost use Rattle.rvd_wake.specs.Walks.{AreJust};
ghost use Rattle.rvd_wake.specs.Picks.{at_if};

use rvd_fact::{Addr, Key};
use std::alloc::{AllocError, Global};

/// An address alone.
pub fn only(alloc: Global, at: Addr) -> Result<Vec<Addr>, AllocError>
    ensures items { IfOk result (λ places. places.items ≡ at ∷ []) }
    ensures just { IfOk result (λ places. AreJust (λ a. a == at) places.items) }
{
    let mut places = Vec::new(alloc);
    places.push(at)?;
    Ok(places)
}

/// The address of a key where a test says yes.
pub fn at_if(picked: bool, key: &Key) -> Option<Addr>
    ensures { result ≡ at_if picked key.now }
{
    if picked { Some(key.at) } else { None }
}
