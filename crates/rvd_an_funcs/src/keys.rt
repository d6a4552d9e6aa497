ghost use Rattle.std.specs.Prelude.{◌≡◌};
ghost use Rattle.rvd_fact.specs.Memory.{func_key, unit_key};
ghost use Rattle.rvd_ask.specs.Places.{body_key};

use rvd_fact::{Addr, Key, Kind};

/// The key of the unit at an address.
pub fn unit_key(at: Addr) -> Key
    ensures { result ≡ unit_key at }
{
    Key {
        at,
        kind: Kind::Unit,
        sub: 0,
    }
}

/// The key of the function at an address.
pub fn func_key(at: Addr) -> Key
    ensures { result ≡ func_key at }
{
    Key {
        at,
        kind: Kind::Func,
        sub: 0,
    }
}

/// The key of the body of the function at an address.
pub fn body_key(at: Addr) -> Key
    ensures { result ≡ body_key at }
{
    Key {
        at,
        kind: Kind::Body,
        sub: 0,
    }
}
