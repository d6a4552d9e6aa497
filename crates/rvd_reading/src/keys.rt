ghost use Rattle.std.specs.Prelude.{◌≡◌};
ghost use Rattle.rvd_reading.specs.Steps.{with_rest};
ghost use Rattle.rvd_reading.specs.Keys.{key_of};

use crate::errors::Unread;
use crate::fixed_words::kind;
use crate::numbers::{hex8, number};
use crate::rest::Rest;
use rvd_fact::Key;

/// A key: its kind, its address in eight digits and its number.
#[tactic(auto, unfolding(crate::specs::Keys::key_of))]
pub fn key(rest: &mut Rest) -> Result<Key, Unread>
    ensures { key_of rest.old ≡ with_rest rest.new result }
{
    let kind = kind(rest)?;
    rest.expect(b" ")?;
    let at = hex8(rest)?;
    rest.expect(b" ")?;
    let sub = number(rest, 255)? as u8;
    Ok(Key { at, kind, sub })
}
