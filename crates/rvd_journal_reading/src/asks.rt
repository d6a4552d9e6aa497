ghost use Rattle.std.specs.Prelude.{◌≡◌};
ghost use Rattle.rvd_reading.specs.Steps.{with_rest};
ghost use Rattle.rvd_journal_reading.specs.Asks.{ask_of, bytes_ask_of, to_ask_of};

use rvd_ask::Ask;
use rvd_reading::{Rest, Unread, class, hex8, key, number};

#[tactic(auto, unfolding(crate::specs::Asks::bytes_ask_of))]
fn bytes_ask(rest: &mut Rest) -> Result<Ask, Unread>
    ensures { bytes_ask_of rest.old ≡ with_rest rest.new result }
{
    let at = hex8(rest)?;
    rest.expect(b" ")?;
    let len = number(rest, 65535)? as u16;
    Ok(Ask::Bytes(at, len))
}

#[tactic(auto, unfolding(crate::specs::Asks::to_ask_of))]
fn to_ask(rest: &mut Rest) -> Result<Ask, Unread>
    ensures { to_ask_of rest.old ≡ with_rest rest.new result }
{
    let at = hex8(rest)?;
    rest.expect(b" ")?;
    let class = class(rest)?;
    Ok(Ask::To(at, class))
}

/// An ask.
#[tactic(auto, unfolding(crate::specs::Asks::ask_of))]
pub fn ask(rest: &mut Rest) -> Result<Ask, Unread>
    ensures { ask_of rest.old ≡ with_rest rest.new result }
{
    if rest.strip(b"cell ") {
        Ok(Ask::Cell(key(rest)?))
    } else if rest.strip(b"cover ") {
        Ok(Ask::Cover(hex8(rest)?))
    } else if rest.strip(b"block ") {
        Ok(Ask::Block(hex8(rest)?))
    } else if rest.strip(b"bytes ") {
        bytes_ask(rest)
    } else if rest.strip(b"to ") {
        to_ask(rest)
    } else if rest.strip(b"from ") {
        Ok(Ask::From(hex8(rest)?))
    } else {
        Err(Unread)
    }
}
