ghost use Rattle.std.specs.Prelude.{◌≡◌};
ghost use Rattle.rvd_reading.specs.Steps.{with_rest};
ghost use Rattle.rvd_reading.specs.Actors.{actor_of, numbered};

use crate::errors::Unread;
use crate::numbers::number;
use crate::rest::Rest;
use rvd_event::Names;

/// The number of an actor, by its number from 1 to `most` among its like, behind the numbers of others.
fn numbered(rest: &mut Rest, others: u32, most: u32) -> Result<u32, Unread>
    ensures { numbered others most rest.old ≡ with_rest rest.new result }
{
    let number = number(rest, u64::from(most))? as u32;
    if number == 0 {
        return Err(Unread);
    }
    match others.checked_add(number) {
        Some(actor) => Ok(actor),
        None => Err(Unread),
    }
}

/// An actor: `s` and the number of a session, or `w` and the number of a worker.
#[tactic(auto, unfolding(crate::specs::Actors::actor_of))]
pub fn actor(rest: &mut Rest, names: Names) -> Result<u32, Unread>
    ensures { actor_of names rest.old ≡ with_rest rest.new result }
{
    if rest.strip(b"s") {
        numbered(rest, 0, names.sessions)
    } else if rest.strip(b"w") {
        numbered(rest, names.sessions, names.workers)
    } else {
        Err(Unread)
    }
}
