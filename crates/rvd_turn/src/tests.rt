ghost use Rattle.std.specs.Prelude.{◌≡◌, []};

use crate::{OutOfMemory, Pass, Storied, Turn};
use std::alloc::Global;
use std::test::Fail;

#[derive(Drop)]
struct Notes {
    list: Vec<(u32, u64)>,
}

impl Storied for Notes {
    type Head = u8;

    type Entry = (u32, u64);

    ghost head = { λ _. 0 };

    ghost entries = { λ n. n.list.items };

    ghost owner = { λ e. e.0 };

    fn count(&self) -> u64 {
        self.list.len() as u64
    }
}

fn no_notes(alloc: Global) -> Notes
    ensures { result.list.items ≡ [] }
{
    Notes {
        list: Vec::new(alloc),
    }
}

fn is_send<T: Send>(_value: &T) -> bool {
    true
}

fn is_sync<T: Sync>(_value: &T) -> bool {
    true
}

// Whatever the value is, as long as it may be sent to another thread itself.
fn may_cross<T: Storied + Send>(turn: &Turn<T>, pass: &Pass<T>) -> bool {
    is_send(turn) && is_sync(turn) && is_send(pass)
}

#[test]
fn a_turn_may_be_shared_by_threads_and_a_pass_sent_to_one(rt: HostRuntime) -> Result<(), Fail> {
    let made: Result<(Turn<Notes>, Pass<Notes>), OutOfMemory> = Turn::new(
        rt.alloc(),
        no_notes(rt.alloc()),
    );
    let (turn, mut first) = made?;
    let second = turn.split(rt.alloc(), &mut first)?;
    assert!(rt; may_cross(&turn, &second));
    turn.meet(&mut first, second);
    Ok(())
}
