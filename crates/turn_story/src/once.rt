//! The shortest life of a turn.
ghost use Rattle.std.specs.Prelude.{◌≡◌, ◌+◌, ◌<◌, [], IfOk};

use crate::story::Story;
use rvd_turn::{OutOfMemory, Turn};
use std::alloc::Global;

/// A turn round a new story is split once and met again, and closes to the story that it was made with.
pub fn split_and_meet(alloc: Global, title: u32) -> Result<Story, OutOfMemory>
    ensures { IfOk result (λ s. (s.title ≡ title) × (s.notes ≡ [])) }
{
    let (turn, mut first) = Turn::new(alloc, Story::new(alloc, title))?;
    let second = turn.split(alloc, &mut first)?;
    turn.meet(&mut first, second);
    Ok(turn.close(first))
}
