//! What one writer does in its thread.
ghost use Rattle.std.specs.Prelude.{◌≡◌, ℕ, [], ◌∷◌, ◌++◌, map, true};
ghost use Rattle.turn_story.specs.Written.{note};
ghost use Rattle.turn_story.specs.Runs.{IsDone};

use crate::story::Story;
use crate::writer::Writer;
use rvd_turn::{Pass, Turn};
use std::sync::Wait;

/// A writer, and the numbers that it is to write.
#[derive(Drop)]
pub struct Task {
    /// Who writes.
    pub writer: Writer,
    /// What it writes, in order.
    pub numbers: Vec<u64>,
}

/// What became of a task.
#[derive(Drop)]
pub struct Done {
    /// The writer's pass.
    pub pass: Pass<Story>,
    /// Whether all its numbers were written; else memory ran out.
    pub whole: bool,
}

// Writes the numbers, as far as there is memory.
fn write_all<R: Wait>(rt: &R, turn: &Turn<Story>, writer: &mut Writer, numbers: &[u64]) -> bool
    requires { writer.old.turn_id ≡ turn.now }
    ensures same { writer.new ≡ record writer.old { own = writer.new.own; seen = writer.new.seen } }
    ensures told { result ≡ true → writer.new.own ≡ writer.old.own ++ map (note writer.old.number) numbers.now }
{
    for number in numbers {
        if writer.write(rt, turn, *number).is_err() {
            return false;
        }
    }
    true
}

pub(crate) fn work<R: Wait>(rt: &R, turn: &Turn<Story>, task: Task) -> Done
    requires { task.writer.turn_id ≡ turn.now }
    ensures { IsDone task result }
{
    let Task {
        mut writer,
        numbers,
    } = task;
    let whole = write_all(rt, turn, &mut writer, numbers.as_slice());
    Done {
        pass: writer.finish(),
        whole,
    }
}
