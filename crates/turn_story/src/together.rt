//! Any number of writers, each in a thread of its own.
ghost use Rattle.std.specs.Prelude.{◌≡◌, ℕ, ◌+◌, ◌^◌, ◌<◌, List, [], length, map, true, false, All, IfOk};
ghost use Rattle.rvd_turn.specs.Known.{met_all};
ghost use Rattle.turn_story.specs.Runs.{IsDone, AreReady, AreDone, EachWrote};

use crate::story::Story;
use crate::task::{Done, Task, work};
use crate::writer::Writer;
use rvd_turn::{OutOfMemory, Pass, Turn};
use std::alloc::{AllocError, Global};
use std::sync::Wait;
use std::thread;
use std::thread::Threads;

// A pass for each list, from the number 1 on.
fn split_all(
    alloc: Global,
    turn: &Turn<Story>,
    first: &mut Pass<Story>,
    lists: Vec<Vec<u64>>,
) -> Result<Vec<Task>, OutOfMemory>
    requires this_turn { first.old.turn_id ≡ turn.now }
    requires lead { first.old.made ≡ 1 }
    requires few { length lists.items < 2 ^ 16 }
    ensures { IfOk result (λ tasks. (first.new ≡ record first.old { made = length lists.items + 1 }) × AreReady first.old 1 tasks.items lists.items) }
{
    let mut tasks = Vec::new(alloc);
    let mut owner = 1u32;
    for numbers in lists {
        let writer = Writer::new(owner, turn.split(alloc, first)?);
        tasks.push(Task { writer, numbers })?;
        owner += 1;
    }
    Ok(tasks)
}

// Each task in a thread of its own.
fn work_all<R: Threads + Wait + Sync>(
    rt: &R,
    turn: &Turn<Story>,
    tasks: Vec<Task>,
) -> Result<Vec<Done>, OutOfMemory>
    requires { All (λ j. j.writer.turn_id ≡ turn.now) tasks.items }
    ensures { IfOk result (λ all. AreDone tasks.items all.items) }
{
    let all = thread::map_vec(
        rt,
        tasks,
        &|task: Task| -> Done
            requires { task.writer.turn_id ≡ turn.now }
            ensures { IsDone task result }
        { work(rt, turn, task) },
    )?;
    Ok(all)
}

fn all_whole(all: &[Done]) -> bool
    ensures { result ≡ true → All (λ d. d.whole ≡ true) all.now }
{
    for done in all {
        if !done.whole {
            return false;
        }
    }
    true
}

fn meet_all(turn: &Turn<Story>, first: &mut Pass<Story>, all: Vec<Done>)
    requires this_turn { first.old.turn_id ≡ turn.now }
    requires no_turn { first.old.turn ≡ false }
    requires others { All (λ d. (d.pass.turn_id ≡ turn.now) × (d.pass.turn ≡ false)) all.items }
    ensures { first.new ≡ met_all first.old (map (λ d. d.pass) all.items) }
{
    for done in all {
        turn.meet(first, done.pass);
    }
}

/// A story with this title, written by as many threads as there are lists: the writer of the k-th list, from 1
/// on, has the number k and writes the list's numbers. The story has of each writer just these, in order; how
/// the writers' notes are mixed is not said. `OutOfMemory` comes where memory ran out in any thread.
pub fn write_together<R: Threads + Wait + Sync>(
    rt: &R,
    alloc: Global,
    title: u32,
    lists: Vec<Vec<u64>>,
) -> Result<Story, OutOfMemory>
    requires { length lists.items < 2 ^ 16 }
    ensures title { IfOk result (λ s. s.title ≡ title) }
    ensures each { IfOk result (λ s. EachWrote s.notes 1 lists.items) }
{
    let (turn, mut first) = Turn::new(alloc, Story::new(alloc, title))?;
    let tasks = split_all(alloc, &turn, &mut first, lists)?;
    let all = work_all(rt, &turn, tasks)?;
    let whole = all_whole(all.as_slice());
    meet_all(&turn, &mut first, all);
    let story = turn.close(first);
    if whole { Ok(story) } else { Err(AllocError) }
}
