//! The same loop over two locks.
ghost use Rattle.std.specs.Prelude.{◌≡◌, ◌+◌, ◌^◌, ◌≤◌, ℕ, false, All, IfOk};

use crate::blank::Blank;
use rvd_turn::{OutOfMemory, Pass, Turn};
use std::alloc::Global;
use std::sync::{Mutex, Wait};
use std::thread;
use std::thread::Threads;

fn take_and_give<R: Wait>(rt: &R, turn: &Turn<Blank>, mut pass: Pass<Blank>, rounds: u32)
    requires { (pass.turn_id ≡ turn.now) × (pass.turn ≡ false) }
{
    for _ in 0..rounds {
        let value = turn.take(rt, &mut pass);
        turn.give(&mut pass, value);
    }
}

fn split_all(
    alloc: Global,
    turn: &Turn<Blank>,
    first: &mut Pass<Blank>,
    threads: usize,
) -> Result<Vec<Pass<Blank>>, OutOfMemory>
    requires { (first.old.turn_id ≡ turn.now) × (first.old.made ≡ 1) × (threads ≤ 64) }
    ensures { IfOk result (λ passes. All (λ p. (p.turn_id ≡ turn.now) × (p.turn ≡ false)) passes.items) }
{
    let mut passes = Vec::new(alloc);
    for _ in 0..threads {
        passes.push(turn.split(alloc, first)?)?;
    }
    Ok(passes)
}

/// Each of `threads` threads takes the turn and gives it back, `rounds` times.
pub fn by_turns<R: Threads + Wait + Sync>(
    rt: &R,
    alloc: Global,
    threads: usize,
    rounds: u32,
) -> Result<(), OutOfMemory>
    requires { threads ≤ 64 }
{
    let (turn, mut first) = Turn::new(alloc, Blank::new())?;
    let passes = split_all(alloc, &turn, &mut first, threads)?;
    let shared = &turn;
    thread::map_vec(
        rt,
        passes,
        &|pass: Pass<Blank>| -> ()
            requires { (pass.turn_id ≡ shared.now) × (pass.turn ≡ false) }
        { take_and_give(rt, shared, pass, rounds) },
    )?;
    Ok(())
}

fn lock_and_release<R: Wait>(rt: &R, lock: &Mutex<Blank>, rounds: u32) {
    for _ in 0..rounds {
        let _value = lock.lock(rt);
    }
}

/// Each of `threads` threads takes a `Mutex` and releases it, `rounds` times.
pub fn by_mutex<R: Threads + Wait + Sync>(
    rt: &R,
    alloc: Global,
    threads: usize,
    rounds: u32,
) -> Result<(), OutOfMemory> {
    let lock = Mutex::new(Blank::new());
    let shared = &lock;
    thread::map_indices(
        rt,
        alloc,
        threads,
        &|_i| lock_and_release(rt, shared, rounds),
    )?;
    Ok(())
}
