//! Times a lock: threads take it and give it back, with nothing in between.
//!
//! `bench_turn LOCK THREADS ROUNDS`: LOCK is `turn` (of `rvd_turn`), `mutex` (of std) or `both`, and each of
//! THREADS threads takes the lock and gives it back ROUNDS times. It prints a line for each lock, the same
//! whatever the schedule. `scripts/bench_turn.sh` takes the time from outside.
#![tactic(auto)]

mod blank;
mod locks;

use anyhow::{Context, Result, bail, ensure};
use locks::{by_mutex, by_turns};
use std::env;

/// The most threads that may be asked for.
const MOST_THREADS: usize = 64;

fn main(rt: HostRuntime) -> Result<()> {
    let words: Vec<String> = env::args(&rt)?.collect(rt.alloc())?;
    let [_, lock, threads, rounds] = words.as_slice() else {
        bail!("usage: bench_turn turn|mutex|both THREADS ROUNDS");
    };
    let lock = lock.as_str();
    ensure!(
        lock == "turn" || lock == "mutex" || lock == "both",
        "no lock: {lock}"
    );
    let threads = threads.parse::<usize>().context("THREADS is no number")?;
    ensure!(threads <= MOST_THREADS, "more than {MOST_THREADS} threads");
    let rounds = rounds.parse::<u32>().context("ROUNDS is no number")?;
    if lock != "mutex" {
        by_turns(&rt, rt.alloc(), threads, rounds)?;
        println!(rt; "turn: {threads} threads, {rounds} rounds each")?;
    }
    if lock != "turn" {
        by_mutex(&rt, rt.alloc(), threads, rounds)?;
        println!(rt; "mutex: {threads} threads, {rounds} rounds each")?;
    }
    Ok(())
}
