ghost use Rattle.std.specs.Prelude.{◌≡◌, ◌++◌, IfOk, OnOk};
ghost use Rattle.std.specs.Option.{option_copied};
ghost use Rattle.rvd_ask.specs.Answers.{told};
ghost use Rattle.rvd_ask.specs.Flow.{block_asks, block_may_hold, cell_may_hold, openable, openable_asks};

use rvd_ask::{Reads, View, ask_block, ask_cell, ask_free};
use rvd_fact::{Addr, Cell, Key, Kind, Value};
use std::alloc::AllocError;

fn may_hold(start: Addr, at: Addr, cell: Option<&Cell>) -> bool
    ensures { result ≡ cell_may_hold start at (option_copied cell.entry) }
{
    let Some(cell) = cell else {
        return false;
    };
    match &cell.value {
        Value::Block {
            len,
            perm,
            bytes: Some(_),
        } => perm.x && u64::from(at) + 4 <= u64::from(start) + u64::from(*len),
        _ => false,
    }
}

// Whether the block that begins at `start` is executable and initialised, and has the four bytes from `at` on.
fn block_may_hold<V: View>(
    view: &V,
    reads: &mut Reads,
    start: Option<Addr>,
    at: Addr,
) -> Result<bool, AllocError>
    ensures answer { IfOk result (λ yes. yes ≡ block_may_hold (V.program view.now) at start) }
    ensures reads { OnOk result (reads.new.items ≡ reads.old.items ++ told (V.program view.now) (block_asks start)) }
{
    match start {
        None => Ok(false),
        Some(start) => {
            let key = Key {
                at: start,
                kind: Kind::Block,
                sub: 0,
            };
            let cell = ask_cell(view, reads, key)?;
            Ok(may_hold(start, at, cell))
        }
    }
}

/// Whether an instruction may be put at an address.
#[tactic(auto, unfolding(rvd_ask::specs::Flow::openable, rvd_ask::specs::Flow::openable_asks))]
pub fn is_openable<V: View>(view: &V, reads: &mut Reads, at: Addr) -> Result<bool, AllocError>
    ensures answer { IfOk result (λ yes. yes ≡ openable (V.program view.now) at) }
    ensures reads { OnOk result (reads.new.items ≡ reads.old.items ++ told (V.program view.now) (openable_asks (V.program view.now) at)) }
{
    if at % 4 != 0 {
        return Ok(false);
    }
    let start = ask_block(view, reads, at)?;
    let executable = block_may_hold(view, reads, start, at)?;
    if !executable {
        return Ok(false);
    }
    let free = ask_free(view, reads, at, 4)?;
    if !free {
        return Ok(false);
    }
    let key = Key {
        at,
        kind: Kind::Unit,
        sub: 0,
    };
    let cell = ask_cell(view, reads, key)?;
    Ok(cell.is_none())
}
