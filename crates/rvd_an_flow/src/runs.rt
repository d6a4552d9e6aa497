ghost use Rattle.std.specs.Prelude.{◌≡◌, ◌+◌, ◌++◌, OnOk, Some};
ghost use Rattle.rvd_ask.specs.Places.{addition};
ghost use Rattle.rvd_fact.specs.Memory.{unit_key, word};
ghost use Rattle.rvd_ask.specs.Answers.{told};
ghost use Rattle.rvd_an_flow.specs.Parts.{behind_asks, units};

use crate::words::ready_word;
use rvd_ask::{Reads, View, addition};
use rvd_decode::falls_through;
use rvd_fact::{Addr, Change, Key, Kind, Value};
use std::alloc::{AllocError, Global};

fn unit(at: Addr, word: u32) -> Change
    ensures { result ≡ addition (unit_key at) (Value.Code word) }
{
    let key = Key {
        at,
        kind: Kind::Unit,
        sub: 0,
    };
    addition(key, Value::Code(word))
}

/// Adds the units of a run that begins with the instruction `code` at an address, and has room for `room` more behind it.
#[tactic(auto, unfolding(crate::specs::Parts::units, crate::specs::Parts::behind_asks))]
pub fn add_run<V: View>(
    alloc: Global,
    view: &V,
    reads: &mut Reads,
    changes: &mut Vec<Change>,
    at: Addr,
    code: u32,
    room: u32,
) -> Result<(), AllocError>
    requires { word (V.program view.now) at ≡ Some code }
    ensures changes { OnOk result (changes.new.items ≡ changes.old.items ++ units (V.program view.now) at room) }
    ensures reads { OnOk result (reads.new.items ≡ reads.old.items ++ told (V.program view.now) (behind_asks (V.program view.now) at room)) }
{
    changes.push(unit(at, code))?;
    if room == 0 || !falls_through(code) {
        return Ok(());
    }
    let next = at.wrapping_add(4);
    match ready_word(alloc, view, reads, next)? {
        None => Ok(()),
        Some(code) => add_run(alloc, view, reads, changes, next, code, room - 1),
    }
}
