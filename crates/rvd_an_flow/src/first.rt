ghost use Rattle.std.specs.Prelude.{◌≡◌, ◌++◌, codes, IfOk, OnOk, None};
ghost use Rattle.rvd_fact.specs.Memory.{word};
ghost use Rattle.rvd_ask.specs.Answers.{told};
ghost use Rattle.rvd_ask.specs.Flow.{bad_instruction};
ghost use Rattle.rvd_ask.specs.Places.{addition, error_key};
ghost use Rattle.rvd_an_flow.specs.Parts.{code_word, coded, coded_asks, coded_decides, decided, decided_asks, first_asks, first_decided, is_deciding};

use crate::opening::is_openable;
use crate::runs::add_run;
use crate::words::ask_code;
use rvd_ask::{Reads, View, addition, ask_cell};
use rvd_fact::{Addr, Change, Key, Kind, Text, Value};
use std::alloc::{AllocError, Global};

/// The most instructions of a run.
const LONGEST_RUN: u32 = 256;

fn error_key(at: Addr) -> Key
    ensures { result ≡ error_key at }
{
    Key {
        at,
        kind: Kind::Bookmark,
        sub: 4,
    }
}

// The bookmark of a word that is no instruction.
fn bookmark(alloc: Global, at: Addr) -> Result<Change, AllocError>
    ensures { IfOk result (λ change. change ≡ addition (error_key at) (Value.Bookmark bad_instruction)) }
{
    let text = Text::of(alloc, Vec::from_array(alloc, *b"Bad Instruction")?)?;
    Ok(addition(error_key(at), Value::Bookmark(text)))
}

// Adds the bookmark where none is there, and tells whether it was added.
fn add_bookmark<V: View>(
    alloc: Global,
    view: &V,
    reads: &mut Reads,
    changes: &mut Vec<Change>,
    at: Addr,
) -> Result<bool, AllocError>
    ensures answer { IfOk result (λ yes. yes ≡ coded_decides (V.program view.now) at None) }
    ensures changes { OnOk result (changes.new.items ≡ changes.old.items ++ coded (V.program view.now) at None) }
    ensures reads { OnOk result (reads.new.items ≡ reads.old.items ++ told (V.program view.now) (coded_asks (V.program view.now) at None)) }
{
    let cell = ask_cell(view, reads, error_key(at))?;
    if cell.is_some() {
        return Ok(false);
    }
    changes.push(bookmark(alloc, at)?)?;
    Ok(true)
}

// Adds what an openable start changes, and tells whether it isn't passed over.
fn add_coded<V: View>(
    alloc: Global,
    view: &V,
    reads: &mut Reads,
    changes: &mut Vec<Change>,
    at: Addr,
    code: Option<u32>,
) -> Result<bool, AllocError>
    requires { code ≡ code_word (word (V.program view.now) at) }
    ensures answer { IfOk result (λ yes. yes ≡ coded_decides (V.program view.now) at code) }
    ensures changes { OnOk result (changes.new.items ≡ changes.old.items ++ coded (V.program view.now) at code) }
    ensures reads { OnOk result (reads.new.items ≡ reads.old.items ++ told (V.program view.now) (coded_asks (V.program view.now) at code)) }
{
    match code {
        None => add_bookmark(alloc, view, reads, changes, at),
        Some(code) => {
            add_run(alloc, view, reads, changes, at, code, LONGEST_RUN - 1)?;
            Ok(true)
        }
    }
}

// Adds what a start changes, and tells whether it isn't passed over.
#[tactic(auto, unfolding(crate::specs::Parts::decided, crate::specs::Parts::decided_asks, crate::specs::Parts::is_deciding))]
fn add_decided<V: View>(
    alloc: Global,
    view: &V,
    reads: &mut Reads,
    changes: &mut Vec<Change>,
    at: Addr,
) -> Result<bool, AllocError>
    ensures answer { IfOk result (λ yes. yes ≡ is_deciding (V.program view.now) at) }
    ensures changes { OnOk result (changes.new.items ≡ changes.old.items ++ decided (V.program view.now) at) }
    ensures reads { OnOk result (reads.new.items ≡ reads.old.items ++ told (V.program view.now) (decided_asks (V.program view.now) at)) }
{
    let openable = is_openable(view, reads, at)?;
    if !openable {
        return Ok(false);
    }
    let code = ask_code(alloc, view, reads, at)?;
    add_coded(alloc, view, reads, changes, at, code)
}

/// Adds what the first of some starts changes that isn't passed over.
pub fn add_first<V: View>(
    alloc: Global,
    view: &V,
    reads: &mut Reads,
    changes: &mut Vec<Change>,
    starts: &[Addr],
) -> Result<(), AllocError>
    ensures changes { OnOk result (changes.new.items ≡ changes.old.items ++ first_decided (V.program view.now) starts.now) }
    ensures reads { OnOk result (reads.new.items ≡ reads.old.items ++ told (V.program view.now) (first_asks (V.program view.now) starts.now)) }
{
    for &start in starts {
        if add_decided(alloc, view, reads, changes, start)? {
            return Ok(());
        }
    }
    Ok(())
}
