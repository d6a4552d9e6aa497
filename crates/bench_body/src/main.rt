//! Proposes the body of a long function: `bench_body COUNT` makes a program with one function of COUNT instructions, of
//! which each sixteenth is a branch over the next one, proposes the body of that function, and prints its ranges. How often
//! something was asked, and how long the proposal took, goes to standard error.
#![tactic(auto)]

use anyhow::{Context, Result, bail, ensure};
use rvd_an_funcs::BodyRule;
use rvd_ask::{Proposal, Rule};
use rvd_fact::{Addr, Bytes, Cell, Change, Key, Kind, Perm, RefClass, Source, Value};
use rvd_program::Program;
use std::alloc::{AllocError, Global};
use std::env;
use std::time::Instant;

// Where the function begins.
const ENTRY: Addr = 0x1_0000;

// The most instructions that a function may have here.
const MOST: u32 = 0x1_0000;

// addi zero, zero, 0; beq zero, zero, 8; and jalr zero, 0(ra).
const NOTHING: u32 = 0x0000_0013;

const BRANCH: u32 = 0x0000_0463;

const RETURN: u32 = 0x0000_8067;

fn word(index: u32, count: u32) -> u32 {
    if count.saturating_sub(index) <= 2 {
        RETURN
    } else if index % 16 == 8 {
        BRANCH
    } else {
        NOTHING
    }
}

fn fact(at: Addr, kind: Kind, value: Value) -> Change {
    let source = Source::Imported;
    Change {
        key: Key { at, kind, sub: 0 },
        before: None,
        after: Some(Cell { value, source }),
    }
}

fn memory(alloc: Global, count: u32) -> Result<Change, AllocError> {
    let mut bytes: Vec<u8> = Vec::new(alloc);
    for index in 0..count {
        bytes.extend_from_slice(&word(index, count).to_le_bytes())?;
    }
    let perm = Perm {
        r: true,
        w: false,
        x: true,
    };
    let value = Value::Block {
        len: count.wrapping_mul(4),
        perm,
        bytes: Some(Bytes::of(alloc, bytes)?),
    };
    Ok(fact(ENTRY, Kind::Block, value))
}

fn add_instruction(facts: &mut Vec<Change>, at: Addr, word: u32) -> Result<(), AllocError> {
    facts.push(fact(at, Kind::Unit, Value::Code(word)))?;
    if word == BRANCH {
        let to = at.wrapping_add(8);
        let class = RefClass::Cond;
        facts.push(fact(at, Kind::Ref, Value::Ref { to, class }))?;
    }
    Ok(())
}

fn facts(alloc: Global, count: u32) -> Result<Vec<Change>, AllocError> {
    let mut facts = Vec::new(alloc);
    facts.push(memory(alloc, count)?)?;
    facts.push(fact(ENTRY, Kind::Func, Value::Func))?;
    for index in 0..count {
        let at = ENTRY.wrapping_add(index.wrapping_mul(4));
        add_instruction(&mut facts, at, word(index, count))?;
    }
    Ok(facts)
}

fn program(alloc: Global, count: u32) -> Result<Program> {
    let facts = facts(alloc, count)?;
    let mut program = Program::empty(alloc)?;
    if !program.fits(&facts)? {
        bail!("the facts don't fit");
    }
    program.apply(&facts)?;
    Ok(program)
}

fn print_body(rt: &impl Print, proposal: &Proposal) -> Result<()> {
    for change in proposal.changes() {
        if let Some(
            Cell {
                value: Value::Body(set),
                ..
            },
        ) = &change.after
        {
            for (first, last) in set.ranges() {
                println!(rt; "{first:08x}-{last:08x}")?;
            }
        }
    }
    Ok(())
}

fn main(rt: HostRuntime) -> Result<()> {
    let mut args = env::args(&rt)?;
    let usage = "usage: bench_body COUNT";
    let _program = args.next();
    let count = args.next().context(usage)?.as_str().parse::<u32>()?;
    ensure!((2..=MOST).contains(&count), "COUNT is from 2 to {MOST}");
    let program = program(rt.alloc(), count)?;
    let start = Instant::now(&rt)?;
    let proposal = BodyRule.propose(rt.alloc(), &program, ENTRY)?;
    let took = start.elapsed(&rt)?.as_millis();
    print_body(&rt, &proposal)?;
    let asks = proposal.reads().len();
    eprintln!(rt; "{asks} asks in {took} ms")?;
    Ok(())
}
