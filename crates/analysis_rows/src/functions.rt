use rvd_an_funcs::{BodyRule, FuncsRule};
use rvd_ask::{Proposal, Rule};
use rvd_fact::{Addr, Bytes, Cell, Change, Key, Kind, Perm, RefClass, Source, Value};
use rvd_program::Program;
use std::alloc::{AllocError, Global};
use std::test::Fail;

// A start that calls a function, which returns, and then stays where it is.
const UNITS: [(Addr, u32); 4] = [
    (0x10054, 0x0010_0513),
    (0x10058, 0x0080_00ef),
    (0x1005c, 0x0000_006f),
    (0x10060, 0x0000_8067),
];

const REFS: [(Addr, RefClass, Addr); 2] = [
    (0x10058, RefClass::Call, 0x10060),
    (0x1005c, RefClass::Jump, 0x1005c),
];

fn added(at: Addr, kind: Kind, value: Value, source: Source) -> Change {
    Change {
        key: Key { at, kind, sub: 0 },
        before: None,
        after: Some(Cell { value, source }),
    }
}

fn block(alloc: Global) -> Result<Change, AllocError> {
    let mut list: Vec<u8> = Vec::new(alloc);
    for (_, word) in UNITS {
        list.extend_from_slice(&word.to_le_bytes())?;
    }
    let value = Value::Block {
        len: 16,
        perm: Perm {
            r: true,
            w: false,
            x: true,
        },
        bytes: Some(Bytes::of(alloc, list)?),
    };
    Ok(added(0x10054, Kind::Block, value, Source::Imported))
}

fn apply(program: &mut Program, changes: &[Change]) -> Result<(), Fail> {
    if !program.fits(changes)? {
        return Err(Fail::new("the facts don't fit"));
    }
    program.apply(changes)?;
    Ok(())
}

fn sample(alloc: Global) -> Result<Program, Fail> {
    let analysis = Source::Analysis;
    let mut changes = Vec::new(alloc);
    changes.push(block(alloc)?)?;
    for (at, word) in UNITS {
        changes.push(added(at, Kind::Unit, Value::Code(word), analysis))?;
    }
    for (at, class, to) in REFS {
        changes.push(added(at, Kind::Ref, Value::Ref { to, class }, analysis))?;
    }
    changes.push(added(0x10054, Kind::Func, Value::Func, Source::UserDefined))?;
    let mut program = Program::empty(alloc)?;
    apply(&mut program, &changes)?;
    Ok(program)
}

fn function(proposal: &Proposal) -> Option<Addr> {
    let change = proposal.changes().first()?;
    match &change.after {
        Some(
            Cell {
                value: Value::Func,
                ..
            },
        ) => Some(change.key.at),
        _ => None,
    }
}

fn body(proposal: &Proposal) -> Option<&[(Addr, Addr)]> {
    let change = proposal.changes().first()?;
    match &change.after {
        Some(
            Cell {
                value: Value::Body(set),
                ..
            },
        ) => Some(set.ranges()),
        _ => None,
    }
}

#[test]
fn functions_begin_at_targets_of_calls_and_end_before_others(rt: HostRuntime) -> Result<(), Fail> {
    let alloc = rt.alloc();
    let mut program = sample(alloc)?;
    for (at, want, row) in [
        (0x10060, Some(0x10060), "the target of a call"),
        (0x1005c, None, "the target of a jump"),
        (0x10054, None, "a function already"),
    ] {
        let proposal = FuncsRule.propose(alloc, &program, at)?;
        assert_eq!(rt; function(&proposal), want, "{row}");
    }
    let found = FuncsRule.propose(alloc, &program, 0x10060)?;
    apply(&mut program, found.changes())?;
    for (at, want, row) in [
        (0x10060, Some((0x10060, 0x10063)), "one instruction"),
        (0x10054, Some((0x10054, 0x1005f)), "up to a jump"),
        (0x10058, None, "no function"),
    ] {
        let proposal = BodyRule.propose(alloc, &program, at)?;
        let ranges = body(&proposal);
        assert_eq!(rt; ranges.map(|list| list.len()), want.map(|_| 1), "{row}");
        assert_eq!(rt;
            ranges.and_then(|list| list.first().copied()),
            want,
            "{row}"
        );
    }
    Ok(())
}
