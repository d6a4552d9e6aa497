ghost use Rattle.std.specs.Prelude.{◌≤◌};

use rvd_ask::{Analyzer, Item};
use rvd_elf::import;
use rvd_fact::{Addr, Cell, Change, Key, Kind, RangeSet, RefClass, Source, Value};
use rvd_program::Program;
use rvd_wake::{candidates, propose, woken};
use sample_files::FILE_A;
use std::alloc::{AllocError, Global};
use std::test::Fail;

const FLOW: Analyzer = Analyzer::Flow;

const REFS: Analyzer = Analyzer::Refs;

const FUNCS: Analyzer = Analyzer::Funcs;

const BODY: Analyzer = Analyzer::Body;

const STRINGS: Analyzer = Analyzer::Strings;

// The instructions of the sample file.
const FILE_UNITS: [(Addr, u32); 4] = [
    (0x10054, 0x0010_0513),
    (0x10058, 0x0080_00ef),
    (0x1005c, 0x0000_006f),
    (0x10060, 0x0000_8067),
];

fn cell(value: Value, source: Source) -> Option<Cell> {
    Some(Cell { value, source })
}

fn added(at: Addr, kind: Kind, value: Value, source: Source) -> Change {
    Change {
        key: Key { at, kind, sub: 0 },
        before: None,
        after: cell(value, source),
    }
}

fn unit(at: Addr, word: u32) -> Change {
    added(at, Kind::Unit, Value::Code(word), Source::Analysis)
}

fn reference(at: Addr, to: Addr, class: RefClass) -> Change {
    added(at, Kind::Ref, Value::Ref { to, class }, Source::Analysis)
}

fn body(
    alloc: Global,
    at: Addr,
    first: Addr,
    last: Addr,
    source: Source,
) -> Result<Change, AllocError>
    requires { first ≤ last }
{
    let mut ranges = RangeSet::new(alloc);
    ranges.add(first, last)?;
    Ok(added(at, Kind::Body, Value::Body(ranges), source))
}

fn apply(program: &mut Program, changes: &[Change]) -> Result<(), Fail> {
    if !program.fits(changes)? {
        return Err(Fail::new("the facts don't fit"));
    }
    program.apply(changes)?;
    Ok(())
}

fn imported(alloc: Global) -> Result<Program, Fail> {
    let Ok(facts) = import(alloc, &FILE_A) else {
        return Err(Fail::new("the sample is refused"));
    };
    let mut program = Program::empty(alloc)?;
    apply(&mut program, &facts)?;
    Ok(program)
}

// The sample file with all that its analysis adds.
fn analyzed(alloc: Global) -> Result<Program, Fail> {
    let mut program = imported(alloc)?;
    for (at, word) in FILE_UNITS {
        apply(&mut program, &[unit(at, word)])?;
    }
    let function = added(0x10060, Kind::Func, Value::Func, Source::Analysis);
    let bytes = body(alloc, 0x10060, 0x10060, 0x10063, Source::Analysis)?;
    apply(
        &mut program,
        &[
            reference(0x10058, 0x10060, RefClass::Call),
            reference(0x1005c, 0x1005c, RefClass::Jump),
            function,
            bytes,
        ],
    )?;
    Ok(program)
}

// The sample file with an analyst's function, whose third unit was cleared.
fn cleared(alloc: Global) -> Result<Program, Fail> {
    let mut program = imported(alloc)?;
    let gone = added(0x1005c, Kind::Unit, Value::Gone, Source::UserDefined);
    let function = added(0x10060, Kind::Func, Value::Func, Source::UserDefined);
    let bytes = body(alloc, 0x10060, 0x10054, 0x10063, Source::UserDefined)?;
    apply(
        &mut program,
        &[
            unit(0x10054, 0x0010_0513),
            unit(0x10058, 0x0080_00ef),
            reference(0x10058, 0x10060, RefClass::Call),
            gone,
            function,
            bytes,
            unit(0x10060, 0x0000_8067),
        ],
    )?;
    Ok(program)
}

fn items(alloc: Global, places: &[(Analyzer, Addr)]) -> Result<Vec<Item>, AllocError> {
    let mut list = Vec::new(alloc);
    for (analyzer, at) in places {
        list.push(Item {
            analyzer: *analyzer,
            at: *at,
        })?;
    }
    Ok(list)
}

// How many changes are proposed for an item.
fn proposed(alloc: Global, program: &Program, item: Item) -> Result<usize, AllocError> {
    let proposal = propose(alloc, program, item)?;
    Ok(proposal.changes().len())
}

#[test]
fn candidates_are_listed_for_each_analyzer(rt: HostRuntime) -> Result<(), Fail> {
    let alloc = rt.alloc();
    let program = analyzed(alloc)?;
    let all = [0x10054, 0x10058, 0x1005c, 0x10060];
    let called = [0x10060];
    let none = [0; 0];
    for (analyzer, want, row) in [
        (FLOW, all.as_slice(), "flow"),
        (REFS, all.as_slice(), "references"),
        (FUNCS, called.as_slice(), "functions"),
        (BODY, called.as_slice(), "bodies"),
        (STRINGS, none.as_slice(), "strings"),
    ] {
        let mut wanted = Vec::new(alloc);
        for at in want {
            wanted.push((analyzer, *at))?;
        }
        let list = candidates(alloc, &program, analyzer)?;
        assert_eq!(rt; list.as_slice(), items(alloc, &wanted)?.as_slice(), "{row}");
        for item in &list {
            assert_eq!(rt; proposed(alloc, &program, *item)?, 0, "{row}");
        }
    }
    Ok(())
}

#[test]
fn the_analyzer_of_an_item_proposes_its_changes(rt: HostRuntime) -> Result<(), Fail> {
    let alloc = rt.alloc();
    let file = imported(alloc)?;
    let edited = cleared(alloc)?;
    for (program, analyzer, at, want, row) in [
        (&file, FLOW, 0x10054, 3, "three units at the entry"),
        (&file, STRINGS, 0x10054, 0, "nothing reads the entry"),
        (&edited, FUNCS, 0x10060, 0, "an analyst's function"),
        (&edited, BODY, 0x10060, 0, "an analyst's body"),
    ] {
        let count = proposed(alloc, program, Item { analyzer, at })?;
        assert_eq!(rt; count, want, "{row}");
    }
    Ok(())
}

#[test]
fn a_release_wakes_what_it_may_unsettle(rt: HostRuntime) -> Result<(), Fail> {
    let alloc = rt.alloc();
    let mut program = cleared(alloc)?;
    let release = Change {
        key: Key {
            at: 0x1005c,
            kind: Kind::Unit,
            sub: 0,
        },
        before: cell(Value::Gone, Source::UserDefined),
        after: None,
    };
    let changes = [release];
    apply(&mut program, &changes)?;
    let mut list = items(alloc, &[(STRINGS, 0x10000)])?;
    woken(alloc, &program, &changes[0], &mut list)?;
    let want = items(
        alloc,
        &[
            (STRINGS, 0x10000),
            (FLOW, 0x10058),
            (FLOW, 0x1005c),
            (REFS, 0x1005c),
            (REFS, 0x10060),
            (FUNCS, 0x1005c),
            (BODY, 0x1005c),
            (BODY, 0x10060),
        ],
    )?;
    assert_eq!(rt; list.as_slice(), want.as_slice());
    Ok(())
}
