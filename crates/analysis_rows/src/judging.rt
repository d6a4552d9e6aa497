use rvd_an_flow::FlowRule;
use rvd_ask::{Analyzer, Answer, Ask, Item, Proposal, Rule};
use rvd_elf::import;
use rvd_event::Verdict;
use rvd_fact::{Addr, Cell, Change, Form, Key, Kind, Source, Value};
use rvd_judge::{judge, misfit};
use rvd_program::Program;
use sample_files::FILE_A;
use std::alloc::{AllocError, Global};
use std::slice::from_ref;
use std::test::Fail;

const ENTRY: Addr = 0x10054;

// A verdict of flow, whose reads differ in which unit has a byte.
#[derive(Clone, Copy, Debug, PartialEq, Eq)]
enum Shown {
    Joined(u32),
    Nothing,
    Off,
    Stale(Addr, Option<Addr>, Option<Addr>),
    Foreign(Addr, Option<Addr>, Option<Addr>),
    Other,
}

fn told(verdict: &Verdict) -> Shown {
    match verdict {
        Verdict::Joined(changes) => Shown::Joined(*changes),
        Verdict::Nothing => Shown::Nothing,
        Verdict::Off => Shown::Off,
        Verdict::Stale {
            ask: Ask::Cover(at),
            was: Answer::At(was),
            now: Answer::At(now),
        } => Shown::Stale(*at, *was, *now),
        Verdict::Foreign {
            ask: Ask::Cover(at),
            said: Answer::At(said),
            was: Answer::At(was),
        } => Shown::Foreign(*at, *said, *was),
        _ => Shown::Other,
    }
}

fn item(analyzer: Analyzer, at: Addr) -> Item {
    Item { analyzer, at }
}

fn file_a(alloc: Global) -> Result<Program, AllocError> {
    let Ok(facts) = import(alloc, &FILE_A) else {
        return Err(AllocError);
    };
    let mut program = Program::empty(alloc)?;
    if program.fits(&facts)? {
        program.apply(&facts)?;
    }
    Ok(program)
}

// The program of the file with an analyst's byte of data in its third word.
fn with_data(alloc: Global) -> Result<Program, AllocError> {
    let mut program = file_a(alloc)?;
    let data = Change {
        key: Key {
            at: 0x1005d,
            kind: Kind::Unit,
            sub: 0,
        },
        before: None,
        after: Some(Cell {
            value: Value::Plain(Form::Byte),
            source: Source::UserDefined,
        }),
    };
    if program.fits(from_ref(&data))? {
        program.apply(from_ref(&data))?;
    }
    Ok(program)
}

// What becomes of a proposal of flow: its verdict, the items that join the queue, and the number of changes.
fn offered(
    alloc: Global,
    work: &mut Program,
    job: &Program,
    enabled: &[Analyzer],
    proposal: &Proposal,
) -> Result<(Shown, Vec<Item>, usize), AllocError> {
    let mut again = Vec::new(alloc);
    let mut changes = Vec::new(alloc);
    let item = proposal.item();
    let verdicts = judge(
        alloc,
        work,
        job,
        from_ref(&item),
        enabled,
        from_ref(proposal),
        &mut again,
        &mut changes,
    )?;
    let verdict = match verdicts.list() {
        [verdict] => told(verdict),
        _ => Shown::Other,
    };
    Ok((verdict, again, changes.len()))
}

#[test]
fn each_verdict_comes_once(rt: HostRuntime) -> Result<(), Fail> {
    let alloc = rt.alloc();
    let file = file_a(alloc)?;
    let data = with_data(alloc)?;
    let all = [Analyzer::Flow, Analyzer::Refs];
    let rest = [Analyzer::Refs];
    for (work, job, enabled, at, verdict, row) in [
        (
            &file,
            &file,
            all.as_slice(),
            ENTRY,
            Shown::Joined(3),
            "joined",
        ),
        (
            &file,
            &file,
            all.as_slice(),
            ENTRY + 4,
            Shown::Nothing,
            "nothing",
        ),
        (&file, &file, rest.as_slice(), ENTRY, Shown::Off, "off"),
        (
            &data,
            &file,
            all.as_slice(),
            ENTRY,
            Shown::Stale(0x1005d, None, Some(0x1005d)),
            "stale",
        ),
        (
            &data,
            &data,
            all.as_slice(),
            ENTRY,
            Shown::Foreign(0x1005d, None, Some(0x1005d)),
            "foreign",
        ),
    ] {
        let proposal = FlowRule.propose(alloc, &file, at)?;
        let mut work = work.copy()?;
        let (given, _again, _changes) = offered(alloc, &mut work, job, enabled, &proposal)?;
        assert_eq!(rt; given, verdict, "{row}");
    }
    Ok(())
}

#[test]
fn what_joins_wakes_items_of_enabled_analyzers_change_by_change(
    rt: HostRuntime,
) -> Result<(), Fail> {
    let alloc = rt.alloc();
    let file = file_a(alloc)?;
    let mut work = file.copy()?;
    let proposal = FlowRule.propose(alloc, &file, ENTRY)?;
    let enabled = [Analyzer::Flow, Analyzer::Refs];
    let (_verdict, again, changes) = offered(alloc, &mut work, &file, &enabled, &proposal)?;
    let woken = [
        item(Analyzer::Flow, ENTRY),
        item(Analyzer::Refs, ENTRY),
        item(Analyzer::Refs, ENTRY + 4),
        item(Analyzer::Flow, ENTRY + 4),
        item(Analyzer::Refs, ENTRY + 4),
        item(Analyzer::Refs, ENTRY + 8),
        item(Analyzer::Flow, ENTRY + 8),
        item(Analyzer::Refs, ENTRY + 8),
        item(Analyzer::Refs, ENTRY + 12),
        item(Analyzer::Flow, ENTRY),
    ];
    assert_eq!(rt; again.as_slice(), woken.as_slice());
    assert_eq!(rt; changes, 3usize);
    Ok(())
}

#[test]
fn a_misfit_is_the_first_place_that_differs(rt: HostRuntime) -> Result<(), Fail> {
    let alloc = rt.alloc();
    let file = file_a(alloc)?;
    let mut proposals = Vec::new(alloc);
    proposals.push(FlowRule.propose(alloc, &file, ENTRY)?)?;
    proposals.push(FlowRule.propose(alloc, &file, ENTRY + 4)?)?;
    let (a, b, c) = (
        item(Analyzer::Flow, ENTRY),
        item(Analyzer::Flow, ENTRY + 4),
        item(Analyzer::Refs, ENTRY + 4),
    );
    assert_eq!(rt; misfit(&[a, b], &proposals), None);
    assert_eq!(rt; misfit(&[a, c], &proposals), Some(1u32));
    assert_eq!(rt; misfit(&[a], &proposals), Some(1u32));
    assert_eq!(rt; misfit(&[a, b, c], &proposals), Some(2u32));
    assert_eq!(rt; misfit(&[], &proposals), Some(0u32));
    Ok(())
}
