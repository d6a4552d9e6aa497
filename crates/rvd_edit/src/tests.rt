mod table;

use crate::{EditError, OutOfMemory, changes_of};
use rvd_event::Edit;
use rvd_fact::{
    Addr, Bytes, Cell, Change, Key, Kind, Perm, RangeSet, RefClass, Source, Text, Value,
};
use rvd_program::Program;
use std::alloc::Global;
use std::process::Abort;
use std::test::Fail;
use table::{Answer, FULL_ROWS, ROWS, Try};

const READ_WRITE: Perm = Perm {
    r: true,
    w: true,
    x: false,
};

fn letters(alloc: Global, count: u8) -> Result<Text, OutOfMemory> {
    let mut list = Vec::new(alloc);
    for _ in 0..count {
        list.push(b'x')?;
    }
    let short = list.len() <= 1000;
    if !short {
        return Err(OutOfMemory);
    }
    Text::of(alloc, list)
}

fn one_range(alloc: Global, at: Addr) -> Result<RangeSet, OutOfMemory> {
    let mut ranges = RangeSet::new(alloc);
    ranges.add(at, at)?;
    Ok(ranges)
}

fn edit_from(alloc: Global, tried: Try) -> Result<Edit, OutOfMemory> {
    Ok(match tried {
        Try::Block(at, len) => Edit::Block(at, len, READ_WRITE),
        Try::Mark(at) => Edit::Mark(at),
        Try::Func(at) => Edit::Func(at),
        Try::Body(at) => Edit::Body(at, one_range(alloc, at)?),
        Try::Label(at, count) => Edit::Label(at, letters(alloc, count)?),
        Try::Ref(from, to, class) => Edit::Ref(from, to, class),
        Try::Comment(at) => Edit::Comment(at, 0, letters(alloc, 1)?),
        Try::Bookmark(at) => Edit::Bookmark(at, 0, letters(alloc, 1)?),
        Try::Code(at) => Edit::Code(at),
        Try::Datum(at, form) => Edit::Datum(at, form),
        Try::Clear(at) => Edit::Clear(at),
        Try::Remove(kind, at, sub) => Edit::Remove(kind, at, sub),
        Try::Release(kind, at, sub) => Edit::Release(kind, at, sub),
    })
}

// Makes an edit, and applies its changes.
fn make(alloc: Global, program: &mut Program, edit: &Edit) -> Result<Answer, OutOfMemory> {
    if !edit.is_legal() {
        return Ok(Answer::Illegal);
    }
    match changes_of(alloc, program, edit) {
        Ok(changes) => {
            program.apply(&changes)?;
            Ok(Answer::Changed(changes.len()))
        }
        Err(EditError::Refused(refusal)) => Ok(Answer::Refused(refusal)),
        Err(EditError::OutOfMemory) => Err(OutOfMemory),
    }
}

fn key(at: Addr, kind: Kind, sub: u8) -> Key {
    Key { at, kind, sub }
}

// Adds a fact that isn't an analyst's.
fn push_fact(
    facts: &mut Vec<Change>,
    key: Key,
    value: Value,
    source: Source,
) -> Result<(), OutOfMemory> {
    let after = Some(Cell { value, source });
    facts.push(Change {
        key,
        before: None,
        after,
    })?;
    Ok(())
}

fn block_of(alloc: Global, words: &[u32]) -> Result<Value, OutOfMemory> {
    let mut list: Vec<u8> = Vec::new(alloc);
    for word in words {
        list.extend_from_slice(&word.to_le_bytes())?;
    }
    let len = list.len() as u64;
    let perm = Perm {
        r: true,
        w: false,
        x: true,
    };
    Ok(Value::Block {
        len: len.min(0xffff_ffff) as u32,
        perm,
        bytes: Some(Bytes::of(alloc, list)?),
    })
}

// A small executable after its analysis, and a block whose word is no instruction.
fn analysed_facts(alloc: Global) -> Result<Vec<Change>, OutOfMemory> {
    let mut facts = Vec::new(alloc);
    let code = block_of(alloc, &[0x0010_0513, 0x0080_00ef, 0x0000_006f, 0x0000_8067])?;
    let zero = block_of(alloc, &[0])?;
    push_fact(
        &mut facts,
        key(0x10054, Kind::Block, 0),
        code,
        Source::Imported,
    )?;
    push_fact(
        &mut facts,
        key(0x10054, Kind::Mark, 0),
        Value::Mark,
        Source::Imported,
    )?;
    push_fact(
        &mut facts,
        key(0x10058, Kind::Unit, 0),
        Value::Code(0x0080_00ef),
        Source::Analysis,
    )?;
    let call = Value::Ref {
        to: 0x10060,
        class: RefClass::Call,
    };
    push_fact(
        &mut facts,
        key(0x10058, Kind::Ref, 0),
        call,
        Source::Analysis,
    )?;
    push_fact(
        &mut facts,
        key(0x1005c, Kind::Unit, 0),
        Value::Code(0x6f),
        Source::Analysis,
    )?;
    let jump = Value::Ref {
        to: 0x1005c,
        class: RefClass::Jump,
    };
    push_fact(
        &mut facts,
        key(0x1005c, Kind::Ref, 0),
        jump,
        Source::Analysis,
    )?;
    push_fact(
        &mut facts,
        key(0x10060, Kind::Func, 0),
        Value::Func,
        Source::Analysis,
    )?;
    let body = Value::Body(one_range(alloc, 0x10060)?);
    push_fact(
        &mut facts,
        key(0x10060, Kind::Body, 0),
        body,
        Source::Analysis,
    )?;
    push_fact(
        &mut facts,
        key(0x40000, Kind::Block, 0),
        zero,
        Source::Imported,
    )?;
    Ok(facts)
}

// The executable after its analysis, as a program; nothing where the facts don't fit.
fn analysed(alloc: Global) -> Result<Option<Program>, OutOfMemory> {
    let facts = analysed_facts(alloc)?;
    let mut program = Program::empty(alloc)?;
    if !program.fits(&facts)? {
        return Ok(None);
    }
    program.apply(&facts)?;
    Ok(Some(program))
}

fn expect(
    rt: &impl Abort,
    alloc: Global,
    program: &mut Program,
    tried: Try,
    want: Answer,
) -> Result<(), Fail> {
    let edit = edit_from(alloc, tried)?;
    let answer = make(alloc, program, &edit)?;
    assert_eq!(rt; answer, want, "at {tried:?}");
    Ok(())
}

// Each refusal of each edit, and each edit with its number of changes, one after the other on one program.
#[test]
fn edits_change_or_are_refused(rt: HostRuntime) -> Result<(), Fail> {
    let alloc = rt.alloc();
    let Some(mut program) = analysed(alloc)? else {
        return Err(Fail::new("the facts don't fit"));
    };
    for (tried, want) in ROWS {
        expect(&rt, alloc, &mut program, tried, want)?;
    }
    Ok(())
}

// A 65th block, name and reference.
#[test]
fn what_is_full_is_refused(rt: HostRuntime) -> Result<(), Fail> {
    let alloc = rt.alloc();
    let Some(mut program) = analysed(alloc)? else {
        return Err(Fail::new("the facts don't fit"));
    };
    for n in 0..62 {
        expect(
            &rt,
            alloc,
            &mut program,
            Try::Block(0x20000 + n * 16, 4),
            Answer::Changed(1),
        )?;
        expect(
            &rt,
            alloc,
            &mut program,
            Try::Ref(0x10054, n, RefClass::Read),
            Answer::Changed(1),
        )?;
    }
    for n in 1..65 {
        expect(
            &rt,
            alloc,
            &mut program,
            Try::Label(0x10054, n),
            Answer::Changed(1),
        )?;
    }
    for (tried, want) in FULL_ROWS {
        expect(&rt, alloc, &mut program, tried, want)?;
    }
    Ok(())
}
