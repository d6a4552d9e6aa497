use crate::tests::{START, by_user, key, memory, name, put};
use rvd_event::Query;
use rvd_fact::{Addr, Cell, Kind, RangeSet, RefClass, Source, Value};
use rvd_listing::{function_of, next_unit, xrefs_to};
use rvd_program::Program;
use rvd_query::answer;
use std::alloc::{AllocError, Global};
use std::str;
use std::test::Fail;

const LEAF: Addr = START + 12;

fn analyzed(value: Value) -> Option<Cell> {
    let source = Source::Analysis;
    Some(Cell { value, source })
}

fn going(to: Addr, class: RefClass) -> Value {
    Value::Ref { to, class }
}

fn leaf_body(alloc: Global) -> Result<Value, AllocError> {
    let mut body = RangeSet::new(alloc);
    body.add(LEAF, LEAF + 3)?;
    Ok(Value::Body(body))
}

// The program of four instructions after its analysis: a call, a loop, and the function that is called.
fn analyzed_program(alloc: Global) -> Result<Program, Fail> {
    let mut program = Program::empty(alloc)?;
    for (at, kind, value) in [
        (START, Kind::Block, memory(alloc)?),
        (START, Kind::Mark, Value::Mark),
        (START, Kind::Unit, Value::Code(0x10_0513)),
        (START + 4, Kind::Unit, Value::Code(0x80_00ef)),
        (START + 4, Kind::Ref, going(LEAF, RefClass::Call)),
        (START + 8, Kind::Unit, Value::Code(0x6f)),
        (START + 8, Kind::Ref, going(START + 8, RefClass::Jump)),
        (LEAF, Kind::Func, Value::Func),
        (LEAF, Kind::Body, leaf_body(alloc)?),
        (LEAF, Kind::Unit, Value::Code(0x8067)),
    ] {
        let _ = put(alloc, &mut program, key(at, kind, 0), analyzed(value))?;
    }
    Ok(program)
}

#[test]
fn look_ups_go_through_the_whole_program(rt: HostRuntime) -> Result<(), Fail> {
    let alloc = rt.alloc();
    let program = analyzed_program(alloc)?;
    assert_eq!(rt; next_unit(&program, START), Some(START + 4));
    assert_eq!(rt; next_unit(&program, START + 9), Some(LEAF));
    assert_eq!(rt; next_unit(&program, LEAF), None);
    let functions = function_of(alloc, &program, LEAF + 1)?;
    assert_eq!(rt; functions.as_slice(), [LEAF].as_slice());
    let xrefs = xrefs_to(alloc, &program, LEAF)?;
    assert_eq!(rt;
        xrefs.as_slice(),
        [(START + 4, 0u8, RefClass::Call)].as_slice()
    );
    Ok(())
}

#[test]
fn queries_are_answered(rt: HostRuntime) -> Result<(), Fail> {
    let alloc = rt.alloc();
    let mut program = analyzed_program(alloc)?;
    let mut out = Vec::new(alloc);
    for (query, said) in [
        (
            Query::Unit(START + 1),
            "00010054 analysis code 00100513 addi a0, zero, 1",
        ),
        (Query::Unit(START + 16), "none"),
        (Query::Name(START), "none"),
        (Query::Name(START + 8), "LAB_0001005c"),
        (Query::Name(LEAF), "FUN_00010060"),
        (Query::Xrefs(LEAF), "00010058:call"),
        (Query::Xrefs(START), "none"),
        (Query::Func(LEAF + 1), "00010060"),
        (Query::Func(LEAF + 4), "none"),
        (
            Query::Count,
            "blocks 1 units 4 symbols 0 refs 2 funcs 1 comments 0 bookmarks 0 marks 1",
        ),
    ] {
        out.clear();
        answer(alloc, &program, &query, &mut out)?;
        assert_eq!(rt; str::from_utf8(&out), Ok(said));
    }
    let start = by_user(name(alloc, "start")?);
    assert!(rt; put(alloc, &mut program, key(START, Kind::Symbol, 0), start)?);
    out.clear();
    answer(alloc, &program, &Query::Name(START), &mut out)?;
    assert_eq!(rt; str::from_utf8(&out), Ok("\"start\""));
    Ok(())
}
