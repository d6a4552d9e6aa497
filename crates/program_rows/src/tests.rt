use rvd_ask::{Answer, Ask, RefList, View, answer_to, same};
use rvd_fact::{Addr, Bytes, Cell, Change, Form, Key, Kind, Perm, RefClass, Source, Text, Value};
use rvd_listing::{primary_name, push_name, unit_at, unit_line};
use rvd_program::Program;
use std::alloc::{AllocError, Global};
use std::test::Fail;

pub const START: Addr = 0x10054;

fn crosses_threads<T: Send + Sync>() {}

#[test]
fn programs_may_cross_threads() {
    crosses_threads::<Program>();
}

pub fn key(at: Addr, kind: Kind, sub: u8) -> Key {
    Key { at, kind, sub }
}

pub fn name(alloc: Global, word: &str) -> Result<Value, Fail> {
    let bytes = Vec::from_slice(alloc, word.as_bytes())?;
    if bytes.len() > 1000 {
        return Err(Fail::from("a long word"));
    }
    Ok(Value::Symbol(Text::of(alloc, bytes)?))
}

fn cell_copy(program: &Program, key: Key) -> Result<Option<Cell>, AllocError> {
    match program.cell(key) {
        None => Ok(None),
        Some(cell) => Ok(Some(cell.copy()?)),
    }
}

fn change(
    alloc: Global,
    program: &Program,
    key: Key,
    after: Option<Cell>,
) -> Result<Vec<Change>, AllocError> {
    let before = cell_copy(program, key)?;
    let mut changes = Vec::new(alloc);
    changes.push(Change { key, before, after })?;
    Ok(changes)
}

// Puts a cell at a key, or takes it away, where that fits, and tells whether it does.
pub fn put(
    alloc: Global,
    program: &mut Program,
    key: Key,
    after: Option<Cell>,
) -> Result<bool, AllocError> {
    let changes = change(alloc, program, key, after)?;
    if !program.fits(&changes)? {
        return Ok(false);
    }
    program.apply(&changes)?;
    Ok(true)
}

pub fn by_user(value: Value) -> Option<Cell> {
    let source = Source::UserDefined;
    Some(Cell { value, source })
}

fn room(len: u32, bytes: Option<Bytes>) -> Value {
    let perm = Perm {
        r: true,
        w: false,
        x: true,
    };
    Value::Block { len, perm, bytes }
}

// The words 00100513 008000ef 0000006f 00008067.
pub fn memory(alloc: Global) -> Result<Value, AllocError> {
    let bytes = [
        0x13, 5, 16, 0, 0xef, 0, 128, 0, 0x6f, 0, 0, 0, 0x67, 128, 0, 0,
    ];
    let bytes = Vec::from_slice(alloc, &bytes)?;
    Ok(room(16, Some(Bytes::of(alloc, bytes)?)))
}

// A block of four instructions, of which the first two are known, and the call of the second one.
fn small(alloc: Global) -> Result<Program, AllocError> {
    let mut program = Program::empty(alloc)?;
    let to = START + 12;
    let class = RefClass::Call;
    for (at, kind, value) in [
        (START, Kind::Block, memory(alloc)?),
        (START, Kind::Unit, Value::Code(0x10_0513)),
        (START + 4, Kind::Unit, Value::Code(0x80_00ef)),
        (START + 4, Kind::Ref, Value::Ref { to, class }),
    ] {
        let _ = put(alloc, &mut program, key(at, kind, 0), by_user(value))?;
    }
    Ok(program)
}

fn fits_small(
    alloc: Global,
    at: Addr,
    kind: Kind,
    after: Option<Cell>,
) -> Result<bool, AllocError> {
    let mut program = small(alloc)?;
    put(alloc, &mut program, key(at, kind, 0), after)
}

#[test]
fn changes_fit_where_the_program_stays_valid(rt: HostRuntime) -> Result<(), Fail> {
    let alloc = rt.alloc();
    let unit = Kind::Unit;
    let code = |word| by_user(Value::Code(word));
    let data = |form| by_user(Value::Plain(form));
    assert!(rt;
        fits_small(alloc, START + 8, unit, code(0x6f))?,
        "units that touch"
    );
    assert!(rt;
        !fits_small(alloc, START + 8, unit, code(0x6e))?,
        "another word"
    );
    assert!(rt;
        !fits_small(alloc, START + 2, unit, data(Form::Byte))?,
        "a unit in another"
    );
    assert!(rt;
        !fits_small(alloc, START + 13, unit, data(Form::Word))?,
        "out of its block"
    );
    assert!(rt; fits_small(alloc, START, unit, None)?, "a unit that goes");
    let block = Kind::Block;
    assert!(rt;
        fits_small(alloc, START + 16, block, by_user(room(8, None)))?,
        "blocks that touch"
    );
    assert!(rt;
        !fits_small(alloc, START + 15, block, by_user(room(8, None)))?,
        "blocks that meet"
    );
    assert!(rt;
        !fits_small(alloc, START, block, None)?,
        "a block from under its units"
    );
    Ok(())
}

#[test]
fn look_ups_answer_from_the_facts(rt: HostRuntime) -> Result<(), Fail> {
    let alloc = rt.alloc();
    let mut program = small(alloc)?.copy()?;
    let next = program
        .next_cell(key(START, Kind::Unit, 1))
        .map(|entry| entry.0);
    assert_eq!(rt; next, Some(key(START + 4, Kind::Unit, 0)));
    assert_eq!(rt; unit_at(&program, START + 6), Some(START + 4));
    assert_eq!(rt; unit_at(&program, START + 8), None);
    assert_eq!(rt; program.block(START + 15), Some(START));
    assert!(rt; program.bytes(alloc, START + 6, 3)?.is_some());
    assert!(rt; program.bytes(alloc, START + 14, 3)?.is_none());
    assert!(rt; program.has_ref_to(START + 12, RefClass::Call));
    let refs = program.refs_from(alloc, START + 4)?;
    assert_eq!(rt;
        refs.as_slice(),
        [(0u8, RefClass::Call, START + 12)].as_slice()
    );
    let gone = change(alloc, &program, key(START, Kind::Unit, 0), None)?;
    if program.fits(&gone)? {
        program.apply(&gone)?;
    }
    assert_eq!(rt; unit_at(&program, START), None);
    Ok(())
}

// Whether a view's answer to an ask is the same as this one.
fn answers<V: View>(alloc: Global, view: &V, ask: Ask, said: Answer) -> Result<bool, AllocError> {
    let answer = answer_to(alloc, view, &ask)?;
    Ok(same(&answer, &said))
}

#[test]
fn a_program_answers_asks(rt: HostRuntime) -> Result<(), Fail> {
    let alloc = rt.alloc();
    let program = small(alloc)?;
    let call = (0u8, RefClass::Call, START + 12);
    let calls = RefList::of(alloc, Vec::from_array(alloc, [call])?)?;
    let unit = by_user(Value::Code(0x80_00ef));
    let block = by_user(room(16, Some(Bytes::of(alloc, Vec::new(alloc))?)));
    for (ask, said, row) in [
        (
            Ask::Cell(key(START + 4, Kind::Unit, 0)),
            Answer::Cell(unit),
            "a unit",
        ),
        (
            Ask::Cell(key(START, Kind::Block, 0)),
            Answer::Cell(block),
            "a block without its bytes",
        ),
        (
            Ask::Cell(key(START, Kind::Func, 0)),
            Answer::Cell(None),
            "no function",
        ),
        (
            Ask::Cover(START + 6),
            Answer::At(Some(START + 4)),
            "the unit on a byte",
        ),
        (Ask::Cover(START + 8), Answer::At(None), "a free byte"),
        (
            Ask::Block(START + 15),
            Answer::At(Some(START)),
            "the block around a byte",
        ),
        (
            Ask::Bytes(START + 14, 3),
            Answer::Bytes(None),
            "bytes past the block",
        ),
        (
            Ask::To(START + 12, RefClass::Call),
            Answer::Yes(true),
            "a call to it",
        ),
        (
            Ask::From(START + 4),
            Answer::Refs(calls),
            "the references from it",
        ),
    ] {
        assert!(rt; answers(alloc, &program, ask, said)?, "{row}");
    }
    Ok(())
}

#[test]
fn names_and_lines_are_shown(rt: HostRuntime) -> Result<(), Fail> {
    let alloc = rt.alloc();
    let mut program = small(alloc)?;
    let string = by_user(Value::Plain(Form::Str(4)));
    assert!(rt; put(alloc, &mut program, key(START + 8, Kind::Unit, 0), string)?);
    let source = Source::Imported;
    let value = name(alloc, "b")?;
    assert!(rt;
        put(
            alloc,
            &mut program,
            key(START, Kind::Symbol, 1),
            Some(Cell { value, source })
        )?
    );
    let value = name(alloc, "a")?;
    assert!(rt;
        put(
            alloc,
            &mut program,
            key(START, Kind::Symbol, 3),
            by_user(value)
        )?
    );
    assert_eq!(rt;
        primary_name(&program, START).map(|name| name.list()),
        Some(b"a".as_slice())
    );
    let mut out = Vec::new(alloc);
    for at in [START, START + 4, START + 8, START + 12] {
        let _ = push_name(&program, at, &mut out)?;
        out.push(b'\n')?;
    }
    assert_eq!(rt;
        out.as_slice(),
        b"\"a\"\n\nDAT_0001005c\nLAB_00010060\n".as_slice()
    );
    out.clear();
    for at in [START + 4, START + 8, START + 12] {
        let _ = unit_line(alloc, &program, at, &mut out)?;
        out.push(b'\n')?;
    }
    assert_eq!(rt; out.as_slice(), LINES.as_bytes());
    Ok(())
}

const LINES: &str = "\
00010058 user code 008000ef jal ra, 00010060
0001005c user data string 4 \"o\\x00\\x00\\x00\"

";
