use rvd_an_refs::RefsRule;
use rvd_ask::Rule;
use rvd_elf::import;
use rvd_fact::{Addr, Bytes, Cell, Change, Key, Kind, Perm, RefClass, Source, Value};
use rvd_program::Program;
use sample_files::FILE_A;
use std::alloc::{AllocError, Global};
use std::test::Fail;

// A reference as its slot, class and target.
type Reference = (u8, RefClass, Addr);

// The code of the sample file that flow finds at its entry.
const FILE_UNITS: [(Addr, u32); 3] = [
    (0x10054, 0x0010_0513),
    (0x10058, 0x0080_00ef),
    (0x1005c, 0x0000_006f),
];

// A function that calls itself with the address of a text.
const CALLER_UNITS: [(Addr, u32); 8] = [
    (0x10000, 0xff01_0113),
    (0x10004, 0x0011_2623),
    (0x10008, 0x0020_0537),
    (0x1000c, 0x0005_0513),
    (0x10010, 0xff1f_f0ef),
    (0x10014, 0x00c1_2083),
    (0x10018, 0x0101_0113),
    (0x1001c, 0x0000_8067),
];

const TEXT: [u8; 16] = *b"string 00000000\0";

fn added(at: Addr, kind: Kind, value: Value, source: Source) -> Change {
    Change {
        key: Key { at, kind, sub: 0 },
        before: None,
        after: Some(Cell { value, source }),
    }
}

fn units(alloc: Global, words: &[(Addr, u32)]) -> Result<Vec<Change>, AllocError> {
    let mut changes = Vec::new(alloc);
    for (at, word) in words {
        changes.push(added(*at, Kind::Unit, Value::Code(*word), Source::Analysis))?;
    }
    Ok(changes)
}

fn block(alloc: Global, at: Addr, len: u32, list: Vec<u8>) -> Result<Change, AllocError> {
    let value = Value::Block {
        len,
        perm: Perm {
            r: true,
            w: false,
            x: true,
        },
        bytes: Some(Bytes::of(alloc, list)?),
    };
    Ok(added(at, Kind::Block, value, Source::Imported))
}

fn code_bytes(alloc: Global, words: &[(Addr, u32)]) -> Result<Vec<u8>, AllocError> {
    let mut list: Vec<u8> = Vec::new(alloc);
    for (_, word) in words {
        list.extend_from_slice(&word.to_le_bytes())?;
    }
    Ok(list)
}

fn apply(program: &mut Program, changes: &[Change]) -> Result<(), Fail> {
    if !program.fits(changes)? {
        return Err(Fail::new("the facts don't fit"));
    }
    program.apply(changes)?;
    Ok(())
}

fn sample(alloc: Global) -> Result<Program, Fail> {
    let Ok(imported) = import(alloc, &FILE_A) else {
        return Err(Fail::new("the sample is refused"));
    };
    let mut program = Program::empty(alloc)?;
    apply(&mut program, &imported)?;
    apply(&mut program, &units(alloc, &FILE_UNITS)?)?;
    Ok(program)
}

fn caller(alloc: Global) -> Result<Program, Fail> {
    let code = block(alloc, 0x10000, 32, code_bytes(alloc, &CALLER_UNITS)?)?;
    let text = block(alloc, 0x20_0000, 16, Vec::from_array(alloc, TEXT)?)?;
    let mut program = Program::empty(alloc)?;
    apply(&mut program, &[code, text])?;
    apply(&mut program, &units(alloc, &CALLER_UNITS)?)?;
    Ok(program)
}

fn proposed(alloc: Global, program: &Program, at: Addr) -> Result<Vec<Reference>, AllocError> {
    let proposal = RefsRule.propose(alloc, program, at)?;
    let mut found = Vec::new(alloc);
    for change in proposal.changes() {
        if let Some(
            Cell {
                value: Value::Ref { to, class },
                ..
            },
        ) = &change.after
        {
            found.push((change.key.sub, *class, *to))?;
        }
    }
    Ok(found)
}

#[test]
fn instructions_refer_to_targets_and_computed_addresses(rt: HostRuntime) -> Result<(), Fail> {
    let alloc = rt.alloc();
    let file = sample(alloc)?;
    let image = caller(alloc)?;
    for (program, at, want, row) in [
        (&file, 0x10054, None, "a small number"),
        (&file, 0x10058, Some((0, RefClass::Call, 0x10060)), "a call"),
        (&file, 0x1005c, Some((0, RefClass::Jump, 0x1005c)), "a jump"),
        (&file, 0x10060, None, "no unit"),
        (&image, 0x10008, None, "an upper value alone"),
        (
            &image,
            0x1000c,
            Some((1, RefClass::Datum, 0x20_0000)),
            "the address of the text",
        ),
        (
            &image,
            0x10010,
            Some((0, RefClass::Call, 0x10000)),
            "a call of itself",
        ),
        (&image, 0x10014, None, "a load behind a call"),
    ] {
        let found = proposed(alloc, program, at)?;
        assert_eq!(rt; found.first().copied(), want, "{row}");
        assert!(rt; found.len() < 2, "{row}");
    }
    Ok(())
}
