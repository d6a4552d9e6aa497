use crate::{End, Trace, emulate, text};
use rvd_fact::{Addr, Bytes, Cell, Change, Key, Kind, Perm, Source, Value};
use rvd_program::Program;
use sample_files::FILE_A;
use std::alloc::Global;
use std::process::Abort;
use std::str;
use std::test::Fail;

const CODE: Addr = 0x10000;

fn perm(flags: &str) -> Perm {
    let flags = flags.as_bytes();
    Perm {
        r: flags.contains(&b'r'),
        w: flags.contains(&b'w'),
        x: flags.contains(&b'x'),
    }
}

fn block(at: Addr, len: u32, perm: Perm, bytes: Option<Bytes>) -> Change {
    Change {
        key: Key {
            at,
            kind: Kind::Block,
            sub: 0,
        },
        before: None,
        after: Some(Cell {
            value: Value::Block { len, perm, bytes },
            source: Source::Imported,
        }),
    }
}

fn initialised(alloc: Global, at: Addr, flags: &str, list: &[u8]) -> Result<Change, Fail> {
    let bytes = Bytes::of(alloc, Vec::from_slice(alloc, list)?)?;
    let len = u32::try_from(list.len())?;
    Ok(block(at, len, perm(flags), Some(bytes)))
}

fn program_of(alloc: Global, changes: &[Change]) -> Result<Program, Fail> {
    let mut program = Program::empty(alloc)?;
    if !program.fits(changes)? {
        return Err(Fail::new("the blocks don't fit"));
    }
    program.apply(changes)?;
    Ok(program)
}

// The words as code at 00010000; a block of data with an uninitialised block behind it; and blocks that may only be read, only
// be executed, and be both written and executed.
fn program(alloc: Global, words: &[u32]) -> Result<Program, Fail> {
    let mut code = Vec::new(alloc);
    for word in words {
        code.extend_from_slice(&word.to_le_bytes())?;
    }
    let data = [0x80, 0xff, 0x7f, 0x01, 0xf0, 0xde, 0xbc, 0x9a];
    let mut changes = Vec::new(alloc);
    changes.push(initialised(alloc, CODE, "rx", &code)?)?;
    changes.push(initialised(alloc, 0x20000, "rw", &data)?)?;
    changes.push(block(0x20008, 8, perm("rw"), None))?;
    changes.push(initialised(alloc, 0x30000, "r", &[1, 2, 3, 4, 5, 6])?)?;
    changes.push(block(0x40000, 8, perm("x"), None))?;
    changes.push(block(0x50000, 8, perm("rwx"), None))?;
    program_of(alloc, &changes)
}

// A program, the number of its steps, and the state behind them: each register that isn't 0.
#[derive(Drop)]
struct Row {
    name: &'static str,
    words: &'static [u32],
    steps: u32,
    pc: Addr,
    regs: &'static [(usize, u32)],
}

fn has_registers(trace: &Trace, expected: &[(usize, u32)]) -> bool {
    let regs = trace.regs();
    let set = regs.iter().filter(|value| **value != 0).count();
    set == expected.len()
        && expected
            .iter()
            .all(|(number, value)| regs.get(*number) == Some(value))
}

fn try_rows(rt: &impl Abort, alloc: Global, rows: &[Row]) -> Result<(), Fail> {
    for row in rows {
        let program = program(alloc, row.words)?;
        let trace = emulate(alloc, &program, CODE, row.steps)?;
        assert_eq!(rt; *trace.end(), End::Budget, "{}", row.name);
        assert_eq!(rt; trace.pc(), row.pc, "{}", row.name);
        assert!(rt; has_registers(&trace, row.regs), "{}", row.name);
    }
    Ok(())
}

// The words are those of clang 14's assembler, and the values follow the manual by hand.
#[test]
fn integers_are_computed_at_their_edges(rt: HostRuntime) -> Result<(), Fail> {
    let rows = [
        Row {
            name: "an upper immediate",
            words: &[0xffff_f537],
            steps: 1,
            pc: 0x10004,
            regs: &[(10, 0xffff_f000)],
        },
        Row {
            name: "an upper immediate past the last address",
            words: &[0xffff_1517],
            steps: 1,
            pc: 0x10004,
            regs: &[(10, 0x0000_1000)],
        },
        Row {
            name: "a sum past the last word",
            words: &[0xfff0_0513, 0x0015_0513, 0x8000_0593],
            steps: 3,
            pc: 0x1000c,
            regs: &[(11, 0xffff_f800)],
        },
        Row {
            name: "signed comparison with an immediate",
            words: &[0xfff0_0513, 0x0005_2593, 0xfff0_2613, 0xfff5_2693],
            steps: 4,
            pc: 0x10010,
            regs: &[(10, 0xffff_ffff), (11, 0x0000_0001)],
        },
        Row {
            name: "unsigned comparison with -1",
            words: &[
                0xfff0_3513,
                0xfff0_0593,
                0xfff5_b613,
                0x0010_3693,
                0x0000_3713,
            ],
            steps: 5,
            pc: 0x10014,
            regs: &[(10, 0x0000_0001), (11, 0xffff_ffff), (13, 0x0000_0001)],
        },
        Row {
            name: "bits with an immediate",
            words: &[
                0x0f00_0513,
                0xfff5_4593,
                0x70f5_6613,
                0xff05_7693,
                0x00f5_7713,
            ],
            steps: 5,
            pc: 0x10014,
            regs: &[
                (10, 0x0000_00f0),
                (11, 0xffff_ff0f),
                (12, 0x0000_07ff),
                (13, 0x0000_00f0),
            ],
        },
        Row {
            name: "shifts by 0 and 31",
            words: &[
                0x8000_0537,
                0x0015_0513,
                0x01f5_1593,
                0x0005_1613,
                0x01f5_5693,
                0x41f5_5713,
                0x4005_5793,
                0x0005_5813,
            ],
            steps: 8,
            pc: 0x10020,
            regs: &[
                (10, 0x8000_0001),
                (11, 0x8000_0000),
                (12, 0x8000_0001),
                (13, 0x0000_0001),
                (14, 0xffff_ffff),
                (15, 0x8000_0001),
                (16, 0x8000_0001),
            ],
        },
        Row {
            name: "sums and differences past the ends",
            words: &[
                0x8000_0537,
                0x00a5_05b3,
                0x0010_0613,
                0x40c0_06b3,
                0x40c5_0733,
            ],
            steps: 5,
            pc: 0x10014,
            regs: &[
                (10, 0x8000_0000),
                (12, 0x0000_0001),
                (13, 0xffff_ffff),
                (14, 0x7fff_ffff),
            ],
        },
        Row {
            name: "shifts by the low five bits",
            words: &[
                0x8000_0537,
                0x0015_0513,
                0x0210_0593,
                0x00b5_1633,
                0x00b5_56b3,
                0x40b5_5733,
                0x0200_0793,
                0x00f5_1833,
                0x40f5_58b3,
            ],
            steps: 9,
            pc: 0x10024,
            regs: &[
                (10, 0x8000_0001),
                (11, 0x0000_0021),
                (12, 0x0000_0002),
                (13, 0x4000_0000),
                (14, 0xc000_0000),
                (15, 0x0000_0020),
                (16, 0x8000_0001),
                (17, 0x8000_0001),
            ],
        },
        Row {
            name: "comparisons of registers",
            words: &[
                0xfff0_0513,
                0x0010_0593,
                0x00b5_2633,
                0x00a5_a6b3,
                0x00b5_3733,
                0x00a5_b7b3,
                0x00a5_2833,
                0x00a5_38b3,
            ],
            steps: 8,
            pc: 0x10020,
            regs: &[
                (10, 0xffff_ffff),
                (11, 0x0000_0001),
                (12, 0x0000_0001),
                (15, 0x0000_0001),
            ],
        },
        Row {
            name: "bits of registers",
            words: &[
                0x00c0_0513,
                0x00a0_0593,
                0x00b5_4633,
                0x00b5_66b3,
                0x00b5_7733,
            ],
            steps: 5,
            pc: 0x10014,
            regs: &[
                (10, 0x0000_000c),
                (11, 0x0000_000a),
                (12, 0x0000_0006),
                (13, 0x0000_000e),
                (14, 0x0000_0008),
            ],
        },
        Row {
            name: "writes to x0",
            words: &[
                0x0050_0013,
                0x0000_1037,
                0x0000_0533,
                0x0000_1017,
                0x0030_0593,
            ],
            steps: 5,
            pc: 0x10014,
            regs: &[(11, 0x0000_0003)],
        },
        Row {
            name: "a fence",
            words: &[0x0ff0_000f, 0x0010_0513],
            steps: 2,
            pc: 0x10008,
            regs: &[(10, 0x0000_0001)],
        },
    ];
    try_rows(&rt, rt.alloc(), &rows)
}

#[test]
fn jumps_and_branches_lead_on_and_back(rt: HostRuntime) -> Result<(), Fail> {
    let rows = [
        Row {
            name: "a jump on",
            words: &[0x0080_00ef, 0x0010_0513, 0x0020_0593],
            steps: 2,
            pc: 0x1000c,
            regs: &[(1, 0x0001_0004), (11, 0x0000_0002)],
        },
        Row {
            name: "a jump back",
            words: &[0x0080_006f, 0x0070_0513, 0xffdf_f2ef],
            steps: 3,
            pc: 0x10008,
            regs: &[(5, 0x0001_000c), (10, 0x0000_0007)],
        },
        Row {
            name: "a jump by the register that it writes, with bit 0 set",
            words: &[0x0001_0537, 0x00d5_0567],
            steps: 2,
            pc: 0x1000c,
            regs: &[(10, 0x0001_0008)],
        },
        Row {
            name: "branches where both are equal",
            words: &[
                0x0000_0463,
                0x0010_0513,
                0x0000_1463,
                0x0010_0593,
                0x0000_4463,
                0x0010_0613,
                0x0000_5463,
                0x0010_0693,
                0x0000_6463,
                0x0010_0713,
                0x0000_7463,
                0x0010_0793,
            ],
            steps: 9,
            pc: 0x10030,
            regs: &[(11, 0x0000_0001), (12, 0x0000_0001), (14, 0x0000_0001)],
        },
        Row {
            name: "branches on -1 and 1",
            words: &[
                0xfff0_0513,
                0x0010_0593,
                0x00b5_4463,
                0x0010_0613,
                0x00b5_6463,
                0x0010_0693,
                0x00b5_5463,
                0x0010_0713,
                0x00b5_7463,
                0x0010_0793,
                0x00b5_1463,
                0x0010_0813,
                0x00b5_0463,
                0x0010_0893,
            ],
            steps: 11,
            pc: 0x10038,
            regs: &[
                (10, 0xffff_ffff),
                (11, 0x0000_0001),
                (13, 0x0000_0001),
                (14, 0x0000_0001),
                (17, 0x0000_0001),
            ],
        },
        Row {
            name: "a branch back",
            words: &[0x0080_006f, 0x0030_0513, 0xfe00_0ee3],
            steps: 3,
            pc: 0x10008,
            regs: &[(10, 0x0000_0003)],
        },
    ];
    try_rows(&rt, rt.alloc(), &rows)
}

#[test]
fn memory_is_loaded_and_stored_in_each_width(rt: HostRuntime) -> Result<(), Fail> {
    let rows = [
        Row {
            name: "loads of each width",
            words: &[
                0x0002_0437,
                0x0004_0503,
                0x0004_4583,
                0x0004_1603,
                0x0004_5683,
                0x0004_2703,
                0x0024_0783,
                0x0024_1803,
                0x0044_2883,
            ],
            steps: 9,
            pc: 0x10024,
            regs: &[
                (8, 0x0002_0000),
                (10, 0xffff_ff80),
                (11, 0x0000_0080),
                (12, 0xffff_ff80),
                (13, 0x0000_ff80),
                (14, 0x017f_ff80),
                (15, 0x0000_007f),
                (16, 0x0000_017f),
                (17, 0x9abc_def0),
            ],
        },
        Row {
            name: "an uninitialised block",
            words: &[
                0x0002_0437,
                0xfff0_0513,
                0x0084_2503,
                0x0084_0623,
                0x00c4_2583,
                0xfff0_0613,
                0x00c4_06a3,
                0x00c4_2683,
            ],
            steps: 8,
            pc: 0x10020,
            regs: &[(8, 0x0002_0000), (12, 0xffff_ffff), (13, 0x0000_ff00)],
        },
        Row {
            name: "stores and loads of other widths",
            words: &[
                0x0002_0437,
                0x1234_5537,
                0x6785_0513,
                0x00a4_2423,
                0x0094_0583,
                0x00a4_5603,
                0xfff0_0693,
                0x00d4_04a3,
                0x0084_2703,
                0x00d4_1523,
                0x0084_2783,
                0x0004_0023,
                0x0004_2803,
            ],
            steps: 13,
            pc: 0x10034,
            regs: &[
                (8, 0x0002_0000),
                (10, 0x1234_5678),
                (11, 0x0000_0056),
                (12, 0x0000_1234),
                (13, 0xffff_ffff),
                (14, 0x1234_ff78),
                (15, 0xffff_ff78),
                (16, 0x017f_ff00),
            ],
        },
    ];
    try_rows(&rt, rt.alloc(), &rows)
}

#[test]
fn each_end_comes_where_it_is_due(rt: HostRuntime) -> Result<(), Fail> {
    let rows: [(&str, &[u32], End, Addr, usize); 14] = [
        (
            "a jump to an address that isn't a multiple of 4",
            &[0x0060_006f],
            End::MisalignedPc,
            0x10006,
            1,
        ),
        (
            "a jump to a block that isn't executable",
            &[0x0002_0437, 0x0004_0067],
            End::NoFetch,
            0x20000,
            2,
        ),
        (
            "the end of the code",
            &[0x0010_0513],
            End::NoFetch,
            0x10004,
            1,
        ),
        (
            "a word that is no instruction",
            &[0xffff_ffff],
            End::Outside(0xffff_ffff),
            0x10000,
            0,
        ),
        (
            "the zeros of an uninitialised block",
            &[0x0004_0437, 0x0004_0067],
            End::Outside(0),
            0x40000,
            2,
        ),
        (
            "an environment call",
            &[0x0000_0073],
            End::Ecall,
            0x10000,
            0,
        ),
        (
            "a breakpoint",
            &[0x0010_0513, 0x0010_0073],
            End::Ebreak,
            0x10004,
            1,
        ),
        (
            "a load of two bytes at an odd address",
            &[0x0002_0437, 0x0014_1503],
            End::Misaligned(0x20001),
            0x10004,
            1,
        ),
        (
            "a store of four bytes at an even address",
            &[0x0003_0437, 0x00a4_2123],
            End::Misaligned(0x30002),
            0x10004,
            1,
        ),
        (
            "a load across the end of a block",
            &[0x0003_0437, 0x0044_1503, 0x0044_2503],
            End::NoLoad(0x30004),
            0x10008,
            2,
        ),
        (
            "a load from a block that isn't readable",
            &[0x0004_0437, 0x0004_0503],
            End::NoLoad(0x40000),
            0x10004,
            1,
        ),
        (
            "a store into a block that isn't writable",
            &[0x0003_0437, 0x00a4_0023],
            End::NoStore(0x30000),
            0x10004,
            1,
        ),
        (
            "a store into the code",
            &[0x0000_0417, 0x00a4_2023],
            End::NoStore(0x10000),
            0x10004,
            1,
        ),
        (
            "a store below the first address",
            &[0xfea0_2e23],
            End::NoStore(0xffff_fffc),
            0x10000,
            0,
        ),
    ];
    for (name, words, end, pc, done) in rows {
        let program = program(rt.alloc(), words)?;
        let trace = emulate(rt.alloc(), &program, CODE, 9)?;
        assert_eq!(rt; *trace.end(), end, "{name}");
        assert_eq!(rt; trace.pc(), pc, "{name}");
        assert_eq!(rt; trace.done().len(), done, "{name}");
    }
    Ok(())
}

#[test]
fn a_stored_instruction_is_fetched(rt: HostRuntime) -> Result<(), Fail> {
    let words = [
        0x0005_04b7,
        0x0070_05b7,
        0x5135_8593,
        0x00b4_a023,
        0x0004_8067,
    ];
    let program = program(rt.alloc(), &words)?;
    let trace = emulate(rt.alloc(), &program, CODE, 6)?;
    assert_eq!(rt; trace.done().last(), Some(&(0x50000, 0x0070_0513)));
    assert_eq!(rt; trace.regs().get(10), Some(&7));
    Ok(())
}

fn lines(alloc: Global, at: Addr, steps: u32) -> Result<Vec<u8>, Fail> {
    let code = &FILE_A[84..100];
    let file = [initialised(alloc, 0x10054, "rx", code)?];
    let program = program_of(alloc, &file)?;
    let trace = emulate(alloc, &program, at, steps)?;
    let mut out = Vec::new(alloc);
    text(alloc, &trace, &mut out)?;
    Ok(out)
}

#[test]
fn the_lines_of_the_sample_file(rt: HostRuntime) -> Result<(), Fail> {
    let expected = concat!(
        "steps 4\n",
        "00010054 addi a0, zero, 1\n",
        "00010058 jal ra, 00010060\n",
        "00010060 jalr zero, 0(ra)\n",
        "0001005c jal zero, 0001005c\n",
        "end budget\n",
        "pc 0001005c\n",
        "ra 0001005c\n",
        "a0 00000001\n",
    );
    assert_eq!(rt;
        str::from_utf8(&lines(rt.alloc(), 0x10054, 4)?),
        Ok(expected)
    );
    let misaligned = "steps 0\nend misaligned pc\npc 00010062\n";
    assert_eq!(rt;
        str::from_utf8(&lines(rt.alloc(), 0x10062, 9)?),
        Ok(misaligned)
    );
    Ok(())
}
