use rvd_ask::{Analyzer, Item};
use rvd_edit::changes_of;
use rvd_elf::import;
use rvd_event::Edit;
use rvd_fact::{Change, Kind, RangeSet};
use rvd_program::Program;
use rvd_report::listing;
use rvd_wake::{candidates, propose};
use sample_files::{FILE_A, FILE_B};
use std::alloc::{AllocError, Global};
use std::test::Fail;

// More rounds than a small program needs.
const MOST_ROUNDS: u32 = 64;

const ANALYZERS: [Analyzer; 5] = [
    Analyzer::Flow,
    Analyzer::Refs,
    Analyzer::Funcs,
    Analyzer::Body,
    Analyzer::Strings,
];

fn apply(program: &mut Program, changes: &[Change]) -> Result<(), Fail> {
    if !program.fits(changes)? {
        return Err(Fail::new("the changes don't fit"));
    }
    program.apply(changes)?;
    Ok(())
}

fn imported(alloc: Global, file: &[u8]) -> Result<Program, Fail> {
    let Ok(facts) = import(alloc, file) else {
        return Err(Fail::new("the file is refused"));
    };
    let mut program = Program::empty(alloc)?;
    apply(&mut program, &facts)?;
    Ok(program)
}

// Whether an item had something to change, which is then changed.
fn settle_item(alloc: Global, program: &mut Program, item: Item) -> Result<bool, Fail> {
    let proposal = propose(alloc, &*program, item)?;
    if proposal.changes().is_empty() {
        return Ok(false);
    }
    apply(program, proposal.changes())?;
    Ok(true)
}

// Whether an analyzer had something to change at one of its candidates.
fn settle_analyzer(alloc: Global, program: &mut Program, analyzer: Analyzer) -> Result<bool, Fail> {
    let mut changed = false;
    let items = candidates(alloc, program, analyzer)?;
    for item in &items {
        if settle_item(alloc, program, *item)? {
            changed = true;
        }
    }
    Ok(changed)
}

fn settle_round(alloc: Global, program: &mut Program) -> Result<bool, Fail> {
    let mut changed = false;
    for analyzer in ANALYZERS {
        if settle_analyzer(alloc, program, analyzer)? {
            changed = true;
        }
    }
    Ok(changed)
}

fn settle(alloc: Global, program: &mut Program) -> Result<(), Fail> {
    for _ in 0..MOST_ROUNDS {
        if !settle_round(alloc, program)? {
            return Ok(());
        }
    }
    Err(Fail::new("the program isn't settled"))
}

fn analyzed(alloc: Global, file: &[u8]) -> Result<Program, Fail> {
    let mut program = imported(alloc, file)?;
    settle(alloc, &mut program)?;
    Ok(program)
}

fn text(alloc: Global, program: &Program) -> Result<Vec<u8>, AllocError> {
    let mut out = Vec::new(alloc);
    listing(alloc, program, &mut out)?;
    Ok(out)
}

fn edit(alloc: Global, program: &mut Program, edit: &Edit) -> Result<(), Fail> {
    let Ok(changes) = changes_of(alloc, program, edit) else {
        return Err(Fail::new("the edit is refused"));
    };
    apply(program, &changes)
}

const LISTING_OF_A: &str = "listing 10
00010054 imported block 00000010 r-x init
00010054 imported mark
00010054 analysis code 00100513 addi a0, zero, 1
00010058 analysis code 008000ef jal ra, 00010060
00010058 analysis ref 0 call 00010060
0001005c analysis code 0000006f jal zero, 0001005c
0001005c analysis ref 0 jump 0001005c
00010060 analysis func FUN_00010060
00010060 analysis body 00010060-00010063
00010060 analysis code 00008067 jalr zero, 0(ra)
";

#[test]
fn a_call_leads_to_a_function_with_its_body(rt: HostRuntime) -> Result<(), Fail> {
    let alloc = rt.alloc();
    let program = analyzed(alloc, &FILE_A)?;
    let text = text(alloc, &program)?;
    assert_eq!(rt; text.as_slice(), LISTING_OF_A.as_bytes());
    Ok(())
}

const LISTING_WITH_A_BAD_WORD: &str = "listing 9
00010054 imported block 00000010 r-x init
00010054 imported mark
00010054 analysis code 00100513 addi a0, zero, 1
00010058 analysis code 008000ef jal ra, 00010060
00010058 analysis ref 0 call 00010060
0001005c analysis bookmark error \"Bad Instruction\"
00010060 analysis func FUN_00010060
00010060 analysis body 00010060-00010063
00010060 analysis code 00008067 jalr zero, 0(ra)
";

#[test]
fn a_word_that_is_no_instruction_is_marked(rt: HostRuntime) -> Result<(), Fail> {
    let alloc = rt.alloc();
    let mut file = FILE_A;
    file[92] = 0;
    let program = analyzed(alloc, &file)?;
    let text = text(alloc, &program)?;
    assert_eq!(rt; text.as_slice(), LISTING_WITH_A_BAD_WORD.as_bytes());
    Ok(())
}

const LISTING_OF_B: &str = "listing 18
00010000 imported block 00000010 r-x init
00010000 imported mark
00010000 imported func \"_start\"
00010000 analysis body 00010000-0001000b
00010000 imported symbol 0 \"_start\"
00010000 analysis code 00100513 addi a0, zero, 1
00010004 analysis code 008000ef jal ra, 0001000c
00010004 analysis ref 0 call 0001000c
00010008 analysis code 0000006f jal zero, 00010008
00010008 analysis ref 0 jump 00010008
0001000c imported func \"leaf\"
0001000c analysis body 0001000c-0001000f
0001000c imported symbol 0 \"leaf\"
0001000c analysis code 00008067 jalr zero, 0(ra)
00012000 imported block 00000004 rw- init
00012004 imported block 00000004 rw- none
00012004 imported symbol 0 \"counter\"
00012800 imported symbol 0 \"__global_pointer$\"
";

fn bytes_of(alloc: Global, words: &[u32]) -> Result<Vec<u8>, AllocError> {
    let mut bytes: Vec<u8> = Vec::new(alloc);
    for word in words {
        bytes.extend_from_slice(&word.to_le_bytes())?;
    }
    Ok(bytes)
}

#[test]
fn imported_functions_get_their_bodies(rt: HostRuntime) -> Result<(), Fail> {
    let alloc = rt.alloc();
    let program = analyzed(alloc, &bytes_of(alloc, &FILE_B)?)?;
    let text = text(alloc, &program)?;
    assert_eq!(rt; text.as_slice(), LISTING_OF_B.as_bytes());
    Ok(())
}

const LISTING_OF_NOTES: &str = "listing 9
00010054 imported block 00000010 r-x init
00010054 imported mark
00010054 analysis code 00100513 addi a0, zero, 1
00010058 analysis code 008000ef jal ra, 00010060
00010058 analysis ref 0 call 00010060
0001005c user gone unit 0
00010060 user func FUN_00010060
00010060 user body 00010054-00010063
00010060 analysis code 00008067 jalr zero, 0(ra)
";

const LISTING_AFTER_A_RELEASE: &str = "listing 10
00010054 imported block 00000010 r-x init
00010054 imported mark
00010054 analysis code 00100513 addi a0, zero, 1
00010058 analysis code 008000ef jal ra, 00010060
00010058 analysis ref 0 call 00010060
0001005c analysis code 0000006f jal zero, 0001005c
0001005c analysis ref 0 jump 0001005c
00010060 user func FUN_00010060
00010060 user body 00010054-00010063
00010060 analysis code 00008067 jalr zero, 0(ra)
";

// A function with a body that an analyst gave it, and an instruction that was cleared after the analysis.
fn noted(alloc: Global) -> Result<Program, Fail> {
    let mut program = imported(alloc, &FILE_A)?;
    let mut body = RangeSet::new(alloc);
    body.add(0x10054, 0x10063)?;
    edit(alloc, &mut program, &Edit::Func(0x10060))?;
    edit(alloc, &mut program, &Edit::Body(0x10060, body))?;
    settle(alloc, &mut program)?;
    edit(alloc, &mut program, &Edit::Clear(0x1005c))?;
    settle(alloc, &mut program)?;
    Ok(program)
}

#[test]
fn what_an_analyst_cleared_stays_away_until_it_is_released(rt: HostRuntime) -> Result<(), Fail> {
    let alloc = rt.alloc();
    let mut program = noted(alloc)?;
    let before = text(alloc, &program)?;
    assert_eq!(rt; before.as_slice(), LISTING_OF_NOTES.as_bytes());
    edit(alloc, &mut program, &Edit::Release(Kind::Unit, 0x1005c, 0))?;
    settle(alloc, &mut program)?;
    let after = text(alloc, &program)?;
    assert_eq!(rt; after.as_slice(), LISTING_AFTER_A_RELEASE.as_bytes());
    Ok(())
}
