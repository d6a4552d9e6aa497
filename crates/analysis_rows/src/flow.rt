use rvd_an_flow::FlowRule;
use rvd_ask::Rule;
use rvd_elf::import;
use rvd_fact::{Addr, Cell, Change, Value};
use rvd_program::Program;
use sample_files::FILE_A;
use std::alloc::{AllocError, Global};
use std::test::Fail;

// What a change of flow adds.
#[derive(Clone, Copy, Debug, PartialEq, Eq)]
enum Addition {
    Code(Addr, u32),
    BadInstruction(Addr),
    Other,
}

fn added(change: &Change) -> Addition {
    match &change.after {
        Some(
            Cell {
                value: Value::Code(word),
                ..
            },
        ) => Addition::Code(change.key.at, *word),
        Some(
            Cell {
                value: Value::Bookmark(text),
                ..
            },
        ) if text.list() == b"Bad Instruction".as_slice() => Addition::BadInstruction(
            change.key.at,
        ),
        _ => Addition::Other,
    }
}

fn program_of(alloc: Global, file: &[u8]) -> Result<Program, AllocError> {
    let Ok(facts) = import(alloc, file) else {
        return Err(AllocError);
    };
    let mut program = Program::empty(alloc)?;
    let fits = program.fits(&facts)?;
    if fits {
        program.apply(&facts)?;
    }
    Ok(program)
}

// Flow's changes at an address, which are applied.
fn settle(alloc: Global, program: &mut Program, at: Addr) -> Result<Vec<Addition>, AllocError> {
    let proposal = FlowRule.propose(alloc, program, at)?;
    let mut list = Vec::new(alloc);
    for change in proposal.changes() {
        list.push(added(change))?;
    }
    let fits = program.fits(proposal.changes())?;
    if fits {
        program.apply(proposal.changes())?;
    }
    Ok(list)
}

#[test]
fn flow_adds_a_run_from_the_entry(rt: HostRuntime) -> Result<(), Fail> {
    let alloc = rt.alloc();
    let mut program = program_of(alloc, &FILE_A)?;
    let nothing = settle(alloc, &mut program, 0x10058)?;
    assert!(rt; nothing.is_empty());
    let run = settle(alloc, &mut program, 0x10054)?;
    let three = [
        Addition::Code(0x10054, 0x00100513),
        Addition::Code(0x10058, 0x008000ef),
        Addition::Code(0x1005c, 0x0000006f),
    ];
    assert_eq!(rt; run.as_slice(), three.as_slice());
    Ok(())
}

#[test]
fn flow_marks_a_word_that_is_no_instruction(rt: HostRuntime) -> Result<(), Fail> {
    let alloc = rt.alloc();
    let mut file = FILE_A;
    file[92] = 0;
    let mut program = program_of(alloc, &file)?;
    let run = settle(alloc, &mut program, 0x10054)?;
    let two = [
        Addition::Code(0x10054, 0x00100513),
        Addition::Code(0x10058, 0x008000ef),
    ];
    assert_eq!(rt; run.as_slice(), two.as_slice());
    let marked = settle(alloc, &mut program, 0x10058)?;
    assert_eq!(rt;
        marked.as_slice(),
        [Addition::BadInstruction(0x1005c)].as_slice()
    );
    Ok(())
}
