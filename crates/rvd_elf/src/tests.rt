mod damaged;
mod files;

use crate::{ElfError, Part, import};
use damaged::{DAMAGED, Patch};
use files::FACTS_OF_B;
use rvd_fact::{Change, Source, Value, What};
use sample_files::{FILE_A, FILE_B};
use std::alloc::{AllocError, Global};
use std::process::Abort;
use std::test::Fail;

fn file_b(alloc: Global) -> Result<Vec<u8>, AllocError> {
    let mut bytes = Vec::new(alloc);
    for word in FILE_B {
        bytes.extend_from_slice(&word.to_le_bytes())?;
    }
    Ok(bytes)
}

fn patch(bytes: &mut Vec<u8>, patches: &[Patch]) {
    for (at, new) in patches {
        if let Some(byte) = bytes.get_mut(*at) {
            *byte = *new;
        }
    }
}

fn damaged_b(alloc: Global, patches: [Patch; 4]) -> Result<Vec<u8>, AllocError> {
    let mut bytes = file_b(alloc)?;
    patch(&mut bytes, &patches);
    Ok(bytes)
}

fn describe(alloc: Global, change: &Change) -> Result<String, AllocError> {
    let at = change.key.at;
    let sub = change.key.sub;
    let Some(cell) = &change.after else {
        return String::from_str(alloc, "nothing");
    };
    match &cell.value {
        Value::Block { len, perm, bytes } => {
            let r = if perm.r { "r" } else { "-" };
            let w = if perm.w { "w" } else { "-" };
            let x = if perm.x { "x" } else { "-" };
            let init = if bytes.is_some() { "init" } else { "none" };
            format!(in alloc; "{at:08x} block {len:08x} {r}{w}{x} {init}")
        }
        Value::Mark => format!(in alloc; "{at:08x} mark"),
        Value::Func => format!(in alloc; "{at:08x} func"),
        Value::Symbol(name) => {
            let name = str::from_utf8(name.list()).unwrap_or("?");
            format!(in alloc; "{at:08x} symbol {sub} {name}")
        }
        _ => format!(in alloc; "{at:08x} another fact"),
    }
}

fn expect_facts(rt: &impl Abort, alloc: Global, file: &[u8], facts: &[&str]) -> Result<(), Fail> {
    let changes = import(alloc, file)?;
    assert_eq!(rt; changes.len(), facts.len());
    for (change, fact) in changes.iter().zip(facts) {
        assert_eq!(rt; describe(alloc, change)?.as_str(), *fact);
        assert!(rt; change.before.is_none());
        assert!(rt; matches!(&change.after, Some(cell) if cell.source == Source::Imported));
    }
    Ok(())
}

#[test]
fn file_b_has_its_facts(rt: HostRuntime) -> Result<(), Fail> {
    let alloc = rt.alloc();
    expect_facts(&rt, alloc, &file_b(alloc)?, &FACTS_OF_B)?;
    let mut bytes = Vec::from_slice(alloc, &FILE_A)?;
    patch(&mut bytes, &[(72, 32)]);
    let facts = [
        "00010054 block 00000010 r-x init",
        "00010054 mark",
        "00010064 block 00000010 r-x none",
    ];
    expect_facts(&rt, alloc, &bytes, &facts)
}

#[test]
fn damaged_files_are_refused(rt: HostRuntime) -> Result<(), Fail> {
    let alloc = rt.alloc();
    for (name, patches, refusal) in DAMAGED {
        let bytes = damaged_b(alloc, patches)?;
        assert_eq!(rt; import(alloc, &bytes).err(), refusal, "{name}");
    }
    Ok(())
}

#[test]
fn truncated_files_are_refused(rt: HostRuntime) -> Result<(), Fail> {
    let alloc = rt.alloc();
    for k in 0..FILE_A.len() {
        let refusal = match k {
            0..4 => ElfError::NotElf,
            4..52 => ElfError::Truncated(Part::Header, 0),
            52..84 => ElfError::Truncated(Part::ProgramTable, 52),
            _ => ElfError::Truncated(Part::Segment(0), 84),
        };
        assert_eq!(rt;
            import(alloc, &FILE_A[..k]).err(),
            Some(refusal),
            "{k} bytes"
        );
    }
    let bytes = file_b(alloc)?;
    for k in 0..bytes.len() {
        assert!(rt; import(alloc, &bytes[..k]).is_err(), "{k} bytes");
    }
    Ok(())
}

fn expect_too_many(
    rt: &impl Abort,
    alloc: Global,
    file: &[u8],
    len: usize,
    patches: &[Patch],
    what: What,
    number: u64,
) -> Result<(), Fail> {
    let mut bytes = Vec::from_slice(alloc, file)?;
    bytes.resize(len, 0)?;
    patch(&mut bytes, patches);
    assert_eq!(rt;
        import(alloc, &bytes).err(),
        Some(ElfError::TooMany(what, number))
    );
    Ok(())
}

#[test]
fn limits_are_kept(rt: HostRuntime) -> Result<(), Fail> {
    let alloc = rt.alloc();
    let mut blocks = Vec::from_slice(alloc, &FILE_A[..52])?;
    for _ in 0..65 {
        blocks.extend_from_slice(&FILE_A[52..84])?;
    }
    expect_too_many(
        &rt,
        alloc,
        &blocks,
        blocks.len(),
        &[(44, 65)],
        What::Blocks,
        65,
    )?;
    let size = [(68, 1), (70, 0x40), (72, 1), (74, 0x40)];
    expect_too_many(
        &rt,
        alloc,
        &FILE_A,
        4_194_389,
        &size,
        What::LoadedBytes,
        4_194_305,
    )?;
    let size = [(560, 0x10), (561, 0xd4), (562, 0x30)];
    expect_too_many(
        &rt,
        alloc,
        &file_b(alloc)?,
        3_300_000,
        &size,
        What::Symbols,
        200_001,
    )
}
