use crate::playing::played;
use sample_files::FILE_A;
use std::test::Fail;

const WHOLE_ANALYSIS: &str = "events 1 1\ns1 full\nw1 settle 64\n";

// The place of the size in memory of the file's segment, and of its third word.
const MEMORY_SIZE: usize = 72;

const THIRD_WORD: usize = 92;

const MORE_MEMORY: &str = "listing 11
00010054 imported block 00000010 r-x init
00010054 imported mark
00010054 analysis code 00100513 addi a0, zero, 1
00010058 analysis code 008000ef jal ra, 00010060
00010058 analysis ref 0 call 00010060
0001005c analysis code 0000006f jal zero, 0001005c
0001005c analysis ref 0 jump 0001005c
00010060 analysis func FUN_00010060
00010060 analysis body 00010060-00010063
00010060 analysis code 00008067 jalr zero, 0(ra)
00010064 imported block 00000010 r-x none
";

const NO_INSTRUCTION: &str = "listing 9
00010054 imported block 00000010 r-x init
00010054 imported mark
00010054 analysis code 00100513 addi a0, zero, 1
00010058 analysis code 008000ef jal ra, 00010060
00010058 analysis ref 0 call 00010060
0001005c analysis bookmark error \"Bad Instruction\"
00010060 analysis func FUN_00010060
00010060 analysis body 00010060-00010063
00010060 analysis code 00008067 jalr zero, 0(ra)
";

const AFTER_FIFTY: &str = "152 s1 undo = step 101
153 s1 undo = refused nothing to undo
154 s1 begin \"y\" = entry 52
155 s1 commit = committed 102
156 s1 redo = refused nothing to redo
end 156
";

#[test]
fn changed_files_are_analysed(rt: HostRuntime) -> Result<(), Fail> {
    let alloc = rt.alloc();
    for (name, place, byte, wanted) in [
        ("more memory than bytes", MEMORY_SIZE, 0x20, MORE_MEMORY),
        (
            "a word that is no instruction",
            THIRD_WORD,
            0,
            NO_INSTRUCTION,
        ),
    ] {
        let mut file = FILE_A;
        file[place] = byte;
        let texts = played(alloc, &file, WHOLE_ANALYSIS.as_bytes())?;
        assert_eq!(rt; texts.listing.as_slice(), wanted.as_bytes(), "{name}");
    }
    Ok(())
}

#[test]
fn fifty_transactions_can_be_undone(rt: HostRuntime) -> Result<(), Fail> {
    let alloc = rt.alloc();
    let mut events = Vec::new(alloc);
    events.extend_from_slice(b"events 1 0\n")?;
    for _ in 0..51 {
        events.extend_from_slice(b"s1 begin \"x\"\ns1 commit\n")?;
    }
    for _ in 0..51 {
        events.extend_from_slice(b"s1 undo\n")?;
    }
    events.extend_from_slice(b"s1 begin \"y\"\ns1 commit\ns1 redo\n")?;
    let texts = played(alloc, &FILE_A, &events)?;
    assert!(rt; texts.journal.ends_with(AFTER_FIFTY.as_bytes()));
    Ok(())
}
