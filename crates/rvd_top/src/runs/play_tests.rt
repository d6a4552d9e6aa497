use crate::{Ending, run_plain};
use rvd_fact::{Text, TextCause};
use rvd_io::{MemoryCabinet, MemorySink};
use sample_files::FILE_A;
use std::alloc::Global;
use std::test::Fail;

const NAMED: &str = "\
events 1 0
s1 begin \"name\"
s1 label 10054 \"start\"
s1 commit
s1 read
s1 undo
s1 read
s1 ask name 10054
s1 redo
s1 read
s1 ask name 10054
";

const NAMED_TEXT: &str = "\
journal 1 1 0
1 s1 begin \"name\" = entry 1
2 s1 label 00010054 \"start\" = changed 1
3 s1 commit = committed 1
4 s1 read = at 1
5 s1 undo = step 2
6 s1 read = at 2
7 s1 redo = step 3
8 s1 read = at 3
end 8
answers 2
s1 8 none
s1 11 \"start\"
history 3
1 commit s1 \"name\" 1
2 undo s1
3 redo s1
listing 3
00010054 imported block 00000010 r-x init
00010054 imported mark
00010054 user symbol 0 \"start\"
";

// One of two entries aborts, so all is rolled back.
const JOINED: &str = "\
events 2 0
s1 begin \"a\"
s2 begin \"b\"
s1 label 10054 \"start\"
s2 abort
s1 commit
";

// A session closes with an open entry.
const CLOSED: &str = "\
events 1 0
s1 begin \"e\"
s1 func 10060
s1 func 10060
s1 close
";

const JOINED_TEXT: &str = "\
journal 1 2 0
1 s1 begin \"a\" = entry 1
2 s2 begin \"b\" = entry 2
3 s1 label 00010054 \"start\" = changed 1
4 s2 abort = waiting 1
5 s1 commit = rolled back
end 5
answers 0
history 0
listing 2
00010054 imported block 00000010 r-x init
00010054 imported mark
";

const CLOSED_TEXT: &str = "\
journal 1 1 0
1 s1 begin \"e\" = entry 1
2 s1 func 00010060 = changed 1
3 s1 func 00010060 = refused present func 00010060 0
4 s1 close = closed 1
end 4
answers 0
history 0
listing 2
00010054 imported block 00000010 r-x init
00010054 imported mark
";

// A job is taken before a byte of its run is made data, which goes again before the offer.
const ANALYSED: &str = "\
events 1 1
w1 take 1
s1 full
w1 take 1
s1 begin \"d\"
s1 data 1005d byte
s1 commit
s1 undo
w1 offer 1
";

const ANALYSED_TEXT: &str = "\
journal 1 1 1
1 s1 full = step 1
2 w1 take 1 = job 1 flow:00010054
3 s1 begin \"d\" = entry 1
4 s1 data 0001005d byte = changed 1
5 s1 commit = committed 2
6 s1 undo = step 3
7 w1 offer 1 = joined 3
end 7
answers 0
history 4
1 full s1
2 commit s1 \"d\" 1
3 undo s1
4 commit w1 \"Analysis\" 3
listing 5
00010054 imported block 00000010 r-x init
00010054 imported mark
00010054 analysis code 00100513 addi a0, zero, 1
00010058 analysis code 008000ef jal ra, 00010060
0001005c analysis code 0000006f jal zero, 0001005c
";

// Queries before the first read, after it, and after a second one.
const ASKED: &str = "\
events 2 0
s1 ask name 10054
s1 begin \"name\"
s1 label 10054 \"start\"
s1 commit
s1 ask name 10054
s1 read
s1 ask name 10054
s2 ask count
s1 undo
s1 ask name 10054
s1 read
s1 ask name 10054
";

const ASKED_TEXT: &str = "\
journal 1 2 0
1 s1 begin \"name\" = entry 1
2 s1 label 00010054 \"start\" = changed 1
3 s1 commit = committed 1
4 s1 read = at 1
5 s1 undo = step 2
6 s1 read = at 2
end 6
answers 6
s1 2 none
s1 6 none
s1 8 \"start\"
s2 9 blocks 1 units 0 symbols 0 refs 0 funcs 0 comments 0 bookmarks 0 marks 1
s1 11 \"start\"
s1 13 none
history 2
1 commit s1 \"name\" 1
2 undo s1
listing 2
00010054 imported block 00000010 r-x init
00010054 imported mark
";

fn text(alloc: Global, word: &str) -> Result<Text, Fail> {
    let bytes = Vec::from_slice(alloc, word.as_bytes())?;
    if bytes.len() > 1000 {
        return Err(Fail::from("a long word"));
    }
    Ok(Text::of(alloc, bytes)?)
}

// How playing these events on file A ends, and what the sink then holds.
fn play(alloc: Global, events: &str, failing: &[u64]) -> Result<(Ending, MemorySink), Fail> {
    let mut words = Vec::new(alloc);
    for word in ["play", "A", "E"] {
        words.push(String::from_str(alloc, word)?)?;
    }
    let mut files = Vec::new(alloc);
    files.push((text(alloc, "A")?, Vec::from_slice(alloc, &FILE_A)?))?;
    files.push((
        text(alloc, "E")?,
        Vec::from_slice(alloc, events.as_bytes())?,
    ))?;
    let mut files = MemoryCabinet::new(alloc, files, Vec::from_slice(alloc, failing)?);
    let mut out = MemorySink::new(alloc, 10_000, Vec::new(alloc))?;
    let ending = run_plain(alloc, &words, &mut files, &mut out);
    Ok((ending, out))
}

fn bad(line: u32, cause: TextCause) -> Ending {
    Ending::BadText {
        word: 2,
        line,
        cause,
    }
}

#[test]
fn plays_event_files(rt: HostRuntime) -> Result<(), Fail> {
    let rows = [
        ("a name", NAMED, Ending::Done, NAMED_TEXT),
        ("an abort", JOINED, Ending::Done, JOINED_TEXT),
        ("a close", CLOSED, Ending::Done, CLOSED_TEXT),
        ("an analysis", ANALYSED, Ending::Done, ANALYSED_TEXT),
        ("queries", ASKED, Ending::Done, ASKED_TEXT),
        (
            "no address",
            "events 1 0\ns1 mark 1005g",
            bad(2, TextCause::BadAddress),
            "",
        ),
        (
            "no event file",
            "s1 read",
            bad(1, TextCause::UnknownWord),
            "",
        ),
    ];
    for (name, events, wanted, printed) in rows {
        let (ending, out) = play(rt.alloc(), events, &[])?;
        assert_eq!(rt; ending, wanted, "{name}");
        assert_eq!(rt; out.bytes(), printed.as_bytes(), "{name}");
    }
    Ok(())
}

#[test]
fn names_the_word_of_a_fault(rt: HostRuntime) -> Result<(), Fail> {
    for word in 1..3 {
        let (ending, out) = play(rt.alloc(), NAMED, &[u64::from(word)])?;
        assert_eq!(rt; ending, Ending::ReadFault { word });
        assert!(rt; out.bytes().is_empty());
    }
    Ok(())
}
