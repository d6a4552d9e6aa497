use crate::{Ending, run_plain};
use rvd_fact::Text;
use rvd_io::{MemoryCabinet, MemorySink};
use sample_files::FILE_A;
use std::alloc::Global;
use std::test::Fail;

// A transaction of two entries, of which one aborts after an offer has joined.
const ROLLED_BACK: &str = "\
journal 1 2 1
1 s1 full = step 1
2 s1 begin \"a\" = entry 1
3 s2 begin \"b\" = entry 2
4 w1 take 1 = job 1 flow:00010054
5 w1 offer 1 = joined 3
6 s2 abort = waiting 1
7 s1 commit = rolled back
8 w1 take 1 = job 2 flow:00010054
end 8
";

// The lowest bytes of the entry point and of the segment's address in file A.
const ENTRY_POINT: usize = 24;

const SEGMENT_ADDRESS: usize = 60;

const OUTCOME: &str = "\
history 1
1 full s1
listing 2
00010054 imported block 00000010 r-x init
00010054 imported mark
";

fn text(alloc: Global, word: &str) -> Result<Text, Fail> {
    let bytes = Vec::from_slice(alloc, word.as_bytes())?;
    if bytes.len() > 1000 {
        return Err(Fail::from("a long word"));
    }
    Ok(Text::of(alloc, bytes)?)
}

// How replaying a journal on a file ends, and what the sink then holds.
fn replay_on(
    alloc: Global,
    file: &[u8],
    journal: &[u8],
    failing: &[u64],
) -> Result<(Ending, MemorySink), Fail> {
    let mut words = Vec::new(alloc);
    for word in ["replay", "A", "J"] {
        words.push(String::from_str(alloc, word)?)?;
    }
    let mut files = Vec::new(alloc);
    files.push((text(alloc, "A")?, Vec::from_slice(alloc, file)?))?;
    files.push((text(alloc, "J")?, Vec::from_slice(alloc, journal)?))?;
    let mut files = MemoryCabinet::new(alloc, files, Vec::from_slice(alloc, failing)?);
    let mut out = MemorySink::new(alloc, 10_000, Vec::new(alloc))?;
    let ending = run_plain(alloc, &words, &mut files, &mut out);
    Ok((ending, out))
}

fn replay(alloc: Global, journal: &[u8], failing: &[u64]) -> Result<(Ending, MemorySink), Fail> {
    replay_on(alloc, &FILE_A, journal, failing)
}

// The text with another one in place of its part from here on, up to there.
fn changed(alloc: Global, from: &str, to: &str) -> Result<Vec<u8>, Fail> {
    Ok(ROLLED_BACK.replace(alloc, from, to)?.into_bytes())
}

#[test]
fn replays_a_journal(rt: HostRuntime) -> Result<(), Fail> {
    let alloc = rt.alloc();
    let (ending, out) = replay(alloc, ROLLED_BACK.as_bytes(), &[])?;
    assert_eq!(rt; ending, Ending::Done);
    assert_eq!(rt; out.bytes(), OUTCOME.as_bytes());
    // What follows the end line isn't read.
    let longer = changed(alloc, "end 8\n", "end 8\n9 s1 full = step 9\n")?;
    let (ending, out) = replay(alloc, &longer, &[])?;
    assert_eq!(rt; ending, Ending::Done);
    assert_eq!(rt; out.bytes(), OUTCOME.as_bytes());
    Ok(())
}

#[test]
fn names_the_first_line_that_differs(rt: HostRuntime) -> Result<(), Fail> {
    let alloc = rt.alloc();
    let rows = [
        (
            "another item",
            "job 2 flow:00010054",
            "job 2 flow:00010058",
            9,
        ),
        ("no end line", "end 8\n", "", 10),
        ("an end line without its line feed", "end 8\n", "end 8", 10),
        ("another number of entries", "end 8\n", "end 7\n", 10),
        (
            "an end line that counts one more entry",
            "8 w1",
            "end 8\n8 w1",
            9,
        ),
        (
            "another reply",
            "begin \"b\" = entry 2",
            "begin \"b\" = entry 3",
            4,
        ),
        ("a session that isn't there", "3 s2", "3 s3", 4),
        ("a number left out", "5 w1", "6 w1", 6),
        (
            "a carriage return",
            "full = step 1\n",
            "full = step 1\r\n",
            2,
        ),
        ("upper case", "flow:00010054\n5", "flow:0001005F\n5", 5),
        ("a Settled step", "entry 1\n", "entry 1; settled 2\n", 3),
        ("another head line", "journal 1 2 1", "journal 1 02 1", 1),
        ("no session", "journal 1 2 1", "journal 1 0 1", 1),
    ];
    for (name, from, to, line) in rows {
        let journal = changed(alloc, from, to)?;
        let (ending, out) = replay(alloc, &journal, &[])?;
        assert_eq!(rt; ending, Ending::Differs { line }, "{name}");
        assert!(rt; out.bytes().is_empty(), "{name}");
    }
    let (ending, _) = replay(alloc, &[], &[])?;
    assert_eq!(rt; ending, Ending::Differs { line: 1 });
    Ok(())
}

// The same instructions, loaded elsewhere: the first job has another item.
#[test]
fn a_journal_of_another_file_differs(rt: HostRuntime) -> Result<(), Fail> {
    let mut moved = FILE_A;
    for place in [ENTRY_POINT, SEGMENT_ADDRESS] {
        moved[place] = 0x58;
    }
    let (ending, out) = replay_on(rt.alloc(), &moved, ROLLED_BACK.as_bytes(), &[])?;
    assert_eq!(rt; ending, Ending::Differs { line: 5 });
    assert!(rt; out.bytes().is_empty());
    Ok(())
}

// The line and the column of a place in a text, both counted from 1.
fn position(text: &[u8], place: usize) -> (u32, u32) {
    let (mut line, mut column) = (1_u32, 1_u32);
    for byte in text.iter().take(place) {
        if *byte == b'\n' {
            line = line.wrapping_add(1);
            column = 1;
        } else {
            column = column.wrapping_add(1);
        }
    }
    (line, column)
}

// Each front of the journal's text differs: at the line that is cut, or at the one that is missing.
#[test]
fn names_the_line_where_a_journal_is_cut(rt: HostRuntime) -> Result<(), Fail> {
    let bytes = ROLLED_BACK.as_bytes();
    for len in 0..bytes.len() {
        let (line, _) = position(bytes, len);
        let (ending, out) = replay(rt.alloc(), &bytes[..len], &[])?;
        assert_eq!(rt; ending, Ending::Differs { line }, "at {len}");
        assert!(rt; out.bytes().is_empty());
    }
    Ok(())
}

// The next digit, and 0 after 9.
fn next_digit(digit: u8) -> u8 {
    if digit == b'9' {
        b'0'
    } else {
        digit.wrapping_add(1)
    }
}

// The journal with the next digit at a place.
fn with_next_digit(alloc: Global, place: usize) -> Result<Vec<u8>, Fail> {
    let mut journal = Vec::from_slice(alloc, ROLLED_BACK.as_bytes())?;
    if place < journal.len() {
        journal[place] = next_digit(journal[place]);
    }
    Ok(journal)
}

// Where a changed digit at this column of this line is told, both counted from 1; none where the journal is a legal one still:
// with more sessions or workers, with the other session's analysis, and with a job that might have had two items.
fn digit_is_told(line: u32, column: u32) -> Option<u32> {
    match (line, column) {
        (1, 11 | 13) | (2, 4) | (5, 11) => None,
        // The begin is the other session's, so the first one's commit at line 8 has no entry.
        (3, 4) => Some(8),
        _ => Some(line),
    }
}

#[test]
fn names_the_line_where_a_digit_is_changed(rt: HostRuntime) -> Result<(), Fail> {
    let alloc = rt.alloc();
    let bytes = ROLLED_BACK.as_bytes();
    for place in 0..bytes.len() {
        if !bytes[place].is_ascii_digit() {
            continue;
        }
        let (line, column) = position(bytes, place);
        let wanted = match digit_is_told(line, column) {
            Some(line) => Ending::Differs { line },
            None => Ending::Done,
        };
        let (ending, out) = replay(alloc, &with_next_digit(alloc, place)?, &[])?;
        assert_eq!(rt; ending, wanted, "line {line}, column {column}");
        assert_eq!(rt; out.bytes().is_empty(), wanted != Ending::Done);
    }
    Ok(())
}

#[test]
fn names_the_word_of_a_fault(rt: HostRuntime) -> Result<(), Fail> {
    for word in 1..3 {
        let (ending, out) = replay(rt.alloc(), ROLLED_BACK.as_bytes(), &[u64::from(word)])?;
        assert_eq!(rt; ending, Ending::ReadFault { word });
        assert!(rt; out.bytes().is_empty());
    }
    Ok(())
}
