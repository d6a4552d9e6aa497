use crate::{LineError, is_end, read_head, read_line, read_next};
use rvd_event::Names;
use rvd_journal_text::push_entry;
use rvd_reading::Rest;
use std::str;
use std::test::Fail;

const NAMES: Names = Names {
    sessions: 2,
    workers: 1,
};

#[test]
fn a_line_of_each_form_is_read(rt: HostRuntime) -> Result<(), Fail> {
    for line in [
        "1 s1 begin \"a\\n\\xff\" = entry 1",
        "2 s1 block 00010000 00000100 r-x = changed 1",
        "3 s2 mark 00010054 = refused no transaction",
        "4 s1 func 00010054 = refused present func 00010054 0",
        "5 s1 body 00010060 00010054-0001005b 00010060-00010063 = changed 1",
        "6 s1 label 00010054 \"start = 1; settled 2\" = changed 1",
        "7 s1 ref 00010054 00010060 call = changed 1",
        "8 s1 comment 00010054 eol \"x\" = changed 1",
        "9 s1 bookmark 00010054 7 \"\" = changed 0",
        "10 s1 code 00010054 = refused bad instruction 00000000",
        "11 s1 data 00010054 string 12 = changed 1",
        "12 s1 clear 00010054 = changed 1",
        "13 s1 remove comment 00010054 2 = changed 1",
        "14 s1 release ref 00010054 63 = changed 1",
        "15 s1 commit = committed 1",
        "16 s1 commit = waiting 2",
        "17 s1 abort = rolled back",
        "18 s1 undo = step 2",
        "19 s1 redo = refused nothing to redo",
        "20 s1 full = step 3; settled 4",
        "21 s1 cancel = step 5",
        "22 s1 enable flow = step 6",
        "23 s1 disable strings = step 7",
        "24 s1 read = at 7",
        "25 s1 wait = settled 4",
        "26 s1 wait = voided",
        "27 s1 close = closed 0",
        "28 w1 take 64 = job 4 flow:00010058 refs:00010060",
        "29 w1 take 64 = job 5",
        "30 w1 offer 4 = nothing off joined 1; settled 8",
        "31 w1 offer 5 = stale cell func 00010060 0 none [analysis func] foreign bytes 00010054 2 none 0a0b",
        "18446744073709551615 w1 offer 6 = ",
    ] {
        let (number, entry) = read_line(rt.alloc(), line.as_bytes(), NAMES)?;
        let mut out = Vec::new(rt.alloc());
        push_entry(number, &entry, NAMES, &mut out)?;
        assert_eq!(rt; str::from_utf8(&out), Ok(line));
    }
    Ok(())
}

#[test]
fn a_damaged_line_is_bad(rt: HostRuntime) {
    for (damage, line) in [
        ("nothing", ""),
        (
            "a leading zero of the number",
            "01 s1 begin \"a\" = entry 1",
        ),
        (
            "a number of 65 bits",
            "18446744073709551616 s1 begin \"a\" = entry 1",
        ),
        ("a third session", "1 s3 begin \"a\" = entry 1"),
        (
            "a byte that stands for itself, escaped",
            "1 s1 begin \"\\x61\" = entry 1",
        ),
        ("upper case", "2 s1 block 0001000A 00000100 r-x = changed 1"),
        ("two spaces", "3 s2  mark 00010054 = refused no transaction"),
        (
            "a digit less",
            "4 s1 func 0010054 = refused present func 00010054 0",
        ),
        (
            "ranges that touch",
            "5 s1 body 00010060 00010060-00010063 00010064-00010067 = changed 1",
        ),
        ("no name", "6 s1 label 00010054 = changed 1"),
        ("no class", "7 s1 ref 00010054 00010060 = changed 1"),
        (
            "the number of a kind that has a word",
            "8 s1 comment 00010054 2 \"x\" = changed 1",
        ),
        ("no quote", "9 s1 bookmark 00010054 7 \" = changed 0"),
        (
            "an upper-case digit",
            "10 s1 code 0001005C = refused bad instruction 00000000",
        ),
        (
            "a leading zero of a length",
            "11 s1 data 00010054 string 012 = changed 1",
        ),
        ("no address", "12 s1 clear = changed 1"),
        (
            "no number of a key",
            "13 s1 remove comment 00010054 = changed 1",
        ),
        (
            "an unknown kind",
            "14 s1 release bytes 00010054 63 = changed 1",
        ),
        ("a carriage return", "15 s1 commit = committed 1\r"),
        ("a line feed", "16 s1 commit = waiting 2\n"),
        ("a space behind the end", "17 s1 abort = rolled back "),
        ("no step", "18 s1 undo = step "),
        (
            "two spaces of a refusal",
            "19 s1 redo = refused  nothing to redo",
        ),
        ("nothing behind settled", "20 s1 full = step 3; settled"),
        ("no number behind settled", "20 s1 full = step 3; settled "),
        (
            "a leading zero of the Settled step",
            "20 s1 full = step 3; settled 04",
        ),
        ("no sign", "21 s1 cancel step 5"),
        ("no analyzer", "22 s1 enable = step 6"),
        ("an unknown analyzer", "23 s1 disable none = step 7"),
        ("a leading zero of a step", "24 s1 read = at 07"),
        (
            "settled twice",
            "25 s1 wait = settled 4; settled 5; settled 6",
        ),
        ("a word in upper case", "26 s1 wait = Voided"),
        ("a count of 33 bits", "27 s1 close = closed 4294967296"),
        (
            "an item without its address",
            "28 w1 take 64 = job 4 flow: refs:00010060",
        ),
        ("a space behind a job", "29 w1 take 64 = job 5 "),
        ("a comma between verdicts", "30 w1 offer 4 = nothing, off"),
        (
            "bytes where no byte is asked for",
            "31 w1 offer 5 = foreign bytes 00010054 0  0a",
        ),
        ("no reply", "32 w1 offer 6 ="),
    ] {
        let refused = read_line(rt.alloc(), line.as_bytes(), NAMES);
        assert!(rt; matches!(&refused, Err(LineError::BadLine)), "{damage}");
    }
}

#[test]
fn a_head_line_is_read_with_its_line_feed(rt: HostRuntime) -> Result<(), Fail> {
    let mut rest = Rest::of(b"journal 1 2 1\nend 0\n");
    assert_eq!(rt; read_head(rt.alloc(), &mut rest)?, Some(NAMES));
    assert_eq!(rt; str::from_utf8(rest.bytes()), Ok("end 0\n"));
    Ok(())
}

#[test]
fn another_head_line_is_none(rt: HostRuntime) -> Result<(), Fail> {
    for (damage, text) in [
        ("no session", "journal 1 0 1\n"),
        ("17 sessions", "journal 1 17 1\n"),
        ("9 workers", "journal 1 2 9\n"),
        ("a leading zero", "journal 1 02 1\n"),
        ("no line feed", "journal 1 2 1"),
        ("another version", "journal 2 2 1\n"),
    ] {
        let mut rest = Rest::of(text.as_bytes());
        assert!(rt; read_head(rt.alloc(), &mut rest)?.is_none(), "{damage}");
    }
    Ok(())
}

#[test]
fn the_next_entry_is_read_with_its_line_feed(rt: HostRuntime) -> Result<(), Fail> {
    let mut rest = Rest::of(b"1 s1 full = step 1; settled 1\n2 w1 offer 1 = \n");
    for (number, line, left) in [
        (1, "1 s1 full = step 1; settled 1", "2 w1 offer 1 = \n"),
        (2, "2 w1 offer 1 = ", ""),
    ] {
        let entry = read_next(rt.alloc(), &mut rest, NAMES, number)?.ok_or("none")?;
        let mut out = Vec::new(rt.alloc());
        push_entry(number, &entry, NAMES, &mut out)?;
        assert_eq!(rt; str::from_utf8(&out), Ok(line));
        assert_eq!(rt; str::from_utf8(rest.bytes()), Ok(left));
    }
    Ok(())
}

#[test]
fn another_line_is_no_next_entry(rt: HostRuntime) -> Result<(), Fail> {
    for (damage, text) in [
        ("another number", "2 s1 read = at 1\n"),
        ("no line feed", "1 s1 read = at 1"),
        ("a leading zero", "1 s1 read = at 01\n"),
        ("a space behind the end", "1 s1 read = at 1 \n"),
        ("a third session", "1 s3 read = at 1\n"),
        ("an end line", "end 1\n"),
        ("nothing", ""),
    ] {
        let mut rest = Rest::of(text.as_bytes());
        let entry = read_next(rt.alloc(), &mut rest, NAMES, 1)?;
        assert!(rt; entry.is_none(), "{damage}");
    }
    Ok(())
}

#[test]
fn an_end_line_is_found_as_it_is_printed(rt: HostRuntime) -> Result<(), Fail> {
    for (text, found) in [
        ("end 2\n", true),
        ("end 2\nmore", true),
        ("end 2", false),
        ("end 02\n", false),
        ("end 20\n", false),
        ("end 3\n", false),
    ] {
        assert_eq!(rt;
            is_end(rt.alloc(), &Rest::of(text.as_bytes()), 2)?,
            found,
            "{text}"
        );
    }
    Ok(())
}
