use crate::{ScriptError, What1, read, read_events};
use rvd_event::{Edit, Event, Query};
use rvd_fact::TextCause;
use std::alloc::{AllocError, Global};
use std::test::Fail;

fn refused(line: u32, cause: TextCause) -> Option<ScriptError> {
    Some(ScriptError::Bad { line, cause })
}

#[test]
fn bad_lines_of_scripts_are_refused(rt: HostRuntime) -> Result<(), Fail> {
    for (name, line, cause) in [
        ("an event file's close", "close", TextCause::UnknownWord),
        ("a worker's word", "take 1", TextCause::UnknownWord),
        ("a permission", "block 0 4 wrx", TextCause::UnknownWord),
        (
            "a block can't be removed",
            "remove block 0 0",
            TextCause::UnknownWord,
        ),
        ("no address", "mark", TextCause::MissingPart),
        ("no range", "body 10060", TextCause::MissingPart),
        ("no text", "comment 10054 eol", TextCause::MissingPart),
        ("a word too many", "undo 1", TextCause::ExtraPart),
        ("nine digits", "code 123456789", TextCause::BadAddress),
        ("no byte", "block 10054 0 r-x", TextCause::BadAddress),
        (
            "a range from above",
            "body 10060 5-4",
            TextCause::BadAddress,
        ),
        (
            "a slot past the last",
            "remove symbol 10054 64",
            TextCause::BadNumber,
        ),
        ("a sign", "data 10054 string +5", TextCause::BadNumber),
        (
            "past 64 bits",
            "data 0 string 18446744073709551617",
            TextCause::BadNumber,
        ),
        ("an unclosed quote", "begin \"a b", TextCause::BadText),
        ("an empty name", "label 10054 \"\"", TextCause::BadText),
        ("a tab is no space", "mark\t10054", TextCause::UnknownWord),
    ] {
        let script = format!(in rt.alloc(); "# a comment\r\n \n{line}\nnone\n")?;
        let error = read(rt.alloc(), script.as_bytes()).err();
        assert_eq!(rt; error, refused(3, cause), "{name}");
    }
    Ok(())
}

#[test]
fn bad_lines_of_event_files_are_refused(rt: HostRuntime) -> Result<(), Fail> {
    for (name, text, line, cause) in [
        ("no line", "", 1, TextCause::MissingPart),
        ("skipped lines alone", "#\n\n", 1, TextCause::MissingPart),
        ("no head", "\ns1 read", 2, TextCause::UnknownWord),
        ("no session", "events 0 1", 1, TextCause::BadNumber),
        ("nine workers", "events 1 9", 1, TextCause::BadNumber),
        ("a long head", "events 1 1 1", 1, TextCause::ExtraPart),
        (
            "session 0",
            "events 1 0\ns0 read",
            2,
            TextCause::UnknownWord,
        ),
        (
            "session 2 of 1",
            "events 1 0\ns2 read",
            2,
            TextCause::UnknownWord,
        ),
        (
            "no worker",
            "events 1 0\nw1 take 1",
            2,
            TextCause::UnknownWord,
        ),
        (
            "an actor alone",
            "events 1 0\ns1",
            2,
            TextCause::MissingPart,
        ),
        (
            "a session takes",
            "events 1 1\ns1 take 1",
            2,
            TextCause::UnknownWord,
        ),
        (
            "a worker begins",
            "events 1 1\nw1 begin \"x\"",
            2,
            TextCause::UnknownWord,
        ),
        (
            "65 items",
            "events 1 1\nw1 take 65",
            2,
            TextCause::BadNumber,
        ),
        (
            "words behind close",
            "events 1 0\n\ns1 close 1",
            3,
            TextCause::ExtraPart,
        ),
    ] {
        let error = read_events(rt.alloc(), text.as_bytes()).err();
        assert_eq!(rt; error, refused(line, cause), "{name}");
    }
    Ok(())
}

#[test]
fn the_lines_of_an_event_file_are_read(rt: HostRuntime) -> Result<(), Fail> {
    let text = "events 1 01\r\ns1 begin \"name\"\n\ns1 label 10054 \"start\"\n\
                s01 ask name 0x10054\nw1 offer 18446744073709551615\nw1 settle 64\ns1 close";
    let file = read_events(rt.alloc(), text.as_bytes())?;
    assert_eq!(rt; file.sessions(), 1);
    assert_eq!(rt; file.workers(), 1);
    let lines = file.lines();
    assert_eq!(rt; lines.len(), 6);
    let numbers = [2, 4, 5, 6, 7, 8];
    let actors = [1, 1, 1, 2, 2, 1];
    for (i, line) in lines.iter().enumerate() {
        assert_eq!(rt; Some(&line.line), numbers.get(i));
        assert_eq!(rt; Some(&line.actor), actors.get(i));
        let is_read = match i {
            0 =>
                matches!(&line.what, What1::Call(Event::Begin(text)) if text.list() == b"name".as_slice()),
            1 => matches!(
                &line.what,
                What1::Call(Event::Edit(Edit::Label(0x10054, _)))
            ),
            2 => matches!(&line.what, What1::Ask(Query::Name(0x10054))),
            3 => matches!(&line.what, What1::Call(Event::Offer(u64::MAX))),
            4 => matches!(&line.what, What1::Settle(64)),
            _ => matches!(&line.what, What1::Call(Event::Close)),
        };
        assert!(rt; is_read, "line {i}");
    }
    Ok(())
}

fn repeated(alloc: Global, head: &str, part: &str, count: u32) -> Result<String, AllocError> {
    let mut text = String::from_str(alloc, head)?;
    for _ in 0..count {
        text.push_str(part)?;
    }
    Ok(text)
}

#[test]
fn limits_are_kept(rt: HostRuntime) -> Result<(), Fail> {
    let alloc = rt.alloc();
    let most = repeated(alloc, "body 0", " 0-0 8-9", 32)?;
    let script = read(alloc, most.as_bytes())?;
    assert_eq!(rt; script.lines().len(), 1);
    let more = repeated(alloc, most.as_str(), " x", 1)?;
    let error = read(alloc, more.as_bytes()).err();
    assert_eq!(rt; error, refused(1, TextCause::TooLong));
    let text = repeated(alloc, "begin \"", "a", 1001)?;
    let closed = repeated(alloc, text.as_str(), "\"", 1)?;
    let error = read(alloc, closed.as_bytes()).err();
    assert_eq!(rt; error, refused(1, TextCause::TooLong));
    let lines = repeated(alloc, "", "undo\n", 100_000)?;
    assert_eq!(rt; read(alloc, lines.as_bytes())?.lines().len(), 100_000);
    let error = read(alloc, repeated(alloc, lines.as_str(), "#", 1)?.as_bytes()).err();
    assert_eq!(rt; error, Some(ScriptError::TooManyLines(100_001)));
    Ok(())
}
