use crate::analyses::{CANCELLED, DISABLED, KEPT_AWAY, RELEASED, SETTLED, STALE};
use crate::playing::played;
use crate::row::Row;
use crate::transactions::{REFUSED, RENAMED, ROLLED_BACK, UNDONE, WITHIN};
use rvd_text::push_dec;
use sample_files::FILE_A;
use std::alloc::Global;
use std::test::Fail;

// A word, a space, and a number.
fn push_counted(out: &mut Vec<u8>, word: &str, count: u64) -> Result<(), Fail> {
    out.extend_from_slice(word.as_bytes())?;
    out.push(b' ')?;
    push_dec(out, count)?;
    Ok(())
}

// Lines, each with its number before it where they are numbered.
fn push_lines(out: &mut Vec<u8>, lines: &[&str], numbered: bool) -> Result<(), Fail> {
    for (place, line) in lines.iter().enumerate() {
        if numbered {
            push_dec(out, place as u64 + 1)?;
            out.push(b' ')?;
        }
        out.extend_from_slice(line.as_bytes())?;
        out.push(b'\n')?;
    }
    Ok(())
}

// The numbers of sessions and of workers, as a line ends.
fn push_actors(out: &mut Vec<u8>, row: &Row) -> Result<(), Fail> {
    out.push(b' ')?;
    push_dec(out, row.sessions)?;
    out.push(b' ')?;
    push_dec(out, row.workers)?;
    out.push(b'\n')?;
    Ok(())
}

fn events_of(alloc: Global, row: &Row) -> Result<Vec<u8>, Fail> {
    let mut out = Vec::new(alloc);
    out.extend_from_slice(b"events")?;
    push_actors(&mut out, row)?;
    push_lines(&mut out, row.events, false)?;
    Ok(out)
}

fn journal_of(alloc: Global, row: &Row) -> Result<Vec<u8>, Fail> {
    let mut out = Vec::new(alloc);
    out.extend_from_slice(b"journal 1")?;
    push_actors(&mut out, row)?;
    push_lines(&mut out, row.journal, true)?;
    push_counted(&mut out, "end", row.journal.len() as u64)?;
    out.push(b'\n')?;
    Ok(out)
}

// A head with the number of lines, and the lines.
fn listed(alloc: Global, word: &str, lines: &[&str], numbered: bool) -> Result<Vec<u8>, Fail> {
    let mut out = Vec::new(alloc);
    push_counted(&mut out, word, lines.len() as u64)?;
    out.push(b'\n')?;
    push_lines(&mut out, lines, numbered)?;
    Ok(out)
}

// Whether a text is the wanted one, where lines of it are given.
fn is_wanted(lines: &[&str], wanted: &[u8], text: &[u8]) -> bool {
    lines.is_empty() || wanted == text
}

#[test]
fn event_files_give_their_texts(rt: HostRuntime) -> Result<(), Fail> {
    let alloc = rt.alloc();
    for row in [
        RENAMED,
        ROLLED_BACK,
        WITHIN,
        STALE,
        UNDONE,
        CANCELLED,
        REFUSED,
        SETTLED,
        KEPT_AWAY,
        RELEASED,
        DISABLED,
    ] {
        let texts = played(alloc, &FILE_A, &events_of(alloc, &row)?)?;
        let journal = journal_of(alloc, &row)?;
        assert!(rt;
            is_wanted(row.journal, &journal, &texts.journal),
            "the journal of {}",
            row.name
        );
        let answers = listed(alloc, "answers", row.answers, false)?;
        assert!(rt;
            is_wanted(row.answers, &answers, &texts.answers),
            "the answers of {}",
            row.name
        );
        let history = listed(alloc, "history", row.history, true)?;
        assert!(rt;
            is_wanted(row.history, &history, &texts.history),
            "the history of {}",
            row.name
        );
        let listing = listed(alloc, "listing", row.listing, false)?;
        assert!(rt;
            is_wanted(row.listing, &listing, &texts.listing),
            "the listing of {}",
            row.name
        );
    }
    Ok(())
}
