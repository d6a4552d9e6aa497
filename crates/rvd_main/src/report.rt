use crate::parts::PartName;
use rvd_elf::ElfError;
use rvd_fact::{TextCause, What};
use rvd_top::Ending;
use std::io;

// The word at a place, where the words have one there.
fn word_at(words: &[String], place: usize) -> &str {
    match words.get(place) {
        Some(word) => word.as_str(),
        None => "",
    }
}

// What a limit counts, and the limit.
fn limit_of(what: What) -> &'static str {
    match what {
        What::FileBytes => "bytes, at most 33554432",
        What::Lines => "lines, at most 100000",
        What::Blocks => "memory blocks, at most 64",
        What::LoadedBytes => "loaded bytes, at most 4194304",
        What::Symbols => "symbols, at most 200000",
        What::Entries => "journal entries, at most 1000000",
    }
}

fn cause_of(cause: TextCause) -> &'static str {
    match cause {
        TextCause::UnknownWord => "unknown word",
        TextCause::MissingPart => "a part is missing",
        TextCause::ExtraPart => "words are left over",
        TextCause::BadAddress => "bad address",
        TextCause::BadNumber => "bad number",
        TextCause::BadText => "bad text",
        TextCause::TooLong => "too long",
    }
}

fn report_damage(rt: &impl Eprint, file: &str, refusal: ElfError) -> io::Result<()> {
    match refusal {
        ElfError::Truncated(part, at) => {
            let part = PartName(part);
            eprintln!(rt; "rvd: {file}: damaged: {part} at offset {at} leaves the file")
        }
        ElfError::BadEntrySize(part, size) => {
            let part = PartName(part);
            eprintln!(rt; "rvd: {file}: damaged: {part} has entries of {size} bytes")
        }
        _ => eprintln!(rt; "rvd: {file}: damaged: {refusal}"),
    }
}

// Lines are those of the last word's file, and the bytes of a file are those of one of the files.
fn report_size(rt: &impl Eprint, words: &[String], what: What, count: u64) -> io::Result<()> {
    let (file, events, limit) = (word_at(words, 1), word_at(words, 2), limit_of(what));
    match what {
        What::Lines => eprintln!(rt; "rvd: {events}: too large: {count} {limit}"),
        What::FileBytes if !events.is_empty() => {
            eprintln!(rt; "rvd: {file} or {events}: too large: more than {count} bytes")
        }
        What::FileBytes => eprintln!(rt; "rvd: {file}: too large: more than {count} bytes"),
        _ => eprintln!(rt; "rvd: {file}: too large: {count} {limit}"),
    }
}

/// Prints one line about an ending other than Done to standard error.
pub fn report(rt: &impl Eprint, words: &[String], ending: &Ending) -> io::Result<()> {
    let file = word_at(words, 1);
    match *ending {
        Ending::Done => Ok(()),
        Ending::Usage => {
            eprintln!(rt;
                "usage: rvd show FILE, rvd list FILE, rvd play FILE EVENTS, rvd replay FILE JOURNAL, or rvd gen N"
            )
        }
        Ending::ReadFault { word } => {
            let file = word_at(words, word as usize);
            eprintln!(rt; "rvd: {file}: can't be read")
        }
        Ending::NotThisKind(refusal) => eprintln!(rt; "rvd: {file}: {refusal}"),
        Ending::Damaged(refusal) => report_damage(rt, file, refusal),
        // The first word behind the command names the executable, or is the number that `gen` takes.
        Ending::BadText { word: 1, cause, .. } => {
            let cause = cause_of(cause);
            eprintln!(rt; "rvd: {file}: {cause}")
        }
        Ending::BadText { word, line, cause } => {
            let (file, cause) = (word_at(words, word as usize), cause_of(cause));
            eprintln!(rt; "rvd: {file}: line {line}: {cause}")
        }
        Ending::WriteFault => eprintln!(rt; "rvd: standard output can't be written"),
        Ending::Memory => eprintln!(rt; "rvd: out of memory"),
        Ending::TooLarge { what, count } => report_size(rt, words, what, count),
        Ending::Differs { line } => {
            let journal = word_at(words, 2);
            eprintln!(rt; "rvd: {journal}: differs at line {line}")
        }
    }
}
