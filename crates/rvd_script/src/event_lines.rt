ghost use Rattle.std.specs.Prelude.{◌≡◌, true, IfOk};
ghost use Rattle.rvd_script.specs.EventLines.{call_of, closing_line, is_close, behind_close, queries, query_of, session_line, session_word_of, session_words, work_of, worker_line, worker_words};
ghost use Rattle.rvd_script.specs.Legal.{is_session_what, is_worker_what};
ghost use Rattle.rvd_script.specs.Parts.{fixed, look_up};
ghost use Rattle.rvd_script.specs.Steps.{Reads, Tells, part, with_rest};

use crate::edit_lines::{EditWord, edit, edit_word_of};
use crate::errors::PartError;
use crate::fixed_words::is;
use crate::parts::{address, analyzer, number, quoted};
use crate::script_lines::What1;
use crate::words::Words;
use rvd_event::{Event, Query};
use rvd_fact::TextCause;
use std::alloc::Global;

/// The most items that a line takes at once.
const MAX_TAKEN: u64 = 64;

/// The first word of a session's line.
#[derive(Clone, Copy, Debug)]
pub enum SessionWord {
    /// `begin`.
    Begin,
    /// `commit` (true) or `abort`.
    End(bool),
    /// `undo`.
    Undo,
    /// `redo`.
    Redo,
    /// `full`.
    Full,
    /// `cancel`.
    Cancel,
    /// `read`.
    Read,
    /// `wait`.
    Wait,
    /// `enable` (true) or `disable`.
    Enable(bool),
    /// `ask`.
    Ask,
    /// The first word of an edit.
    Edit(EditWord),
}

/// The word behind `ask`.
#[derive(Clone, Copy, Debug)]
pub enum QueryWord {
    /// `unit`.
    Unit,
    /// `name`.
    Name,
    /// `xrefs`.
    Xrefs,
    /// `func`.
    Func,
    /// `count`.
    Count,
}

/// The first word of a worker's line.
#[derive(Clone, Copy, Debug)]
pub enum WorkerWord {
    /// `take`.
    Take,
    /// `offer`.
    Offer,
    /// `settle`.
    Settle,
}

/// The first word of a session's line, where it is no edit's.
fn own_word_of(word: &[u8]) -> Option<SessionWord>
    ensures { result ≡ look_up session_words word.now }
{
    if is(word, b"begin") {
        Some(SessionWord::Begin)
    } else if is(word, b"commit") {
        Some(SessionWord::End(true))
    } else if is(word, b"abort") {
        Some(SessionWord::End(false))
    } else if is(word, b"undo") {
        Some(SessionWord::Undo)
    } else if is(word, b"redo") {
        Some(SessionWord::Redo)
    } else if is(word, b"full") {
        Some(SessionWord::Full)
    } else if is(word, b"cancel") {
        Some(SessionWord::Cancel)
    } else if is(word, b"read") {
        Some(SessionWord::Read)
    } else if is(word, b"wait") {
        Some(SessionWord::Wait)
    } else if is(word, b"enable") {
        Some(SessionWord::Enable(true))
    } else if is(word, b"disable") {
        Some(SessionWord::Enable(false))
    } else if is(word, b"ask") {
        Some(SessionWord::Ask)
    } else {
        None
    }
}

fn session_word_of(word: &[u8]) -> Result<SessionWord, TextCause>
    ensures { result ≡ session_word_of word.now }
{
    match own_word_of(word) {
        Some(first) => Ok(first),
        None => Ok(SessionWord::Edit(edit_word_of(word)?)),
    }
}

fn session_word(words: &mut Words) -> Result<SessionWord, TextCause>
    ensures { part session_word_of words.old ≡ with_rest words.new result }
{
    session_word_of(words.word()?)
}

fn query_word_of(word: &[u8]) -> Result<QueryWord, TextCause>
    ensures { result ≡ fixed queries word.now }
{
    if is(word, b"unit") {
        Ok(QueryWord::Unit)
    } else if is(word, b"name") {
        Ok(QueryWord::Name)
    } else if is(word, b"xrefs") {
        Ok(QueryWord::Xrefs)
    } else if is(word, b"func") {
        Ok(QueryWord::Func)
    } else if is(word, b"count") {
        Ok(QueryWord::Count)
    } else {
        Err(TextCause::UnknownWord)
    }
}

fn query_word(words: &mut Words) -> Result<QueryWord, TextCause>
    ensures { part (fixed queries) words.old ≡ with_rest words.new result }
{
    query_word_of(words.word()?)
}

#[tactic(auto, unfolding(crate::specs::EventLines::query_of))]
fn query(words: &mut Words) -> Result<Query, TextCause>
    ensures { query_of words.old ≡ with_rest words.new result }
{
    let first = query_word(words)?;
    match first {
        QueryWord::Unit => Ok(Query::Unit(address(words)?)),
        QueryWord::Name => Ok(Query::Name(address(words)?)),
        QueryWord::Xrefs => Ok(Query::Xrefs(address(words)?)),
        QueryWord::Func => Ok(Query::Func(address(words)?)),
        QueryWord::Count => Ok(Query::Count),
    }
}

/// What a session's line calls by its first word and what is behind it.
fn call(alloc: Global, first: SessionWord, words: &mut Words) -> Result<What1, PartError>
    ensures value { Reads words.new result (call_of first words.old) }
    ensures legal { IfOk result (λ w. is_session_what w ≡ true) }
{
    match first {
        SessionWord::Begin => Ok(What1::Call(Event::Begin(quoted(alloc, words)?))),
        SessionWord::End(commit) => Ok(What1::Call(Event::End(commit))),
        SessionWord::Undo => Ok(What1::Call(Event::Undo)),
        SessionWord::Redo => Ok(What1::Call(Event::Redo)),
        SessionWord::Full => Ok(What1::Call(Event::Full)),
        SessionWord::Cancel => Ok(What1::Call(Event::Cancel)),
        SessionWord::Read => Ok(What1::Call(Event::Read)),
        SessionWord::Wait => Ok(What1::Call(Event::Wait)),
        SessionWord::Enable(on) => Ok(What1::Call(Event::Enable(analyzer(words)?, on))),
        SessionWord::Ask => Ok(What1::Ask(query(words)?)),
        SessionWord::Edit(first) => Ok(What1::Call(Event::Edit(edit(alloc, first, words)?))),
    }
}

/// What a session's line asks for, where it isn't `close`.
#[tactic(auto, unfolding(crate::specs::EventLines::session_line))]
pub fn session_line(alloc: Global, words: &mut Words) -> Result<What1, PartError>
    ensures value { Tells result (session_line words.old) }
    ensures legal { IfOk result (λ w. is_session_what w ≡ true) }
{
    let first = session_word(words)?;
    let what = call(alloc, first, words)?;
    words.end()?;
    Ok(what)
}

fn worker_word_of(word: &[u8]) -> Result<WorkerWord, TextCause>
    ensures { result ≡ fixed worker_words word.now }
{
    if is(word, b"take") {
        Ok(WorkerWord::Take)
    } else if is(word, b"offer") {
        Ok(WorkerWord::Offer)
    } else if is(word, b"settle") {
        Ok(WorkerWord::Settle)
    } else {
        Err(TextCause::UnknownWord)
    }
}

fn worker_word(words: &mut Words) -> Result<WorkerWord, TextCause>
    ensures { part (fixed worker_words) words.old ≡ with_rest words.new result }
{
    worker_word_of(words.word()?)
}

/// What a worker's line calls by its first word and what is behind it.
fn work(first: WorkerWord, words: &mut Words) -> Result<What1, TextCause>
    ensures value { work_of first words.old ≡ with_rest words.new result }
    ensures legal { IfOk result (λ w. is_worker_what w ≡ true) }
{
    match first {
        WorkerWord::Take => Ok(What1::Call(Event::Take(number(words, 1, MAX_TAKEN)? as u32))),
        WorkerWord::Offer => Ok(What1::Call(Event::Offer(number(words, 0, u64::MAX)?))),
        WorkerWord::Settle => Ok(What1::Settle(number(words, 1, MAX_TAKEN)? as u32)),
    }
}

/// What a worker's line asks for.
#[tactic(auto, unfolding(crate::specs::EventLines::worker_line))]
pub fn worker_line(words: &mut Words) -> Result<What1, TextCause>
    ensures value { result ≡ worker_line words.old }
    ensures legal { IfOk result (λ w. is_worker_what w ≡ true) }
{
    let first = worker_word(words)?;
    let what = work(first, words)?;
    words.end()?;
    Ok(what)
}
