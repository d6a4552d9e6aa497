ghost use Rattle.std.specs.Prelude.{◌≡◌, ◌≤◌, true, IfOk};
ghost use Rattle.std.specs.Str.{bytes_eq};
ghost use Rattle.rvd_script.specs.EventLines.{behind_close, closing_line, is_close, session_line};
ghost use Rattle.rvd_script.specs.Files.{actor_line, actor_number, actor_of, event_of, head_of, head_words, index_of};
ghost use Rattle.rvd_script.specs.Legal.{IsActor, is_actor_what, is_line, is_session_what, is_worker_what};
ghost use Rattle.rvd_script.specs.Parts.{fixed, number_of};
ghost use Rattle.rvd_script.specs.Steps.{Tells, part, with_rest};

use crate::errors::PartError;
use crate::event_lines::{session_line, worker_line};
use crate::fixed_words::is;
use crate::parts::number;
use crate::script_lines::{EventLine, What1};
use crate::values::number_of;
use crate::words::Words;
use rvd_event::{Event, Names};
use rvd_fact::TextCause;
use std::alloc::Global;

/// The most sessions of an event file.
const MAX_SESSIONS: u64 = 16;

/// The most workers of an event file.
const MAX_WORKERS: u64 = 8;

/// An actor of an event file, each kind numbered from 1 on.
#[derive(Clone, Copy, Debug)]
pub enum Actor {
    /// A session.
    Session(u32),
    /// A worker.
    Worker(u32),
}

fn head_word_of(word: &[u8]) -> Result<(), TextCause>
    ensures { result ≡ fixed head_words word.now }
{
    if is(word, b"events") {
        Ok(())
    } else {
        Err(TextCause::UnknownWord)
    }
}

fn head_word(words: &mut Words) -> Result<(), TextCause>
    ensures { part (fixed head_words) words.old ≡ with_rest words.new result }
{
    head_word_of(words.word()?)
}

/// How many sessions and workers the head line of an event file says that there are.
#[tactic(auto, unfolding(crate::specs::Files::head_of))]
pub fn head(words: &mut Words) -> Result<Names, TextCause>
    ensures value { result ≡ head_of words.old }
    ensures some { IfOk result (λ names. 1 ≤ names.sessions) }
    ensures sessions { IfOk result (λ names. names.sessions ≤ 16) }
    ensures workers { IfOk result (λ names. names.workers ≤ 8) }
{
    head_word(words)?;
    let sessions = number(words, 1, MAX_SESSIONS)? as u32;
    let workers = number(words, 0, MAX_WORKERS)? as u32;
    words.end()?;
    Ok(Names { sessions, workers })
}

/// An actor's number, from 1 to the number of actors of its kind.
fn actor_index(digits: &[u8], most: u32) -> Result<u32, TextCause>
    ensures value { result ≡ index_of (number_of 1 most digits.now) }
    ensures least { IfOk result (λ n. 1 ≤ n) }
    ensures most { IfOk result (λ n. n ≤ most) }
{
    match number_of(digits, 1, u64::from(most)) {
        Ok(index) => Ok(index as u32),
        Err(_) => Err(TextCause::UnknownWord),
    }
}

fn actor_of(word: &[u8], names: &Names) -> Result<Actor, TextCause>
    ensures value { result ≡ actor_of names.now word.now }
    ensures legal { IfOk result (IsActor names.now) }
{
    match word {
        [b's', digits @ ..] => Ok(Actor::Session(actor_index(digits, names.sessions)?)),
        [b'w', digits @ ..] => Ok(Actor::Worker(actor_index(digits, names.workers)?)),
        _ => Err(TextCause::UnknownWord),
    }
}

fn next_actor(words: &mut Words, names: &Names) -> Result<Actor, TextCause>
    ensures value { part (actor_of names.now) words.old ≡ with_rest words.new result }
    ensures legal { IfOk result (IsActor names.now) }
{
    actor_of(words.word()?, names)
}

/// Whether the next word closes the session.
fn is_close(words: &Words) -> bool
    ensures { result ≡ is_close words.now }
{
    match words.copy().word() {
        Ok(word) => is(word, b"close"),
        Err(_) => false,
    }
}

/// What is left of a line that closes its session.
fn close(words: &mut Words) -> Result<What1, TextCause>
    ensures value { result ≡ behind_close words.old }
    ensures legal { IfOk result (λ w. is_session_what w ≡ true) }
{
    if words.word().is_ok() {
        words.end()?;
    }
    Ok(What1::Call(Event::Close))
}

/// What a session's line asks for, from the word behind the session on.
fn closing_line(alloc: Global, words: &mut Words) -> Result<What1, PartError>
    ensures value { Tells result (closing_line words.old) }
    ensures legal { IfOk result (λ w. is_session_what w ≡ true) }
{
    if is_close(words) {
        Ok(close(words)?)
    } else {
        session_line(alloc, words)
    }
}

fn actor_line(alloc: Global, actor: Actor, words: &mut Words) -> Result<What1, PartError>
    ensures value { Tells result (actor_line actor words.old) }
    ensures legal { IfOk result (λ w. is_actor_what actor w ≡ true) }
{
    match actor {
        Actor::Session(_) => closing_line(alloc, words),
        Actor::Worker(_) => Ok(worker_line(words)?),
    }
}

/// The number of an actor among all of them.
fn actor_number(names: &Names, actor: Actor) -> u32
    requires few { names.now.sessions ≤ 16 }
    requires actor { IsActor names.now actor }
    requires workers { names.now.workers ≤ 8 }
    ensures { result ≡ actor_number names.now actor }
{
    match actor {
        Actor::Session(index) => index,
        Actor::Worker(index) => names.sessions + index,
    }
}

/// A line of an event file behind its head line.
#[tactic(auto, unfolding(crate::specs::Files::event_of))]
pub fn event_line(
    alloc: Global,
    names: &Names,
    line: u32,
    words: &mut Words,
) -> Result<EventLine, PartError>
    requires few { names.now.sessions ≤ 16 }
    requires workers { names.now.workers ≤ 8 }
    ensures value { Tells result (event_of names.now line words.old) }
    ensures legal { IfOk result (λ l. is_line names.now.sessions names.now.workers l ≡ true) }
{
    let actor = next_actor(words, names)?;
    let what = actor_line(alloc, actor, words)?;
    let number = actor_number(names, actor);
    Ok(EventLine {
        line,
        actor: number,
        what,
    })
}
