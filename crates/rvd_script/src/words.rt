ghost use Rattle.std.specs.Prelude.{◌≡◌, ◌∷◌, [], ◌<◌, ◌≤◌, ◌≢◌, ◌↔◌, length, take, drop, slice_index, IfSome, IfNone, IsTrue};
ghost use Rattle.rvd_script.specs.Words.{IsWord, gap_len, next_place, is_empty, is_skipped, word_len, words_of};
ghost use Rattle.rvd_script.specs.Steps.{finished};
ghost use Rattle.rvd_script.specs.declared.words.Place.TheVariants.{Gap};

use rvd_fact::TextCause;
use std::marker::Model;

/// Where a reader of a line stands.
#[derive(Clone, Copy, Debug, PartialEq, Eq)]
pub enum Place {
    /// Between words.
    Gap,
    /// In a word, not within quotes.
    Plain,
    /// In a word, within its quotes.
    Quoted,
    /// In a word, behind a backslash within its quotes.
    Escaped,
}

fn next_place(place: Place, byte: u8) -> Place
    ensures { result ≡ next_place place byte }
{
    match place {
        Place::Gap => match byte {
            b' ' => Place::Gap,
            b'"' => Place::Quoted,
            _ => Place::Plain,
        },
        Place::Plain => match byte {
            b' ' => Place::Gap,
            _ => Place::Plain,
        },
        Place::Quoted => match byte {
            b'"' => Place::Plain,
            b'\\' => Place::Escaped,
            _ => Place::Quoted,
        },
        Place::Escaped => Place::Quoted,
    }
}

/// How many spaces come first.
fn gap_len(rest: &[u8]) -> usize
    ensures value { result ≡ gap_len rest.now }
    ensures within { result ≤ length rest.now }
{
    for (i, byte) in rest.iter().enumerate() {
        if *byte != b' ' {
            return i;
        }
    }
    rest.len()
}

/// What comes behind the first spaces.
fn behind_gap(rest: &[u8]) -> &[u8]
    ensures words { words_of result.now ≡ words_of rest.now }
    ensures begins { word_len Gap result.now ≡ 0 → result.now ≡ [] }
{
    &rest[gap_len(rest)..]
}

/// How many bytes the word has that comes first.
fn word_len(rest: &[u8]) -> usize
    ensures value { result ≡ word_len Gap rest.now }
    ensures within { result ≤ length rest.now }
{
    let mut place = Place::Gap;
    for (i, byte) in rest.iter().enumerate() {
        place = next_place(place, *byte);
        if place == Place::Gap {
            return i;
        }
    }
    rest.len()
}

/// The words of a line that are left, from left to right.
#[derive(Drop)]
pub struct Words<'a> {
    rest: &'a [u8],
}

impl<'a> Model for Words<'a> {
    ghost use Rattle.std.specs.Prelude.{List, ℕ};
    ghost use Rattle.rvd_script.specs.Words.{words_of};

    ghost Value = { List (List ℕ) };

    ghost view = { λ words. words_of words.rest.now };
}

impl<'a> Words<'a> {
    /// The words of a line.
    pub fn of(line: &'a [u8]) -> Words<'a>
        ensures { result ≡ words_of line.now }
    {
        Words { rest: line }
    }

    /// The same words.
    pub fn copy(&self) -> Words<'a>
        ensures { result ≡ self.now }
    {
        Words { rest: self.rest }
    }

    /// The next word, `MissingPart` where there is none.
    pub fn word(&mut self) -> Result<&'a [u8], TextCause>
        ensures { IsWord self.old self.new result }
    {
        let rest = behind_gap(self.rest);
        let len = word_len(rest);
        self.rest = &rest[len..];
        if len == 0 {
            return Err(TextCause::MissingPart);
        }
        Ok(&rest[..len])
    }

    /// `ExtraPart` where there are more words.
    pub fn end(&self) -> Result<(), TextCause>
        ensures { result ≡ finished tt self.now }
    {
        if self.is_empty() {
            Ok(())
        } else {
            Err(TextCause::ExtraPart)
        }
    }

    /// Whether there are no more words.
    pub fn is_empty(&self) -> bool
        ensures { result ≡ is_empty self.now }
    {
        word_len(behind_gap(self.rest)) == 0
    }
}

/// Whether a line is a comment or has no words.
pub fn is_skipped(line: &[u8]) -> bool
    ensures { result ≡ is_skipped line.now }
{
    line.first() == Some(&b'#') || Words::of(line).is_empty()
}
