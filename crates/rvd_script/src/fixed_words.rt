ghost use Rattle.std.specs.Prelude.{◌≡◌, ◌≤◌, true, IfOk, IfSome};
ghost use Rattle.std.specs.Str.{bytes_eq};
ghost use Rattle.rvd_event.specs.Edits.{is_releasable, is_removable};
ghost use Rattle.rvd_script.specs.Parts.{analyzers, bookmark_types, classes, comment_kinds, fixed, releasable_kinds, removable_kinds};

use rvd_ask::Analyzer;
use rvd_fact::{Kind, RefClass, TextCause};

/// Whether a word is a fixed one.
pub fn is(word: &[u8], fixed: &[u8]) -> bool
    ensures { result ≡ bytes_eq word.now fixed.now }
{
    word == fixed
}

/// The analyzer of a word.
pub fn analyzer_of(word: &[u8]) -> Result<Analyzer, TextCause>
    ensures { result ≡ fixed analyzers word.now }
{
    if is(word, b"flow") {
        Ok(Analyzer::Flow)
    } else if is(word, b"refs") {
        Ok(Analyzer::Refs)
    } else if is(word, b"funcs") {
        Ok(Analyzer::Funcs)
    } else if is(word, b"body") {
        Ok(Analyzer::Body)
    } else if is(word, b"strings") {
        Ok(Analyzer::Strings)
    } else {
        Err(TextCause::UnknownWord)
    }
}

/// The class of a reference, of a word.
pub fn class_of(word: &[u8]) -> Result<RefClass, TextCause>
    ensures { result ≡ fixed classes word.now }
{
    if is(word, b"call") {
        Ok(RefClass::Call)
    } else if is(word, b"jump") {
        Ok(RefClass::Jump)
    } else if is(word, b"cond") {
        Ok(RefClass::Cond)
    } else if is(word, b"data") {
        Ok(RefClass::Datum)
    } else if is(word, b"read") {
        Ok(RefClass::Read)
    } else if is(word, b"write") {
        Ok(RefClass::Write)
    } else {
        Err(TextCause::UnknownWord)
    }
}

/// The kind of a fact that may be removed, of a word.
pub fn removable_kind_of(word: &[u8]) -> Result<Kind, TextCause>
    ensures value { result ≡ fixed removable_kinds word.now }
    ensures removable { IfOk result (λ k. is_removable k ≡ true) }
{
    if is(word, b"mark") {
        Ok(Kind::Mark)
    } else if is(word, b"func") {
        Ok(Kind::Func)
    } else if is(word, b"body") {
        Ok(Kind::Body)
    } else if is(word, b"symbol") {
        Ok(Kind::Symbol)
    } else if is(word, b"ref") {
        Ok(Kind::Ref)
    } else if is(word, b"comment") {
        Ok(Kind::Comment)
    } else if is(word, b"bookmark") {
        Ok(Kind::Bookmark)
    } else {
        Err(TextCause::UnknownWord)
    }
}

/// The kind of a deleted fact that may be released, of a word.
pub fn releasable_kind_of(word: &[u8]) -> Result<Kind, TextCause>
    ensures value { result ≡ fixed releasable_kinds word.now }
    ensures releasable { IfOk result (λ k. is_releasable k ≡ true) }
{
    if is(word, b"unit") {
        Ok(Kind::Unit)
    } else {
        removable_kind_of(word)
    }
}

/// The number of a kind of comments, of a word.
pub fn comment_kind_of(word: &[u8]) -> Result<u8, TextCause>
    ensures value { result ≡ fixed comment_kinds word.now }
    ensures top { IfOk result (λ k. k ≤ 4) }
{
    if is(word, b"plate") {
        Ok(0)
    } else if is(word, b"pre") {
        Ok(1)
    } else if is(word, b"eol") {
        Ok(2)
    } else if is(word, b"post") {
        Ok(3)
    } else if is(word, b"repeatable") {
        Ok(4)
    } else {
        Err(TextCause::UnknownWord)
    }
}

/// The number of a type of bookmarks, of a word.
pub fn bookmark_type_of(word: &[u8]) -> Result<u8, TextCause>
    ensures value { result ≡ fixed bookmark_types word.now }
    ensures top { IfOk result (λ k. k ≤ 4) }
{
    if is(word, b"note") {
        Ok(0)
    } else if is(word, b"info") {
        Ok(1)
    } else if is(word, b"analysis") {
        Ok(2)
    } else if is(word, b"warning") {
        Ok(3)
    } else if is(word, b"error") {
        Ok(4)
    } else {
        Err(TextCause::UnknownWord)
    }
}
