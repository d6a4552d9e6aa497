ghost use Rattle.std.specs.Prelude.{◌≡◌, ◌≤◌, true, IfOk};
ghost use Rattle.rvd_event.specs.Edits.{is_datum, is_edit};
ghost use Rattle.rvd_fact.specs.Valid.{top_sub};
ghost use Rattle.rvd_script.specs.EditLines.{IsFormWord, block_of, body_of, bookmark_of, comment_of, datum_of, edit_of, edit_words, form_behind, form_of, forms, label_of, ref_of, release_of, remove_of};
ghost use Rattle.rvd_script.specs.Parts.{address_of, fixed, number_of};
ghost use Rattle.rvd_script.specs.Steps.{Reads, part, with_rest};

use crate::errors::PartError;
use crate::fixed_words::is;
use crate::parts::{
    address, block_length, bookmark_type, class, comment_kind, name, number, perm, quoted,
    releasable_kind, removable_kind,
};
use crate::range_lines::ranges;
use crate::words::Words;
use rvd_event::Edit;
use rvd_fact::{Form, Kind, TextCause};
use std::alloc::Global;

/// The first word of an edit.
#[derive(Clone, Copy, Debug)]
pub enum EditWord {
    /// `block`.
    Block,
    /// `mark`.
    Mark,
    /// `func`.
    Func,
    /// `body`.
    Body,
    /// `label`.
    Label,
    /// `ref`.
    Ref,
    /// `comment`.
    Comment,
    /// `bookmark`.
    Bookmark,
    /// `code`.
    Code,
    /// `data`.
    Data,
    /// `clear`.
    Clear,
    /// `remove`.
    Remove,
    /// `release`.
    Release,
}

/// The word of a form.
#[derive(Clone, Copy, Debug)]
pub enum FormWord {
    /// A form that needs no more.
    Plain(Form),
    /// `string`, behind which its length stands.
    Text,
}

/// The first word of an edit.
pub fn edit_word_of(word: &[u8]) -> Result<EditWord, TextCause>
    ensures { result ≡ fixed edit_words word.now }
{
    if is(word, b"block") {
        Ok(EditWord::Block)
    } else if is(word, b"mark") {
        Ok(EditWord::Mark)
    } else if is(word, b"func") {
        Ok(EditWord::Func)
    } else if is(word, b"body") {
        Ok(EditWord::Body)
    } else if is(word, b"label") {
        Ok(EditWord::Label)
    } else if is(word, b"ref") {
        Ok(EditWord::Ref)
    } else if is(word, b"comment") {
        Ok(EditWord::Comment)
    } else if is(word, b"bookmark") {
        Ok(EditWord::Bookmark)
    } else if is(word, b"code") {
        Ok(EditWord::Code)
    } else if is(word, b"data") {
        Ok(EditWord::Data)
    } else if is(word, b"clear") {
        Ok(EditWord::Clear)
    } else if is(word, b"remove") {
        Ok(EditWord::Remove)
    } else if is(word, b"release") {
        Ok(EditWord::Release)
    } else {
        Err(TextCause::UnknownWord)
    }
}

fn form_word_of(word: &[u8]) -> Result<FormWord, TextCause>
    ensures value { result ≡ fixed forms word.now }
    ensures legal { IfOk result IsFormWord }
{
    if is(word, b"byte") {
        Ok(FormWord::Plain(Form::Byte))
    } else if is(word, b"half") {
        Ok(FormWord::Plain(Form::Half))
    } else if is(word, b"word") {
        Ok(FormWord::Plain(Form::Word))
    } else if is(word, b"string") {
        Ok(FormWord::Text)
    } else {
        Err(TextCause::UnknownWord)
    }
}

/// The form of a data unit.
#[tactic(auto, unfolding(crate::specs::EditLines::form_of))]
fn form(words: &mut Words) -> Result<Form, TextCause>
    ensures value { form_of words.old ≡ with_rest words.new result }
    ensures legal { IfOk result (λ f. is_datum f ≡ true) }
{
    let word = form_word_of(words.word()?)?;
    match word {
        FormWord::Plain(form) => Ok(form),
        FormWord::Text => Ok(Form::Str(number(words, 1, 256)? as u16)),
    }
}

#[tactic(auto, unfolding(crate::specs::EditLines::block_of))]
fn block(words: &mut Words) -> Result<Edit, TextCause>
    ensures value { block_of words.old ≡ with_rest words.new result }
    ensures legal { IfOk result (λ e. is_edit e ≡ true) }
{
    let at = address(words)?;
    let len = block_length(words)?;
    let perm = perm(words)?;
    Ok(Edit::Block(at, len, perm))
}

#[tactic(auto, unfolding(crate::specs::EditLines::body_of))]
fn body(alloc: Global, words: &mut Words) -> Result<Edit, PartError>
    ensures value { Reads words.new result (body_of words.old) }
    ensures legal { IfOk result (λ e. is_edit e ≡ true) }
{
    let at = address(words)?;
    let ranges = ranges(alloc, words)?;
    Ok(Edit::Body(at, ranges))
}

#[tactic(auto, unfolding(crate::specs::EditLines::label_of))]
fn label(alloc: Global, words: &mut Words) -> Result<Edit, PartError>
    ensures value { Reads words.new result (label_of words.old) }
    ensures legal { IfOk result (λ e. is_edit e ≡ true) }
{
    let at = address(words)?;
    let name = name(alloc, words)?;
    Ok(Edit::Label(at, name))
}

#[tactic(auto, unfolding(crate::specs::EditLines::ref_of))]
fn reference(words: &mut Words) -> Result<Edit, TextCause>
    ensures value { ref_of words.old ≡ with_rest words.new result }
    ensures legal { IfOk result (λ e. is_edit e ≡ true) }
{
    let from = address(words)?;
    let to = address(words)?;
    let class = class(words)?;
    Ok(Edit::Ref(from, to, class))
}

#[tactic(auto, unfolding(crate::specs::EditLines::comment_of))]
fn comment(alloc: Global, words: &mut Words) -> Result<Edit, PartError>
    ensures value { Reads words.new result (comment_of words.old) }
    ensures legal { IfOk result (λ e. is_edit e ≡ true) }
{
    let at = address(words)?;
    let kind = comment_kind(words)?;
    let text = quoted(alloc, words)?;
    Ok(Edit::Comment(at, kind, text))
}

#[tactic(auto, unfolding(crate::specs::EditLines::bookmark_of))]
fn bookmark(alloc: Global, words: &mut Words) -> Result<Edit, PartError>
    ensures value { Reads words.new result (bookmark_of words.old) }
    ensures legal { IfOk result (λ e. is_edit e ≡ true) }
{
    let at = address(words)?;
    let kind = bookmark_type(words)?;
    let text = quoted(alloc, words)?;
    Ok(Edit::Bookmark(at, kind, text))
}

#[tactic(auto, unfolding(crate::specs::EditLines::datum_of))]
fn datum(words: &mut Words) -> Result<Edit, TextCause>
    ensures value { datum_of words.old ≡ with_rest words.new result }
    ensures legal { IfOk result (λ e. is_edit e ≡ true) }
{
    let at = address(words)?;
    let form = form(words)?;
    Ok(Edit::Datum(at, form))
}

/// The greatest `sub` of a kind.
fn top_sub(kind: Kind) -> u8
    ensures { result ≡ top_sub kind }
{
    match kind {
        Kind::Symbol | Kind::Ref => 63,
        Kind::Comment | Kind::Bookmark => 4,
        _ => 0,
    }
}

/// A `sub` of a kind.
fn sub(words: &mut Words, kind: Kind) -> Result<u8, TextCause>
    ensures value { part (number_of 0 (top_sub kind)) words.old ≡ with_rest words.new result }
    ensures top { IfOk result (λ n. n ≤ top_sub kind) }
{
    let number = number(words, 0, u64::from(top_sub(kind)))?;
    Ok(number as u8)
}

#[tactic(auto, unfolding(crate::specs::EditLines::remove_of))]
fn removal(words: &mut Words) -> Result<Edit, TextCause>
    ensures value { remove_of words.old ≡ with_rest words.new result }
    ensures legal { IfOk result (λ e. is_edit e ≡ true) }
{
    let kind = removable_kind(words)?;
    let at = address(words)?;
    let sub = sub(words, kind)?;
    Ok(Edit::Remove(kind, at, sub))
}

#[tactic(auto, unfolding(crate::specs::EditLines::release_of))]
fn release(words: &mut Words) -> Result<Edit, TextCause>
    ensures value { release_of words.old ≡ with_rest words.new result }
    ensures legal { IfOk result (λ e. is_edit e ≡ true) }
{
    let kind = releasable_kind(words)?;
    let at = address(words)?;
    let sub = sub(words, kind)?;
    Ok(Edit::Release(kind, at, sub))
}

/// The edit of a first word and the words behind it.
pub fn edit(alloc: Global, first: EditWord, words: &mut Words) -> Result<Edit, PartError>
    ensures value { Reads words.new result (edit_of first words.old) }
    ensures legal { IfOk result (λ e. is_edit e ≡ true) }
{
    match first {
        EditWord::Block => Ok(block(words)?),
        EditWord::Mark => Ok(Edit::Mark(address(words)?)),
        EditWord::Func => Ok(Edit::Func(address(words)?)),
        EditWord::Body => body(alloc, words),
        EditWord::Label => label(alloc, words),
        EditWord::Ref => Ok(reference(words)?),
        EditWord::Comment => comment(alloc, words),
        EditWord::Bookmark => bookmark(alloc, words),
        EditWord::Code => Ok(Edit::Code(address(words)?)),
        EditWord::Data => Ok(datum(words)?),
        EditWord::Clear => Ok(Edit::Clear(address(words)?)),
        EditWord::Remove => Ok(removal(words)?),
        EditWord::Release => Ok(release(words)?),
    }
}
