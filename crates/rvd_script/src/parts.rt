ghost use Rattle.std.specs.Prelude.{◌≡◌, ◌<◌, ◌≤◌, true, IfOk};
ghost use Rattle.rvd_fact.specs.Valid.{is_text};
ghost use Rattle.rvd_event.specs.Edits.{is_name, is_releasable, is_removable};
ghost use Rattle.rvd_script.specs.Parts.{address_of, analyzers, bookmark_types, classes, comment_kinds, fixed, length_of, name_of, number_of, perm_of, quoted_of, releasable_kinds, removable_kinds};
ghost use Rattle.rvd_script.specs.Steps.{Reads, part, with_rest};

use crate::errors::PartError;
use crate::fixed_words::{
    analyzer_of, bookmark_type_of, class_of, comment_kind_of, releasable_kind_of, removable_kind_of,
};
use crate::values::{address_of, length_of, name_of, number_of, perm_of, quoted_of};
use crate::words::Words;
use rvd_ask::Analyzer;
use rvd_fact::{Addr, Kind, Perm, RefClass, Text, TextCause};
use std::alloc::Global;

/// An address.
pub fn address(words: &mut Words) -> Result<Addr, TextCause>
    ensures { part address_of words.old ≡ with_rest words.new result }
{
    address_of(words.word()?)
}

/// The length of a block.
pub fn block_length(words: &mut Words) -> Result<u32, TextCause>
    ensures value { part length_of words.old ≡ with_rest words.new result }
    ensures some { IfOk result (λ n. 0 < n) }
{
    length_of(words.word()?)
}

/// A number from `low` to `high`.
pub fn number(words: &mut Words, low: u64, high: u64) -> Result<u64, TextCause>
    ensures value { part (number_of low high) words.old ≡ with_rest words.new result }
    ensures least { IfOk result (λ n. low ≤ n) }
    ensures most { IfOk result (λ n. n ≤ high) }
{
    number_of(words.word()?, low, high)
}

/// A quoted text.
pub fn quoted(alloc: Global, words: &mut Words) -> Result<Text, PartError>
    ensures value { Reads words.new result (part quoted_of words.old) }
    ensures legal { IfOk result (λ text. is_text text ≡ true) }
{
    quoted_of(alloc, words.word()?)
}

/// A name.
pub fn name(alloc: Global, words: &mut Words) -> Result<Text, PartError>
    ensures value { Reads words.new result (part name_of words.old) }
    ensures legal { IfOk result (λ name. is_name name ≡ true) }
{
    name_of(alloc, words.word()?)
}

/// The permission of a block.
pub fn perm(words: &mut Words) -> Result<Perm, TextCause>
    ensures { part perm_of words.old ≡ with_rest words.new result }
{
    perm_of(words.word()?)
}

/// An analyzer.
pub fn analyzer(words: &mut Words) -> Result<Analyzer, TextCause>
    ensures { part (fixed analyzers) words.old ≡ with_rest words.new result }
{
    analyzer_of(words.word()?)
}

/// The class of a reference.
pub fn class(words: &mut Words) -> Result<RefClass, TextCause>
    ensures { part (fixed classes) words.old ≡ with_rest words.new result }
{
    class_of(words.word()?)
}

/// The kind of a fact that may be removed.
pub fn removable_kind(words: &mut Words) -> Result<Kind, TextCause>
    ensures value { part (fixed removable_kinds) words.old ≡ with_rest words.new result }
    ensures removable { IfOk result (λ k. is_removable k ≡ true) }
{
    removable_kind_of(words.word()?)
}

/// The kind of a deleted fact that may be released.
pub fn releasable_kind(words: &mut Words) -> Result<Kind, TextCause>
    ensures value { part (fixed releasable_kinds) words.old ≡ with_rest words.new result }
    ensures releasable { IfOk result (λ k. is_releasable k ≡ true) }
{
    releasable_kind_of(words.word()?)
}

/// The number of a kind of comments.
pub fn comment_kind(words: &mut Words) -> Result<u8, TextCause>
    ensures value { part (fixed comment_kinds) words.old ≡ with_rest words.new result }
    ensures top { IfOk result (λ k. k ≤ 4) }
{
    comment_kind_of(words.word()?)
}

/// The number of a type of bookmarks.
pub fn bookmark_type(words: &mut Words) -> Result<u8, TextCause>
    ensures value { part (fixed bookmark_types) words.old ≡ with_rest words.new result }
    ensures top { IfOk result (λ k. k ≤ 4) }
{
    bookmark_type_of(words.word()?)
}
