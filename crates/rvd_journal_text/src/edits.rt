ghost use Rattle.std.specs.Prelude.{◌≡◌, ◌++◌, OnOk, OnErr, codes};
ghost use Rattle.rvd_text.specs.Hex.{hex8};
ghost use Rattle.rvd_text.specs.Quoted.{quoted};
ghost use Rattle.rvd_notation.specs.Pieces.{Keeps};
ghost use Rattle.rvd_notation.specs.Words.{bookmark_word, class_word, comment_word, form_words, perm_word, range_text};
ghost use Rattle.rvd_journal_text.specs.Edits.{edit_text, range_words};

use crate::words::{push_at, push_key_of, push_spaced};
use rvd_event::Edit;
use rvd_fact::{Addr, Form, Key, Kind, Perm, RangeSet, RefClass, Text};
use rvd_notation::{
    class_word, perm_word, push_bookmark_type, push_comment_kind, push_form, push_range,
};
use rvd_text::push_quoted;
use std::alloc::AllocError;

fn push_block(out: &mut Vec<u8>, at: Addr, len: u32, perm: Perm) -> Result<(), AllocError>
    ensures ok { OnOk result (out.new.items ≡ out.old.items ++ (codes "block " ++ hex8 at ++ codes " " ++ hex8 len ++ codes " " ++ perm_word perm)) }
    ensures err { OnErr result (Keeps out.old.items out.new.items) }
{
    push_at(out, b"block ", at)?;
    push_at(out, b" ", len)?;
    push_spaced(out, &perm_word(perm))
}

fn push_next_range(out: &mut Vec<u8>, range: (Addr, Addr)) -> Result<(), AllocError>
    ensures ok { OnOk result (out.new.items ≡ out.old.items ++ (codes " " ++ range_text range)) }
    ensures err { OnErr result (Keeps out.old.items out.new.items) }
{
    out.push(b' ')?;
    push_range(out, range)
}

fn push_range_words(out: &mut Vec<u8>, ranges: &[(Addr, Addr)]) -> Result<(), AllocError>
    ensures ok { OnOk result (out.new.items ≡ out.old.items ++ range_words ranges.now) }
    ensures err { OnErr result (Keeps out.old.items out.new.items) }
{
    for range in ranges {
        push_next_range(out, *range)?;
    }
    Ok(())
}

fn push_body(out: &mut Vec<u8>, at: Addr, ranges: &RangeSet) -> Result<(), AllocError>
    ensures ok { OnOk result (out.new.items ≡ out.old.items ++ (codes "body " ++ hex8 at ++ range_words ranges.now)) }
    ensures err { OnErr result (Keeps out.old.items out.new.items) }
{
    push_at(out, b"body ", at)?;
    push_range_words(out, ranges.ranges())
}

fn push_label(out: &mut Vec<u8>, at: Addr, name: &Text) -> Result<(), AllocError>
    ensures ok { OnOk result (out.new.items ≡ out.old.items ++ (codes "label " ++ hex8 at ++ codes " " ++ quoted name.now)) }
    ensures err { OnErr result (Keeps out.old.items out.new.items) }
{
    push_at(out, b"label ", at)?;
    out.push(b' ')?;
    push_quoted(out, name.list())
}

fn push_ref(out: &mut Vec<u8>, from: Addr, to: Addr, class: RefClass) -> Result<(), AllocError>
    ensures ok { OnOk result (out.new.items ≡ out.old.items ++ (codes "ref " ++ hex8 from ++ codes " " ++ hex8 to ++ codes " " ++ class_word class)) }
    ensures err { OnErr result (Keeps out.old.items out.new.items) }
{
    push_at(out, b"ref ", from)?;
    push_at(out, b" ", to)?;
    push_spaced(out, class_word(class))
}

fn push_comment(out: &mut Vec<u8>, at: Addr, sub: u8, text: &Text) -> Result<(), AllocError>
    ensures ok { OnOk result (out.new.items ≡ out.old.items ++ (codes "comment " ++ hex8 at ++ codes " " ++ comment_word sub ++ codes " " ++ quoted text.now)) }
    ensures err { OnErr result (Keeps out.old.items out.new.items) }
{
    push_at(out, b"comment ", at)?;
    out.push(b' ')?;
    push_comment_kind(out, sub)?;
    out.push(b' ')?;
    push_quoted(out, text.list())
}

fn push_bookmark(out: &mut Vec<u8>, at: Addr, sub: u8, text: &Text) -> Result<(), AllocError>
    ensures ok { OnOk result (out.new.items ≡ out.old.items ++ (codes "bookmark " ++ hex8 at ++ codes " " ++ bookmark_word sub ++ codes " " ++ quoted text.now)) }
    ensures err { OnErr result (Keeps out.old.items out.new.items) }
{
    push_at(out, b"bookmark ", at)?;
    out.push(b' ')?;
    push_bookmark_type(out, sub)?;
    out.push(b' ')?;
    push_quoted(out, text.list())
}

fn push_datum(out: &mut Vec<u8>, at: Addr, form: Form) -> Result<(), AllocError>
    ensures ok { OnOk result (out.new.items ≡ out.old.items ++ (codes "data " ++ hex8 at ++ codes " " ++ form_words form)) }
    ensures err { OnErr result (Keeps out.old.items out.new.items) }
{
    push_at(out, b"data ", at)?;
    out.push(b' ')?;
    push_form(out, form)
}

/// Appends an edit, or some of it where memory is wanting.
#[tactic(auto, unfolding(crate::specs::Edits::edit_text))]
pub fn push_edit(out: &mut Vec<u8>, edit: &Edit) -> Result<(), AllocError>
    ensures ok { OnOk result (out.new.items ≡ out.old.items ++ edit_text edit.now) }
    ensures err { OnErr result (Keeps out.old.items out.new.items) }
{
    match edit {
        Edit::Block(at, len, perm) => push_block(out, *at, *len, *perm),
        Edit::Mark(at) => push_at(out, b"mark ", *at),
        Edit::Func(at) => push_at(out, b"func ", *at),
        Edit::Body(at, ranges) => push_body(out, *at, ranges),
        Edit::Label(at, name) => push_label(out, *at, name),
        Edit::Ref(from, to, class) => push_ref(out, *from, *to, *class),
        Edit::Comment(at, sub, text) => push_comment(out, *at, *sub, text),
        Edit::Bookmark(at, sub, text) => push_bookmark(out, *at, *sub, text),
        Edit::Code(at) => push_at(out, b"code ", *at),
        Edit::Datum(at, form) => push_datum(out, *at, *form),
        Edit::Clear(at) => push_at(out, b"clear ", *at),
        Edit::Remove(kind, at, sub) => push_key_of(out, b"remove ", &key(*kind, *at, *sub)),
        Edit::Release(kind, at, sub) => push_key_of(out, b"release ", &key(*kind, *at, *sub)),
    }
}

fn key(kind: Kind, at: Addr, sub: u8) -> Key
    ensures { result ≡ record { at = at; kind = kind; sub = sub } }
{
    Key { at, kind, sub }
}
