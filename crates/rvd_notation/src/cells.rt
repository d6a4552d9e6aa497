ghost use Rattle.std.specs.Prelude.{◌≡◌, ◌++◌, OnOk, OnErr, codes};
ghost use Rattle.std.specs.Fmt.{decimal};
ghost use Rattle.rvd_text.specs.Quoted.{quoted};
ghost use Rattle.rvd_text.specs.Hex.{hex8};
ghost use Rattle.rvd_notation.specs.Words.{bookmark_word, class_word, comment_word, form_words, init_word, kind_word, perm_word};
ghost use Rattle.rvd_notation.specs.Values.{fact_text, value_text};
ghost use Rattle.rvd_notation.specs.Pieces.{Keeps};

use crate::keys::push_ranges;
use crate::words::{class_word, init_word, kind_word, perm_word, source_word};
use rvd_fact::{Addr, Bytes, Cell, Form, Key, Perm, RefClass, Text, Value};
use rvd_text::{push_dec, push_hex8, push_quoted};
use std::alloc::AllocError;

fn push_block(
    out: &mut Vec<u8>,
    len: u32,
    perm: Perm,
    bytes: &Option<Bytes>,
) -> Result<(), AllocError>
    ensures ok { OnOk result (out.new.items ≡ out.old.items ++ (codes "block " ++ hex8 len ++ codes " " ++ perm_word perm ++ codes " " ++ init_word bytes.now)) }
    ensures err { OnErr result (Keeps out.old.items out.new.items) }
{
    out.extend_from_slice(b"block ")?;
    push_hex8(out, len)?;
    out.push(b' ')?;
    out.extend_from_slice(&perm_word(perm))?;
    out.push(b' ')?;
    out.extend_from_slice(init_word(bytes))?;
    Ok(())
}

fn push_symbol(out: &mut Vec<u8>, slot: u8, name: &Text) -> Result<(), AllocError>
    ensures ok { OnOk result (out.new.items ≡ out.old.items ++ (codes "symbol " ++ decimal slot ++ codes " " ++ quoted name.now)) }
    ensures err { OnErr result (Keeps out.old.items out.new.items) }
{
    out.extend_from_slice(b"symbol ")?;
    push_dec(out, u64::from(slot))?;
    out.push(b' ')?;
    push_quoted(out, name.list())
}

/// Appends the kind of a comment: its word, or the number of one that has none.
pub fn push_comment_kind(out: &mut Vec<u8>, sub: u8) -> Result<(), AllocError>
    ensures ok { OnOk result (out.new.items ≡ out.old.items ++ comment_word sub) }
    ensures err { OnErr result (out.new.items ≡ out.old.items) }
{
    match sub {
        0 => out.extend_from_slice(b"plate"),
        1 => out.extend_from_slice(b"pre"),
        2 => out.extend_from_slice(b"eol"),
        3 => out.extend_from_slice(b"post"),
        4 => out.extend_from_slice(b"repeatable"),
        _ => push_dec(out, u64::from(sub)),
    }
}

fn push_comment(out: &mut Vec<u8>, sub: u8, text: &Text) -> Result<(), AllocError>
    ensures ok { OnOk result (out.new.items ≡ out.old.items ++ (codes "comment " ++ comment_word sub ++ codes " " ++ quoted text.now)) }
    ensures err { OnErr result (Keeps out.old.items out.new.items) }
{
    out.extend_from_slice(b"comment ")?;
    push_comment_kind(out, sub)?;
    out.push(b' ')?;
    push_quoted(out, text.list())
}

/// Appends the type of a bookmark: its word, or the number of one that has none.
pub fn push_bookmark_type(out: &mut Vec<u8>, sub: u8) -> Result<(), AllocError>
    ensures ok { OnOk result (out.new.items ≡ out.old.items ++ bookmark_word sub) }
    ensures err { OnErr result (out.new.items ≡ out.old.items) }
{
    match sub {
        0 => out.extend_from_slice(b"note"),
        1 => out.extend_from_slice(b"info"),
        2 => out.extend_from_slice(b"analysis"),
        3 => out.extend_from_slice(b"warning"),
        4 => out.extend_from_slice(b"error"),
        _ => push_dec(out, u64::from(sub)),
    }
}

fn push_bookmark(out: &mut Vec<u8>, sub: u8, text: &Text) -> Result<(), AllocError>
    ensures ok { OnOk result (out.new.items ≡ out.old.items ++ (codes "bookmark " ++ bookmark_word sub ++ codes " " ++ quoted text.now)) }
    ensures err { OnErr result (Keeps out.old.items out.new.items) }
{
    out.extend_from_slice(b"bookmark ")?;
    push_bookmark_type(out, sub)?;
    out.push(b' ')?;
    push_quoted(out, text.list())
}

/// Appends the words of a form, or a front of them where there is no memory.
pub fn push_form(out: &mut Vec<u8>, form: Form) -> Result<(), AllocError>
    ensures ok { OnOk result (out.new.items ≡ out.old.items ++ form_words form) }
    ensures err { OnErr result (Keeps out.old.items out.new.items) }
{
    match form {
        Form::Byte => out.extend_from_slice(b"byte"),
        Form::Half => out.extend_from_slice(b"half"),
        Form::Word => out.extend_from_slice(b"word"),
        Form::Str(len) => {
            out.extend_from_slice(b"string ")?;
            push_dec(out, u64::from(len))
        }
    }
}

fn push_data(out: &mut Vec<u8>, form: Form) -> Result<(), AllocError>
    ensures ok { OnOk result (out.new.items ≡ out.old.items ++ (codes "data " ++ form_words form)) }
    ensures err { OnErr result (Keeps out.old.items out.new.items) }
{
    out.extend_from_slice(b"data ")?;
    push_form(out, form)
}

fn push_ref(out: &mut Vec<u8>, slot: u8, to: Addr, class: RefClass) -> Result<(), AllocError>
    ensures ok { OnOk result (out.new.items ≡ out.old.items ++ (codes "ref " ++ decimal slot ++ codes " " ++ class_word class ++ codes " " ++ hex8 to)) }
    ensures err { OnErr result (Keeps out.old.items out.new.items) }
{
    out.extend_from_slice(b"ref ")?;
    push_dec(out, u64::from(slot))?;
    out.push(b' ')?;
    out.extend_from_slice(class_word(class))?;
    out.push(b' ')?;
    push_hex8(out, to)
}

fn push_gone(out: &mut Vec<u8>, key: &Key) -> Result<(), AllocError>
    ensures ok { OnOk result (out.new.items ≡ out.old.items ++ (codes "gone " ++ kind_word key.now.kind ++ codes " " ++ decimal key.now.sub)) }
    ensures err { OnErr result (Keeps out.old.items out.new.items) }
{
    out.extend_from_slice(b"gone ")?;
    out.extend_from_slice(kind_word(key.kind))?;
    out.push(b' ')?;
    push_dec(out, u64::from(key.sub))
}

#[tactic(auto, unfolding(crate::specs::Values::fact_text))]
fn push_fact(out: &mut Vec<u8>, key: &Key, value: &Value) -> Result<(), AllocError>
    ensures ok { OnOk result (out.new.items ≡ out.old.items ++ fact_text key.now value.now) }
    ensures err { OnErr result (Keeps out.old.items out.new.items) }
{
    match value {
        Value::Block { len, perm, bytes } => push_block(out, *len, *perm, bytes),
        Value::Mark => out.extend_from_slice(b"mark"),
        Value::Func => out.extend_from_slice(b"func"),
        Value::Body(ranges) => {
            out.extend_from_slice(b"body ")?;
            push_ranges(out, ranges)
        }
        Value::Symbol(name) => push_symbol(out, key.sub, name),
        Value::Comment(text) => push_comment(out, key.sub, text),
        Value::Bookmark(text) => push_bookmark(out, key.sub, text),
        Value::Code(word) => {
            out.extend_from_slice(b"code ")?;
            push_hex8(out, *word)
        }
        Value::Plain(form) => push_data(out, *form),
        Value::Ref { to, class } => push_ref(out, key.sub, *to, *class),
        Value::Gone => push_gone(out, key),
    }
}

fn push_pieces(out: &mut Vec<u8>, key: &Key, cell: &Cell) -> Result<(), AllocError>
    ensures ok { OnOk result (out.new.items ≡ out.old.items ++ value_text key.now cell.now) }
    ensures err { OnErr result (Keeps out.old.items out.new.items) }
{
    out.extend_from_slice(source_word(cell.source))?;
    out.push(b' ')?;
    push_fact(out, key, &cell.value)
}

/// Appends the cell at a key: the word of its source and its fact.
pub fn push_value(out: &mut Vec<u8>, key: &Key, cell: &Cell) -> Result<(), AllocError>
    ensures ok { OnOk result (out.new.items ≡ out.old.items ++ value_text key.now cell.now) }
    ensures err { OnErr result (out.new.items ≡ out.old.items) }
{
    let len = out.len();
    let pushed = push_pieces(out, key, cell);
    if pushed.is_err() {
        out.truncate(len);
    }
    pushed
}
