ghost use Rattle.std.specs.Prelude.{◌≡◌};
ghost use Rattle.rvd_reading.specs.Steps.{Reads, with_rest};
ghost use Rattle.rvd_line_reading.specs.Edits.{block_of, body_of, bookmark_of, comment_of, datum_of, edit_of, label_of, ref_of};

use crate::range_words::range_words;
use rvd_event::Edit;
use rvd_reading::{
    ReadError, Rest, Unread, bookmark_type, class, comment_kind, form, hex8, key, perm, quoted,
};
use std::alloc::Global;

#[tactic(auto, unfolding(crate::specs::Edits::block_of))]
fn block(rest: &mut Rest) -> Result<Edit, Unread>
    ensures { block_of rest.old ≡ with_rest rest.new result }
{
    let at = hex8(rest)?;
    rest.expect(b" ")?;
    let len = hex8(rest)?;
    rest.expect(b" ")?;
    let perm = perm(rest)?;
    Ok(Edit::Block(at, len, perm))
}

#[tactic(auto, unfolding(crate::specs::Edits::body_of))]
fn body(alloc: Global, rest: &mut Rest) -> Result<Edit, ReadError>
    ensures { Reads rest.new result (body_of rest.old) }
{
    let at = hex8(rest)?;
    let ranges = range_words(alloc, rest)?;
    Ok(Edit::Body(at, ranges))
}

#[tactic(auto, unfolding(crate::specs::Edits::label_of))]
fn label(alloc: Global, rest: &mut Rest) -> Result<Edit, ReadError>
    ensures { Reads rest.new result (label_of rest.old) }
{
    let at = hex8(rest)?;
    rest.expect(b" ")?;
    let name = quoted(alloc, rest)?;
    Ok(Edit::Label(at, name))
}

#[tactic(auto, unfolding(crate::specs::Edits::ref_of))]
fn reference(rest: &mut Rest) -> Result<Edit, Unread>
    ensures { ref_of rest.old ≡ with_rest rest.new result }
{
    let from = hex8(rest)?;
    rest.expect(b" ")?;
    let to = hex8(rest)?;
    rest.expect(b" ")?;
    let class = class(rest)?;
    Ok(Edit::Ref(from, to, class))
}

#[tactic(auto, unfolding(crate::specs::Edits::comment_of))]
fn comment(alloc: Global, rest: &mut Rest) -> Result<Edit, ReadError>
    ensures { Reads rest.new result (comment_of rest.old) }
{
    let at = hex8(rest)?;
    rest.expect(b" ")?;
    let kind = comment_kind(rest)?;
    rest.expect(b" ")?;
    let text = quoted(alloc, rest)?;
    Ok(Edit::Comment(at, kind, text))
}

#[tactic(auto, unfolding(crate::specs::Edits::bookmark_of))]
fn bookmark(alloc: Global, rest: &mut Rest) -> Result<Edit, ReadError>
    ensures { Reads rest.new result (bookmark_of rest.old) }
{
    let at = hex8(rest)?;
    rest.expect(b" ")?;
    let kind = bookmark_type(rest)?;
    rest.expect(b" ")?;
    let text = quoted(alloc, rest)?;
    Ok(Edit::Bookmark(at, kind, text))
}

#[tactic(auto, unfolding(crate::specs::Edits::datum_of))]
fn datum(rest: &mut Rest) -> Result<Edit, Unread>
    ensures { datum_of rest.old ≡ with_rest rest.new result }
{
    let at = hex8(rest)?;
    rest.expect(b" ")?;
    let form = form(rest)?;
    Ok(Edit::Datum(at, form))
}

/// An edit.
#[tactic(auto, unfolding(crate::specs::Edits::edit_of))]
pub fn edit(alloc: Global, rest: &mut Rest) -> Result<Edit, ReadError>
    ensures { Reads rest.new result (edit_of rest.old) }
{
    if rest.strip(b"block ") {
        Ok(block(rest)?)
    } else if rest.strip(b"mark ") {
        Ok(Edit::Mark(hex8(rest)?))
    } else if rest.strip(b"func ") {
        Ok(Edit::Func(hex8(rest)?))
    } else if rest.strip(b"body ") {
        body(alloc, rest)
    } else if rest.strip(b"label ") {
        label(alloc, rest)
    } else if rest.strip(b"ref ") {
        Ok(reference(rest)?)
    } else if rest.strip(b"comment ") {
        comment(alloc, rest)
    } else if rest.strip(b"bookmark ") {
        bookmark(alloc, rest)
    } else if rest.strip(b"code ") {
        Ok(Edit::Code(hex8(rest)?))
    } else if rest.strip(b"data ") {
        Ok(datum(rest)?)
    } else if rest.strip(b"clear ") {
        Ok(Edit::Clear(hex8(rest)?))
    } else if rest.strip(b"remove ") {
        let key = key(rest)?;
        Ok(Edit::Remove(key.kind, key.at, key.sub))
    } else if rest.strip(b"release ") {
        let key = key(rest)?;
        Ok(Edit::Release(key.kind, key.at, key.sub))
    } else {
        Err(ReadError::Unread)
    }
}
