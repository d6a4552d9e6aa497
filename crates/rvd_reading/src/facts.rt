ghost use Rattle.std.specs.Prelude.{◌≡◌};
ghost use Rattle.rvd_reading.specs.Steps.{with_rest};
ghost use Rattle.rvd_reading.specs.Facts.{bookmark_type_of, comment_kind_of, flag_of, form_of, perm_of};

use crate::errors::Unread;
use crate::numbers::number;
use crate::rest::Rest;
use rvd_fact::{Form, Perm};

/// Whether a flag is set: it is its letter or a dash.
fn flag(rest: &mut Rest, letter: &[u8]) -> Result<bool, Unread>
    ensures { flag_of letter.now rest.old ≡ with_rest rest.new result }
{
    if rest.strip(letter) {
        Ok(true)
    } else if rest.strip(b"-") {
        Ok(false)
    } else {
        Err(Unread)
    }
}

/// A permission: three letters or dashes.
#[tactic(auto, unfolding(crate::specs::Facts::perm_of))]
pub fn perm(rest: &mut Rest) -> Result<Perm, Unread>
    ensures { perm_of rest.old ≡ with_rest rest.new result }
{
    let r = flag(rest, b"r")?;
    let w = flag(rest, b"w")?;
    let x = flag(rest, b"x")?;
    Ok(Perm { r, w, x })
}

/// The form of a data unit.
#[tactic(auto, unfolding(crate::specs::Facts::form_of))]
pub fn form(rest: &mut Rest) -> Result<Form, Unread>
    ensures { form_of rest.old ≡ with_rest rest.new result }
{
    if rest.strip(b"byte") {
        Ok(Form::Byte)
    } else if rest.strip(b"half") {
        Ok(Form::Half)
    } else if rest.strip(b"word") {
        Ok(Form::Word)
    } else if rest.strip(b"string ") {
        Ok(Form::Str(number(rest, 65535)? as u16))
    } else {
        Err(Unread)
    }
}

/// The kind of a comment, by its word or its number.
#[tactic(auto, unfolding(crate::specs::Facts::comment_kind_of))]
pub fn comment_kind(rest: &mut Rest) -> Result<u8, Unread>
    ensures { comment_kind_of rest.old ≡ with_rest rest.new result }
{
    if rest.strip(b"plate") {
        Ok(0)
    } else if rest.strip(b"pre") {
        Ok(1)
    } else if rest.strip(b"eol") {
        Ok(2)
    } else if rest.strip(b"post") {
        Ok(3)
    } else if rest.strip(b"repeatable") {
        Ok(4)
    } else {
        Ok(number(rest, 255)? as u8)
    }
}

/// The type of a bookmark, by its word or its number.
#[tactic(auto, unfolding(crate::specs::Facts::bookmark_type_of))]
pub fn bookmark_type(rest: &mut Rest) -> Result<u8, Unread>
    ensures { bookmark_type_of rest.old ≡ with_rest rest.new result }
{
    if rest.strip(b"note") {
        Ok(0)
    } else if rest.strip(b"info") {
        Ok(1)
    } else if rest.strip(b"analysis") {
        Ok(2)
    } else if rest.strip(b"warning") {
        Ok(3)
    } else if rest.strip(b"error") {
        Ok(4)
    } else {
        Ok(number(rest, 255)? as u8)
    }
}
