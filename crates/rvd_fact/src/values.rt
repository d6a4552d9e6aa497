ghost use Rattle.std.specs.Prelude.{◌≡◌, IfOk};

use crate::keys::Addr;
use crate::lists::{Bytes, Text};
use crate::ranges::RangeSet;
use std::alloc::AllocError;

/// Where a fact came from, in rising priority.
#[derive(Clone, Copy, Debug, PartialEq, Eq, PartialOrd, Ord)]
pub enum Source {
    /// None of the others; no fact of a program has this source.
    Default,
    /// An analyzer.
    Analysis,
    /// The imported file.
    Imported,
    /// An analyst.
    UserDefined,
}

/// What may be done with a block of memory.
#[derive(Clone, Copy, Debug, PartialEq, Eq)]
pub struct Perm {
    /// It may be read.
    pub r: bool,
    /// It may be written.
    pub w: bool,
    /// It may be executed.
    pub x: bool,
}

/// The form of a data unit.
#[derive(Clone, Copy, Debug, PartialEq, Eq)]
pub enum Form {
    /// One byte.
    Byte,
    /// Two bytes, the low one first.
    Half,
    /// Four bytes, the lowest first.
    Word,
    /// A text of so many bytes, 1 to 256 in a valid program.
    Str(u16),
}

/// How an address is referred to.
#[derive(Clone, Copy, Debug, PartialEq, Eq, PartialOrd, Ord)]
pub enum RefClass {
    /// A call goes there.
    Call,
    /// A jump goes there.
    Jump,
    /// A branch may go there.
    Cond,
    /// The address is computed.
    Datum,
    /// The address is read from.
    Read,
    /// The address is written to.
    Write,
}

/// A fact, without its source.
#[derive(Debug, Drop)]
pub enum Value {
    /// A block of `len` bytes, with its bytes where it is initialised.
    Block {
        len: u32,
        perm: Perm,
        bytes: Option<Bytes>,
    },
    /// An entry point.
    Mark,
    /// A function.
    Func,
    /// The addresses of a function.
    Body(RangeSet),
    /// A name.
    Symbol(Text),
    /// The text of a comment.
    Comment(Text),
    /// The text of a bookmark.
    Bookmark(Text),
    /// An instruction of four bytes, as the word that the bytes make, the lowest first.
    Code(u32),
    /// A data unit.
    Plain(Form),
    /// A reference to an address.
    Ref {
        to: Addr,
        class: RefClass,
    },
    /// What a deleted fact leaves behind.
    Gone,
}

fn copy_bytes(bytes: &Option<Bytes>) -> Result<Option<Bytes>, AllocError>
    ensures { IfOk result (λ copy. copy ≡ bytes.now) }
{
    match bytes {
        None => Ok(None),
        Some(bytes) => Ok(Some(bytes.copy()?)),
    }
}

impl Value {
    /// An equal value.
    pub fn copy(&self) -> Result<Value, AllocError>
        ensures { IfOk result (λ copy. copy ≡ self.now) }
    {
        match self {
            Value::Block { len, perm, bytes } => Ok(Value::Block {
                len: *len,
                perm: *perm,
                bytes: copy_bytes(bytes)?,
            }),
            Value::Mark => Ok(Value::Mark),
            Value::Func => Ok(Value::Func),
            Value::Body(ranges) => Ok(Value::Body(ranges.copy()?)),
            Value::Symbol(name) => Ok(Value::Symbol(name.copy()?)),
            Value::Comment(text) => Ok(Value::Comment(text.copy()?)),
            Value::Bookmark(text) => Ok(Value::Bookmark(text.copy()?)),
            Value::Code(word) => Ok(Value::Code(*word)),
            Value::Plain(form) => Ok(Value::Plain(*form)),
            Value::Ref { to, class } => Ok(Value::Ref {
                to: *to,
                class: *class,
            }),
            Value::Gone => Ok(Value::Gone),
        }
    }
}
