ghost use Rattle.std.specs.Prelude.{◌≡◌};
ghost use Rattle.rvd_notation.specs.Words.{class_word, hex2, init_word, kind_word, perm_word, source_word};

use rvd_fact::{Bytes, Kind, Perm, RefClass, Source};
use rvd_text::digit;

/// The word of a source.
pub fn source_word(source: Source) -> &'static [u8]
    ensures { result.now ≡ source_word source }
{
    match source {
        Source::Default => b"default",
        Source::Analysis => b"analysis",
        Source::Imported => b"imported",
        Source::UserDefined => b"user",
    }
}

/// The word of a kind.
pub fn kind_word(kind: Kind) -> &'static [u8]
    ensures { result.now ≡ kind_word kind }
{
    match kind {
        Kind::Block => b"block",
        Kind::Mark => b"mark",
        Kind::Func => b"func",
        Kind::Body => b"body",
        Kind::Symbol => b"symbol",
        Kind::Comment => b"comment",
        Kind::Bookmark => b"bookmark",
        Kind::Unit => b"unit",
        Kind::Ref => b"ref",
    }
}

/// The word of a class of references.
pub fn class_word(class: RefClass) -> &'static [u8]
    ensures { result.now ≡ class_word class }
{
    match class {
        RefClass::Call => b"call",
        RefClass::Jump => b"jump",
        RefClass::Cond => b"cond",
        RefClass::Datum => b"data",
        RefClass::Read => b"read",
        RefClass::Write => b"write",
    }
}

/// The permissions as three letters or dashes: read, write, execute.
pub fn perm_word(perm: Perm) -> [u8; 3]
    ensures { result ≡ perm_word perm }
{
    [
        if perm.r { b'r' } else { b'-' },
        if perm.w { b'w' } else { b'-' },
        if perm.x { b'x' } else { b'-' },
    ]
}

/// The two hexadecimal digits of a byte.
pub fn hex2(byte: u8) -> [u8; 2]
    ensures { result ≡ hex2 byte }
{
    let byte = u32::from(byte);
    [digit(byte / 16), digit(byte % 16)]
}

/// The word that says whether a block's bytes are known.
pub fn init_word(bytes: &Option<Bytes>) -> &'static [u8]
    ensures { result.now ≡ init_word bytes.now }
{
    match bytes {
        None => b"none",
        Some(_) => b"init",
    }
}
