ghost use Rattle.std.specs.Prelude.{◌≡◌, IfOk};
ghost use Rattle.rvd_fact.specs.Valid.{is_address, is_text, top_sub};
ghost use Rattle.rvd_event.specs.Edits.{is_edit, has_body_ranges, is_name, is_datum, is_removable, is_releasable};

use rvd_fact::{Addr, Form, Key, Kind, Perm, RangeSet, RefClass, Text};
use std::alloc::AllocError;

/// How many addresses there are.
const ADDRESSES: u64 = 0x1_0000_0000;

/// The most bytes of a text.
const MAX_TEXT: usize = 1000;

/// The most ranges of a body that an analyst sets.
const MAX_BODY_RANGES: usize = 64;

/// The most bytes of a string that an analyst makes.
const MAX_STRING: u16 = 256;

/// An analyst's edit. Its parts have ranges of their own, which [`Edit::is_legal`] tests.
#[derive(Debug, Drop)]
pub enum Edit {
    /// Adds an uninitialised block: its start, its length in bytes (at least 1), and what may be
    /// done with it.
    Block(Addr, u32, Perm),
    /// Adds an entry point.
    Mark(Addr),
    /// Adds a function.
    Func(Addr),
    /// Sets the addresses of the function at an entry, 1 to 64 ranges.
    Body(Addr, RangeSet),
    /// Adds a name, which isn't empty.
    Label(Addr, Text),
    /// Adds a reference: from, to, and its class.
    Ref(Addr, Addr, RefClass),
    /// Sets the comment of a kind (the key's `sub`, 0 to 4).
    Comment(Addr, u8, Text),
    /// Sets the bookmark of a type (the key's `sub`, 0 to 4).
    Bookmark(Addr, u8, Text),
    /// Makes an instruction.
    Code(Addr),
    /// Makes a data unit; a string has 1 to 256 bytes.
    Datum(Addr, Form),
    /// Clears the unit at an address.
    Clear(Addr),
    /// Removes the fact of a kind (no block and no unit) at an address and a `sub` of its kind.
    Remove(Kind, Addr, u8),
    /// Releases what a deleted fact left behind: a kind (no block), an address, and a `sub` of its
    /// kind.
    Release(Kind, Addr, u8),
}

/// Why an edit is refused.
#[derive(Clone, Copy, Debug, PartialEq, Eq)]
pub enum EditRefusal {
    /// The block at this address passes the end of the address space.
    LeavesSpace(Addr),
    /// The block meets another, which starts here.
    BlockOverlap(Addr),
    /// There are as many blocks as there may be.
    BlocksFull,
    /// The address isn't a multiple of what is asked for.
    Unaligned(Addr),
    /// The address is in no block, or not in that of the unit.
    NoBlock(Addr),
    /// The block around this address is uninitialised.
    NoBytes(Addr),
    /// The unit meets a present one, which starts here.
    Overlap(Addr),
    /// The word is no instruction.
    BadInstruction(u32),
    /// The fact isn't there.
    NoSuch(Key),
    /// The fact is there already.
    Present(Key),
    /// All slots at this address are taken.
    SlotsFull(Addr),
}

impl Edit {
    /// An equal edit.
    pub fn copy(&self) -> Result<Edit, AllocError>
        ensures { IfOk result (λ copy. copy ≡ self.now) }
    {
        match self {
            Edit::Block(at, len, perm) => Ok(Edit::Block(*at, *len, *perm)),
            Edit::Mark(at) => Ok(Edit::Mark(*at)),
            Edit::Func(at) => Ok(Edit::Func(*at)),
            Edit::Body(at, ranges) => Ok(Edit::Body(*at, ranges.copy()?)),
            Edit::Label(at, name) => Ok(Edit::Label(*at, name.copy()?)),
            Edit::Ref(from, to, class) => Ok(Edit::Ref(*from, *to, *class)),
            Edit::Comment(at, kind, text) => Ok(Edit::Comment(*at, *kind, text.copy()?)),
            Edit::Bookmark(at, kind, text) => Ok(Edit::Bookmark(*at, *kind, text.copy()?)),
            Edit::Code(at) => Ok(Edit::Code(*at)),
            Edit::Datum(at, form) => Ok(Edit::Datum(*at, *form)),
            Edit::Clear(at) => Ok(Edit::Clear(*at)),
            Edit::Remove(kind, at, sub) => Ok(Edit::Remove(*kind, *at, *sub)),
            Edit::Release(kind, at, sub) => Ok(Edit::Release(*kind, *at, *sub)),
        }
    }

    /// Whether its parts are in their ranges.
    pub fn is_legal(&self) -> bool
        ensures { result ≡ is_edit self.now }
    {
        match self {
            Edit::Block(at, len, _) => is_address(*at) && *len > 0,
            Edit::Body(at, ranges) => is_address(*at) && has_body_ranges(ranges),
            Edit::Label(at, name) => is_address(*at) && is_name(name),
            Edit::Ref(from, to, _) => is_address(*from) && is_address(*to),
            Edit::Comment(at, sub, text) => {
                is_address(*at) && *sub <= top_sub(Kind::Comment) && is_text(text.list())
            }
            Edit::Bookmark(at, sub, text) => {
                is_address(*at) && *sub <= top_sub(Kind::Bookmark) && is_text(text.list())
            }
            Edit::Datum(at, form) => is_address(*at) && is_datum(*form),
            Edit::Remove(kind, at, sub) => {
                is_address(*at) && is_removable(*kind) && *sub <= top_sub(*kind)
            }
            Edit::Release(kind, at, sub) => {
                is_address(*at) && is_releasable(*kind) && *sub <= top_sub(*kind)
            }
            Edit::Mark(at) | Edit::Func(at) | Edit::Code(at) | Edit::Clear(at) => is_address(*at),
        }
    }
}

/// Whether a number is an address: every number of the type is.
fn is_address(at: Addr) -> bool
    ensures { result ≡ is_address at }
{
    u64::from(at) < ADDRESSES
}

/// Whether bytes are a text: they are no more than a text may have.
fn is_text(bytes: &[u8]) -> bool
    ensures { result ≡ is_text bytes.now }
{
    bytes.len() <= MAX_TEXT
}

/// Whether a set has as many ranges as a body may have that an analyst sets.
fn has_body_ranges(ranges: &RangeSet) -> bool
    ensures { result ≡ has_body_ranges ranges.now }
{
    let count = ranges.ranges().len();
    count >= 1 && count <= MAX_BODY_RANGES
}

/// Whether a text is a name.
fn is_name(name: &Text) -> bool
    ensures { result ≡ is_name name.now }
{
    is_text(name.list()) && !name.list().is_empty()
}

/// Whether an analyst may make a data unit of a form.
fn is_datum(form: Form) -> bool
    ensures { result ≡ is_datum form }
{
    match form {
        Form::Byte | Form::Half | Form::Word => true,
        Form::Str(len) => len >= 1 && len <= MAX_STRING,
    }
}

/// Whether a fact of a kind may be removed.
fn is_removable(kind: Kind) -> bool
    ensures { result ≡ is_removable kind }
{
    !matches!(kind, Kind::Block | Kind::Unit)
}

/// Whether what is left behind by a fact of a kind may be released.
fn is_releasable(kind: Kind) -> bool
    ensures { result ≡ is_releasable kind }
{
    !matches!(kind, Kind::Block)
}

/// The greatest `sub` of a kind.
fn top_sub(kind: Kind) -> u8
    ensures { result ≡ top_sub kind }
{
    match kind {
        Kind::Symbol | Kind::Ref => 63,
        Kind::Comment | Kind::Bookmark => 4,
        _ => 0,
    }
}
