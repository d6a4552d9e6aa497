//! Edits of a small program, each with its number of changes or its refusal.

use rvd_event::EditRefusal;
use rvd_fact::{Addr, Form, Key, Kind, RefClass};

/// What the program says to an edit.
#[derive(Clone, Copy, Debug, PartialEq, Eq)]
pub enum Answer {
    Changed(usize),
    Refused(EditRefusal),
    Illegal,
}

/// An edit of a table. A name or a text is so many letters; a body is one range.
#[derive(Clone, Copy, Debug)]
pub enum Try {
    Block(Addr, u32),
    Mark(Addr),
    Func(Addr),
    Body(Addr),
    Label(Addr, u8),
    Ref(Addr, Addr, RefClass),
    Comment(Addr),
    Bookmark(Addr),
    Code(Addr),
    Datum(Addr, Form),
    Clear(Addr),
    Remove(Kind, Addr, u8),
    Release(Kind, Addr, u8),
}

const MARK: Key = Key {
    at: 0x10054,
    kind: Kind::Mark,
    sub: 0,
};

const FUNC: Key = Key {
    at: 0x10060,
    kind: Kind::Func,
    sub: 0,
};

const FUNC_AT_START: Key = Key {
    at: 0x10054,
    kind: Kind::Func,
    sub: 0,
};

const FUNC_OUTSIDE: Key = Key {
    at: 0x30000,
    kind: Kind::Func,
    sub: 0,
};

const NAME: Key = Key {
    at: 0x30000,
    kind: Kind::Symbol,
    sub: 0,
};

const CALL: Key = Key {
    at: 0x10058,
    kind: Kind::Ref,
    sub: 0,
};

const UNIT: Key = Key {
    at: 0x1005d,
    kind: Kind::Unit,
    sub: 0,
};

const CLEARED: Key = Key {
    at: 0x1005c,
    kind: Kind::Unit,
    sub: 0,
};

const SEVENTH_NAME: Key = Key {
    at: 0x10054,
    kind: Kind::Symbol,
    sub: 6,
};

const SIXTH_REF: Key = Key {
    at: 0x10054,
    kind: Kind::Ref,
    sub: 7,
};

/// Edits, one after the other on one program, each with what the program says to it.
pub const ROWS: [(Try, Answer); 45] = [
    (
        Try::Block(0xffff_fff0, 0x20),
        Answer::Refused(EditRefusal::LeavesSpace(0xffff_fff0)),
    ),
    (
        Try::Block(0x10050, 8),
        Answer::Refused(EditRefusal::BlockOverlap(0x10054)),
    ),
    (Try::Block(0x20000, 6), Answer::Changed(1)),
    (
        Try::Mark(0x10056),
        Answer::Refused(EditRefusal::Unaligned(0x10056)),
    ),
    (
        Try::Mark(0x30000),
        Answer::Refused(EditRefusal::NoBlock(0x30000)),
    ),
    (
        Try::Mark(0x10054),
        Answer::Refused(EditRefusal::Present(MARK)),
    ),
    (Try::Mark(0x20000), Answer::Changed(1)),
    (
        Try::Func(0x10056),
        Answer::Refused(EditRefusal::Unaligned(0x10056)),
    ),
    (
        Try::Func(0x30000),
        Answer::Refused(EditRefusal::NoBlock(0x30000)),
    ),
    (
        Try::Func(0x10060),
        Answer::Refused(EditRefusal::Present(FUNC)),
    ),
    (
        Try::Body(0x10054),
        Answer::Refused(EditRefusal::NoSuch(FUNC_AT_START)),
    ),
    (
        Try::Body(0x30000),
        Answer::Refused(EditRefusal::NoSuch(FUNC_OUTSIDE)),
    ),
    (Try::Label(0x30000, 1), Answer::Changed(1)),
    (
        Try::Label(0x30000, 1),
        Answer::Refused(EditRefusal::Present(NAME)),
    ),
    (
        Try::Ref(0x30000, 0x10060, RefClass::Call),
        Answer::Refused(EditRefusal::NoBlock(0x30000)),
    ),
    (
        Try::Ref(0x10058, 0x10060, RefClass::Call),
        Answer::Refused(EditRefusal::Present(CALL)),
    ),
    (
        Try::Ref(0x10058, 0x10060, RefClass::Jump),
        Answer::Changed(1),
    ),
    (
        Try::Comment(0x30000),
        Answer::Refused(EditRefusal::NoBlock(0x30000)),
    ),
    (Try::Comment(0x10054), Answer::Changed(1)),
    (
        Try::Bookmark(0x30000),
        Answer::Refused(EditRefusal::NoBlock(0x30000)),
    ),
    (Try::Bookmark(0x10054), Answer::Changed(1)),
    (
        Try::Code(0x10056),
        Answer::Refused(EditRefusal::Unaligned(0x10056)),
    ),
    (
        Try::Code(0x30000),
        Answer::Refused(EditRefusal::NoBlock(0x30000)),
    ),
    (
        Try::Code(0x20004),
        Answer::Refused(EditRefusal::NoBlock(0x20006)),
    ),
    (
        Try::Code(0x20000),
        Answer::Refused(EditRefusal::NoBytes(0x20000)),
    ),
    (
        Try::Code(0x1005c),
        Answer::Refused(EditRefusal::Overlap(0x1005c)),
    ),
    (
        Try::Code(0x40000),
        Answer::Refused(EditRefusal::BadInstruction(0)),
    ),
    (Try::Code(0x10054), Answer::Changed(1)),
    (
        Try::Datum(0x10056, Form::Word),
        Answer::Refused(EditRefusal::Unaligned(0x10056)),
    ),
    (
        Try::Datum(0x1005d, Form::Half),
        Answer::Refused(EditRefusal::Unaligned(0x1005d)),
    ),
    (
        Try::Datum(0x20004, Form::Word),
        Answer::Refused(EditRefusal::NoBlock(0x20006)),
    ),
    (
        Try::Datum(0x20000, Form::Str(4)),
        Answer::Refused(EditRefusal::NoBytes(0x20000)),
    ),
    (
        Try::Datum(0x1005e, Form::Half),
        Answer::Refused(EditRefusal::Overlap(0x1005c)),
    ),
    (Try::Datum(0x20000, Form::Word), Answer::Changed(1)),
    (
        Try::Clear(0x1005d),
        Answer::Refused(EditRefusal::NoSuch(UNIT)),
    ),
    (Try::Clear(0x1005c), Answer::Changed(2)),
    (Try::Datum(0x1005d, Form::Byte), Answer::Changed(1)),
    (
        Try::Code(0x1005c),
        Answer::Refused(EditRefusal::Overlap(0x1005d)),
    ),
    (Try::Release(Kind::Unit, 0x1005c, 0), Answer::Changed(1)),
    (
        Try::Release(Kind::Unit, 0x1005c, 0),
        Answer::Refused(EditRefusal::NoSuch(CLEARED)),
    ),
    (
        Try::Remove(Kind::Func, 0x10054, 0),
        Answer::Refused(EditRefusal::NoSuch(FUNC_AT_START)),
    ),
    (Try::Remove(Kind::Func, 0x10060, 0), Answer::Changed(2)),
    (Try::Func(0x10060), Answer::Changed(1)),
    (Try::Body(0x10060), Answer::Changed(1)),
    (Try::Remove(Kind::Func, 0x10060, 0), Answer::Changed(1)),
];

/// Edits where blocks, names and references are full.
pub const FULL_ROWS: [(Try, Answer); 5] = [
    (
        Try::Block(0x50000, 4),
        Answer::Refused(EditRefusal::BlocksFull),
    ),
    (
        Try::Label(0x10054, 7),
        Answer::Refused(EditRefusal::Present(SEVENTH_NAME)),
    ),
    (
        Try::Label(0x10054, 65),
        Answer::Refused(EditRefusal::SlotsFull(0x10054)),
    ),
    (
        Try::Ref(0x10054, 5, RefClass::Read),
        Answer::Refused(EditRefusal::Present(SIXTH_REF)),
    ),
    (
        Try::Ref(0x10054, 5, RefClass::Write),
        Answer::Refused(EditRefusal::SlotsFull(0x10054)),
    ),
];
