ghost use Rattle.std.specs.Prelude.{◌≡◌, ◌==◌, ◌&&◌, length};
ghost use Rattle.rvd_fact.specs.Order.{rank};
ghost use Rattle.rvd_fact.specs.Ranges.{is_range_set};
ghost use Rattle.rvd_fact.specs.Valid.{is_of, top_sub, is_address, are_bytes, is_text, has_bytes, is_whole, may_stand, suits};
ghost use Rattle.rvd_program.specs.Checks.{may_be};

use rvd_fact::{Addr, Bytes, Cell, Form, Key, Kind, RangeSet, Source, Value};

const END_OF_ADDRESSES: u64 = 0x1_0000_0000;

/// Whether what is put at a key, a cell or none, may stand there.
pub fn may_be(key: Key, cell: &Option<Cell>) -> bool
    ensures { result ≡ may_be key cell.now }
{
    match cell {
        None => true,
        Some(cell) => suits(key, cell),
    }
}

fn suits(key: Key, cell: &Cell) -> bool
    ensures { result ≡ suits key cell.now }
{
    is_of(key.kind, &cell.value)
        && is_address(key.at)
        && key.sub <= top_sub(key.kind)
        && is_whole(key.at, &cell.value)
        && may_stand(cell.source, &cell.value)
}

/// The place of a kind in their order.
pub fn rank(kind: Kind) -> u8
    ensures { result ≡ rank kind }
{
    match kind {
        Kind::Block => 0,
        Kind::Mark => 1,
        Kind::Func => 2,
        Kind::Body => 3,
        Kind::Symbol => 4,
        Kind::Comment => 5,
        Kind::Bookmark => 6,
        Kind::Unit => 7,
        Kind::Ref => 8,
    }
}

fn is_of(kind: Kind, value: &Value) -> bool
    ensures { result ≡ is_of kind value.now }
{
    let own = match value {
        Value::Block { .. } => Kind::Block,
        Value::Mark => Kind::Mark,
        Value::Func => Kind::Func,
        Value::Body(_) => Kind::Body,
        Value::Symbol(_) => Kind::Symbol,
        Value::Comment(_) => Kind::Comment,
        Value::Bookmark(_) => Kind::Bookmark,
        Value::Code(_) => Kind::Unit,
        Value::Plain(_) => Kind::Unit,
        Value::Ref { .. } => Kind::Ref,
        Value::Gone => return rank(kind) != rank(Kind::Block),
    };
    rank(kind) == rank(own)
}

fn top_sub(kind: Kind) -> u8
    ensures { result ≡ top_sub kind }
{
    match kind {
        Kind::Symbol => 63,
        Kind::Comment => 4,
        Kind::Bookmark => 4,
        Kind::Ref => 63,
        _ => 0,
    }
}

fn is_whole(at: Addr, value: &Value) -> bool
    ensures { result ≡ is_whole at value.now }
{
    match value {
        Value::Block { len, bytes, .. } => {
            *len > 0
                && u64::from(at) + u64::from(*len) <= END_OF_ADDRESSES
                && has_bytes(*len, bytes)
        }
        Value::Body(set) => is_range_set(set),
        Value::Symbol(name) => is_text(name.list()),
        Value::Comment(text) => is_text(text.list()),
        Value::Bookmark(text) => is_text(text.list()),
        Value::Plain(Form::Str(n)) => 1 <= *n && *n <= 256,
        Value::Ref { to, .. } => is_address(*to),
        _ => true,
    }
}

// A number of this type is an address.
fn is_address(at: Addr) -> bool
    ensures { result ≡ is_address at }
{
    u64::from(at) < END_OF_ADDRESSES
}

// A set of ranges is one by its type.
fn is_range_set(set: &RangeSet) -> bool
    ensures { result ≡ is_range_set set.now }
{
    let _ranges = set.ranges();
    true
}

fn is_text(list: &[u8]) -> bool
    ensures { result ≡ is_text list.now }
{
    list.len() <= 1000
}

fn has_bytes(len: u32, bytes: &Option<Bytes>) -> bool
    ensures { result ≡ has_bytes len bytes.now }
{
    match bytes {
        None => true,
        Some(bytes) => has_len(bytes.list(), len),
    }
}

fn has_len(list: &[u8], len: u32) -> bool
    ensures { result ≡ ((length list.now == len) && are_bytes list.now) }
{
    list.len() as u64 == u64::from(len)
}

fn may_stand(source: Source, value: &Value) -> bool
    ensures { result ≡ may_stand source value.now }
{
    match (source, value) {
        (Source::Default, _) => false,
        (Source::UserDefined, _) => true,
        (_, Value::Gone) => false,
        _ => true,
    }
}
