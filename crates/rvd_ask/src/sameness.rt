ghost use Rattle.std.specs.Prelude.{◌≡◌, ◌↔◌, length, IsTrue};
ghost use Rattle.rvd_ask.specs.Answers.{IsSame, plain_cell, plain_value};

use crate::answers::{Answer, RefList};
use rvd_fact::{Addr, Bytes, Cell, RefClass, Value};

/// Whether two answers are the same. The bytes of an initialised block are left aside, since no change touches them.
pub fn same(a: &Answer, b: &Answer) -> bool
    ensures { IsTrue result ↔ IsSame a.now b.now }
{
    match (a, b) {
        (Answer::Cell(a), Answer::Cell(b)) => same_cells(a, b),
        (Answer::At(a), Answer::At(b)) => *a == *b,
        (Answer::Bytes(a), Answer::Bytes(b)) => same_bytes(a, b),
        (Answer::Yes(a), Answer::Yes(b)) => *a == *b,
        (Answer::Refs(a), Answer::Refs(b)) => same_refs(a.list(), b.list()),
        _ => false,
    }
}

fn same_cells(a: &Option<Cell>, b: &Option<Cell>) -> bool
    ensures { IsTrue result ↔ (plain_cell a.now ≡ plain_cell b.now) }
{
    match (a, b) {
        (None, None) => true,
        (Some(a), Some(b)) => a.source == b.source && same_value(&a.value, &b.value),
        _ => false,
    }
}

fn same_value(a: &Value, b: &Value) -> bool
    ensures { IsTrue result ↔ (plain_value a.now ≡ plain_value b.now) }
{
    match (a, b) {
        (
            Value::Block {
                len: l,
                perm: p,
                bytes: x,
            },
            Value::Block {
                len: m,
                perm: q,
                bytes: y,
            },
        ) => *l == *m && *p == *q && x.is_some() == y.is_some(),
        (Value::Mark, Value::Mark) => true,
        (Value::Func, Value::Func) => true,
        (Value::Body(s), Value::Body(t)) => same_ranges(s.ranges(), t.ranges()),
        (Value::Symbol(s), Value::Symbol(t)) => same_list(s.list(), t.list()),
        (Value::Comment(s), Value::Comment(t)) => same_list(s.list(), t.list()),
        (Value::Bookmark(s), Value::Bookmark(t)) => same_list(s.list(), t.list()),
        (Value::Code(v), Value::Code(w)) => *v == *w,
        (Value::Plain(f), Value::Plain(g)) => *f == *g,
        (Value::Ref { to: t, class: c }, Value::Ref { to: u, class: d }) => *t == *u && *c == *d,
        (Value::Gone, Value::Gone) => true,
        _ => false,
    }
}

fn same_bytes(a: &Option<Bytes>, b: &Option<Bytes>) -> bool
    ensures { IsTrue result ↔ (a.now ≡ b.now) }
{
    match (a, b) {
        (None, None) => true,
        (Some(a), Some(b)) => same_list(a.list(), b.list()),
        _ => false,
    }
}

fn same_list(a: &[u8], b: &[u8]) -> bool
    ensures { IsTrue result ↔ (a.now ≡ b.now) }
{
    a == b
}

fn same_ranges(a: &[(Addr, Addr)], b: &[(Addr, Addr)]) -> bool
    ensures { IsTrue result ↔ (a.now ≡ b.now) }
{
    a == b
}

fn same_refs(a: &[(u8, RefClass, Addr)], b: &[(u8, RefClass, Addr)]) -> bool
    ensures { IsTrue result ↔ (a.now ≡ b.now) }
{
    a.len() == b.len() && same_elements(a, b)
}

fn same_elements(a: &[(u8, RefClass, Addr)], b: &[(u8, RefClass, Addr)]) -> bool
    requires { length a.now ≡ length b.now }
    ensures { IsTrue result ↔ (a.now ≡ b.now) }
{
    for index in 0..a.len() {
        if !same_ref(a[index], b[index]) {
            return false;
        }
    }
    true
}

fn same_ref(a: (u8, RefClass, Addr), b: (u8, RefClass, Addr)) -> bool
    ensures { IsTrue result ↔ (a ≡ b) }
{
    a.0 == b.0 && a.1 == b.1 && a.2 == b.2
}

#[cfg(test)]
mod tests {
    use super::*;
    use rvd_fact::{Perm, Source, Text};
    use std::alloc::{AllocError, Global};
    use std::test::Fail;

    fn block(alloc: Global, len: u32, byte: u8) -> Result<Answer, AllocError> {
        let bytes = Vec::from_array(alloc, [byte])?;
        let value = Value::Block {
            len,
            perm: Perm {
                r: true,
                w: false,
                x: true,
            },
            bytes: Some(Bytes::of(alloc, bytes)?),
        };
        let source = Source::Imported;
        Ok(Answer::Cell(Some(Cell { value, source })))
    }

    fn comment(alloc: Global, source: Source) -> Result<Answer, AllocError> {
        let text = Vec::from_array(alloc, *b"loop")?;
        let value = Value::Comment(Text::of(alloc, text)?);
        Ok(Answer::Cell(Some(Cell { value, source })))
    }

    fn call(alloc: Global, to: Addr) -> Result<Answer, AllocError> {
        let refs = Vec::from_array(alloc, [(0u8, RefClass::Call, to)])?;
        Ok(Answer::Refs(RefList::of(alloc, refs)?))
    }

    #[test]
    fn answers_are_the_same_by_their_parts(rt: HostRuntime) -> Result<(), Fail> {
        let alloc = rt.alloc();
        let user = Source::UserDefined;
        for (a, b, are_same, row) in [
            (block(alloc, 1, 19)?, block(alloc, 1, 0)?, true, "bytes"),
            (block(alloc, 1, 19)?, block(alloc, 2, 19)?, false, "lengths"),
            (comment(alloc, user)?, comment(alloc, user)?, true, "texts"),
            (
                comment(alloc, user)?,
                comment(alloc, Source::Analysis)?,
                false,
                "sources",
            ),
            (call(alloc, 8)?, call(alloc, 8)?, true, "references"),
            (call(alloc, 8)?, call(alloc, 12)?, false, "targets"),
            (Answer::At(None), Answer::Bytes(None), false, "forms"),
        ] {
            assert_eq!(rt; same(&a, &b), are_same, "{row}");
        }
        Ok(())
    }
}
