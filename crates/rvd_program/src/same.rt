ghost use Rattle.std.specs.Prelude.{◌≡◌, ◌↔◌, IsTrue};
ghost use Rattle.std.specs.Option.{option_copied};

use rvd_fact::{Addr, Bytes, Cell, Value};

/// Whether what stands at a key, a cell or none, is equal to another.
pub fn same_cells(a: Option<&Cell>, b: &Option<Cell>) -> bool
    ensures { IsTrue result ↔ (option_copied a.entry ≡ b.now) }
{
    match (a, b) {
        (None, None) => true,
        (Some(a), Some(b)) => same_cell(a, b),
        _ => false,
    }
}

fn same_cell(a: &Cell, b: &Cell) -> bool
    ensures { IsTrue result ↔ (a.now ≡ b.now) }
{
    a.source == b.source && same_value(&a.value, &b.value)
}

fn same_value(a: &Value, b: &Value) -> bool
    ensures { IsTrue result ↔ (a.now ≡ b.now) }
{
    match (a, b) {
        (
            Value::Block {
                len: l,
                perm: p,
                bytes: x,
            },
            Value::Block {
                len: m,
                perm: q,
                bytes: y,
            },
        ) => *l == *m && *p == *q && same_bytes(x, y),
        (Value::Mark, Value::Mark) => true,
        (Value::Func, Value::Func) => true,
        (Value::Body(s), Value::Body(t)) => same_ranges(s.ranges(), t.ranges()),
        (Value::Symbol(s), Value::Symbol(t)) => same_list(s.list(), t.list()),
        (Value::Comment(s), Value::Comment(t)) => same_list(s.list(), t.list()),
        (Value::Bookmark(s), Value::Bookmark(t)) => same_list(s.list(), t.list()),
        (Value::Code(v), Value::Code(w)) => *v == *w,
        (Value::Plain(f), Value::Plain(g)) => *f == *g,
        (Value::Ref { to: t, class: c }, Value::Ref { to: u, class: d }) => *t == *u && *c == *d,
        (Value::Gone, Value::Gone) => true,
        _ => false,
    }
}

fn same_bytes(a: &Option<Bytes>, b: &Option<Bytes>) -> bool
    ensures { IsTrue result ↔ (a.now ≡ b.now) }
{
    match (a, b) {
        (None, None) => true,
        (Some(a), Some(b)) => same_list(a.list(), b.list()),
        _ => false,
    }
}

fn same_list(a: &[u8], b: &[u8]) -> bool
    ensures { IsTrue result ↔ (a.now ≡ b.now) }
{
    a == b
}

fn same_ranges(a: &[(Addr, Addr)], b: &[(Addr, Addr)]) -> bool
    ensures { IsTrue result ↔ (a.now ≡ b.now) }
{
    a == b
}
