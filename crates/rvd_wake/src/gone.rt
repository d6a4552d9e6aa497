ghost use Rattle.std.specs.Prelude.{◌≡◌};
ghost use Rattle.rvd_ask.specs.Wake.{bytes_gone, gone_from as gone_by, is_unit_of, same_form, same_unit, stood_on};

use rvd_fact::{Cell, Change, Form, Value};

/// How many bytes go from a unit's address on by a change of it: those of its present unit, or one where it was Gone, and
/// 0 where it stays.
pub fn gone_from(change: &Change) -> u32
    ensures { result ≡ gone_by change.now }
{
    bytes_gone(&change.before, &change.after)
}

fn bytes_gone(before: &Option<Cell>, after: &Option<Cell>) -> u32
    ensures { result ≡ bytes_gone before.now after.now }
{
    match before {
        None => 0,
        Some(cell) if is_unit_of(&cell.value, after) => 0,
        Some(cell) => stood_on(&cell.value),
    }
}

fn is_unit_of(value: &Value, cell: &Option<Cell>) -> bool
    ensures { result ≡ is_unit_of value.now cell.now }
{
    match cell {
        None => false,
        Some(cell) => same_unit(value, &cell.value),
    }
}

// Whether two values of units, or two Gone, are one.
fn same_unit(a: &Value, b: &Value) -> bool
    ensures { result ≡ same_unit a.now b.now }
{
    match (a, b) {
        (Value::Code(v), Value::Code(w)) => *v == *w,
        (Value::Plain(f), Value::Plain(g)) => same_form(*f, *g),
        (Value::Gone, Value::Gone) => true,
        _ => false,
    }
}

fn same_form(a: Form, b: Form) -> bool
    ensures { result ≡ same_form a b }
{
    match (a, b) {
        (Form::Byte, Form::Byte) => true,
        (Form::Half, Form::Half) => true,
        (Form::Word, Form::Word) => true,
        (Form::Str(m), Form::Str(n)) => m == n,
        _ => false,
    }
}

// How many bytes a unit's value stands on.
fn stood_on(value: &Value) -> u32
    ensures { result ≡ stood_on value.now }
{
    match value {
        Value::Gone => 1,
        Value::Code(_) => 4,
        Value::Plain(Form::Byte) => 1,
        Value::Plain(Form::Half) => 2,
        Value::Plain(Form::Word) => 4,
        Value::Plain(Form::Str(n)) => u32::from(*n),
        _ => 0,
    }
}
