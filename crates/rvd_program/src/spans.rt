ghost use Rattle.std.specs.Prelude.{◌≡◌};
ghost use Rattle.rvd_fact.specs.Memory.{unit_len, block_len};

use rvd_fact::{Form, Value};

/// How many bytes a present unit takes, and 0 for what is none.
pub fn unit_len(value: &Value) -> u32
    ensures { result ≡ unit_len value.now }
{
    match value {
        Value::Code(_) => 4,
        Value::Plain(Form::Byte) => 1,
        Value::Plain(Form::Half) => 2,
        Value::Plain(Form::Word) => 4,
        Value::Plain(Form::Str(n)) => u32::from(*n),
        _ => 0,
    }
}

/// How many bytes a block has, and 0 for what is none.
pub fn block_len(value: &Value) -> u32
    ensures { result ≡ block_len value.now }
{
    match value {
        Value::Block { len, .. } => *len,
        _ => 0,
    }
}
