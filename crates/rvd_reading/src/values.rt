ghost use Rattle.std.specs.Prelude.{◌≡◌};
ghost use Rattle.rvd_reading.specs.Steps.{Reads, with_rest};
ghost use Rattle.rvd_reading.specs.Facts.{bookmark_type_of, comment_kind_of};
ghost use Rattle.rvd_reading.specs.Numbers.{number_of};
ghost use Rattle.rvd_reading.specs.Values.{block_of, body_of, bookmark_of, cell_of, code_of, comment_of, gone_of, init_of, plain_of, ref_of, symbol_of, text_behind, value_of};

use crate::errors::{ReadError, Unread};
use crate::facts::{bookmark_type, comment_kind, form, perm};
use crate::fixed_words::{class, kind, source};
use crate::numbers::{hex8, number};
use crate::quotes::quoted;
use crate::range_sets::ranges;
use crate::rest::Rest;
use rvd_fact::{Bytes, Cell, Value};
use std::alloc::Global;

fn init(alloc: Global, rest: &mut Rest) -> Result<Option<Bytes>, ReadError>
    ensures { Reads rest.new result (init_of rest.old) }
{
    if rest.strip(b"none") {
        Ok(None)
    } else if rest.strip(b"init") {
        Ok(Some(Bytes::of(alloc, Vec::new(alloc))?))
    } else {
        Err(ReadError::Unread)
    }
}

#[tactic(auto, unfolding(crate::specs::Values::block_of))]
fn block(alloc: Global, rest: &mut Rest) -> Result<Value, ReadError>
    ensures { Reads rest.new result (block_of rest.old) }
{
    let len = hex8(rest)?;
    rest.expect(b" ")?;
    let perm = perm(rest)?;
    rest.expect(b" ")?;
    let bytes = init(alloc, rest)?;
    Ok(Value::Block { len, perm, bytes })
}

#[tactic(auto, unfolding(crate::specs::Values::symbol_of))]
fn symbol(alloc: Global, rest: &mut Rest) -> Result<Value, ReadError>
    ensures { Reads rest.new result (symbol_of rest.old) }
{
    number(rest, 255)?;
    rest.expect(b" ")?;
    Ok(Value::Symbol(quoted(alloc, rest)?))
}

#[tactic(auto, unfolding(crate::specs::Values::comment_of))]
fn comment(alloc: Global, rest: &mut Rest) -> Result<Value, ReadError>
    ensures { Reads rest.new result (comment_of rest.old) }
{
    comment_kind(rest)?;
    rest.expect(b" ")?;
    Ok(Value::Comment(quoted(alloc, rest)?))
}

#[tactic(auto, unfolding(crate::specs::Values::bookmark_of))]
fn bookmark(alloc: Global, rest: &mut Rest) -> Result<Value, ReadError>
    ensures { Reads rest.new result (bookmark_of rest.old) }
{
    bookmark_type(rest)?;
    rest.expect(b" ")?;
    Ok(Value::Bookmark(quoted(alloc, rest)?))
}

#[tactic(auto, unfolding(crate::specs::Values::ref_of))]
fn reference(rest: &mut Rest) -> Result<Value, Unread>
    ensures { ref_of rest.old ≡ with_rest rest.new result }
{
    number(rest, 255)?;
    rest.expect(b" ")?;
    let class = class(rest)?;
    rest.expect(b" ")?;
    let to = hex8(rest)?;
    Ok(Value::Ref { to, class })
}

#[tactic(auto, unfolding(crate::specs::Values::gone_of))]
fn gone(rest: &mut Rest) -> Result<Value, Unread>
    ensures { gone_of rest.old ≡ with_rest rest.new result }
{
    kind(rest)?;
    rest.expect(b" ")?;
    number(rest, 255)?;
    Ok(Value::Gone)
}

#[tactic(auto, unfolding(crate::specs::Values::value_of))]
fn value(alloc: Global, rest: &mut Rest) -> Result<Value, ReadError>
    ensures { Reads rest.new result (value_of rest.old) }
{
    if rest.strip(b"block ") {
        block(alloc, rest)
    } else if rest.strip(b"mark") {
        Ok(Value::Mark)
    } else if rest.strip(b"func") {
        Ok(Value::Func)
    } else if rest.strip(b"body ") {
        Ok(Value::Body(ranges(alloc, rest)?))
    } else if rest.strip(b"symbol ") {
        symbol(alloc, rest)
    } else if rest.strip(b"comment ") {
        comment(alloc, rest)
    } else if rest.strip(b"bookmark ") {
        bookmark(alloc, rest)
    } else if rest.strip(b"code ") {
        Ok(Value::Code(hex8(rest)?))
    } else if rest.strip(b"data ") {
        Ok(Value::Plain(form(rest)?))
    } else if rest.strip(b"ref ") {
        Ok(reference(rest)?)
    } else if rest.strip(b"gone ") {
        Ok(gone(rest)?)
    } else {
        Err(ReadError::Unread)
    }
}

/// A cell: the word of its source and its fact. Of a block's bytes it gives none, since the text tells only whether it has any;
/// and of a slot, a kind or a type by its number nothing, since the cell's key has it.
#[tactic(auto, unfolding(crate::specs::Values::cell_of))]
pub fn cell(alloc: Global, rest: &mut Rest) -> Result<Cell, ReadError>
    ensures { Reads rest.new result (cell_of rest.old) }
{
    let source = source(rest)?;
    rest.expect(b" ")?;
    let value = value(alloc, rest)?;
    Ok(Cell { source, value })
}

#[cfg(test)]
mod tests {
    use super::*;
    use crate::actors::actor;
    use crate::keys::key;
    use rvd_event::Names;
    use std::test::Fail;

    #[test]
    fn a_line_of_parts_is_read(rt: HostRuntime) -> Result<(), Fail> {
        let names = Names {
            sessions: 2,
            workers: 1,
        };
        let mut rest = Rest::of(
            b"w1 func 00010060 0 [user body 00010054-0001005b,00010060-00010063]",
        );
        assert_eq!(rt; actor(&mut rest, names)?, 3);
        rest.expect(b" ")?;
        let key = key(&mut rest)?;
        assert_eq!(rt; (key.at, key.sub), (0x10060, 0));
        rest.expect(b" [")?;
        let cell = cell(rt.alloc(), &mut rest)?;
        let ranges = match &cell.value {
            Value::Body(ranges) => ranges.ranges().len(),
            _ => 0,
        };
        assert_eq!(rt; ranges, 2);
        assert_eq!(rt; rest.bytes(), b"]".as_slice());
        Ok(())
    }
}
