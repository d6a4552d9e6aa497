ghost use Rattle.std.specs.Prelude.{◌≡◌, true};
ghost use Rattle.std.specs.List.{list_all};
ghost use Rattle.rvd_fact.specs.Ranges.{is_range_set};
ghost use Rattle.rvd_fact.specs.Valid.{are_bytes, is_address, is_text};
ghost use Rattle.rvd_journal.specs.Entries.{is_word};
ghost use Rattle.rvd_machine.specs.Ranges.{are_some_bytes, is_answer, is_ask, is_form, is_half, is_key, is_reference, is_small, is_some_address, is_some_cell, is_value, is_verdict};

use rvd_ask::{Answer, Ask};
use rvd_event::Verdict;
use rvd_fact::{Addr, Bytes, Cell, Form, Key, RangeSet, RefClass, Text, Value};

// What the types of a verdict's parts keep is said here as the ranges that a reply owes. None of these functions changes
// anything.

fn small_in_range(n: u8)
    ensures { is_small n ≡ true }
{
    let _ = n;
}

fn half_in_range(n: u16)
    ensures { is_half n ≡ true }
{
    let _ = n;
}

fn word_in_range(n: u32)
    ensures { is_word n ≡ true }
{
    let _ = n;
}

fn address_in_range(at: Addr)
    ensures { is_address at ≡ true }
{
    let _ = at;
}

fn some_address_in_range(at: &Option<Addr>)
    ensures { is_some_address at.now ≡ true }
{
    if let Some(at) = at {
        address_in_range(*at);
    }
}

fn bytes_in_range(list: &[u8])
    ensures { are_bytes list.now ≡ true }
{
    let _ = list;
}

fn text_in_range(text: &Text)
    ensures { is_text text.now ≡ true }
{
    bytes_in_range(text.list());
}

fn some_bytes_in_range(bytes: &Option<Bytes>)
    ensures { are_some_bytes bytes.now ≡ true }
{
    if let Some(bytes) = bytes {
        bytes_in_range(bytes.list());
    }
}

fn set_in_range(set: &RangeSet)
    ensures { is_range_set set.now ≡ true }
{
    let _ranges = set.ranges();
}

fn form_in_range(form: &Form)
    ensures { is_form form.now ≡ true }
{
    if let Form::Str(len) = form {
        half_in_range(*len);
    }
}

fn value_in_range(value: &Value)
    ensures { is_value value.now ≡ true }
{
    match value {
        Value::Block { len, bytes, .. } => {
            word_in_range(*len);
            some_bytes_in_range(bytes);
        }
        Value::Body(set) => set_in_range(set),
        Value::Symbol(name) => text_in_range(name),
        Value::Comment(text) => text_in_range(text),
        Value::Bookmark(text) => text_in_range(text),
        Value::Code(word) => word_in_range(*word),
        Value::Plain(form) => form_in_range(form),
        Value::Ref { to, .. } => address_in_range(*to),
        Value::Mark | Value::Func | Value::Gone => {}
    }
}

fn some_cell_in_range(cell: &Option<Cell>)
    ensures { is_some_cell cell.now ≡ true }
{
    if let Some(cell) = cell {
        value_in_range(&cell.value);
    }
}

fn key_in_range(key: &Key)
    ensures { is_key key.now ≡ true }
{
    address_in_range(key.at);
    small_in_range(key.sub);
}

fn ask_in_range(ask: &Ask)
    ensures { is_ask ask.now ≡ true }
{
    match ask {
        Ask::Cell(key) => key_in_range(key),
        Ask::Cover(at) => address_in_range(*at),
        Ask::Block(at) => address_in_range(*at),
        Ask::Bytes(at, len) => {
            address_in_range(*at);
            half_in_range(*len);
        }
        Ask::To(at, _) => address_in_range(*at),
        Ask::From(at) => address_in_range(*at),
    }
}

fn references_in_range(list: &[(u8, RefClass, Addr)])
    ensures { list_all is_reference list.now ≡ true }
{
    for (slot, _, to) in list {
        small_in_range(*slot);
        address_in_range(*to);
    }
}

fn answer_in_range(answer: &Answer)
    ensures { is_answer answer.now ≡ true }
{
    match answer {
        Answer::Cell(cell) => some_cell_in_range(cell),
        Answer::At(at) => some_address_in_range(at),
        Answer::Bytes(bytes) => some_bytes_in_range(bytes),
        Answer::Yes(_) => {}
        Answer::Refs(refs) => references_in_range(refs.list()),
    }
}

fn verdict_in_range(verdict: &Verdict)
    ensures { is_verdict verdict.now ≡ true }
{
    match verdict {
        Verdict::Joined(changes) => word_in_range(*changes),
        Verdict::Nothing | Verdict::Off => {}
        Verdict::Stale { ask, was, now } => {
            ask_in_range(ask);
            answer_in_range(was);
            answer_in_range(now);
        }
        Verdict::Foreign { ask, said, was } => {
            ask_in_range(ask);
            answer_in_range(said);
            answer_in_range(was);
        }
    }
}

/// The parts of verdicts are in their ranges.
pub(crate) fn verdicts_in_range(list: &[Verdict])
    ensures { list_all is_verdict list.now ≡ true }
{
    for verdict in list {
        verdict_in_range(verdict);
    }
}
