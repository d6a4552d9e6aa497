ghost use Rattle.std.specs.Prelude.{◌≡◌, ◌^◌, ◌<◌, true, false};
ghost use Rattle.std.specs.List.{All, AllByRecursion, list_all};
ghost use Rattle.rvd_event.specs.Verdicts.{has_forms};
ghost use Rattle.rvd_fact.specs.Ranges.{is_range_set};
ghost use Rattle.rvd_reading.specs.Facts.{FitsForm};
ghost use Rattle.rvd_reading.specs.Values.{FitsValue};
ghost use Rattle.rvd_journal_reading.specs.Asks.{FitsAsk};
ghost use Rattle.rvd_journal_reading.specs.Answers.{FitsAnswer, FitsReference};
ghost use Rattle.rvd_journal_reading.specs.Refusals.{FitsEditRefusal, FitsRefusal};
ghost use Rattle.rvd_journal_reading.specs.Verdicts.{FitsVerdict};
ghost use Rattle.rvd_line_reading.specs.Replies.{FitsItem, FitsReply, are_formed};
ghost use Rattle.rvd_line_reading.specs.Edits.{FitsEdit, FitsText};
ghost use Rattle.rvd_line_reading.specs.Events.{FitsEvent};
ghost use Rattle.rvd_line_reading.specs.Lines.{FitsSettled, IsInRange, is_actor};

use rvd_ask::{Answer, Ask, Item};
use rvd_event::{Edit, EditRefusal, Event, Names, Refusal, Reply, Verdict};
use rvd_fact::{Addr, Form, RangeSet, RefClass, Text, Value};
use rvd_journal::Entry;

// What the types of an entry's parts keep is said here as the ranges of a line's parts. The functions without a result change
// nothing.

fn small_in_range(n: u8)
    ensures { n < 256 }
{
    let _ = n;
}

fn word_in_range(n: u32)
    ensures { n < 2 ^ 32 }
{
    let _ = n;
}

fn bytes_in_range(list: &[u8])
    ensures each { AllByRecursion (λ b. b < 256) list.now }
    ensures all { All (λ b. b < 256) list.now }
{
    let _ = list;
}

fn text_in_range(text: &Text)
    ensures { FitsText text.now }
{
    bytes_in_range(text.list());
}

fn set_in_range(set: &RangeSet)
    ensures { is_range_set set.now ≡ true }
{
    let _ranges = set.ranges();
}

fn value_in_range(value: &Value)
    ensures { FitsValue value.now }
{
    match value {
        Value::Block { len, .. } => {
            let _len = *len;
        }
        Value::Body(set) => set_in_range(set),
        Value::Symbol(name) => text_in_range(name),
        Value::Comment(text) => text_in_range(text),
        Value::Bookmark(text) => text_in_range(text),
        Value::Code(word) => {
            let _word = *word;
        }
        Value::Plain(form) => form_in_range(*form),
        Value::Ref { to, .. } => {
            let _to = *to;
        }
        Value::Mark | Value::Func | Value::Gone => {}
    }
}

fn form_in_range(form: Form)
    ensures { FitsForm form }
{
    if let Form::Str(len) = form {
        let _len = len;
    }
}

fn ask_in_range(ask: Ask)
    ensures { FitsAsk ask }
{
    match ask {
        Ask::Cell(key) => {
            let _at = key.at;
            let _sub = key.sub;
        }
        Ask::Cover(at) | Ask::Block(at) | Ask::To(at, _) | Ask::From(at) => {
            let _at = at;
        }
        Ask::Bytes(at, len) => {
            let _at = at;
            let _len = len;
        }
    }
}

fn references_in_range(list: &[(u8, RefClass, Addr)])
    ensures { AllByRecursion FitsReference list.now }
{
    for (slot, _, to) in list {
        small_in_range(*slot);
        word_in_range(*to);
    }
}

fn answer_in_range(answer: &Answer)
    ensures { FitsAnswer answer.now }
{
    match answer {
        Answer::Cell(Some(cell)) => value_in_range(&cell.value),
        Answer::At(Some(at)) => {
            let _at = *at;
        }
        Answer::Bytes(Some(bytes)) => bytes_in_range(bytes.list()),
        Answer::Refs(refs) => references_in_range(refs.list()),
        _ => {}
    }
}

fn verdict_in_range(verdict: &Verdict)
    ensures { FitsVerdict verdict.now }
{
    match verdict {
        Verdict::Joined(changes) => {
            let _changes = *changes;
        }
        Verdict::Nothing | Verdict::Off => {}
        Verdict::Stale { ask, was, now } => {
            ask_in_range(*ask);
            answer_in_range(was);
            answer_in_range(now);
        }
        Verdict::Foreign { ask, said, was } => {
            ask_in_range(*ask);
            answer_in_range(said);
            answer_in_range(was);
        }
    }
}

fn verdicts_in_range(list: &[Verdict])
    ensures { AllByRecursion FitsVerdict list.now }
{
    for verdict in list {
        verdict_in_range(verdict);
    }
}

fn items_in_range(list: &[Item])
    ensures { AllByRecursion FitsItem list.now }
{
    for item in list {
        word_in_range(item.at);
    }
}

fn edit_refusal_in_range(refusal: EditRefusal)
    ensures { FitsEditRefusal refusal }
{
    match refusal {
        EditRefusal::BlocksFull => {}
        EditRefusal::NoSuch(key) | EditRefusal::Present(key) => {
            let _at = key.at;
            let _sub = key.sub;
        }
        EditRefusal::LeavesSpace(at)
        | EditRefusal::BlockOverlap(at)
        | EditRefusal::Unaligned(at)
        | EditRefusal::NoBlock(at)
        | EditRefusal::NoBytes(at)
        | EditRefusal::Overlap(at)
        | EditRefusal::BadInstruction(at)
        | EditRefusal::SlotsFull(at) => {
            let _at = at;
        }
    }
}

fn refusal_in_range(refusal: Refusal)
    ensures { FitsRefusal refusal }
{
    match refusal {
        Refusal::TransactionOpen(count) | Refusal::HasEntry(count) | Refusal::Misfit(count) => {
            let _count = count;
        }
        Refusal::Cancelled(ticket) => {
            let _ticket = ticket;
        }
        Refusal::Edit(refusal) => edit_refusal_in_range(refusal),
        _ => {}
    }
}

/// The parts of a reply are in their ranges.
fn reply_in_range(reply: &Reply)
    ensures { FitsReply reply.now }
{
    match reply {
        Reply::Entry(n)
        | Reply::Committed(n)
        | Reply::StepNo(n)
        | Reply::At(n)
        | Reply::SettledAt(n) => {
            let _n = *n;
        }
        Reply::Changed(n) | Reply::Waiting(n) | Reply::Closed(n) => {
            let _n = *n;
        }
        Reply::Job(ticket, items) => {
            let _ticket = *ticket;
            items_in_range(items.list());
        }
        Reply::Verdicts(verdicts) => verdicts_in_range(verdicts.list()),
        Reply::Refused(refusal) => refusal_in_range(*refusal),
        Reply::RolledBack | Reply::Voided => {}
    }
}

/// The parts of an edit are in their ranges.
fn edit_in_range(edit: &Edit)
    ensures { FitsEdit edit.now }
{
    match edit {
        Edit::Block(at, len, _) => {
            let _at = *at;
            let _len = *len;
        }
        Edit::Mark(at) | Edit::Func(at) | Edit::Code(at) | Edit::Clear(at) => {
            let _at = *at;
        }
        Edit::Body(at, ranges) => {
            let _at = *at;
            set_in_range(ranges);
        }
        Edit::Label(at, name) => {
            let _at = *at;
            text_in_range(name);
        }
        Edit::Ref(from, to, _) => {
            let _from = *from;
            let _to = *to;
        }
        Edit::Comment(at, sub, text) | Edit::Bookmark(at, sub, text) => {
            let _at = *at;
            let _sub = *sub;
            text_in_range(text);
        }
        Edit::Datum(at, form) => {
            let _at = *at;
            form_in_range(*form);
        }
        Edit::Remove(_, at, sub) | Edit::Release(_, at, sub) => {
            let _at = *at;
            let _sub = *sub;
        }
    }
}

/// The parts of an event are in their ranges.
fn event_in_range(event: &Event)
    ensures { FitsEvent event.now }
{
    match event {
        Event::Begin(text) => text_in_range(text),
        Event::Edit(edit) => edit_in_range(edit),
        Event::Take(items) => {
            let _items = *items;
        }
        Event::Offer(ticket) => {
            let _ticket = *ticket;
        }
        _ => {}
    }
}

/// The number of a step is in its range.
fn settled_in_range(settled: Option<u64>)
    ensures { FitsSettled settled }
{
    if let Some(step) = settled {
        let _step = step;
    }
}

/// Whether each answer of verdicts has the form of its ask.
fn have_forms(list: &[Verdict]) -> bool
    ensures { result ≡ list_all has_forms list.now }
{
    for verdict in list {
        if !verdict.has_forms() {
            return false;
        }
    }
    true
}

/// Whether each answer of a reply's verdicts has the form of its ask.
fn are_formed(reply: &Reply) -> bool
    ensures { result ≡ are_formed reply.now }
{
    match reply {
        Reply::Verdicts(verdicts) => have_forms(verdicts.list()),
        _ => true,
    }
}

/// Whether an actor is a session or a worker.
fn is_actor(names: Names, actor: u32) -> bool
    ensures { result ≡ is_actor names actor }
{
    0 < actor && u64::from(actor) <= u64::from(names.sessions) + u64::from(names.workers)
}

/// Whether an entry is one of a session or a worker, whose verdicts' answers have the forms of their asks.
pub fn is_in_range(names: Names, entry: &Entry) -> bool
    ensures yes { result ≡ true → IsInRange names entry.now }
    ensures no { result ≡ false → IsInRange names entry.now → ⊥ }
{
    event_in_range(&entry.event);
    reply_in_range(&entry.reply);
    settled_in_range(entry.settled);
    let known = is_actor(names, entry.actor);
    let formed = are_formed(&entry.reply);
    known && formed
}
