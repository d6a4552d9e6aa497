ghost use Rattle.std.specs.Prelude.{◌≡◌, ◌<◌, ◌++◌, length, true, IfOk, IfErr, Ok, Err, None, OnOk};
ghost use Rattle.std.specs.Int.{from_le_bytes, w32};
ghost use Rattle.rvd_fact.specs.declared.values.Value.TheVariants.{Block};
ghost use Rattle.rvd_fact.specs.Valid.{Fits};
ghost use Rattle.rvd_event.specs.Edits.{is_edit};
ghost use Rattle.rvd_edit.specs.Changes.{IsFew, SetsNoAnalysis};
ghost use Rattle.rvd_edit.specs.Steps.{Gives, GivesBy, IfRefused};
ghost use Rattle.rvd_edit.specs.Edits.{block_edit, body_edit, clear_edit, code_edit, data_edit, edit_of, entry_edit, form_size, further_of_fact, has_memory, has_text, label_edit, note_edit, ref_edit, release_edit, remove_edit};

use crate::changing::{dropped, just, push_further, push_further_of_unit, removed, set};
use crate::edit_error::EditError;
use crate::slots::{FIRST_ANALYST_SLOT, check_no_name, check_no_target, find_free_slot, slot_key};
use crate::spaces::{
    check_aligned, check_decoded, check_gone, check_in_memory, check_in_one_block, check_in_space,
    check_no_block_met, check_no_unit_met, check_not_there, check_one_block_more, check_there,
    form_len, key_at, read_stored,
};
use rvd_event::Edit;
use rvd_fact::{Addr, Change, Form, Key, Kind, Perm, RangeSet, RefClass, Text, Value};
use rvd_program::Program;
use std::alloc::{AllocError, Global};

fn uninitialised(len: u32, perm: Perm) -> Value
    ensures { result ≡ Block len perm None }
{
    Value::Block {
        len,
        perm,
        bytes: None,
    }
}

// An uninitialised block.
#[tactic(auto, unfolding(crate::specs::Edits::block_edit))]
fn block_changes(
    alloc: Global,
    program: &Program,
    at: Addr,
    len: u32,
    perm: Perm,
) -> Result<Vec<Change>, EditError>
    ensures { Gives result (block_edit program.now at len perm) }
{
    check_in_space(at, len)?;
    check_no_block_met(program, at, len)?;
    check_one_block_more(program)?;
    let value = uninitialised(len, perm);
    Ok(just(alloc, set(program, key_at(at, Kind::Block), value)?)?)
}

// An entry point, or a function.
#[tactic(auto, unfolding(crate::specs::Edits::entry_edit))]
fn entry_changes(
    alloc: Global,
    program: &Program,
    kind: Kind,
    at: Addr,
    value: Value,
) -> Result<Vec<Change>, EditError>
    ensures { Gives result (entry_edit program.now kind at value) }
{
    let key = key_at(at, kind);
    check_aligned(at, 4)?;
    check_in_memory(program, at)?;
    check_not_there(program, key)?;
    Ok(just(alloc, set(program, key, value)?)?)
}

// The addresses of a function.
#[tactic(auto, unfolding(crate::specs::Edits::body_edit))]
fn body_changes(
    alloc: Global,
    program: &Program,
    at: Addr,
    ranges: &RangeSet,
) -> Result<Vec<Change>, EditError>
    ensures { Gives result (body_edit program.now at ranges.now) }
{
    check_there(program, key_at(at, Kind::Func))?;
    let value = Value::Body(ranges.copy()?);
    Ok(just(alloc, set(program, key_at(at, Kind::Body), value)?)?)
}

// A name.
#[tactic(auto, unfolding(crate::specs::Edits::label_edit))]
fn label_changes(
    alloc: Global,
    program: &Program,
    at: Addr,
    name: &Text,
) -> Result<Vec<Change>, EditError>
    ensures { Gives result (label_edit program.now at name.now) }
{
    check_no_name(program, at, name)?;
    let slot = find_free_slot(program, Kind::Symbol, at, 0)?;
    let value = Value::Symbol(name.copy()?);
    Ok(just(
        alloc,
        set(program, slot_key(Kind::Symbol, at, slot), value)?,
    )?)
}

// A reference.
#[tactic(auto, unfolding(crate::specs::Edits::ref_edit))]
fn ref_changes(
    alloc: Global,
    program: &Program,
    from: Addr,
    to: Addr,
    class: RefClass,
) -> Result<Vec<Change>, EditError>
    ensures { Gives result (ref_edit program.now from to class) }
{
    check_in_memory(program, from)?;
    check_no_target(program, from, to, class)?;
    let slot = find_free_slot(program, Kind::Ref, from, FIRST_ANALYST_SLOT)?;
    let value = Value::Ref { to, class };
    Ok(just(alloc, set(program, slot_key(Kind::Ref, from, slot), value)?)?)
}

// A comment or a bookmark.
#[tactic(auto, unfolding(crate::specs::Edits::note_edit))]
fn note_changes(
    alloc: Global,
    program: &Program,
    key: Key,
    value: Value,
) -> Result<Vec<Change>, EditError>
    ensures { Gives result (note_edit program.now key value) }
{
    check_in_memory(program, key.at)?;
    Ok(just(alloc, set(program, key, value)?)?)
}

// The word of four bytes, the lowest first.
fn word_of(four: &[u8]) -> u32
    requires { length four.now ≡ 4 }
    ensures { result ≡ from_le_bytes w32 four.now }
{
    u32::from_le_bytes([four[0], four[1], four[2], four[3]])
}

// An instruction.
#[tactic(auto, unfolding(crate::specs::Edits::code_edit))]
fn code_changes(alloc: Global, program: &Program, at: Addr) -> Result<Vec<Change>, EditError>
    ensures { Gives result (code_edit program.now at) }
{
    check_aligned(at, 4)?;
    check_in_one_block(program, at, 4)?;
    let four = read_stored(alloc, program, at, 4)?;
    check_no_unit_met(program, at, 4)?;
    let word = word_of(four.list());
    check_decoded(word)?;
    Ok(just(
        alloc,
        set(program, key_at(at, Kind::Unit), Value::Code(word))?,
    )?)
}

// Of what the address of a data unit is a multiple.
fn form_size(form: Form) -> u32
    ensures size { result ≡ form_size form }
    ensures positive { 0 < result }
{
    match form {
        Form::Half => 2,
        Form::Word => 4,
        _ => 1,
    }
}

// Refuses a string in an uninitialised block.
fn check_has_text(alloc: Global, program: &Program, at: Addr, form: Form) -> Result<(), EditError>
    ensures { GivesBy (λ u. u) result (has_text program.now at form) }
{
    if let Form::Str(len) = form {
        let _ = read_stored(alloc, program, at, len)?;
    }
    Ok(())
}

// Refuses a data unit whose bytes don't lie in one block, and a string in an uninitialised one.
#[tactic(auto, unfolding(crate::specs::Edits::has_memory))]
fn check_has_memory(alloc: Global, program: &Program, at: Addr, form: Form) -> Result<(), EditError>
    ensures { GivesBy (λ u. u) result (has_memory program.now at form) }
{
    check_in_one_block(program, at, form_len(form))?;
    check_has_text(alloc, program, at, form)
}

// A data unit.
#[tactic(auto, unfolding(crate::specs::Edits::data_edit))]
fn data_changes(
    alloc: Global,
    program: &Program,
    at: Addr,
    form: Form,
) -> Result<Vec<Change>, EditError>
    ensures { Gives result (data_edit program.now at form) }
{
    check_aligned(at, form_size(form))?;
    check_has_memory(alloc, program, at, form)?;
    check_no_unit_met(program, at, form_len(form))?;
    Ok(just(
        alloc,
        set(program, key_at(at, Kind::Unit), Value::Plain(form))?,
    )?)
}

// The unit goes, and of an instruction what analysis made of it.
#[tactic(auto, unfolding(crate::specs::Edits::clear_edit))]
fn clear_changes(alloc: Global, program: &Program, at: Addr) -> Result<Vec<Change>, EditError>
    ensures { Gives result (clear_edit program.now at) }
{
    let key = key_at(at, Kind::Unit);
    check_there(program, key)?;
    let mut changes = just(alloc, removed(program, key)?)?;
    push_further_of_unit(&mut changes, program, at)?;
    Ok(changes)
}

// Appends the change by which the body of a function goes that analysis made.
fn push_further_of_fact(
    changes: &mut Vec<Change>,
    program: &Program,
    kind: Kind,
    at: Addr,
) -> Result<(), AllocError>
    ensures { OnOk result (changes.new.items ≡ changes.old.items ++ further_of_fact program.now kind at) }
{
    if kind == Kind::Func {
        push_further(changes, program, key_at(at, Kind::Body))?;
    }
    Ok(())
}

// A fact goes, and of a function the body that analysis made.
#[tactic(auto, unfolding(crate::specs::Edits::remove_edit))]
fn remove_changes(
    alloc: Global,
    program: &Program,
    kind: Kind,
    at: Addr,
    sub: u8,
) -> Result<Vec<Change>, EditError>
    ensures { Gives result (remove_edit program.now kind at sub) }
{
    let key = slot_key(kind, at, sub);
    check_there(program, key)?;
    let mut changes = just(alloc, removed(program, key)?)?;
    push_further_of_fact(&mut changes, program, kind, at)?;
    Ok(changes)
}

// What a deleted fact left behind goes.
#[tactic(auto, unfolding(crate::specs::Edits::release_edit))]
fn release_changes(alloc: Global, program: &Program, key: Key) -> Result<Vec<Change>, EditError>
    ensures { Gives result (release_edit program.now key) }
{
    check_gone(program, key)?;
    Ok(just(alloc, dropped(program, key)?)?)
}

fn list_changes(alloc: Global, program: &Program, edit: &Edit) -> Result<Vec<Change>, EditError>
    ensures { Gives result (edit_of program.now edit.now) }
{
    match edit {
        Edit::Block(at, len, perm) => block_changes(alloc, program, *at, *len, *perm),
        Edit::Mark(at) => entry_changes(alloc, program, Kind::Mark, *at, Value::Mark),
        Edit::Func(at) => entry_changes(alloc, program, Kind::Func, *at, Value::Func),
        Edit::Body(at, ranges) => body_changes(alloc, program, *at, ranges),
        Edit::Label(at, name) => label_changes(alloc, program, *at, name),
        Edit::Ref(from, to, class) => ref_changes(alloc, program, *from, *to, *class),
        Edit::Comment(at, sub, text) => {
            let value = Value::Comment(text.copy()?);
            note_changes(alloc, program, slot_key(Kind::Comment, *at, *sub), value)
        }
        Edit::Bookmark(at, sub, text) => {
            let value = Value::Bookmark(text.copy()?);
            note_changes(alloc, program, slot_key(Kind::Bookmark, *at, *sub), value)
        }
        Edit::Code(at) => code_changes(alloc, program, *at),
        Edit::Datum(at, form) => data_changes(alloc, program, *at, *form),
        Edit::Clear(at) => clear_changes(alloc, program, *at),
        Edit::Remove(kind, at, sub) => remove_changes(alloc, program, *kind, *at, *sub),
        Edit::Release(kind, at, sub) => {
            release_changes(alloc, program, slot_key(*kind, *at, *sub))
        }
    }
}

/// The changes of an edit, in order, each with the cell that stands at its key at its turn; or why the edit
/// is refused: the first of its refusals in their order. Only want of memory may come at any time.
pub fn changes_of(alloc: Global, program: &Program, edit: &Edit) -> Result<Vec<Change>, EditError>
    ensures changes { IfOk result (λ changes. edit_of program.now edit.now ≡ Ok changes.items) }
    ensures refused { IfErr result (λ error. IfRefused error (λ refusal. edit_of program.now edit.now ≡ Err refusal)) }
    ensures fits { IfOk result (λ changes. is_edit edit.now ≡ true → Fits program.now changes.items) }
    ensures analysis { IfOk result (λ changes. SetsNoAnalysis changes.items) }
    ensures few { IfOk result (λ changes. IsFew changes.items) }
{
    // Reading a program tells that it is valid, so that the changes fit it.
    let _entries = program.entries();
    list_changes(alloc, program, edit)
}
