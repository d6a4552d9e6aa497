ghost use Rattle.std.specs.Prelude.{◌≡◌, ◌++◌, [], OnOk, OnErr, codes};
ghost use Rattle.std.specs.Fmt.{decimal};
ghost use Rattle.rvd_fact.specs.Program.{is_gone};
ghost use Rattle.rvd_notation.specs.Pieces.{Keeps};
ghost use Rattle.rvd_query.specs.Counts.{HasRoom, counted, counts_of, counts_text};

use rvd_fact::{Cell, Kind, Value};
use rvd_program::Program;
use rvd_text::push_dec;
use std::alloc::AllocError;

/// How many facts of each kind that is counted are present.
#[derive(Clone, Copy, Debug, PartialEq, Eq)]
pub struct Counts {
    blocks: u64,
    units: u64,
    symbols: u64,
    refs: u64,
    funcs: u64,
    comments: u64,
    bookmarks: u64,
    marks: u64,
}

#[tactic(auto, unfolding(crate::specs::Counts::counts_of))]
fn no_counts() -> Counts
    ensures { result ≡ counts_of [] }
{
    Counts {
        blocks: 0,
        units: 0,
        symbols: 0,
        refs: 0,
        funcs: 0,
        comments: 0,
        bookmarks: 0,
        marks: 0,
    }
}

// Counts one more fact of a kind.
fn count_one(counts: &mut Counts, kind: Kind)
    requires { HasRoom counts.old }
    ensures { counts.new ≡ counted counts.old kind }
{
    match kind {
        Kind::Block => counts.blocks += 1,
        Kind::Mark => counts.marks += 1,
        Kind::Func => counts.funcs += 1,
        Kind::Body => (),
        Kind::Symbol => counts.symbols += 1,
        Kind::Comment => counts.comments += 1,
        Kind::Bookmark => counts.bookmarks += 1,
        Kind::Unit => counts.units += 1,
        Kind::Ref => counts.refs += 1,
    }
}

fn is_gone(cell: &Cell) -> bool
    ensures { result ≡ is_gone cell.now.value }
{
    matches!(cell.value, Value::Gone)
}

/// How many facts of each kind are present in a program, in one pass.
pub fn counts_of(program: &Program) -> Counts
    ensures { result ≡ counts_of program.now }
{
    let mut counts = no_counts();
    let entries = program.entries();
    for entry in entries {
        if !is_gone(entry.1.cell()) {
            count_one(&mut counts, entry.0.kind);
        }
    }
    counts
}

fn push_count(out: &mut Vec<u8>, word: &[u8], count: u64) -> Result<(), AllocError>
    ensures ok { OnOk result (out.new.items ≡ out.old.items ++ (word.now ++ decimal count)) }
    ensures err { OnErr result (Keeps out.old.items out.new.items) }
{
    out.extend_from_slice(word)?;
    push_dec(out, count)
}

fn push_code_counts(out: &mut Vec<u8>, counts: &Counts) -> Result<(), AllocError>
    ensures ok { OnOk result (out.new.items ≡ out.old.items ++ (codes "blocks " ++ decimal counts.now.blocks ++ codes " units " ++ decimal counts.now.units ++ codes " symbols " ++ decimal counts.now.symbols ++ codes " refs " ++ decimal counts.now.refs)) }
    ensures err { OnErr result (Keeps out.old.items out.new.items) }
{
    push_count(out, b"blocks ", counts.blocks)?;
    push_count(out, b" units ", counts.units)?;
    push_count(out, b" symbols ", counts.symbols)?;
    push_count(out, b" refs ", counts.refs)
}

fn push_note_counts(out: &mut Vec<u8>, counts: &Counts) -> Result<(), AllocError>
    ensures ok { OnOk result (out.new.items ≡ out.old.items ++ (codes " funcs " ++ decimal counts.now.funcs ++ codes " comments " ++ decimal counts.now.comments ++ codes " bookmarks " ++ decimal counts.now.bookmarks ++ codes " marks " ++ decimal counts.now.marks)) }
    ensures err { OnErr result (Keeps out.old.items out.new.items) }
{
    push_count(out, b" funcs ", counts.funcs)?;
    push_count(out, b" comments ", counts.comments)?;
    push_count(out, b" bookmarks ", counts.bookmarks)?;
    push_count(out, b" marks ", counts.marks)
}

/// Appends counts, each behind its word.
#[tactic(auto, unfolding(crate::specs::Counts::counts_text))]
pub fn push_counts(out: &mut Vec<u8>, counts: &Counts) -> Result<(), AllocError>
    ensures ok { OnOk result (out.new.items ≡ out.old.items ++ counts_text counts.now) }
    ensures err { OnErr result (Keeps out.old.items out.new.items) }
{
    push_code_counts(out, counts)?;
    push_note_counts(out, counts)
}
