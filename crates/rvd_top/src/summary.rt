ghost use Rattle.std.specs.Prelude.{◌≡◌, ◌++◌, codes, IfOk, IfErr, OnOk};
ghost use Rattle.rvd_player.specs.Analysed.{AnalysisFails};
ghost use Rattle.rvd_top.specs.Summary.{is_counted, number_line, number_of, summary, IsSummed};

use rvd_desk::DeskError;
use rvd_fact::{Form, Value};
use rvd_player::analyse;
use rvd_program::Program;
use rvd_text::push_dec;
use std::alloc::{AllocError, Global};

/// A kind of facts that a summary counts.
#[derive(Clone, Copy, Debug, PartialEq, Eq)]
pub enum Counted {
    Functions,
    Instructions,
    /// Data units that are strings.
    Strings,
    References,
    Bookmarks,
}

impl Counted {
    // Whether a value is of this kind.
    fn has(self, value: &Value) -> bool
        ensures { result ≡ is_counted self value.now }
    {
        match self {
            Counted::Functions => matches!(value, Value::Func),
            Counted::Instructions => matches!(value, Value::Code(_)),
            Counted::Strings => matches!(value, Value::Plain(Form::Str(_))),
            Counted::References => matches!(value, Value::Ref { .. }),
            Counted::Bookmarks => matches!(value, Value::Bookmark(_)),
        }
    }
}

// How many facts of a kind are present in a program.
fn count(program: &Program, kind: Counted) -> u64
    ensures { result ≡ number_of kind program.now }
{
    let mut number = 0;
    let entries = program.entries();
    for entry in entries {
        if kind.has(&entry.1.cell().value) {
            number += 1;
        }
    }
    number
}

// Appends a word and a number as a line.
#[tactic(auto, unfolding(crate::specs::Summary::number_line))]
fn push_number(out: &mut Vec<u8>, word: &[u8], number: u64) -> Result<(), AllocError>
    ensures { OnOk result (out.new.items ≡ out.old.items ++ number_line word.now number) }
{
    out.extend_from_slice(word)?;
    out.push(b' ')?;
    push_dec(out, number)?;
    out.push(b'\n')?;
    Ok(())
}

// Appends how many facts of some kinds are present in a program that no analyzer would change.
#[tactic(auto, using(std::proofs::Common::append_assoc))]
fn push_summary(out: &mut Vec<u8>, program: &Program) -> Result<(), AllocError>
    ensures { OnOk result (out.new.items ≡ out.old.items ++ summary program.now) }
{
    push_number(out, b"functions", count(program, Counted::Functions))?;
    push_number(out, b"instructions", count(program, Counted::Instructions))?;
    push_number(out, b"strings", count(program, Counted::Strings))?;
    push_number(out, b"references", count(program, Counted::References))?;
    push_number(out, b"bookmarks", count(program, Counted::Bookmarks))?;
    out.extend_from_slice(b"settled\n")?;
    Ok(())
}

/// The summary of a program after a whole analysis.
pub(crate) fn summary_text(alloc: Global, program: Program) -> Result<Vec<u8>, DeskError>
    ensures ok { IfOk result (λ text. IsSummed program text.items) }
    ensures err { IfErr result (λ error. AnalysisFails program error) }
{
    let desk = analyse(alloc, program)?;
    let mut text = Vec::new(alloc);
    match push_summary(&mut text, desk.base()) {
        Ok(()) => Ok(text),
        Err(AllocError) => Err(DeskError::OutOfMemory),
    }
}
