ghost use Rattle.std.specs.Prelude.{◌≡◌};
ghost use Rattle.rvd_script.specs.declared.errors.PartError.TheVariants as part;
ghost use Rattle.rvd_script.specs.declared.errors.ScriptError.TheVariants as script;

use rvd_fact::TextCause;
use std::alloc::{AllocError, AllocFailed};
use thiserror::Error;

/// Why a script or an event file isn't read.
#[derive(Clone, Copy, Debug, PartialEq, Eq, Error)]
pub enum ScriptError {
    /// There are more lines than a file may have: so many, skipped ones too.
    #[error("too many lines: {0}")]
    TooManyLines(u64),
    /// This line, counted from 1 on, isn't in the grammar.
    #[error("line {line} is refused: {cause:?}")]
    Bad {
        /// The line's number; skipped lines count.
        line: u32,
        /// What is wrong with its first bad part from the left.
        cause: TextCause,
    },
    /// An allocation failed.
    #[error("out of memory")]
    OutOfMemory,
}

impl From<AllocError> for ScriptError {
    ghost from_gives = { λ _ e. e ≡ script.OutOfMemory };

    fn from(_: AllocError) -> ScriptError {
        ScriptError::OutOfMemory
    }
}

impl<T: Drop> From<AllocFailed<T>> for ScriptError {
    ghost from_gives = { λ _ e. e ≡ script.OutOfMemory };

    fn from(_: AllocFailed<T>) -> ScriptError {
        ScriptError::OutOfMemory
    }
}

/// Why the words of a line aren't read.
#[derive(Clone, Copy, Debug, PartialEq, Eq)]
pub enum PartError {
    /// A part isn't what its place wants.
    Cause(TextCause),
    /// An allocation failed.
    OutOfMemory,
}

impl From<TextCause> for PartError {
    ghost from_gives = { λ c e. e ≡ part.Cause c };

    fn from(cause: TextCause) -> PartError {
        PartError::Cause(cause)
    }
}

impl From<AllocError> for PartError {
    ghost from_gives = { λ _ e. e ≡ part.OutOfMemory };

    fn from(_: AllocError) -> PartError {
        PartError::OutOfMemory
    }
}
