ghost use Rattle.std.specs.Prelude.{◌≡◌};
ghost use Rattle.rvd_edit.specs.declared.edit_error.EditError.TheVariants.{OutOfMemory, Refused};

use rvd_event::EditRefusal;
use std::alloc::{AllocError, AllocFailed};

/// Why an edit makes no changes.
#[derive(Debug, Drop)]
pub enum EditError {
    /// The edit is refused.
    Refused(EditRefusal),
    /// An allocation failed.
    OutOfMemory,
}

impl From<EditRefusal> for EditError {
    ghost from_gives = { λ r e. e ≡ Refused r };

    fn from(refusal: EditRefusal) -> EditError {
        EditError::Refused(refusal)
    }
}

impl From<AllocError> for EditError {
    ghost from_gives = { λ _ e. e ≡ OutOfMemory };

    fn from(_: AllocError) -> EditError {
        EditError::OutOfMemory
    }
}

impl<T: Drop> From<AllocFailed<T>> for EditError {
    ghost from_gives = { λ _ e. e ≡ OutOfMemory };

    fn from(_: AllocFailed<T>) -> EditError {
        EditError::OutOfMemory
    }
}
