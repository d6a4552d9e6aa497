ghost use Rattle.std.specs.Prelude.{◌≡◌};
ghost use Rattle.rvd_reading.specs.declared.errors.ReadError.TheVariants as error;

use std::alloc::{AllocError, AllocFailed};

/// The text doesn't begin with what was to be read.
#[derive(Clone, Copy, Debug, PartialEq, Eq)]
pub struct Unread;

/// Why a part isn't read.
#[derive(Clone, Copy, Debug, PartialEq, Eq)]
pub enum ReadError {
    /// The text doesn't begin with what was to be read.
    Unread,
    /// There was no memory.
    OutOfMemory,
}

impl From<Unread> for ReadError {
    ghost from_gives = { λ _ e. e ≡ error.Unread };

    fn from(_: Unread) -> ReadError {
        ReadError::Unread
    }
}

impl From<AllocError> for ReadError {
    ghost from_gives = { λ _ e. e ≡ error.OutOfMemory };

    fn from(_: AllocError) -> ReadError {
        ReadError::OutOfMemory
    }
}

impl<T: Drop> From<AllocFailed<T>> for ReadError {
    ghost from_gives = { λ _ e. e ≡ error.OutOfMemory };

    fn from(_: AllocFailed<T>) -> ReadError {
        ReadError::OutOfMemory
    }
}
