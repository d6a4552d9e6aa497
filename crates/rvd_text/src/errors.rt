use std::alloc::AllocError;

/// The most bytes of a text that is read.
pub const TEXT_LIMIT: usize = 1_000;

/// Why a word is not read.
#[derive(Clone, Copy, Debug, PartialEq, Eq)]
pub enum TextError {
    /// The word is no quoted text.
    BadQuote,
    /// The word stands for more than `TEXT_LIMIT` bytes.
    TooLong,
    /// The word isn't an optional `0x` and 1 to 8 hexadecimal digits.
    BadHex,
    /// There was no memory for the text.
    OutOfMemory,
}

impl From<AllocError> for TextError {
    ghost use Rattle.std.specs.Prelude.{◌≡◌};
    ghost use Rattle.rvd_text.specs.declared.errors.TextError.TheVariants.{OutOfMemory};

    ghost from_gives = { λ _ e. e ≡ OutOfMemory };

    fn from(_: AllocError) -> TextError {
        TextError::OutOfMemory
    }
}
