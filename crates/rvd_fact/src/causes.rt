/// What a limit counts.
#[derive(Clone, Copy, Debug, PartialEq, Eq)]
pub enum What {
    /// The bytes of a file.
    FileBytes,
    /// The lines of a script or an event file.
    Lines,
    /// The memory blocks of a program.
    Blocks,
    /// The initialised bytes that an import loads.
    LoadedBytes,
    /// The entries of a symbol table.
    Symbols,
    /// The entries of a journal.
    Entries,
}

/// Why a line of text is refused.
#[derive(Clone, Copy, Debug, PartialEq, Eq)]
pub enum TextCause {
    /// A fixed word isn't in its list.
    UnknownWord,
    /// A part of the line is missing.
    MissingPart,
    /// Words are left behind the last part.
    ExtraPart,
    /// An address, a hexadecimal length or a range of addresses isn't one.
    BadAddress,
    /// A decimal number isn't one, or leaves its range.
    BadNumber,
    /// A quoted text isn't one, or a name is empty.
    BadText,
    /// A text has more than 1,000 bytes, or a body more than 64 ranges.
    TooLong,
}
