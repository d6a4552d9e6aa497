/// Where a reader stands in a quoted text, behind its first quote.
#[derive(Clone, Copy, Debug, PartialEq, Eq)]
pub enum Place {
    /// Between two pieces.
    Inside,
    /// Behind a backslash.
    Escaped,
    /// Behind `\x`.
    High,
    /// Behind `\x` and a digit of this value.
    Low(u8),
    /// Behind the closing quote.
    Done,
}
