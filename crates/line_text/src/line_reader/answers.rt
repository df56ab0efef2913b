//! What comes next in a text.

/// What comes next in a text.
#[derive(Clone, Copy, PartialEq, Eq)]
pub enum NextLine {
    /// A line that an LF ends.
    Line,
    /// The last line, which no LF ends.
    Unfinished,
    /// Nothing.
    End,
}

/// Why a text was not read to its end.
#[derive(Clone, Copy, PartialEq, Eq)]
pub enum ReadStop {
    /// A read failed.
    SourceFailed,
    /// It has more bytes or more lines than its limits allow.
    TooLong,
}
