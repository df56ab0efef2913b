//! The limits of a text.

/// The limits of a text that is read line by line.
#[derive(Clone, Copy, PartialEq, Eq)]
pub struct Limits {
    /// The most bytes of a line, without its LF, that are kept.
    pub line: usize,
    /// The most bytes of the text.
    pub bytes: usize,
    /// The most lines of the text.
    pub lines: u32,
}
