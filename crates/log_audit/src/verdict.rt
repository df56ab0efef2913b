//! What an audit answers.
use board_core::Totals;

/// Whether a log is the text of a legal history.
#[derive(Clone, Copy, PartialEq, Eq)]
pub enum Verdict {
    Yes(Totals),
    /// The number of the first wrong line, from 1, and the first of its faults.
    No { line: u64, why: Why },
}

/// Why a line is wrong, in the order in which the tests come.
#[derive(Clone, Copy, PartialEq, Eq)]
pub enum Why {
    /// It is no head, or no entry's line.
    Spelling,
    /// Its actor may not do this now.
    Actor,
    /// The reply to the command is another.
    Reply,
    /// The batch that is opened is another.
    Batch,
    /// The seats are no seating of the batch, or its cost is another.
    Seating,
    /// The prices and payments do not certify the seating.
    Prices,
    /// What becomes of the requests is another.
    Outcomes,
}

/// Why a log was not judged.
#[derive(Clone, Copy, Debug, PartialEq, Eq)]
pub enum AuditFault {
    ReadFault,
    /// It has more bytes or more lines than a log may have.
    TooLong,
    NoMemory,
}
