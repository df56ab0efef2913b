//! What is wrong with a map's text.
use thiserror::Error;

/// Why bytes are no map. A number in brackets is the line's number, from 1.
#[derive(Debug, Drop, Clone, Copy, PartialEq, Eq, Error)]
pub enum MapError {
    #[error("no problem line before the first arc line or the end")]
    NoProblem,
    #[error("line {0}: a second problem line")]
    SecondProblem(u64),
    #[error("line {0}: neither a problem, nor an arc, nor a comment")]
    BadLine(u64),
    #[error("line {0}: no such node")]
    NodeOut(u64),
    #[error("line {0}: a weight above 1000000000")]
    WeightOut(u64),
    #[error("{said} arcs are said and {found} found")]
    ArcCount { said: u64, found: u64 },
    #[error("line {0}: too many nodes or arcs")]
    TooLarge(u64),
    #[error("more than 134217728 bytes")]
    TooLong,
    #[error("a read failed")]
    ReadFault,
    #[error("no memory")]
    NoMemory,
}
