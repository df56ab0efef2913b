//! What is wrong with a fleet file.
use thiserror::Error;

/// Why bytes are no fleet file. A number in brackets is the line's number, from 1.
#[derive(Debug, Drop, Clone, Copy, PartialEq, Eq, Error)]
pub enum FleetError {
    #[error("line {0}: neither a setting, nor a vehicle, nor a comment")]
    BadLine(u64),
    #[error("line {0}: set or given before")]
    Repeat(u64),
    #[error("line {0}: no such node")]
    NodeOut(u64),
    #[error("line {0}: a value out of its range")]
    ValueOut(u64),
    #[error("line {0}: more than 1000 vehicles")]
    TooMany(u64),
    #[error("more than 1048576 bytes")]
    TooLong,
    #[error("a read failed")]
    ReadFault,
    #[error("no memory")]
    NoMemory,
}
