//! The reading of a source line by line, within limits of bytes and of lines, and what stops those who take its lines. Only
//! `LineReader::new` takes memory.
mod answers;
mod limits;
mod piece;
mod reader;
mod stops;

pub use answers::{NextLine, ReadStop};
pub use limits::Limits;
pub use reader::LineReader;
pub use stops::{Stop, is_no_memory, is_source_failed, is_too_long, ran_of};

/// Want of memory.
pub type NoMemory = std::alloc::AllocError;
