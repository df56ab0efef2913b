//! Text on its way to a sink, put on a page before it is written. `Output::new` and `Page::new` take memory, and a page where more
//! than 2^16 bytes are put on it.
mod output;
mod page;

pub use output::Output;
pub use page::Page;

/// Want of memory.
pub type NoMemory = std::alloc::AllocError;
