//! The outside of the dispatcher as traits: sources of bytes, sinks for bytes, a shelf of named
//! sources and a gate for tests, with forms of each over memory, over real files and standard
//! output, and with forms that never fail.
#![tactic(auto)]

mod calls;
mod files;
mod gates;
mod ledger;
mod mem_shelf;
mod mem_sink;
mod mem_source;
mod outcome;
mod shelves;
mod sinks;
mod sources;
mod sure;

pub use files::{FileFault, FileShelf, FileSource, StdoutSink};
pub use gates::{Gate, OpenGate};
pub use mem_shelf::{MemFile, MemShelf};
pub use mem_sink::MemSink;
pub use mem_source::MemSource;
pub use outcome::Ran;
pub use shelves::Shelf;
pub use sinks::{Sink, write_all};
pub use sources::{Failed, Source};
pub use sure::{SureFile, SureShelf, SureSink, SureSource};

/// Want of memory.
pub type NoMemory = std::alloc::AllocError;
