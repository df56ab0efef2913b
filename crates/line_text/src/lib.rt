//! Lines of a text that comes in any pieces, the reading of a source line by line, the fields of
//! a line, and decimal numbers; a reader that gives lines as they come (`line_reader`), the page that text is put on before
//! it is written (`text_page`), and the loop that takes the lines of a feed. Only the calls `new` take memory, `read_lines` by one
//! of them, and a page that grows.
#![tactic(auto)]

mod cutter;
mod fields;
pub mod line_reader;
mod numbers;
mod reading;
mod taking;
pub mod text_page;

pub use cutter::{Cut, LineCutter};
pub use fields::{Fields, words_of};
pub use numbers::{put_number, read_number};
pub use reading::{LineParser, ReadError, read_lines};
pub use taking::{LineTaker, take_lines};

/// The most bytes of a line of a map, a fleet file or a feed that is not over-long.
pub const MOST_LINE: usize = 200;

/// Want of memory.
pub type NoMemory = std::alloc::AllocError;
