//! The trip log, printed and read line by line, and how long it can be (`limit_laws`). Only `read_entry` takes memory.
#![tactic(auto)]

mod comparison;
mod cutting;
mod entries;
mod events;
mod items;
mod kinds;
pub mod laws;
pub mod limit_laws;
pub mod lists;
pub mod pieces;
mod printing;
mod reading;
mod replies;

pub use events::print_answer;
pub use printing::{print_entry, print_head};
pub use reading::{Head, read_entry, read_head, spells};
