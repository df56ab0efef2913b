//! The heart of dispatch: the one object that feeds and desks share.
//!
//! Each call appends at most one entry to a history, which stays legal. A board keeps the state that its history gives, so
//! that no call replays it, and takes its memory before it changes anything.
#![tactic(auto)]

ghost use Rattle.std.specs.Prelude.{◌≡◌};

mod board;
mod desks;
mod numbered;
mod opening;
mod places;
mod plans;
pub mod request_book;
mod service;
mod setup;
mod wishes;

pub use board::Board;
pub use board::totals::Totals;
pub use opening::Opening;
