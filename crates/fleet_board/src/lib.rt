//! One board that feeds, desks and a scribe share between threads.
//!
//! Each call takes the board's turn, makes the board's one call of its name, and hands the turn on. So each stands at one
//! point of one legal history, and no pass holds the turn between two calls: a batch is priced and seated while others
//! change plans.
//!
//! What is not said: that a waiting call is ever served, in which order calls are served, and any order between passes
//! that never told each other anything.
#![tactic(auto)]

mod desks;
mod ends;
mod feeds;
mod scribes;
mod sets;
mod shared;
mod turns;

pub use scribes::Tail;
pub use sets::PassSet;
pub use shared::{ActorPass, Kept, SharedBoard};
