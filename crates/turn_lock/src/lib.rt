//! A lock that hands its value to one pass at a time, and knows the history of the value.
//!
//! A plain lock cannot say what its taker did: between two turns nothing is known of the value but its type. Here the
//! value keeps its history (`Chronicle`), and each thread has a `Pass`, a token that knows a beginning of the history
//! and its own items in it. Contracts see what a pass knows as its `Knowledge`.
//!
//! What is not said: that a waiting call is ever served, in which order calls are served, how long a turn lasts, and
//! any order between passes that never told each other anything.
#![tactic(auto)]

mod calls;
mod chronicle;
mod lock;
mod plays;
mod rule;

pub use chronicle::Chronicle;
pub use lock::{NoMemory, Pass, TurnLock};
pub use rule::{Ended, Knowledge};
