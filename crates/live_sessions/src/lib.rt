//! Live sessions, whose riders and drivers are answered while desks price: from their beginning, or from a board as it stands. Each
//! feed, each desk and the scribe, who writes the log, has a thread of its own, in which its loop of `session_loops` runs.
#![tactic(auto)]

mod actors;
mod desk_pairs;
mod feed_pairs;
mod living;
mod outcomes;
mod resuming;
mod serving;
mod shared;
mod stages;

pub use living::have_few_commands;
pub use resuming::{Interrupted, resume};
pub use serving::{Outset, serve};
