//! Idle vehicles sent ahead, towards the pickups of requests that a batch's seating leaves out, and which of these orders stand.
#![tactic(auto)]

mod entries;
mod grids;
mod lists;
mod moves;
mod sheets;
mod standby;
mod texts;
mod watch;

pub use moves::{Move, MoveList, MoveSheet};
pub use sheets::plan_moves;
pub use texts::{print_end, print_head, print_sheet};
pub use watch::VersionWatch;
