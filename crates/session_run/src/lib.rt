//! Sessions, whose trip log is written as it comes. In a replay of one feed a batch is opened, priced, seated and committed at
//! once after each accepted ask; the same session writes sheets of orders to idle vehicles; a drill is the session of a generated
//! city. Live sessions of two feeds are those of `live_sessions`.
#![tactic(auto)]

mod answers;
mod batches;
mod drills;
mod one_feed;
mod outset;
mod replaying;
mod sending;
mod session;
mod sheets;
mod tools;
mod writes;

pub use drills::drill;
pub use replaying::replay;
pub use sending::ahead;
