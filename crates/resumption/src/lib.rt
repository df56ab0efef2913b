//! The second top call: a session goes on from its log, files by a shelf, and one sink; and what holds of the log of every session
//! (`session_laws`).
#![tactic(auto)]

mod feeds;
mod logs;
pub mod session_laws;
mod top;

pub use top::resume;
