//! The audit of a trip log: whether it is the text of a legal history over a map and a fleet. No solver is trusted: each commit's
//! pairs are priced again by whole plans, and its prices are checked to certify its seating.
#![tactic(auto)]

mod auditing;
mod auditor;
mod commits;
mod desks;
mod due;
mod fault;
mod feeds;
mod laws;
mod limits;
mod lines;
mod open_batches;
mod outset;
mod reading;
mod restoring;
mod seating;
mod verdict;

pub use auditing::audit;
pub use due::due_line;
pub use laws::{a_log_has_one_answer, words_together_are_legality};
pub use limits::LOG_LIMITS;
pub use restoring::{Restoration, Restored, restore};
pub use verdict::{AuditFault, Verdict, Why};
