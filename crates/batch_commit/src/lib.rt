//! Batches, the tables of their prices, their answers, and what a commit makes of each request.
#![tactic(auto)]

mod answers;
mod batches;
mod outcomes;
mod solved;
mod tables;

pub use answers::Answer;
pub use batches::Batch;
pub use solved::{Solved, decide};
pub use tables::PriceTable;
