//! Where one more ride fits into a vehicle's plan, and what it costs there: the fast way, by slack.
//!
//! The tables of a plan say by how much its stops may be later. They are made once and serve every ride that is asked for, so
//! that a pair of places is judged by a few sums and comparisons. No call takes memory.
#![tactic(auto)]

mod best;
mod found;
mod legs;
mod offered;
mod places;
mod rooms;
mod slack;
mod terms;
mod trips;

pub use best::best_place_fast;
pub use slack::Slack;
