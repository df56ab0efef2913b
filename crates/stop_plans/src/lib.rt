//! What a vehicle's plan is and becomes: stop times, loads, and plans with a ride more or less or a stop served.
//!
//! A plan keeps the travel time to each stop, its leg, beside the stop. So no call asks the road, and none takes memory.
#![tactic(auto)]

mod insert;
pub mod laws;
mod remove;
mod serve;
mod stop_loads;
mod stop_times;

pub use insert::insert_ride;
pub use remove::remove_ride;
pub use serve::serve_first;
pub use stop_loads::{load_at_start, loads};
pub use stop_times::times;
