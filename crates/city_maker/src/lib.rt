//! Cities for drills, drawn from a seed: the road network, the fleet and the commands of a feed, and what the drivers of
//! the vehicles report.
#![tactic(auto)]

mod city;
mod draws;
mod drivers;
mod feed;
mod fleets;
pub mod laws;
mod plan;
mod roads;

pub use city::{City, CommandList, make_city};
pub use drivers::next_report;
pub use plan::CityPlan;
