//! The types of ride dispatch, and every rule of it as a definition (`specs/`).
//!
//! Times are whole seconds, nodes are numbered from 1, and loads are counted in seats and in chairs
//! (places for wheelchairs).
#![tactic(auto)]

mod command;
mod entry;
mod fleet;
mod ids;
mod item_list;
pub mod limits;
mod network;
mod offer;
pub mod refusals;
mod reply;
mod settings;
mod vehicle;

pub use command::{Actor, Command};
pub use entry::{
    AmountList, Ending, Entry, Event, IdList, Outcome, OutcomeList, SeatList, VersionList,
};
pub use fleet::Fleet;
pub use ids::Ids;
pub use item_list::ItemList;
pub use network::{Network, RoadArc};
pub use offer::{Joins, Offer, Seat};
pub use reply::{Reply, RequestState};
pub use settings::Settings;
pub use vehicle::{Kind, Load, Ride, Stop, Vehicle};

/// Want of memory, the one failure that no contract ties to a cause.
pub type NoMemory = std::alloc::AllocError;
