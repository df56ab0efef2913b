//! Where one more ride fits into a vehicle's plan, and what it costs there: the plain way, which goes over the pairs of places
//! and looks at the whole plan wherever the ride fits beside what is aboard on its way, and would cost less. A check of another
//! way's answers can rely on it.
#![tactic(auto)]

mod best;
mod drives;
pub mod joins;
mod near;
mod offer;
mod plan;
pub mod prices;
mod rooms;

pub use best::best_place;
pub use near::{Near, NearStop};
pub use offer::offer_at;
