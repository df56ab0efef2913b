//! What a vehicle has promised to its riders: whether a start keeps it, and which promises its times break.
#![tactic(auto)]

mod arrivals;
mod kept;
mod late;
mod room;

pub use kept::keeps;
pub use late::broken;
