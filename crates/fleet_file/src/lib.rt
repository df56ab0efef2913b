//! Reads fleet files: settings and vehicles.
#![tactic(auto)]

mod errors;
mod laws;
mod lines;
mod reading;
mod settings;
mod vehicles;

pub use errors::FleetError;
pub use laws::a_text_has_one_answer;
pub use reading::read_fleet;
