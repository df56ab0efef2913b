//! Reads road maps: the graph format of the DIMACS challenge on shortest paths, within limits.
#![tactic(auto)]

mod errors;
mod laws;
mod lines;
mod reading;

pub use errors::MapError;
pub use laws::a_text_has_one_answer;
pub use reading::read_map;
