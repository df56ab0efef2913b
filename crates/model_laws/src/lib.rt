//! Laws of the definitions of ride dispatch, and in `history_laws` of every legal history. Each is the contract of a function that does
//! nothing. Lemmas of options, numbers and lists, which speak of no word of dispatch, stand in `proofs/plain/`.
#![tactic(auto)]

pub mod batches;
pub mod duality;
pub mod history;
pub mod history_laws;
pub mod offers;
pub mod plans;
pub mod travel;
