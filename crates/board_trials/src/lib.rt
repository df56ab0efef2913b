//! Trials of the board, alone and shared, and of a day of a generated city. It has nothing but tests, so that the crates that it tests are
//! proved once.
#![tactic(auto)]

#[cfg(test)]
mod boards;
