//! Trials of whole runs by the top call, over files and outputs in memory. It has nothing but tests, so that the crates that it tests are
//! proved once.
#![tactic(auto)]

#[cfg(test)]
mod runs;
