//! Worked rows: what the definitions of dispatch say of small cases, each a theorem by evaluation.
//!
//! The road has four nodes in a row, a minute between neighbours. Vehicle 1 has two seats and is idle at node 1 at
//! time 0, unless a row says otherwise; ride 7 goes from node 2 to node 4, ride 9 from node 3 to node 4.
pub mod commits;
pub mod plain_path;
pub mod plans;
pub mod seatings;
pub mod steps;
