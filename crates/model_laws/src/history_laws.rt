//! What holds of every legal history, however the entries of its feeds and desks interleave.
pub mod closing;
pub mod commits;
pub mod consistency;
pub mod finishing;
pub mod promises_kept;
pub mod texts;
