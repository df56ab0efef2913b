//! What holds of the log of every session.
pub mod logs;
