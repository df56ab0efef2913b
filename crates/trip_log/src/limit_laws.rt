//! How many commands a feed gives at most, and how long the text of a legal history can be.
pub mod feeds;
pub mod lengths;
