//! The commands of a feed, read from its lines and printed in their canonical spelling. Nothing here takes memory but
//! `FeedReader::new`.
#![tactic(auto)]

mod feeds;
mod forms;
pub mod laws;
mod limits;
mod printing;
mod reading;
mod verbs;

pub use feeds::FeedReader;
pub use forms::FeedForm;
pub use limits::FEED_LIMITS;
pub use printing::print_command;
pub use reading::{read_command, read_feed_line, read_fields};
