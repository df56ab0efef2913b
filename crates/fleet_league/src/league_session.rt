//! A league of two companies whose requests, reports and rounds are the lines of one feed.
mod desk;
pub mod laws;
mod lines;
mod members;
mod outset;
mod parts;
mod playing;
mod printing;
mod reading;
mod rows;
mod scribe;
mod session;
mod settling;
mod sheets;
mod state;
mod stops;

pub use session::league;
pub use settling::part_of;
