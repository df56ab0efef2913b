//! The loops of a session over a shared board, that of a feed, of a desk and of the scribe, how lines of its log are put, and how a feed
//! ends.
#![tactic(auto)]

mod desks;
mod feeds;
mod logging;
mod scribes;
mod stops;

pub use desks::desk_loop;
pub use feeds::feed_loop;
pub use logging::{put_all, put_head};
pub use scribes::{Scribed, scribe_loop};
pub use stops::ending_of;
