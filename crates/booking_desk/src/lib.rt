//! Bookings: requests that are booked ahead, held until their moment has come, and then released in order.
#![tactic(auto)]

mod asked;
mod desk;
mod feed_desk;
mod feeds;
pub mod laws;
mod plain_lines;
mod releases;
mod replies;
mod spelling;

pub use desk::BookingDesk;
pub use feeds::book_feed;
pub use replies::BookReply;

/// Want of memory.
pub type NoMemory = std::alloc::AllocError;
