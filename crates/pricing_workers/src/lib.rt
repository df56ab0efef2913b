//! Batches: the least offers of their vehicles to their requests, found by several threads, and their least seatings.
#![tactic(auto)]

mod batches;
mod cells;
mod pairs;
mod pricer;
mod rows;
mod seating;
mod seats;
mod tables;
mod times;
mod wanted;
mod workers;

pub use batches::{price_batch, price_batch_by};
pub use pairs::Search;
pub use pricer::Pricer;
pub use seating::{seat_batch, seat_batch_by};
pub use seats::{SeatPlaces, offer_of_seat};
pub use workers::workers_at_hand;
