//! Several companies share one dispatcher: each prices its own vehicles and hands on their prices and versions alone, a broker seats
//! over all, and each commits its own part.
#![tactic(auto)]

mod asking;
mod awards;
mod briefs;
mod company;
mod confirming;
pub mod laws;
pub mod league_session;
mod quotes;
mod quoting;
mod rounds;
mod seating;
mod unions;
mod won_tables;

pub use briefs::{Brief, Settled, Win, WinList};
pub use company::Company;
pub use quotes::{PriceRows, Quote};
pub use quoting::PricedQuote;
pub use ride_model::NoMemory;
pub use rounds::settle;
pub use won_tables::table_of_won;
