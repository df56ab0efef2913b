//! What a broker awards a company, and what the company answers.
use ride_model::{AmountList, ItemList, Ride};

/// A ride that a company has won, with the vehicle that is to take it and the price that it was won at.
#[derive(Clone, Copy, PartialEq, Eq)]
pub struct Win {
    pub ride: Ride,
    pub vehicle: u64,
    pub price: u64,
}

/// A company's wins, in the order of requests.
pub type WinList = ItemList<Win>;

/// A company's part of a round.
#[derive(Drop)]
pub struct Brief {
    pub wins: WinList,
    /// What its vehicles pay, those above 0 in fleet order.
    pub pays: AmountList,
}

/// What a company answers to an award.
#[derive(Clone, Copy, PartialEq, Eq)]
pub enum Settled {
    /// Every win is confirmed on its vehicle.
    Confirmed,
    /// A vehicle has changed since the quote: the version that the quote names, and the one that stands. Nothing changes.
    Moved {
        vehicle: u64,
        named: u64,
        stands: u64,
    },
    /// The clock is not at the quote's time. Nothing changes.
    Timed {
        named: u64,
        stands: u64,
    },
}
