//! What is told of a round.
use ride_model::{AmountList, ItemList, OutcomeList, Reply};

/// A request that a company's vehicle has won, with the vehicle's version.
#[derive(Clone, Copy, PartialEq, Eq)]
pub(crate) struct RoundAward {
    pub(crate) request: u64,
    pub(crate) company: u64,
    pub(crate) vehicle: u64,
    pub(crate) version: u64,
}

/// What a company's vehicle pays.
#[derive(Clone, Copy, PartialEq, Eq)]
pub(crate) struct RoundPay {
    pub(crate) company: u64,
    pub(crate) vehicle: u64,
    pub(crate) amount: u64,
}

pub(crate) type RoundAwardList = ItemList<RoundAward>;

pub(crate) type RoundPayList = ItemList<RoundPay>;

/// A round: its cost, the requests that were won in order, and the prices that certify it.
pub(crate) struct RoundSheet {
    pub(crate) cost: u64,
    pub(crate) awards: RoundAwardList,
    /// The price of each request.
    pub(crate) prices: AmountList,
    /// What vehicles pay, where it is above 0.
    pub(crate) pays: RoundPayList,
    /// What has become of each request: confirmed or away.
    pub(crate) outcomes: OutcomeList,
}

impl Drop for RoundSheet {
    fn drop(self) {
        let RoundSheet {
            cost: _,
            awards,
            prices,
            pays,
            outcomes,
        } = self;
        drop(awards);
        drop(prices);
        drop(pays);
        drop(outcomes);
    }
}

/// What becomes of a line of the feed.
#[derive(Drop)]
pub(crate) enum Told {
    /// It is answered.
    Answer(Reply),
    /// It makes the round of this number.
    Round { number: u64, sheet: RoundSheet },
}
