//! Answers to batches.
ghost use Rattle.std.specs.Prelude.{◌≡◌, IfOk};
ghost use Rattle.batch_commit.specs.inner.Answer.{undecided};

use ride_model::{AmountList, NoMemory, Outcome, OutcomeList, SeatList};
use std::alloc::Global;

/// A seating with the prices that certify it, and what becomes of each request.
#[derive(Drop)]
pub struct Answer {
    pub seating: SeatList,
    /// Each request's price, in the batch's order.
    pub prices: AmountList,
    /// What vehicles pay, those above 0 in fleet order.
    pub pays: AmountList,
    /// Each request's outcome, in the batch's order; `Gone` until it is decided.
    pub outcomes: OutcomeList,
}

impl Answer {
    /// The answer whose outcomes are yet to be decided.
    pub fn of(
        alloc: Global,
        seating: SeatList,
        prices: AmountList,
        pays: AmountList,
    ) -> Result<Answer, NoMemory>
        ensures { IfOk result (λ answer. answer
            ≡ record {
              seating = seating;
              prices = prices;
              pays = pays;
              outcomes = undecided prices;
            }) }
    {
        let outcomes = undecided_outcomes(alloc, prices.items())?;
        Ok(Answer {
            seating,
            prices,
            pays,
            outcomes,
        })
    }
}

// One undecided outcome for each priced request.
fn undecided_outcomes(alloc: Global, prices: &[(u64, u64)]) -> Result<OutcomeList, NoMemory>
    ensures { IfOk result (λ outcomes. outcomes ≡ undecided prices.now) }
{
    let mut outcomes = Vec::with_capacity(alloc, prices.len())?;
    for (id, _) in prices {
        outcomes.push((*id, Outcome::Gone))?;
    }
    Ok(OutcomeList::of(outcomes))
}
