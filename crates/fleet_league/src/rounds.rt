//! Rounds: the rides of all companies' quotes seated at once.
ghost use Rattle.std.specs.Prelude.{◌≡◌, ℕ, ◌≤◌, length, All, IfOk};
ghost use Rattle.ride_model.specs.declared.limits.TheConstants.{GREATEST_PENALTY};
ghost use Rattle.fleet_league.specs.declared.quotes.Quote.{Quote};
ghost use Rattle.fleet_league.specs.Round.{IsRound, company_prices};
ghost use Rattle.fleet_league.specs.inner.Round.{IsPriced};

use crate::unions::union_of;
use crate::{NoMemory, Quote};
use dual_check::Paired;
use hungarian::solve_grid;
use std::alloc::Global;

/// Pairs the rides with the vehicles of all companies at the least cost, with prices that certify it. A ride that is left out
/// costs the penalty. The columns are the vehicles, by company and then in fleet order.
pub fn settle(alloc: Global, penalty: u64, quotes: &[Quote]) -> Result<Paired, NoMemory>
    requires penalty_limit { penalty ≤ GREATEST_PENALTY }
    requires some_company { 1 ≤ length quotes.now }
    requires few_companies { length quotes.now ≤ 8 }
    requires priced { All (λ (quote : Quote). IsPriced quote.prices) quotes.now }
    requires same_rides { (rides : ℕ)
        × All (λ (quote : Quote). quote.prices.rows ≡ rides) quotes.now }
    ensures round { IfOk result (IsRound penalty (company_prices quotes.now)) }
{
    let grid = union_of(alloc, quotes)?;
    solve_grid(alloc, &grid, penalty)
}
