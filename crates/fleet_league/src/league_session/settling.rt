//! Rounds, settled over the quotes of two companies.
ghost use Rattle.std.specs.Prelude.{◌≡◌, ◌^◌, ◌<◌, ◌≤◌, ℕ, length, sum, All, IfOk};
ghost use Rattle.dual_check.specs.Cells.{GridCells};
ghost use Rattle.dual_check.specs.Grid.{CertifiesPairing, pairing_cost};
ghost use Rattle.ride_model.specs.declared.limits.TheConstants.{GREATEST_PENALTY, LARGEST_BATCH};
ghost use Rattle.fleet_league.specs.declared.quotes.Quote.{Quote};
ghost use Rattle.fleet_league.specs.league_session.League.{IsRoundOf, round_columns, round_rows};
ghost use Rattle.fleet_league.specs.inner.Round.{IsPriced};
ghost use Rattle.fleet_league.specs.league_session.RoundParts.{brief_of};

use crate::league_session::parts::{brief_of, sheet_of};
use crate::league_session::rows::{columns_of, paid_columns, rows_of};
use crate::league_session::sheets::RoundSheet;
use crate::{Brief, NoMemory, Quote, settle};
use dual_check::Paired;
use ride_model::Ride;
use std::alloc::Global;

/// What is told of a round, and each company's part of it.
pub(crate) struct RoundParts {
    pub(crate) sheet: RoundSheet,
    pub(crate) first: Brief,
    pub(crate) second: Brief,
}

impl Drop for RoundParts {
    fn drop(self) {
        let RoundParts {
            sheet,
            first,
            second,
        } = self;
        drop(sheet);
        drop(first);
        drop(second);
    }
}

impl RoundParts {
    /// What is told of the round.
    pub(crate) fn into_sheet(self) -> RoundSheet
        ensures { result ≡ self.sheet }
    {
        let RoundParts {
            sheet,
            first,
            second,
        } = self;
        drop(first);
        drop(second);
        sheet
    }
}

/// Settles the quotes of two companies for rides.
pub(crate) fn parts_of(
    alloc: Global,
    penalty: u64,
    quotes: &[Quote; 2],
    rides: &[Ride],
) -> Result<RoundParts, NoMemory>
    requires penalty_limit { penalty ≤ GREATEST_PENALTY }
    requires priced { All (λ (quote : Quote). IsPriced quote.prices) quotes.now }
    requires same_rides { All (λ (quote : Quote). quote.prices.rows ≡ length rides.now) quotes.now }
    ensures { IfOk result (λ parts.
        IsRoundOf penalty quotes.now rides.now parts.sheet parts.first parts.second) }
{
    let round = settle(alloc, penalty, quotes)?;
    let columns = columns_of(alloc, &quotes[0], &quotes[1])?;
    let rows = rows_of(alloc, &columns, rides, &round)?;
    let paid = paid_columns(alloc, &columns, &round)?;
    Ok(RoundParts {
        sheet: sheet_of(alloc, cost_of(&round), &rows, &paid)?,
        first: brief_of(alloc, 1, &rows, &paid)?,
        second: brief_of(alloc, 2, &rows, &paid)?,
    })
}

/// The part of a company in a round that was settled over the quotes of two companies, which are numbered 1 and 2.
pub fn part_of(
    alloc: Global,
    company: u64,
    quotes: &[Quote; 2],
    rides: &[Ride],
    round: &Paired,
) -> Result<Brief, NoMemory>
    ensures { IfOk result (λ part. part
        ≡ brief_of company (round_rows quotes.now rides.now round.now)
        (round_columns quotes.now round.now)) }
{
    let columns = columns_of(alloc, &quotes[0], &quotes[1])?;
    let rows = rows_of(alloc, &columns, rides, round)?;
    let paid = paid_columns(alloc, &columns, round)?;
    brief_of(alloc, company, &rows, &paid)
}

// What a certified pairing costs: what the rows are priced at less what the columns pay.
fn cost_of(round: &Paired) -> u64
    requires { (grid : GridCells) × (penalty : ℕ) × (grid.rows ≤ LARGEST_BATCH)
        × (penalty ≤ GREATEST_PENALTY)
        × CertifiesPairing grid penalty round.now.columns round.now.prices round.now.pays }
    ensures { (grid : GridCells) (penalty : ℕ)
        → CertifiesPairing grid penalty round.now.columns round.now.prices round.now.pays
        → result ≡ pairing_cost grid penalty round.now.columns }
{
    total(round.prices.items()) - total(round.pays.items())
}

// The sum of amounts.
fn total(amounts: &[u64]) -> u64
    requires { sum amounts.now < 2 ^ 64 }
    ensures { result ≡ sum amounts.now }
{
    amounts.iter().sum()
}
