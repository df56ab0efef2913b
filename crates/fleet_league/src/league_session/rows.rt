//! The rows and the columns of a round: rides, and the vehicles of all companies.
ghost use Rattle.std.specs.Prelude.{◌≡◌, ◌++◌, ◌∷◌, [], option_and_then, slice_get, map, IfOk, OnOk};
ghost use Rattle.fleet_league.specs.league_session.RoundParts.{rows_of, union_columns};
ghost use Rattle.fleet_league.specs.inner.league_session.RoundParts.{column_of_plan, paid_columns, row_of};

use crate::{NoMemory, Quote};
use dual_check::Paired;
use ride_model::Ride;
use std::alloc::Global;

/// A vehicle of a company, as it was quoted.
#[derive(Clone, Copy, PartialEq, Eq)]
pub(crate) struct RoundColumn {
    pub(crate) company: u64,
    pub(crate) vehicle: u64,
    pub(crate) version: u64,
}

/// A ride with the vehicle that it is paired with, if any, and its price.
#[derive(Clone, Copy, PartialEq, Eq)]
pub(crate) struct RoundRow {
    pub(crate) ride: Ride,
    pub(crate) column: Option<RoundColumn>,
    pub(crate) price: u64,
}

/// The columns of the union of two companies' quotes.
pub(crate) fn columns_of(
    alloc: Global,
    first: &Quote,
    second: &Quote,
) -> Result<Vec<RoundColumn>, NoMemory>
    ensures { IfOk result (λ columns. columns.items ≡ union_columns (first.now ∷ second.now ∷ [])) }
{
    let mut columns = Vec::new(alloc);
    add_columns(&mut columns, 1, first)?;
    add_columns(&mut columns, 2, second)?;
    Ok(columns)
}

// Adds the columns of a company's quote.
fn add_columns(columns: &mut Vec<RoundColumn>, company: u64, quote: &Quote) -> Result<(), NoMemory>
    ensures { OnOk result (columns.new.items
        ≡ columns.old.items ++ map (column_of_plan company) quote.now.plans) }
{
    for plan in quote.plans.items() {
        columns.push(RoundColumn {
            company,
            vehicle: plan.0,
            version: plan.1,
        })?;
    }
    Ok(())
}

/// The rides of a round, with the vehicles that they are paired with and their prices.
pub(crate) fn rows_of(
    alloc: Global,
    columns: &[RoundColumn],
    rides: &[Ride],
    round: &Paired,
) -> Result<Vec<RoundRow>, NoMemory>
    ensures { IfOk result (λ rows. rows.items ≡ rows_of columns.now rides.now round.now) }
{
    let pairs = rides.iter().zip(round.columns.items());
    pairs
        .zip(round.prices.items())
        .map(|((ride, place), price)| row_of(columns, ride, *place, *price))
        .collect(alloc)
}

// A ride with the column of a place, and its price.
fn row_of(columns: &[RoundColumn], ride: &Ride, place: Option<u32>, price: u64) -> RoundRow
    ensures { result ≡ row_of columns.now ((ride.now, place), price) }
{
    RoundRow {
        ride: *ride,
        column: column_at(columns, place),
        price,
    }
}

// The column of a place.
fn column_at(columns: &[RoundColumn], place: Option<u32>) -> Option<RoundColumn>
    ensures { result ≡ option_and_then (slice_get columns.now) place }
{
    columns.get(place? as usize).copied()
}

/// The columns, with what they pay.
pub(crate) fn paid_columns(
    alloc: Global,
    columns: &[RoundColumn],
    round: &Paired,
) -> Result<Vec<(RoundColumn, u64)>, NoMemory>
    ensures { IfOk result (λ paid. paid.items ≡ paid_columns columns.now round.now) }
{
    columns
        .iter()
        .zip(round.pays.items())
        .map(|(column, pay)| (*column, *pay))
        .collect(alloc)
}
