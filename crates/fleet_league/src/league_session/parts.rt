//! What a round gives: what is told of it, and each company's part.
ghost use Rattle.std.specs.Prelude.{◌≡◌, map, IfOk};
ghost use Rattle.std.specs.List.{filter_map};
ghost use Rattle.fleet_league.specs.league_session.RoundParts.{award_of, brief_of, own_pay_of, pay_of, sheet_of, win_of};
ghost use Rattle.fleet_league.specs.inner.league_session.RoundParts.{outcome_of, price_of};

use crate::league_session::rows::{RoundColumn, RoundRow};
use crate::league_session::sheets::{RoundAward, RoundPay, RoundSheet};
use crate::{Brief, NoMemory, Win};
use ride_model::{ItemList, Outcome};
use std::alloc::Global;

/// What is told of a round of a cost.
pub(crate) fn sheet_of(
    alloc: Global,
    cost: u64,
    rows: &[RoundRow],
    paid: &[(RoundColumn, u64)],
) -> Result<RoundSheet, NoMemory>
    ensures { IfOk result (λ sheet. sheet ≡ sheet_of cost rows.now paid.now) }
{
    Ok(RoundSheet {
        cost,
        awards: ItemList::of(awards_of(alloc, rows)?),
        prices: ItemList::of(prices_of(alloc, rows)?),
        pays: ItemList::of(pays_of(alloc, paid)?),
        outcomes: ItemList::of(outcomes_of(alloc, rows)?),
    })
}

/// The part of the company of a number.
pub(crate) fn brief_of(
    alloc: Global,
    company: u64,
    rows: &[RoundRow],
    paid: &[(RoundColumn, u64)],
) -> Result<Brief, NoMemory>
    ensures { IfOk result (λ brief. brief ≡ brief_of company rows.now paid.now) }
{
    Ok(Brief {
        wins: ItemList::of(wins_of(alloc, company, rows)?),
        pays: ItemList::of(own_pays_of(alloc, company, paid)?),
    })
}

// The awards of rows.
fn awards_of(alloc: Global, rows: &[RoundRow]) -> Result<Vec<RoundAward>, NoMemory>
    ensures { IfOk result (λ awards. awards.items ≡ filter_map award_of rows.now) }
{
    rows.iter().filter_map(award_of).collect(alloc)
}

// The prices of rows.
fn prices_of(alloc: Global, rows: &[RoundRow]) -> Result<Vec<(u64, u64)>, NoMemory>
    ensures { IfOk result (λ prices. prices.items ≡ map price_of rows.now) }
{
    rows.iter().map(price_of).collect(alloc)
}

// What columns pay.
fn pays_of(alloc: Global, paid: &[(RoundColumn, u64)]) -> Result<Vec<RoundPay>, NoMemory>
    ensures { IfOk result (λ pays. pays.items ≡ filter_map pay_of paid.now) }
{
    paid.iter().filter_map(pay_of).collect(alloc)
}

// The outcomes of rows.
fn outcomes_of(alloc: Global, rows: &[RoundRow]) -> Result<Vec<(u64, Outcome)>, NoMemory>
    ensures { IfOk result (λ outcomes. outcomes.items ≡ map outcome_of rows.now) }
{
    rows.iter().map(outcome_of).collect(alloc)
}

// What a company wins of rows.
fn wins_of(alloc: Global, company: u64, rows: &[RoundRow]) -> Result<Vec<Win>, NoMemory>
    ensures { IfOk result (λ wins. wins.items ≡ filter_map (win_of company) rows.now) }
{
    rows.iter()
        .filter_map(|row| win_of(company, row))
        .collect(alloc)
}

// What a company's vehicles pay.
fn own_pays_of(
    alloc: Global,
    company: u64,
    paid: &[(RoundColumn, u64)],
) -> Result<Vec<(u64, u64)>, NoMemory>
    ensures { IfOk result (λ pays. pays.items ≡ filter_map (own_pay_of company) paid.now) }
{
    paid.iter()
        .filter_map(|paid| own_pay_of(company, paid))
        .collect(alloc)
}

// The award of a row, if it has a column.
fn award_of(row: &RoundRow) -> Option<RoundAward>
    ensures { result ≡ award_of row.now }
{
    let column = row.column?;
    Some(RoundAward {
        request: row.ride.id,
        company: column.company,
        vehicle: column.vehicle,
        version: column.version,
    })
}

// The price of a row's request.
fn price_of(row: &RoundRow) -> (u64, u64)
    ensures { result ≡ price_of row.now }
{
    (row.ride.id, row.price)
}

// What becomes of a row's request.
fn outcome_of(row: &RoundRow) -> (u64, Outcome)
    ensures { result ≡ outcome_of row.now }
{
    match row.column {
        Some(_) => (row.ride.id, Outcome::Confirmed),
        None => (row.ride.id, Outcome::Away),
    }
}

// What a column pays, where it is above 0.
fn pay_of(paid: &(RoundColumn, u64)) -> Option<RoundPay>
    ensures { result ≡ pay_of paid.now }
{
    let (column, amount) = *paid;
    if amount == 0 {
        return None;
    }
    Some(RoundPay {
        company: column.company,
        vehicle: column.vehicle,
        amount,
    })
}

// The win of a row whose column is a company's.
fn win_of(company: u64, row: &RoundRow) -> Option<Win>
    ensures { result ≡ win_of company row.now }
{
    let column = row.column?;
    if column.company != company {
        return None;
    }
    Some(Win {
        ride: row.ride,
        vehicle: column.vehicle,
        price: row.price,
    })
}

// What a company's vehicle pays, where it is above 0.
fn own_pay_of(company: u64, paid: &(RoundColumn, u64)) -> Option<(u64, u64)>
    ensures { result ≡ own_pay_of company paid.now }
{
    let (column, amount) = *paid;
    if column.company != company || amount == 0 {
        return None;
    }
    Some((column.vehicle, amount))
}
