//! A batch's seating, its prices and its payments, from a pairing of its requests and vehicles.
ghost use Rattle.std.specs.Prelude.{◌≡◌, ℕ, ◌<◌, ◌≤◌, length, IfOk, IfSome, Some};
ghost use Rattle.ride_model.specs.Vehicle.{ride_ids};
ghost use Rattle.ride_model.specs.Seating.{vehicle_ids};
ghost use Rattle.ride_model.specs.declared.limits.TheConstants.{LARGEST_BATCH};
ghost use Rattle.dual_check.specs.Grid.{column_of};
ghost use Rattle.hungarian.specs.Seats.{pay_at, pays_by, prices_by};
ghost use Rattle.hungarian.specs.inner.Seats.{seat_at, seats_by};

use batch_commit::PriceTable;
use ride_model::{AmountList, NoMemory, Ride, Seat, SeatList, Vehicle};
use std::alloc::Global;

/// The seat of a request in the vehicle that a row's column stands for.
fn seat_at(
    table: &PriceTable,
    requests: &[Ride],
    vehicles: &[Vehicle],
    row: usize,
    column: Option<u32>,
) -> Option<Seat>
    requires row_in { row < length requests.now }
    requires few { length requests.now ≤ LARGEST_BATCH }
    requires rows_are { table.now.rows ≡ length requests.now }
    requires columns_are { table.now.columns ≡ length vehicles.now }
    requires column_in { IfSome column (λ c. c < length vehicles.now) }
    ensures { result ≡ seat_at table.now (ride_ids requests.now)
        (vehicle_ids vehicles.now) row column }
{
    let column = column?;
    let offer = table.cell(row as u32, column)?;
    Some(Seat {
        request: requests[row].id,
        vehicle: vehicles[column as usize].id,
        i: offer.i,
        j: offer.j,
    })
}

/// The seats of the requests whose rows have a column.
pub(crate) fn seats_by(
    alloc: Global,
    table: &PriceTable,
    requests: &[Ride],
    vehicles: &[Vehicle],
    columns: &[Option<u32>],
) -> Result<SeatList, NoMemory>
    requires few { length requests.now ≤ LARGEST_BATCH }
    requires rows_are { table.now.rows ≡ length requests.now }
    requires columns_are { table.now.columns ≡ length vehicles.now }
    requires one_each { length columns.now ≡ length requests.now }
    requires columns_in { (row column : ℕ) → column_of columns.now row ≡ Some column
        → column < length vehicles.now }
    ensures { IfOk result (λ seats. seats
        ≡ seats_by table.now (ride_ids requests.now) (vehicle_ids vehicles.now)
        columns.now (length requests.now)) }
{
    let mut seats = Vec::new(alloc);
    for row in 0..requests.len() {
        if let Some(seat) = seat_at(table, requests, vehicles, row, columns[row]) {
            seats.push(seat)?;
        }
    }
    Ok(SeatList::of(seats))
}

/// Each request with its row's price.
pub fn prices_by(alloc: Global, requests: &[Ride], amounts: &[u64]) -> Result<AmountList, NoMemory>
    requires { length amounts.now ≡ length requests.now }
    ensures { IfOk result (λ prices. prices
        ≡ prices_by (ride_ids requests.now) amounts.now (length requests.now)) }
{
    let mut prices = Vec::with_capacity(alloc, requests.len())?;
    for row in 0..requests.len() {
        prices.push((requests[row].id, amounts[row]))?;
    }
    Ok(AmountList::of(prices))
}

/// The vehicle of this id with what its column pays, if that is anything.
pub fn pay_at(vehicle: u64, amount: u64) -> Option<(u64, u64)>
    ensures { result ≡ pay_at vehicle amount }
{
    if amount == 0 {
        None
    } else {
        Some((vehicle, amount))
    }
}

/// Each vehicle whose column pays, with what it pays.
pub(crate) fn pays_by(
    alloc: Global,
    vehicles: &[Vehicle],
    amounts: &[u64],
) -> Result<AmountList, NoMemory>
    requires { length amounts.now ≡ length vehicles.now }
    ensures { IfOk result (λ pays. pays
        ≡ pays_by (vehicle_ids vehicles.now) amounts.now (length vehicles.now)) }
{
    let mut pays = Vec::new(alloc);
    for column in 0..vehicles.len() {
        if let Some(pay) = pay_at(vehicles[column].id, amounts[column]) {
            pays.push(pay)?;
        }
    }
    Ok(AmountList::of(pays))
}
