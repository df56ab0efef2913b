//! The lists of a sheet, from a pairing of requests and vehicles.
ghost use Rattle.std.specs.Prelude.{◌≡◌, ℕ, ◌<◌, ◌≤◌, length, List, IfOk, IfSome, Some};
ghost use Rattle.ride_model.specs.declared.vehicle.Vehicle.{Vehicle};
ghost use Rattle.ride_model.specs.Seating.{vehicle_ids};
ghost use Rattle.ride_model.specs.Vehicle.{ride_ids};
ghost use Rattle.ride_model.specs.declared.limits.TheConstants.{LARGEST_BATCH};
ghost use Rattle.dual_check.specs.Grid.{column_of};
ghost use Rattle.hungarian.specs.Seats.{pays_by};
ghost use Rattle.idle_moves.specs.Sheet.{order_at, orders_by};
ghost use Rattle.idle_moves.specs.inner.Standby.{AreStandbys};

use crate::standby::Standby;
use crate::{Move, MoveList};
use dual_check::Grid;
use hungarian::pay_at;
use ride_model::{AmountList, NoMemory, Ride};
use std::alloc::Global;

// The order to the vehicle of a column, if any, to drive to the request of a row.
fn order_at(
    grid: &Grid,
    requests: &[Ride],
    vehicles: &[Standby],
    row: usize,
    column: Option<u32>,
) -> Option<Move>
    requires row_in { row < length requests.now }
    requires few { length requests.now ≤ LARGEST_BATCH }
    requires rows_are { grid.now.rows ≡ length requests.now }
    requires columns_are { grid.now.columns ≡ length vehicles.now }
    requires column_in { IfSome column (λ c. c < length vehicles.now) }
    ensures { (fleet : List Vehicle) → AreStandbys vehicles.now fleet
        → result ≡ order_at grid.now requests.now fleet row column }
{
    let column = column?;
    let seconds = grid.cell(row as u32, column)?;
    let vehicle = vehicles[column as usize];
    Some(Move {
        request: requests[row].id,
        vehicle: vehicle.vehicle,
        version: vehicle.version,
        node: requests[row].from,
        seconds,
    })
}

/// The orders to the vehicles of the rows' columns.
pub(crate) fn orders_by(
    alloc: Global,
    grid: &Grid,
    requests: &[Ride],
    vehicles: &[Standby],
    columns: &[Option<u32>],
) -> Result<MoveList, NoMemory>
    requires few { length requests.now ≤ LARGEST_BATCH }
    requires rows_are { grid.now.rows ≡ length requests.now }
    requires columns_are { grid.now.columns ≡ length vehicles.now }
    requires one_each { length columns.now ≡ length requests.now }
    requires columns_in { (row column : ℕ) → column_of columns.now row ≡ Some column
        → column < length vehicles.now }
    ensures { (fleet : List Vehicle) → AreStandbys vehicles.now fleet
        → IfOk result (λ moves. moves
        ≡ orders_by grid.now requests.now fleet columns.now (length requests.now)) }
{
    let mut moves = Vec::new(alloc);
    for row in 0..requests.len() {
        if let Some(order) = order_at(grid, requests, vehicles, row, columns[row]) {
            moves.push(order)?;
        }
    }
    Ok(MoveList::of(moves))
}

/// Each vehicle whose column pays, with what it pays.
pub(crate) fn pays_by(
    alloc: Global,
    vehicles: &[Standby],
    amounts: &[u64],
) -> Result<AmountList, NoMemory>
    requires { length amounts.now ≡ length vehicles.now }
    ensures { (fleet : List Vehicle) → AreStandbys vehicles.now fleet
        → IfOk result (λ pays. pays ≡ pays_by (vehicle_ids fleet) amounts.now (length fleet)) }
{
    let mut pays = Vec::new(alloc);
    for column in 0..vehicles.len() {
        if let Some(pay) = pay_at(vehicles[column].vehicle, amounts[column]) {
            pays.push(pay)?;
        }
    }
    Ok(AmountList::of(pays))
}
