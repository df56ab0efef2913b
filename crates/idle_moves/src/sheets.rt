//! Sheets of orders.
ghost use Rattle.std.specs.Prelude.{◌≡◌, ◌≤◌, ◌-◌, ◌<◌, ◌^◌, length, sum, List, All, IfOk};
ghost use Rattle.ride_model.specs.declared.vehicle.Ride.{Ride};
ghost use Rattle.ride_model.specs.declared.vehicle.Vehicle.{Vehicle};
ghost use Rattle.ride_model.specs.Road.{IsNode};
ghost use Rattle.ride_model.specs.declared.limits.TheConstants.{LARGEST_BATCH, LONGEST_REACH, MOST_VEHICLES};
ghost use Rattle.dual_check.specs.Grid.{CertifiesPairing};
ghost use Rattle.idle_moves.specs.declared.standby.Standby.{Standby};
ghost use Rattle.idle_moves.specs.Sheet.{IsSheet, IsSheetOver, Shows};
ghost use Rattle.idle_moves.specs.inner.Standby.{AreStandbys};

use crate::MoveSheet;
use crate::grids::times_grid;
use crate::lists::{orders_by, pays_by};
use crate::standby::{Standby, left_out, nodes_of, standing_by};
use adaptive_roads::TravelTimes;
use batch_commit::{Answer, Batch};
use dual_check::{Grid, Paired};
use hungarian::{prices_by, solve_grid};
use ride_model::{NoMemory, Ride};
use std::alloc::Global;

/// The orders that send idle vehicles ahead after a batch: towards requests that the answer's seating leaves out, each within
/// a reach of seconds, by a pairing of least cost in which a request without a vehicle costs the reach. Its prices and payments
/// certify it.
///
/// Travel times are asked for once a request, from the vehicles that stand by alone: by a hierarchy of the roads, once that is
/// there.
pub fn plan_moves(
    alloc: Global,
    batch: &Batch,
    answer: &Answer,
    reach: u64,
    times: &mut TravelTimes,
) -> Result<MoveSheet, NoMemory>
    requires reach_limit { reach ≤ LONGEST_REACH }
    requires pickups { All (λ (ride : Ride). IsNode times.old ride.from) batch.now.requests }
    requires stands { All (λ (v : Vehicle). IsNode times.old v.at) batch.now.vehicles }
    ensures sheet { IfOk result (IsSheet times.old batch.now answer.now.seating reach) }
    ensures times { times.new ≡ times.old }
{
    let seats = answer.seating.items();
    let rides = batch.requests();
    let copies = batch.vehicles().vehicles();
    let requests = left_out(alloc, rides, seats)?;
    let vehicles = standing_by(alloc, copies, seats)?;
    plan_over(
        alloc,
        batch.number(),
        requests.as_slice(),
        vehicles.as_slice(),
        reach,
        times,
    )
}

// The sheet over requests and vehicles.
fn plan_over(
    alloc: Global,
    number: u64,
    requests: &[Ride],
    vehicles: &[Standby],
    reach: u64,
    times: &mut TravelTimes,
) -> Result<MoveSheet, NoMemory>
    requires few_requests { length requests.now ≤ LARGEST_BATCH }
    requires few_vehicles { length vehicles.now ≤ MOST_VEHICLES }
    requires reach_limit { reach ≤ LONGEST_REACH }
    requires pickups { All (λ (ride : Ride). IsNode times.old ride.from) requests.now }
    requires stands { All (λ (vehicle : Standby). IsNode times.old vehicle.node) vehicles.now }
    ensures number { IfOk result (λ sheet. sheet.batch ≡ number) }
    ensures sheet { (fleet : List Vehicle) → AreStandbys vehicles.now fleet
        → IfOk result (IsSheetOver times.old reach requests.now fleet) }
    ensures times { times.new ≡ times.old }
{
    let nodes = nodes_of(alloc, vehicles)?;
    let grid = times_grid(alloc, requests, nodes.as_slice(), reach, times)?;
    let paired = solve_grid(alloc, &grid, reach)?;
    sheet_of(alloc, number, &grid, reach, requests, vehicles, &paired)
}

// The sheet of a pairing that its prices certify.
fn sheet_of(
    alloc: Global,
    number: u64,
    grid: &Grid,
    reach: u64,
    requests: &[Ride],
    vehicles: &[Standby],
    paired: &Paired,
) -> Result<MoveSheet, NoMemory>
    requires few { length requests.now ≤ LARGEST_BATCH }
    requires rows_are { grid.now.rows ≡ length requests.now }
    requires columns_are { grid.now.columns ≡ length vehicles.now }
    requires reach_limit { reach ≤ LONGEST_REACH }
    requires certified { CertifiesPairing grid.now reach paired.now.columns
        paired.now.prices paired.now.pays }
    ensures number { IfOk result (λ sheet. sheet.batch ≡ number) }
    ensures shown { (fleet : List Vehicle) → AreStandbys vehicles.now fleet → IfOk result
        (Shows grid.now reach requests.now fleet paired.now.columns
        paired.now.prices paired.now.pays) }
{
    let columns = paired.columns.items();
    let prices = paired.prices.items();
    let pays = paired.pays.items();
    Ok(MoveSheet {
        batch: number,
        cost: cost_by(prices, pays),
        moves: orders_by(alloc, grid, requests, vehicles, columns)?,
        prices: prices_by(alloc, requests, prices)?,
        pays: pays_by(alloc, vehicles, pays)?,
    })
}

// The prices less the payments: what a pairing costs that they certify.
fn cost_by(prices: &[u64], pays: &[u64]) -> u64
    requires limit { sum prices.now < 2 ^ 64 }
    requires covered { sum pays.now ≤ sum prices.now }
    ensures { result ≡ sum prices.now - sum pays.now }
{
    let total: u64 = prices.iter().sum();
    let paid: u64 = pays.iter().sum();
    total - paid
}
