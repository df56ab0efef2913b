//! The grid of travel times from vehicles to requests.
ghost use Rattle.std.specs.Prelude.{◌≡◌, ◌≢◌, ℕ, ◌+◌, ◌*◌, ◌^◌, ◌<◌, ◌≤◌, ◌++◌, [], List, Option, length, map, All, IfOk, IfSome};
ghost use Rattle.std.specs.List.{flat_map};
ghost use Rattle.ride_model.specs.declared.vehicle.Ride.{Ride};
ghost use Rattle.ride_model.specs.Road.{IsNode};
ghost use Rattle.ride_model.specs.declared.limits.TheConstants.{LARGEST_BATCH, LONGEST_REACH, MOST_VEHICLES};
ghost use Rattle.idle_moves.specs.Sheet.{within};
ghost use Rattle.idle_moves.specs.inner.Standby.{cells_of};
ghost use Rattle.idle_moves.specs.inner.Filling.{BeginsWith, with_cell};

use adaptive_roads::{BatchRoads, TravelTimes};
use dual_check::Grid;
use ride_model::{NoMemory, Ride};
use road_times::Side;
use std::alloc::Global;

// A travel time that is within reach.
fn within(reach: u64, time: Option<u64>) -> Option<u64>
    ensures time { result ≡ within reach time }
    ensures limit { IfSome result (λ seconds. seconds ≤ reach) }
{
    match time {
        Some(seconds) if seconds <= reach => Some(seconds),
        _ => None,
    }
}

// Writes an amount into a cell, if there is one.
fn write_cell(grid: &mut Grid, row: u32, column: u32, amount: Option<u64>)
    requires row_in { row < grid.old.rows }
    requires column_in { column < grid.old.columns }
    requires small { IfSome amount (λ a. a < 2 ^ 42) }
    ensures { grid.new ≡ with_cell grid.old (row * grid.old.columns + column) amount }
{
    if let Some(amount) = amount {
        grid.set(row, column, amount);
    }
}

// Writes the times within reach into a row of a grid that has no amounts there.
fn fill_row(grid: &mut Grid, row: u32, reach: u64, times: &[Option<u64>])
    requires row_in { row < grid.old.rows }
    requires columns { length times.now ≡ grid.old.columns }
    requires reach_limit { reach ≤ LONGEST_REACH }
    ensures rows_stay { grid.new.rows ≡ grid.old.rows }
    ensures columns_stay { grid.new.columns ≡ grid.old.columns }
    ensures filled { (before : List (Option ℕ)) → length before ≡ row * grid.old.columns
        → BeginsWith before grid.old
        → BeginsWith (before ++ map (within reach) times.now) grid.new }
{
    for column in 0..grid.columns() {
        write_cell(grid, row, column, within(reach, times[column as usize]));
    }
}

// Writes the times within reach of each request into its row.
fn fill_rows(
    grid: &mut Grid,
    requests: &[Ride],
    towards: &BatchRoads,
    reach: u64,
    times: &mut TravelTimes,
    row_times: &mut [Option<u64>],
)
    requires few { length requests.now ≤ LARGEST_BATCH }
    requires rows { length requests.now ≡ grid.old.rows }
    requires columns { length towards.now.wanted ≡ grid.old.columns }
    requires places { length towards.now.wanted ≡ length row_times.old }
    requires reach_limit { reach ≤ LONGEST_REACH }
    requires roads { towards.now.roads ≡ times.old }
    requires pickups { All (λ (ride : Ride). IsNode times.old ride.from) requests.now }
    requires empty { BeginsWith [] grid.old }
    ensures rows_stay { grid.new.rows ≡ grid.old.rows }
    ensures columns_stay { grid.new.columns ≡ grid.old.columns }
    ensures filled { grid.new.cells ≡ cells_of times.old reach requests.now towards.now.wanted }
    ensures times { times.new ≡ times.old }
{
    for (row, ride) in requests.iter().enumerate() {
        times.row(towards, ride.from, Side::Back, row_times);
        fill_row(grid, row as u32, reach, row_times);
    }
}

/// The grid of the times within reach, with a row for each request and a column for each of the nodes where vehicles stand. It looks
/// whether a hierarchy of the roads is there.
pub(crate) fn times_grid(
    alloc: Global,
    requests: &[Ride],
    nodes: &[u32],
    reach: u64,
    times: &mut TravelTimes,
) -> Result<Grid, NoMemory>
    requires few_rows { length requests.now ≤ LARGEST_BATCH }
    requires few_columns { length nodes.now ≤ MOST_VEHICLES }
    requires reach_limit { reach ≤ LONGEST_REACH }
    requires pickups { All (λ (ride : Ride). IsNode times.old ride.from) requests.now }
    requires stands { All (IsNode times.old) nodes.now }
    ensures grid { IfOk result (λ grid. grid ≡ record {
      rows = length requests.now;
      columns = length nodes.now;
      cells = cells_of times.old reach requests.now nodes.now;
    }) }
    ensures times { times.new ≡ times.old }
{
    let mut grid = Grid::new(alloc, requests.len() as u32, nodes.len() as u32)?;
    let mut row_times = vec![in alloc; None; nodes.len()]?;
    times.look();
    let towards = times.towards(nodes);
    let row = row_times.as_mut_slice();
    fill_rows(&mut grid, requests, &towards, reach, times, row);
    Ok(grid)
}
