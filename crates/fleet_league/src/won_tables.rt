//! The rows of a table that belong to the rides of wins.
ghost use Rattle.std.specs.Prelude.{◌≡◌, ◌≤◌, ◌<◌, ◌++◌, ◌==◌, length, position, nat_eq, All, Contains, IfOk, OnOk};
ghost use Rattle.std.specs.List.{IsDistinct};
ghost use Rattle.ride_model.specs.declared.vehicle.Ride.{Ride};
ghost use Rattle.ride_model.specs.Road.{RoadMap};
ghost use Rattle.ride_model.specs.State.{State};
ghost use Rattle.ride_model.specs.Vehicle.{ride_ids};
ghost use Rattle.ride_model.specs.declared.limits.TheConstants.{LARGEST_BATCH};
ghost use Rattle.batch_commit.specs.inner.Table.{IsTableOf};
ghost use Rattle.fleet_league.specs.Awards.{won_rides};
ghost use Rattle.fleet_league.specs.inner.Quoting.{offer_row, place_of, quoting_batch};

use crate::Win;
use batch_commit::PriceTable;
use ride_model::{NoMemory, Offer, Ride};
use std::alloc::Global;

/// The table of the rides of wins, whose rows are copied from a table of rides that they are of.
pub fn table_of_won(
    alloc: Global,
    table: &PriceTable,
    vehicles: u32,
    rides: &[Ride],
    wins: &[Win],
) -> Result<PriceTable, NoMemory>
    requires rows_are { table.now.rows ≡ length rides.now }
    requires vehicles_are { vehicles ≡ table.now.columns }
    requires few_rides { length rides.now ≤ LARGEST_BATCH }
    requires few_wins { length wins.now ≤ LARGEST_BATCH }
    requires differ { IsDistinct nat_eq (ride_ids rides.now) }
    requires of_them { All (Contains rides.now) (won_rides wins.now) }
    ensures { (roads : RoadMap) (s : State) → IsTableOf roads (quoting_batch s rides.now) table.now
        → IfOk result (IsTableOf roads (quoting_batch s (won_rides wins.now))) }
{
    let mut cells = Vec::with_capacity(alloc, wins.len() * vehicles as usize)?;
    for win in wins {
        let row = place_of(rides, win.ride.id);
        add_offers(table, row as u32, vehicles, &mut cells)?;
    }
    Ok(PriceTable::of(wins.len() as u32, vehicles, cells))
}

// The place of the ride of an id, or 0 where there is none.
fn place_of(rides: &[Ride], id: u64) -> usize
    ensures { result ≡ place_of rides.now id }
{
    find_place(rides, id).unwrap_or(0)
}

// The place of the first ride of an id.
fn find_place(rides: &[Ride], id: u64) -> Option<usize>
    ensures { result ≡ position (λ (ride : Ride). ride.id == id) rides.now }
{
    rides.iter().position(|ride| ride.id == id)
}

// Adds the offers in a row of a table.
fn add_offers(
    table: &PriceTable,
    row: u32,
    vehicles: u32,
    cells: &mut Vec<Option<Offer>>,
) -> Result<(), NoMemory>
    requires row_in { row < table.now.rows }
    requires vehicles_are { vehicles ≡ table.now.columns }
    ensures { OnOk result (cells.new.items ≡ cells.old.items ++ offer_row table.now row vehicles) }
{
    for vehicle in 0..vehicles {
        cells.push(table.cell(row, vehicle).copied())?;
    }
    Ok(())
}
