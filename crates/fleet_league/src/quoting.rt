//! What a company quotes: its vehicles as they stand, priced as the vehicles of a batch are.
ghost use Rattle.std.specs.Prelude.{◌≡◌, ◌≤◌, ◌<◌, ◌++◌, length, nat_eq, All, IfOk, OnOk, IsTrue};
ghost use Rattle.std.specs.List.{IsDistinct};
ghost use Rattle.ride_model.specs.Legal.{versions_of};
ghost use Rattle.ride_model.specs.Road.{RoadMap};
ghost use Rattle.ride_model.specs.Vehicle.{ride_ids};
ghost use Rattle.ride_model.specs.declared.limits.TheConstants.{LARGEST_BATCH};
ghost use Rattle.batch_commit.specs.inner.Table.{cell_at, FitsBatch, IsPriceable, IsTableOf};
ghost use Rattle.board_core.specs.Recorded.{state_of};
ghost use Rattle.fleet_league.specs.Awards.{won_rides};
ghost use Rattle.fleet_league.specs.Prices.{prices_by, prices_of};
ghost use Rattle.fleet_league.specs.inner.Prices.{IsNewRide};
ghost use Rattle.fleet_league.specs.inner.Quoting.{quoting_batch, cost_in, cost_row};
ghost use Rattle.fleet_league.specs.inner.Round.{IsPriced};

use crate::{Company, PriceRows, Quote, Win};
use batch_commit::{Batch, PriceTable};
use pricing_workers::{Pricer, price_batch};
use ride_model::{Fleet, NoMemory, Ride, Vehicle, VersionList};
use ride_ports::OpenGate;
use std::alloc::Global;
use std::thread::Threads;

/// A quote with the table that its prices are of.
#[derive(Drop)]
pub struct PricedQuote {
    pub quote: Quote,
    pub table: PriceTable,
}

impl<'r> Company<'r> {
    /// The company's vehicles with their versions, and their prices for rides at its clock. Nothing changes.
    pub fn quote<R: Threads + Sync>(
        &self,
        rt: &R,
        pricer: &mut Pricer,
        rides: &[Ride],
    ) -> Result<Quote, NoMemory>
        requires is_open { IsTrue self.now.is_open }
        requires roads { pricer.old ≡ self.now.board.start.roads }
        requires few { length rides.now ≤ LARGEST_BATCH }
        requires rides { All (IsNewRide (state_of self.now.board)) rides.now }
        requires ids_differ { IsDistinct nat_eq (ride_ids rides.now) }
        ensures time { IfOk result (λ quote. quote.time ≡ (state_of self.now.board).clock) }
        ensures plans { IfOk result (λ quote. quote.plans
            ≡ versions_of (state_of self.now.board).vehicles) }
        ensures prices { IfOk result (λ quote. quote.prices
            ≡ prices_of (state_of self.now.board) rides.now) }
        ensures priced { IfOk result (λ quote. IsPriced quote.prices) }
        ensures pricer { pricer.new ≡ pricer.old }
    {
        let priced = self.quote_with_table(rt, pricer, rides)?;
        Ok(priced.quote)
    }

    /// The same, with the table of the rides.
    pub fn quote_with_table<R: Threads + Sync>(
        &self,
        rt: &R,
        pricer: &mut Pricer,
        rides: &[Ride],
    ) -> Result<PricedQuote, NoMemory>
        requires is_open { IsTrue self.now.is_open }
        requires roads { pricer.old ≡ self.now.board.start.roads }
        requires few { length rides.now ≤ LARGEST_BATCH }
        requires rides { All (IsNewRide (state_of self.now.board)) rides.now }
        requires ids_differ { IsDistinct nat_eq (ride_ids rides.now) }
        ensures time { IfOk result (λ priced. priced.quote.time ≡ (state_of self.now.board).clock) }
        ensures plans { IfOk result (λ priced. priced.quote.plans
            ≡ versions_of (state_of self.now.board).vehicles) }
        ensures prices { IfOk result (λ priced. priced.quote.prices
            ≡ prices_of (state_of self.now.board) rides.now) }
        ensures priced { IfOk result (λ priced. IsPriced priced.quote.prices) }
        ensures table { IfOk result (λ priced. IsTableOf self.now.board.start.roads
            (quoting_batch (state_of self.now.board) rides.now) priced.table) }
        ensures pricer { pricer.new ≡ pricer.old }
    {
        // This call tells that the history is legal.
        let _history = self.board.entries();
        let batch = self.batch_of(rides)?;
        let table = price_batch(rt, &batch, pricer, &OpenGate)?;
        let plans = versions_of(self.alloc, self.board.vehicles())?;
        let prices = prices_in(self.alloc, &batch, &table)?;
        let quote = Quote {
            time: self.board.now(),
            plans: VersionList::of(plans),
            prices,
        };
        Ok(PricedQuote { quote, table })
    }

    /// The table of the rides of wins, over the vehicles as they stand.
    pub(crate) fn price_won<R: Threads + Sync>(
        &self,
        rt: &R,
        pricer: &mut Pricer,
        wins: &[Win],
    ) -> Result<PriceTable, NoMemory>
        requires roads { pricer.old ≡ self.now.board.start.roads }
        requires few { length wins.now ≤ LARGEST_BATCH }
        requires rides { All (IsNewRide (state_of self.now.board)) (won_rides wins.now) }
        requires ids_differ { IsDistinct nat_eq (ride_ids (won_rides wins.now)) }
        ensures table { IfOk result (IsTableOf self.now.board.start.roads
            (quoting_batch (state_of self.now.board) (won_rides wins.now))) }
        ensures pricer { pricer.new ≡ pricer.old }
    {
        let rides = won_rides(self.alloc, wins)?;
        let batch = self.batch_of(&rides)?;
        price_batch(rt, &batch, pricer, &OpenGate)
    }

    // Rides as the requests of a batch that no desk has opened, over the vehicles as they stand.
    fn batch_of(&self, rides: &[Ride]) -> Result<Batch, NoMemory>
        requires few { length rides.now ≤ LARGEST_BATCH }
        requires rides { All (IsNewRide (state_of self.now.board)) rides.now }
        requires ids_differ { IsDistinct nat_eq (ride_ids rides.now) }
        ensures batch { IfOk result (λ batch. batch
            ≡ quoting_batch (state_of self.now.board) rides.now) }
        ensures priceable { IfOk result (IsPriceable self.now.board.start.roads) }
    {
        // This call tells that the history is legal.
        let _history = self.board.entries();
        let mut requests = Vec::with_capacity(self.alloc, rides.len())?;
        requests.extend_from_slice(rides)?;
        let vehicles = copies_of(self.alloc, self.board.vehicles())?;
        let time = self.board.now();
        Ok(Batch::of(0, time, 0, self.settings, requests, Fleet::new(vehicles)))
    }
}

// The rides of wins.
fn won_rides(alloc: Global, wins: &[Win]) -> Result<Vec<Ride>, NoMemory>
    ensures { IfOk result (λ rides. rides.items ≡ won_rides wins.now) }
{
    wins.iter().map(|win| win.ride).collect(alloc)
}

// Copies of vehicles.
fn copies_of(alloc: Global, vehicles: &[Vehicle]) -> Result<Vec<Vehicle>, NoMemory>
    ensures { IfOk result (λ copies. copies.items ≡ vehicles.now) }
{
    let mut copies = Vec::with_capacity(alloc, vehicles.len())?;
    for vehicle in vehicles {
        copies.push(vehicle.copy())?;
    }
    Ok(copies)
}

// The vehicles' versions.
fn versions_of(alloc: Global, vehicles: &[Vehicle]) -> Result<Vec<(u64, u64)>, NoMemory>
    ensures { IfOk result (λ versions. versions.items ≡ versions_of vehicles.now) }
{
    vehicles
        .iter()
        .map(|vehicle| (vehicle.id, vehicle.version))
        .collect(alloc)
}

// The costs in a batch's table.
fn prices_in(alloc: Global, batch: &Batch, table: &PriceTable) -> Result<PriceRows, NoMemory>
    requires fits { FitsBatch batch.now table.now }
    ensures { (roads : RoadMap) → IsTableOf roads batch.now table.now
        → IfOk result (λ prices. prices
        ≡ prices_by roads batch.now.settings batch.now.time batch.now.vehicles batch.now.requests) }
{
    let rides = batch.requests().len();
    let vehicles = batch.vehicles().vehicles().len();
    let mut cells = Vec::with_capacity(alloc, rides * vehicles)?;
    for ride in 0..rides {
        add_row(table, ride as u32, vehicles as u32, &mut cells)?;
    }
    Ok(PriceRows::of(rides as u32, vehicles as u32, cells))
}

// Adds the costs in a row of a table.
fn add_row(
    table: &PriceTable,
    ride: u32,
    vehicles: u32,
    cells: &mut Vec<Option<u64>>,
) -> Result<(), NoMemory>
    requires ride_in { ride < table.now.rows }
    requires vehicles_are { vehicles ≡ table.now.columns }
    ensures { OnOk result (cells.new.items ≡ cells.old.items ++ cost_row table.now ride vehicles) }
{
    for vehicle in 0..vehicles {
        cells.push(cost_at(table, ride, vehicle))?;
    }
    Ok(())
}

// The cost in a cell of a table.
fn cost_at(table: &PriceTable, ride: u32, vehicle: u32) -> Option<u64>
    requires ride_in { ride < table.now.rows }
    requires vehicle_in { vehicle < table.now.columns }
    ensures { result ≡ cost_in (cell_at table.now ride vehicle) }
{
    table.cell(ride, vehicle).map(|offer| offer.cost)
}
