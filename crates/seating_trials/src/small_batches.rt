//! Batches of two requests over two idle vehicles, and tables of their costs.
ghost use Rattle.std.specs.Prelude.{◌≡◌, ◌≤◌, ◌+◌, ◌<◌, ◌^◌, length};
ghost use Rattle.batch_commit.specs.inner.Table.{HasSmallCosts};

use arrayvec::ArrayVec;
use batch_commit::{Batch, PriceTable};
use ride_model::{Fleet, Joins, Offer, Ride, Settings, Vehicle};
use std::alloc::Global;
use std::process::Abort;

fn request(id: u64) -> Ride
    ensures { result.id ≡ id }
{
    Ride {
        id,
        ..Ride::default()
    }
}

fn idle(id: u64) -> Vehicle
    ensures { result.id ≡ id }
{
    Vehicle {
        id,
        seats: 2,
        chairs: 0,
        at: 1,
        ready: 0,
        duty: true,
        version: 0,
        rides: ArrayVec::new(),
        stops: ArrayVec::new(),
    }
}

// Vehicles 1 and 2.
fn fleet(rt: &impl Abort, alloc: Global) -> Fleet
    ensures { length result ≡ 2 }
{
    let vehicles = vec![in alloc; idle(1), idle(2)];
    Fleet::new(vehicles.expect(rt, "there is memory"))
}

/// A batch of this request and the next one, with vehicles 1 and 2. A request without a seat costs the penalty.
pub(crate) fn batch(rt: &impl Abort, alloc: Global, first: u64, penalty: u64) -> Batch
    requires first { first < 100 }
    requires penalty { penalty ≤ 3600 }
    ensures { (length result.requests ≡ 2) × (length result.vehicles ≡ 2) }
{
    let settings = Settings {
        batch: 32,
        penalty,
        drive: 1,
        wait: 0,
        lead: 0,
        dwell: 0,
        log: 1,
    };
    let requests = vec![in alloc; request(first), request(first + 1)];
    let requests = requests.expect(rt, "there is memory");
    Batch::of(1, 0, 1, settings, requests, fleet(rt, alloc))
}

// Puts a cost, if any, into a cell, with these places of the stops.
fn put(table: &mut PriceTable, request: u32, vehicle: u32, places: (u32, u32), cost: Option<u32>)
    requires request_in { request < table.old.rows }
    requires vehicle_in { vehicle < table.old.columns }
    requires small { HasSmallCosts table.old }
    ensures rows { table.new.rows ≡ table.old.rows }
    ensures columns { table.new.columns ≡ table.old.columns }
    ensures small_still { HasSmallCosts table.new }
{
    if let Some(cost) = cost {
        let offer = Offer {
            i: places.0,
            j: places.1,
            cost: u64::from(cost),
            start: 0,
            joins: Joins::default(),
        };
        table.put(request, vehicle, offer);
    }
}

/// The table of these costs, request by request, where each offer has these places of the stops.
pub(crate) fn table(
    rt: &impl Abort,
    alloc: Global,
    places: (u32, u32),
    costs: &[Option<u32>; 4],
) -> PriceTable
    ensures { (result.rows ≡ 2) × (result.columns ≡ 2) × HasSmallCosts result }
{
    let cells = vec![in alloc; None; 4].expect(rt, "there is memory");
    let mut table = PriceTable::of(2, 2, cells);
    put(&mut table, 0, 0, places, costs[0]);
    put(&mut table, 0, 1, places, costs[1]);
    put(&mut table, 1, 0, places, costs[2]);
    put(&mut table, 1, 1, places, costs[3]);
    table
}
