//! Three companies with a vehicle each quote the same two rides, and a round seats the rides over all three.
ghost use Rattle.std.specs.Prelude.{◌≡◌, All, IfOk};
ghost use Rattle.league_trials.specs.OneVehicle.{AreTownRides, IsOneVehicleFleet, IsQuoteOfTwo, IsTownNode};

use super::one_vehicle::{company_of, ride};
use super::rounds::write;
use adaptive_roads::Roads;
use arrayvec::ArrayVec;
use dual_check::{Grid, Paired, certifies_grid};
use fleet_league::{NoMemory, Quote, settle};
use pricing_workers::Pricer;
use ride_model::{Fleet, Ride, Vehicle};
use std::alloc::Global;
use std::process::Abort;
use std::thread::Threads;

// What leaving a ride out costs.
const PENALTY: u64 = 3600;

// What is known by hand of a round: each company's prices of both rides, the companies that the least pairing seats them
// with, and its cost.
#[derive(Clone, Copy)]
struct Case {
    prices: [[Option<u32>; 2]; 3],
    columns: [Option<u32>; 2],
    cost: u64,
}

// A fleet of vehicle 1, idle at a node.
fn fleet_at(alloc: Global, roads: &Roads, node: u32) -> Result<Fleet, NoMemory>
    requires nodes { roads.now.nodes ≡ 4 }
    requires node { IsTownNode node }
    ensures { IfOk result (IsOneVehicleFleet roads.now) }
{
    let mut vehicles = Vec::with_capacity(alloc, 1)?;
    vehicles.push(Vehicle {
        id: 1,
        seats: 2,
        chairs: 0,
        at: node,
        ready: 0,
        duty: true,
        version: 0,
        rides: ArrayVec::new(),
        stops: ArrayVec::new(),
    })?;
    Ok(Fleet::new(vehicles))
}

// What a new company of a fleet quotes for two rides.
fn quote_of<R: Threads + Sync>(
    rt: &R,
    alloc: Global,
    roads: &Roads,
    fleet: Fleet,
    rides: &[Ride; 2],
) -> Result<Quote, NoMemory>
    requires nodes { roads.now.nodes ≡ 4 }
    requires fleet { IsOneVehicleFleet roads.now fleet }
    requires rides { AreTownRides rides.now }
    ensures { IfOk result IsQuoteOfTwo }
{
    let company = company_of(alloc, roads, fleet)?;
    let mut pricer = Pricer::new(alloc, roads, 1)?;
    company.quote(rt, &mut pricer, rides)
}

// What the company of the town's fleet quotes.
fn quote_of_town<R: Threads + Sync>(
    rt: &R,
    alloc: Global,
    roads: &Roads,
    rides: &[Ride; 2],
) -> Result<Quote, NoMemory>
    requires nodes { roads.now.nodes ≡ 4 }
    requires rides { AreTownRides rides.now }
    ensures { IfOk result IsQuoteOfTwo }
{
    let fleet = plan_trials::trial_town::fleet(alloc, roads)?;
    quote_of(rt, alloc, roads, fleet, rides)
}

// What a company whose vehicle is at a node quotes.
fn quote_at<R: Threads + Sync>(
    rt: &R,
    alloc: Global,
    roads: &Roads,
    node: u32,
    rides: &[Ride; 2],
) -> Result<Quote, NoMemory>
    requires nodes { roads.now.nodes ≡ 4 }
    requires node { IsTownNode node }
    requires rides { AreTownRides rides.now }
    ensures { IfOk result IsQuoteOfTwo }
{
    let fleet = fleet_at(alloc, roads, node)?;
    quote_of(rt, alloc, roads, fleet, rides)
}

// A quote's prices are these.
fn expect_prices(rt: &impl Abort, quote: &Quote, prices: &[Option<u32>; 2])
    requires { IsQuoteOfTwo quote.now }
{
    for (ride, price) in prices.iter().enumerate() {
        assert!(rt; quote.prices.cell(ride as u32, 0) == price.map(u64::from));
    }
}

// The prices of all companies.
fn union(alloc: Global, prices: &[[Option<u32>; 2]; 3]) -> Result<Grid, NoMemory> {
    let mut grid = Grid::new(alloc, 2, 3)?;
    write(&mut grid, 0, &prices[0]);
    write(&mut grid, 1, &prices[1]);
    write(&mut grid, 2, &prices[2]);
    Ok(grid)
}

fn total(amounts: &[u64]) -> u64 {
    let mut sum = 0u64;
    for amount in amounts {
        sum = sum.saturating_add(*amount);
    }
    sum
}

// A pairing is the case's, at its cost, and its prices certify it.
fn expect_least(rt: &impl Abort, grid: &Grid, paired: &Paired, case: &Case) {
    assert!(rt; paired.columns.items() == case.columns.as_slice());
    assert!(rt; certifies_grid(grid, PENALTY, paired));
    // A certificate's prices less its pays are the cost.
    let (prices, pays) = (total(paired.prices.items()), total(paired.pays.items()));
    assert!(rt; prices.checked_sub(pays) == Some(case.cost));
}

// The round of quotes is the case's.
fn expect_settled(rt: &impl Abort, alloc: Global, quotes: &[Quote; 3], case: &Case)
    requires { All IsQuoteOfTwo quotes.now }
{
    for (quote, prices) in quotes.iter().zip(&case.prices) {
        expect_prices(rt, quote, prices);
    }
    let Ok(paired) = settle(alloc, PENALTY, quotes) else {
        panic!(rt; "there is memory");
    };
    let Ok(grid) = union(alloc, &case.prices) else {
        panic!(rt; "there is memory");
    };
    expect_least(rt, &grid, &paired, case);
}

// The round of two rides over companies whose vehicles are at nodes 1, 4 and 3 is the case's.
fn expect_round<R: Threads + Sync + Abort>(
    rt: &R,
    alloc: Global,
    roads: &Roads,
    rides: &[Ride; 2],
    case: &Case,
)
    requires nodes { roads.now.nodes ≡ 4 }
    requires rides { AreTownRides rides.now }
{
    let Ok(first) = quote_of_town(rt, alloc, roads, rides) else {
        panic!(rt; "there is memory");
    };
    let Ok(second) = quote_at(rt, alloc, roads, 4, rides) else {
        panic!(rt; "there is memory");
    };
    let Ok(third) = quote_at(rt, alloc, roads, 3, rides) else {
        panic!(rt; "there is memory");
    };
    expect_settled(rt, alloc, &[first, second, third], case);
}

// The nearest vehicle is left to the ride that needs it.
fn nearest() -> Case {
    Case {
        prices: [
            [Some(120), Some(60)],
            [Some(180), Some(240)],
            [Some(120), Some(180)],
        ],
        columns: [Some(2), Some(0)],
        cost: 180,
    }
}

// A company that is far from both rides wins none.
fn far() -> Case {
    Case {
        prices: [
            [Some(180), Some(240)],
            [Some(120), Some(60)],
            [Some(60), Some(120)],
        ],
        columns: [Some(2), Some(1)],
        cost: 120,
    }
}

#[test]
fn rides_are_seated_over_three_companies(rt: HostRuntime) {
    let Ok(roads) = plan_trials::trial_town::roads(rt.alloc()) else {
        panic!(&rt; "there is memory");
    };
    let rides = [ride(6, 2, 1), ride(7, 1, 2)];
    expect_round(&rt, rt.alloc(), &roads, &rides, &nearest());
    let rides = [ride(6, 3, 2), ride(7, 4, 3)];
    expect_round(&rt, rt.alloc(), &roads, &rides, &far());
}
