//! Batches of two requests and three vehicles. Costs and orders were found by hand, over all pairings.
ghost use Rattle.std.specs.Prelude.{◌≡◌, ◌≤◌, All};
ghost use Rattle.ride_model.specs.declared.vehicle.Ride.{Ride};
ghost use Rattle.ride_model.specs.declared.vehicle.Vehicle.{Vehicle};

use adaptive_roads::{Roads, TravelTimes};
use arrayvec::ArrayVec;
use batch_commit::{Answer, Batch};
use idle_moves::{Move, MoveSheet, plan_moves};
use plan_trials::trial_town::settings;
use ride_model::{AmountList, Fleet, Ride, Seat, SeatList, Stop, Vehicle};
use std::alloc::Global;
use std::process::Abort;

/// What a vehicle does.
enum Doing {
    Waits,
    IsOffDuty,
    Drives,
}

use Doing::{Drives, IsOffDuty, Waits};

/// A batch in which requests 7 and 8 are to be picked up at nodes and vehicles 1 to 3 stand at nodes, each with its version, a
/// seating of it, and what is sent ahead.
struct Case {
    pickups: [u32; 2],
    vehicles: [(Doing, u32, u64); 3],
    seats: &'static [Seat],
    reach: u64,
    cost: u64,
    moves: &'static [Move],
    /// The requests without seats.
    left: &'static [u64],
}

/// Vehicle 1 of version 0 is sent two minutes ahead to request 7 at node 3.
const FIRST: Move = Move {
    request: 7,
    vehicle: 1,
    version: 0,
    node: 3,
    seconds: 120,
};

/// Request 8 is seated in vehicle 2.
const EIGHT: Seat = Seat {
    request: 8,
    vehicle: 2,
    i: 0,
    j: 0,
};

static CASES: [Case; 6] = [
    // A request and a vehicle that has no seat, within reach and out of it.
    Case {
        pickups: [3, 2],
        vehicles: [(Waits, 1, 0), (Waits, 3, 0), (IsOffDuty, 3, 1)],
        seats: &[EIGHT],
        reach: 600,
        cost: 120,
        moves: &[FIRST],
        left: &[7],
    },
    Case {
        pickups: [3, 2],
        vehicles: [(Waits, 1, 0), (Waits, 3, 0), (IsOffDuty, 3, 1)],
        seats: &[EIGHT],
        reach: 119,
        cost: 119,
        moves: &[],
        left: &[7],
    },
    // Fewer vehicles than requests.
    Case {
        pickups: [3, 4],
        vehicles: [(Waits, 1, 0), (Drives, 3, 2), (IsOffDuty, 4, 1)],
        seats: &[],
        reach: 600,
        cost: 720,
        moves: &[FIRST],
        left: &[7, 8],
    },
    // More vehicles than requests.
    Case {
        pickups: [3, 2],
        vehicles: [(Waits, 1, 0), (Waits, 3, 0), (Waits, 4, 5)],
        seats: &[EIGHT],
        reach: 600,
        cost: 60,
        moves: &[Move {
            request: 7,
            vehicle: 3,
            version: 5,
            node: 3,
            seconds: 60,
        }],
        left: &[7],
    },
    // The nearest vehicle of the first request is needed for the second one.
    Case {
        pickups: [2, 1],
        vehicles: [(Waits, 1, 3), (Waits, 4, 2), (Drives, 2, 1)],
        seats: &[],
        reach: 600,
        cost: 120,
        moves: &[
            Move {
                request: 7,
                vehicle: 2,
                version: 2,
                node: 2,
                seconds: 120,
            },
            Move {
                request: 8,
                vehicle: 1,
                version: 3,
                node: 1,
                seconds: 0,
            },
        ],
        left: &[7, 8],
    },
    // No vehicle is free.
    Case {
        pickups: [3, 2],
        vehicles: [(Drives, 3, 1), (Waits, 3, 0), (IsOffDuty, 3, 1)],
        seats: &[EIGHT],
        reach: 600,
        cost: 600,
        moves: &[],
        left: &[7],
    },
];

/// A request of one rider.
fn request(rt: &impl Abort, id: u64, from: u32) -> Ride
    ensures id { result.id ≡ id }
    ensures first { 1 ≤ result.from }
    ensures last { result.from ≤ 4 }
{
    assert!(rt; 1 <= from && from <= 4);
    Ride {
        id,
        from,
        seats: 1,
        ..Ride::default()
    }
}

/// A vehicle that stands or drives.
fn vehicle(rt: &impl Abort, id: u64, given: &(Doing, u32, u64)) -> Vehicle
    ensures id { result.id ≡ id }
    ensures first { 1 ≤ result.at }
    ensures last { result.at ≤ 4 }
{
    let (doing, at, version) = given;
    assert!(rt; 1 <= *at && *at <= 4);
    let mut stops = ArrayVec::new();
    if matches!(doing, Drives) {
        stops.push(Stop::default());
    }
    Vehicle {
        id,
        seats: 2,
        chairs: 0,
        at: *at,
        ready: 0,
        duty: !matches!(doing, IsOffDuty),
        version: *version,
        rides: ArrayVec::new(),
        stops,
    }
}

fn fleet(rt: &impl Abort, alloc: Global, case: &Case) -> Fleet
    ensures { All (λ (v : Vehicle). (1 ≤ v.at) × (v.at ≤ 4)) result }
{
    let [first, second, third] = &case.vehicles;
    let vehicles = [
        vehicle(rt, 1, first),
        vehicle(rt, 2, second),
        vehicle(rt, 3, third),
    ];
    Fleet::new(Vec::from_array(alloc, vehicles).expect(rt, "there is memory"))
}

fn batch(rt: &impl Abort, alloc: Global, case: &Case) -> Batch
    ensures stands { All (λ (v : Vehicle). (1 ≤ v.at) × (v.at ≤ 4)) result.vehicles }
    ensures pickups { All (λ (ride : Ride). (1 ≤ ride.from) × (ride.from ≤ 4)) result.requests }
{
    let [first, second] = case.pickups;
    let requests = [request(rt, 7, first), request(rt, 8, second)];
    let requests = Vec::from_array(alloc, requests).expect(rt, "there is memory");
    Batch::of(1, 0, 1, settings(32), requests, fleet(rt, alloc, case))
}

fn answer(rt: &impl Abort, alloc: Global, case: &Case) -> Answer {
    let seats = Vec::from_slice(alloc, case.seats).expect(rt, "there is memory");
    let prices = AmountList::of(Vec::new(alloc));
    let pays = AmountList::of(Vec::new(alloc));
    Answer::of(alloc, SeatList::of(seats), prices, pays).expect(rt, "there is memory")
}

fn sheet(rt: &impl Abort, alloc: Global, roads: &Roads, case: &Case) -> MoveSheet
    requires { roads.now.nodes ≡ 4 }
{
    assert!(rt; case.reach <= 1_000_000);
    let batch = batch(rt, alloc, case);
    let answer = answer(rt, alloc, case);
    let Ok(mut times) = TravelTimes::new(alloc, roads) else {
        panic!(rt; "there is memory");
    };
    let sheet = plan_moves(alloc, &batch, &answer, case.reach, &mut times);
    sheet.expect(rt, "there is memory")
}

/// The prices of the requests that are left out, less the payments, which are above 0, are the cost.
fn expect_amounts(rt: &impl Abort, prices: &[(u64, u64)], pays: &[(u64, u64)], case: &Case) {
    assert!(rt; prices.len() == case.left.len());
    let mut balance = 0u64;
    for ((request, price), left) in prices.iter().zip(case.left) {
        assert!(rt; request == left && *price <= case.reach);
        balance = balance.wrapping_add(*price);
    }
    for (_, pay) in pays {
        assert!(rt; *pay > 0);
        balance = balance.wrapping_sub(*pay);
    }
    assert!(rt; balance == case.cost);
}

fn expect(rt: &impl Abort, sheet: &MoveSheet, case: &Case) {
    assert!(rt; sheet.batch == 1 && sheet.cost == case.cost && sheet.moves.items() == case.moves);
    expect_amounts(rt, sheet.prices.items(), sheet.pays.items(), case);
}

fn expect_all(rt: &impl Abort, alloc: Global, roads: &Roads)
    requires { roads.now.nodes ≡ 4 }
{
    for case in CASES.as_slice() {
        expect(rt, &sheet(rt, alloc, roads, case), case);
    }
}

#[test]
fn idle_vehicles_are_sent_ahead(rt: HostRuntime) {
    let roads = plan_trials::trial_town::roads(rt.alloc()).expect(&rt, "there is memory");
    expect_all(&rt, rt.alloc(), &roads);
    // The same by a hierarchy, which is made in one piece.
    assert!(&rt; roads.prepare(rt.alloc()) && !roads.prepare(rt.alloc()));
    expect_all(&rt, rt.alloc(), &roads);
}
