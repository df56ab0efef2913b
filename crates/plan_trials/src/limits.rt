// One ride on a road of four nodes, a minute between neighbours.
ghost use Rattle.std.specs.Prelude.{◌≡◌, ◌≤◌, length, true, IsTrue};
ghost use Rattle.ride_model.specs.inner.Vehicle.{IsRoutedSomewhere, IsLawfulSomewhere};
ghost use Rattle.plan_trials.specs.OneRide.{on_the_way, with_rider};
ghost use Rattle.plan_trials.specs.LineRoad.{vehicle_with, is_routed, is_lawful};

use super::line_road::{copy_of_rides, copy_of_stops};
use arrayvec::ArrayVec;
use promises::*;
use ride_model::{Ids, Kind, Ride, Stop, Vehicle};

fn visit(kind: Kind, node: u32, leg: u64) -> Stop
    ensures { result ≡ record { ride = 7; kind = kind; node = node; leg = leg } }
{
    Stop {
        ride: 7,
        kind,
        node,
        leg,
    }
}

fn ride(latest: u64, longest: u64, picked: Option<u64>) -> Ride
    ensures { result ≡ record {
      id = 7;
      from = 2;
      to = 4;
      seats = 1;
      chairs = 0;
      latest = latest;
      longest = longest;
      picked = picked;
    } }
{
    Ride {
        id: 7,
        from: 2,
        to: 4,
        seats: 1,
        chairs: 0,
        latest,
        longest,
        picked,
    }
}

fn vehicle(at: u32, ready: u64, rides: ArrayVec<Ride, 16>, stops: ArrayVec<Stop, 16>) -> Vehicle
    ensures { result ≡ record {
      id = 1;
      seats = 2;
      chairs = 0;
      at = at;
      ready = ready;
      duty = true;
      version = 1;
      rides = rides;
      stops = stops;
    } }
{
    Vehicle {
        id: 1,
        seats: 2,
        chairs: 0,
        at,
        ready,
        duty: true,
        version: 1,
        rides,
        stops,
    }
}

fn approaching(at: u32, ready: u64, leg: u64, latest: u64, longest: u64) -> Vehicle
    ensures { result ≡ on_the_way at ready leg latest longest }
{
    let mut rides = ArrayVec::new();
    rides.push(ride(latest, longest, None));
    let mut stops = ArrayVec::new();
    stops.push(visit(Kind::Pickup, 2, leg));
    stops.push(visit(Kind::Dropoff, 4, 120));
    vehicle(at, ready, rides, stops)
}

// Whether a vehicle at node 1 keeps its promise.
fn is_kept(latest: u64, longest: u64, dwell: u64) -> bool
    requires latest_limit { latest ≤ 1000000000 }
    requires some_seconds { 1 ≤ longest }
    requires longest_limit { longest ≤ 1000000 }
    requires dwell_limit { dwell ≤ 3600 }
{
    let vehicle = approaching(1, 0, 60, latest, longest);
    keeps(&vehicle, 0, dwell)
}

// The rides that a vehicle breaks which is late at the pickup.
fn broken_at_pickup(ready: u64, latest: u64, longest: u64, dwell: u64) -> Ids
    requires ready_limit { ready ≤ 1000003600 }
    requires latest_limit { latest ≤ 1000000000 }
    requires some_seconds { 1 ≤ longest }
    requires longest_limit { longest ≤ 1000000 }
    requires dwell_limit { dwell ≤ 3600 }
{
    let vehicle = approaching(2, ready, 0, latest, longest);
    broken(&vehicle, dwell)
}

// The rides that a vehicle breaks which is late at the drop-off.
fn broken_at_dropoff(ready: u64, longest: u64) -> Ids
    requires after_pickup { 60 ≤ ready }
    requires ready_limit { ready ≤ 1000003600 }
    requires some_seconds { 1 ≤ longest }
    requires longest_limit { longest ≤ 1000000 }
{
    let vehicle = carrying(ready, longest);
    broken(&vehicle, 0)
}

fn carrying(ready: u64, longest: u64) -> Vehicle
    ensures { result ≡ with_rider ready longest }
{
    let mut rides = ArrayVec::new();
    rides.push(ride(600, longest, Some(60)));
    let mut stops = ArrayVec::new();
    stops.push(visit(Kind::Dropoff, 4, 0));
    vehicle(4, ready, rides, stops)
}

#[test]
fn limits_are_exact(rt: HostRuntime) {
    let kept = [
        is_kept(600, 120, 0),
        is_kept(600, 119, 0),
        is_kept(60, 300, 0),
        is_kept(59, 300, 0),
        is_kept(600, 150, 30),
        is_kept(600, 149, 30),
    ];
    assert!(rt; kept == [true, false, true, false, true, false]);
}

/// Whether these rides are broken, in order.
fn are_rides(broken: Ids, rides: &[u64]) -> bool {
    broken.items() == rides
}

#[test]
fn late_vehicle_breaks_its_promise(rt: HostRuntime) {
    let as_said = [
        are_rides(broken_at_pickup(100, 90, 300, 0), &[7]),
        are_rides(broken_at_pickup(100, 600, 300, 0), &[]),
        are_rides(broken_at_pickup(60, 600, 149, 30), &[7]),
        are_rides(broken_at_pickup(60, 600, 150, 30), &[]),
        are_rides(broken_at_dropoff(361, 300), &[7]),
        are_rides(broken_at_dropoff(360, 300), &[]),
    ];
    assert!(rt; as_said == [true; 6], "{as_said:?}");
}

// A vehicle at node 1 of two seats and some chairs, which has promised these rides.
fn promised(ready: u64, chairs: u32, rides: &[Ride], stops: &[Stop]) -> Vehicle
    requires few_rides { length rides.now ≤ 16 }
    requires few_stops { length stops.now ≤ 16 }
    ensures { result ≡ vehicle_with 1 ready 2 chairs rides.now stops.now }
{
    let rides = copy_of_rides(rides);
    let stops = copy_of_stops(stops);
    Vehicle {
        chairs,
        version: 0,
        ..vehicle(1, ready, rides, stops)
    }
}

// Whether a vehicle with so many chairs keeps its promises to these rides.
fn all_kept(chairs: u32, rides: &[Ride], stops: &[Stop]) -> bool
    requires few_rides { length rides.now ≤ 16 }
    requires few_stops { length stops.now ≤ 16 }
    requires routed { IsTrue (is_routed (vehicle_with 1 0 2 chairs rides.now stops.now)) }
{
    let vehicle = promised(0, chairs, rides, stops);
    keeps(&vehicle, 0, 0)
}

// Those of these rides that a vehicle breaks which is ready at a time.
fn all_broken(ready: u64, rides: &[Ride], stops: &[Stop]) -> Ids
    requires few_rides { length rides.now ≤ 16 }
    requires few_stops { length stops.now ≤ 16 }
    requires lawful { IsTrue (is_lawful (vehicle_with 1 ready 2 0 rides.now stops.now)) }
{
    let vehicle = promised(ready, 0, rides, stops);
    broken(&vehicle, 0)
}

macro_rules! ride {
    ($id:expr, $from:expr, $to:expr, $seats:expr, $chairs:expr, $latest:expr) => {
        Ride {
            id: $id,
            from: $from,
            to: $to,
            seats: $seats,
            chairs: $chairs,
            latest: $latest,
            longest: 300,
            picked: None,
        }
    };
}

macro_rules! stop {
    ($ride:expr, $kind:expr, $node:expr, $leg:expr) => {
        Stop {
            ride: $ride,
            kind: $kind,
            node: $node,
            leg: $leg,
        }
    };
}

const SHARED: [Ride; 2] = [ride!(7, 2, 4, 0, 1, 600), ride!(9, 3, 4, 0, 1, 600)];

const SHARED_STOPS: [Stop; 4] = [
    stop!(7, Kind::Pickup, 2, 60),
    stop!(9, Kind::Pickup, 3, 60),
    stop!(9, Kind::Dropoff, 4, 60),
    stop!(7, Kind::Dropoff, 4, 0),
];

const STOPS: [Stop; 4] = [
    stop!(9, Kind::Pickup, 2, 60),
    stop!(9, Kind::Dropoff, 3, 60),
    stop!(7, Kind::Pickup, 3, 0),
    stop!(7, Kind::Dropoff, 4, 60),
];

// Both rides are late, and one of them.
const BOTH: [Ride; 2] = [ride!(7, 3, 4, 1, 0, 219), ride!(9, 2, 3, 1, 0, 159)];

const ONE: [Ride; 2] = [ride!(7, 3, 4, 1, 0, 220), ride!(9, 2, 3, 1, 0, 159)];

#[test]
fn a_chair_is_not_shared_and_broken_rides_come_in_the_order_of_confirmation(rt: HostRuntime) {
    assert!(rt; all_kept(2, &SHARED, &SHARED_STOPS) && !all_kept(1, &SHARED, &SHARED_STOPS));
    let both = are_rides(all_broken(100, &BOTH, &STOPS), &[7, 9]);
    assert!(rt; both && are_rides(all_broken(100, &ONE, &STOPS), &[9]));
}
