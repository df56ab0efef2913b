//! The cheapest places for one more ride in a plan of 14 stops, on a road of four nodes in a line, a minute between neighbours.
ghost use Rattle.std.specs.Prelude.{◌≡◌, ◌≤◌, length, false, IsTrue};
ghost use Rattle.ride_model.specs.Offers.{is_idle};
ghost use Rattle.plan_trials.specs.LineRoad.{vehicle_with};
ghost use Rattle.plan_trials.specs.NearInLine.{near_in_line, may_be_asked};
ghost use Rattle.ride_bench.specs.Places.{settings};
ghost use Rattle.slack_tables.specs.inner.SlackOf.{slack_of};

use crate::stopwatch::Stopwatch;
use insertion::{Near, best_place};
use plan_trials::line_road::{self, Car, near};
use ride_model::{Kind, Ride, Settings, Stop, Vehicle};
use slack_tables::{Slack, best_place_fast};
use std::io;
use std::rt::Clock;

const SETTINGS: Settings = Settings {
    batch: 32,
    penalty: 3600,
    drive: 1,
    wait: 1,
    lead: 0,
    dwell: 30,
    log: 1,
};

/// When the vehicle is ready.
const READY: u64 = 1_000;

macro_rules! ride {
    ($id:expr, $from:expr) => {
        Ride {
            id: $id,
            from: $from,
            to: 4,
            seats: 1,
            chairs: 0,
            latest: 3_000,
            longest: 3_000,
            picked: None,
        }
    };
}

macro_rules! stop {
    ($ride:expr, $kind:expr, $node:expr, $leg:expr) => {
        Stop {
            ride: $ride,
            kind: $kind,
            node: $node,
            leg: $leg,
        }
    };
}

// Seven rides from node 2 to node 4.
const RIDES: [Ride; 7] = [
    ride!(1, 2),
    ride!(2, 2),
    ride!(3, 2),
    ride!(4, 2),
    ride!(5, 2),
    ride!(6, 2),
    ride!(7, 2),
];

const STOPS: [Stop; 14] = [
    stop!(1, Kind::Pickup, 2, 60),
    stop!(2, Kind::Pickup, 2, 0),
    stop!(3, Kind::Pickup, 2, 0),
    stop!(1, Kind::Dropoff, 4, 120),
    stop!(4, Kind::Pickup, 2, 120),
    stop!(2, Kind::Dropoff, 4, 120),
    stop!(5, Kind::Pickup, 2, 120),
    stop!(3, Kind::Dropoff, 4, 120),
    stop!(6, Kind::Pickup, 2, 120),
    stop!(7, Kind::Pickup, 2, 0),
    stop!(4, Kind::Dropoff, 4, 120),
    stop!(5, Kind::Dropoff, 4, 0),
    stop!(6, Kind::Dropoff, 4, 0),
    stop!(7, Kind::Dropoff, 4, 0),
];

// The ride that is asked for.
const NINE: Ride = ride!(9, 3);

fn vehicle(rides: &[Ride], stops: &[Stop]) -> Vehicle
    requires few_rides { length rides.now ≤ 16 }
    requires few_stops { length stops.now ≤ 16 }
    ensures { result ≡ vehicle_with 1 1000 16 0 rides.now stops.now }
{
    let car = Car {
        at: 1,
        ready: READY,
        seats: 16,
        chairs: 0,
    };
    line_road::vehicle(car, rides, stops)
}

/// What both searches found, and the nanoseconds that they and the tables took.
#[derive(Clone, Copy)]
struct Times {
    plain_sum: u64,
    fast_sum: u64,
    plain: u128,
    fast: u128,
    tables: u128,
}

/// Asks the vehicle with this plan for a ride, so many times by each search.
fn time(rt: &impl Clock, rides: &[Ride], stops: &[Stop], ride: &Ride, turns: u64) -> Times
    requires few_rides { length rides.now ≤ 16 }
    requires few_stops { length stops.now ≤ 16 }
    requires asked { IsTrue (may_be_asked
        (vehicle_with 1 1000 16 0 rides.now stops.now) ride.now settings) }
    requires drives { is_idle (vehicle_with 1 1000 16 0 rides.now stops.now) ≡ false }
    requires turns { turns ≤ 1000 }
{
    let vehicle = vehicle(rides, stops);
    let near = near(&vehicle, ride);
    time_vehicle(rt, &vehicle, ride, &near, turns)
}

/// Makes the tables of a vehicle and asks it for a ride.
fn time_vehicle(rt: &impl Clock, vehicle: &Vehicle, ride: &Ride, near: &Near, turns: u64) -> Times
    requires asked { IsTrue (may_be_asked vehicle.now ride.now settings) }
    requires near { near.now ≡ near_in_line vehicle.now ride.now }
    requires drives { is_idle vehicle.now ≡ false }
    requires turns { turns ≤ 1000 }
{
    let watch = Stopwatch::start(rt);
    let slack = tables_of(vehicle, ride);
    let tables = watch.elapsed(rt).as_nanos();
    let (plain_sum, plain) = time_plain(rt, vehicle, ride, near, turns);
    let (fast_sum, fast) = time_fast(rt, vehicle, &slack, ride, near, turns);
    Times {
        plain_sum,
        fast_sum,
        plain,
        fast,
        tables,
    }
}

/// The sum of the least costs at so many times by the plain search, and its nanoseconds.
fn time_plain(
    rt: &impl Clock,
    vehicle: &Vehicle,
    ride: &Ride,
    near: &Near,
    turns: u64,
) -> (u64, u128)
    requires asked { IsTrue (may_be_asked vehicle.now ride.now settings) }
    requires near { near.now ≡ near_in_line vehicle.now ride.now }
    requires turns { turns ≤ 1000 }
{
    let watch = Stopwatch::start(rt);
    let mut sum = 0u64;
    for now in 0..turns {
        if let Some(offer) = best_place(vehicle, ride, now, &SETTINGS, near) {
            sum = sum.wrapping_add(offer.cost);
        }
    }
    (sum, watch.elapsed(rt).as_nanos())
}

/// The same by slack.
fn time_fast(
    rt: &impl Clock,
    vehicle: &Vehicle,
    slack: &Slack,
    ride: &Ride,
    near: &Near,
    turns: u64,
) -> (u64, u128)
    requires asked { IsTrue (may_be_asked vehicle.now ride.now settings) }
    requires near { near.now ≡ near_in_line vehicle.now ride.now }
    requires drives { is_idle vehicle.now ≡ false }
    requires slack { slack.now ≡ slack_of vehicle.now vehicle.now.ready 30 }
    requires turns { turns ≤ 1000 }
{
    let watch = Stopwatch::start(rt);
    let mut sum = 0u64;
    for now in 0..turns {
        if let Some(offer) = best_place_fast(vehicle, slack, ride, now, &SETTINGS, near) {
            sum = sum.wrapping_add(offer.cost);
        }
    }
    (sum, watch.elapsed(rt).as_nanos())
}

/// The tables of a vehicle that may be asked for a ride.
fn tables_of(vehicle: &Vehicle, ride: &Ride) -> Slack
    requires asked { IsTrue (may_be_asked vehicle.now ride.now settings) }
    ensures { result ≡ slack_of vehicle.now vehicle.now.ready 30 }
{
    // The ride is named for the proof alone.
    let _ride = ride;
    Slack::of(vehicle, vehicle.ready, SETTINGS.dwell)
}

/// Asks the vehicle with the seven rides for one more, so many times by each search.
fn time_nine(rt: &impl Clock, turns: u64) -> Times
    requires turns { turns ≤ 1000 }
{
    time(rt, &RIDES, &STOPS, &NINE, turns)
}

/// Prints the sums of both searches at a few times.
pub fn small(rt: &(impl Clock + Print)) -> io::Result<()> {
    let times = time_nine(rt, 4);
    let (plain, fast) = (times.plain_sum, times.fast_sum);
    println!(rt; "places plain {plain} by slack {fast}")
}

/// The best of 21 turns of 1,000 times each.
fn best_times(rt: &impl Clock) -> Times {
    let mut best = time_nine(rt, 1000);
    for _ in 0..20 {
        let times = time_nine(rt, 1000);
        best.plain = best.plain.min(times.plain);
        best.fast = best.fast.min(times.fast);
        best.tables = best.tables.min(times.tables);
    }
    best
}

/// Times both searches.
pub fn places(rt: &(impl Clock + Print)) -> io::Result<()> {
    let best = best_times(rt);
    println!(rt; "sums {} and {}", best.plain_sum, best.fast_sum)?;
    let (plain, fast, tables) = (best.plain / 1000, best.fast / 1000, best.tables);
    println!(rt; "120 place pairs: plain {plain} ns, by slack {fast} ns, tables {tables} ns")
}
