//! A road of four nodes in a line, a minute between neighbours: vehicles on it, and the times that an insertion asks for.
ghost use Rattle.std.specs.Prelude.{◌≡◌, ◌≤◌, length, map};
ghost use Rattle.plan_trials.specs.LineRoad.{seconds_between, vehicle_with};
ghost use Rattle.plan_trials.specs.NearInLine.{near_in_line, near_stop_in_line};

use arrayvec::ArrayVec;
use insertion::{Near, NearStop};
use ride_model::{Ride, Stop, Vehicle};

/// Where a vehicle is, and what it takes.
#[derive(Clone, Copy)]
pub struct Car {
    pub at: u32,
    pub ready: u64,
    pub seats: u32,
    pub chairs: u32,
}

/// A vehicle on duty with these rides and stops.
pub fn vehicle(car: Car, rides: &[Ride], stops: &[Stop]) -> Vehicle
    requires few_rides { length rides.now ≤ 16 }
    requires few_stops { length stops.now ≤ 16 }
    ensures { result ≡ vehicle_with car.at car.ready car.seats car.chairs rides.now stops.now }
{
    Vehicle {
        id: 1,
        seats: car.seats,
        chairs: car.chairs,
        at: car.at,
        ready: car.ready,
        duty: true,
        version: 0,
        rides: copy_of_rides(rides),
        stops: copy_of_stops(stops),
    }
}

/// A list of these rides.
pub fn copy_of_rides(rides: &[Ride]) -> ArrayVec<Ride, 16>
    requires { length rides.now ≤ 16 }
    ensures { result.items ≡ rides.now }
{
    let mut copy = ArrayVec::new();
    for ride in rides {
        copy.push(*ride);
    }
    copy
}

/// A list of these stops.
pub fn copy_of_stops(stops: &[Stop]) -> ArrayVec<Stop, 16>
    requires { length stops.now ≤ 16 }
    ensures { result.items ≡ stops.now }
{
    let mut copy = ArrayVec::new();
    for stop in stops {
        copy.push(*stop);
    }
    copy
}

fn seconds_between(x: u32, y: u32) -> u64
    ensures { result ≡ seconds_between x y }
{
    60 * u64::from(x.saturating_sub(y) + y.saturating_sub(x))
}

/// The times between a vehicle's nodes and a ride's.
pub fn near(vehicle: &Vehicle, ride: &Ride) -> Near
    ensures { result ≡ near_in_line vehicle.now ride.now }
{
    Near {
        at_from: Some(seconds_between(vehicle.at, ride.from)),
        at_to: Some(seconds_between(vehicle.at, ride.to)),
        direct: Some(seconds_between(ride.from, ride.to)),
        stops: near_stops(vehicle.stops.as_slice(), ride),
    }
}

fn near_stops(stops: &[Stop], ride: &Ride) -> ArrayVec<NearStop, 16>
    requires { length stops.now ≤ 16 }
    ensures { result.items ≡ map (near_stop_in_line ride.now) stops.now }
{
    let mut near = ArrayVec::new();
    for stop in stops {
        near.push(near_stop(stop, ride));
    }
    near
}

fn near_stop(stop: &Stop, ride: &Ride) -> NearStop
    ensures { result ≡ near_stop_in_line ride.now stop.now }
{
    NearStop {
        to_from: Some(seconds_between(stop.node, ride.from)),
        from_here: Some(seconds_between(ride.from, stop.node)),
        to_to: Some(seconds_between(stop.node, ride.to)),
        to_here: Some(seconds_between(ride.to, stop.node)),
    }
}
