//! Loads.
ghost use Rattle.std.specs.Prelude.{◌≡◌, ◌≤◌, ◌+◌, [], length, map, All, is_some, if◌then◌else◌};
ghost use Rattle.ride_model.specs.declared.vehicle.Ride.{Ride};
ghost use Rattle.ride_model.specs.Loads.{is_pickup, load_after, loads_of};
ghost use Rattle.ride_model.specs.inner.Vehicle.{IsRoutedSomewhere};
ghost use Rattle.ride_model.specs.declared.limits.TheConstants.{MOST_RIDES, MOST_STOPS};
ghost use Rattle.stop_plans.specs.inner.Aboard.{boarded, load_aboard, loads_behind, IsSmall};

use arrayvec::ArrayVec;
use ride_model::{Kind, Load, Ride, Stop, Vehicle};

/// What is aboard after each stop.
pub fn loads(vehicle: &Vehicle) -> ArrayVec<Load, 16>
    requires { IsRoutedSomewhere vehicle.now }
    ensures { result.items ≡ loads_of vehicle.now }
{
    loads_along(vehicle.rides.as_slice(), vehicle.stops.as_slice())
}

/// What is aboard at the start.
pub fn load_at_start(vehicle: &Vehicle) -> Load
    requires { IsRoutedSomewhere vehicle.now }
    ensures { result ≡ load_after vehicle.now.rides.items [] }
{
    let rides = vehicle.rides.as_slice();
    load_of(rides, aboard_at_start(rides).as_slice())
}

// What is aboard after each of these stops.
fn loads_along(rides: &[Ride], stops: &[Stop]) -> ArrayVec<Load, 16>
    requires few_rides { length rides.now ≤ MOST_RIDES }
    requires few_stops { length stops.now ≤ MOST_STOPS }
    requires small { All IsSmall rides.now }
    ensures { result.items ≡ loads_behind rides.now
        (map (λ (ride : Ride). is_some ride.picked) rides.now) stops.now }
{
    let mut aboard = aboard_at_start(rides);
    let mut load = load_of(rides, aboard.as_slice());
    let mut loads = ArrayVec::new();
    for stop in stops {
        load = load_behind(rides, aboard.as_mut_slice(), load, stop);
        loads.push(load);
    }
    loads
}

// Whether each rider is aboard at the start.
fn aboard_at_start(rides: &[Ride]) -> ArrayVec<bool, 16>
    requires { length rides.now ≤ MOST_RIDES }
    ensures riders { result.items ≡ map (λ (ride : Ride). is_some ride.picked) rides.now }
    ensures one_each { length result.items ≡ length rides.now }
{
    let mut aboard = ArrayVec::new();
    for ride in rides {
        aboard.push(ride.picked.is_some());
    }
    aboard
}

// Lets the rider of a stop in or out. Returns the load that is aboard then, where this one was before it.
fn load_behind(rides: &[Ride], aboard: &mut [bool], load: Load, stop: &Stop) -> Load
    requires few { length rides.now ≤ MOST_RIDES }
    requires one_flag_each { length aboard.old ≡ length rides.now }
    requires small { All IsSmall rides.now }
    requires aboard { load ≡ load_aboard rides.now aboard.old }
    ensures riders { aboard.new ≡ boarded stop.now rides.now aboard.old }
    ensures load { result ≡ load_aboard rides.now (boarded stop.now rides.now aboard.old) }
{
    let mut load = load;
    for (i, ride) in rides.iter().enumerate() {
        if stop.ride != ride.id {
            continue;
        }
        let is_in = boards(stop);
        load = exchanged(load, part_of(ride, aboard[i]), part_of(ride, is_in));
        aboard[i] = is_in;
    }
    load
}

// Whether a stop's rider is aboard after it.
fn boards(stop: &Stop) -> bool
    ensures { result ≡ is_pickup stop.now.kind }
{
    stop.kind == Kind::Pickup
}

// A load where a part of it is exchanged for another.
fn exchanged(load: Load, part: Load, other: Load) -> Load
    requires seats { (part.seats ≤ load.seats) × (load.seats ≤ 128) × (other.seats ≤ 128) }
    requires chairs { (part.chairs ≤ load.chairs) × (load.chairs ≤ 128) × (other.chairs ≤ 128) }
    ensures seats { result.seats + part.seats ≡ load.seats + other.seats }
    ensures chairs { result.chairs + part.chairs ≡ load.chairs + other.chairs }
{
    Load {
        seats: load.seats - part.seats + other.seats,
        chairs: load.chairs - part.chairs + other.chairs,
    }
}

// A rider's part of the load.
fn part_of(ride: &Ride, aboard: bool) -> Load
    ensures seats { result.seats ≡ (if aboard then ride.now.seats else 0) }
    ensures chairs { result.chairs ≡ (if aboard then ride.now.chairs else 0) }
{
    if aboard {
        Load {
            seats: ride.seats,
            chairs: ride.chairs,
        }
    } else {
        Load::default()
    }
}

// The load of those who are aboard.
fn load_of(rides: &[Ride], aboard: &[bool]) -> Load
    requires few { length rides.now ≤ MOST_RIDES }
    requires one_flag_each { length aboard.now ≡ length rides.now }
    requires small { All IsSmall rides.now }
    ensures { result ≡ load_aboard rides.now aboard.now }
{
    let mut load = Load::default();
    for (i, ride) in rides.iter().enumerate() {
        let part = part_of(ride, aboard[i]);
        load.seats += part.seats;
        load.chairs += part.chairs;
    }
    load
}
