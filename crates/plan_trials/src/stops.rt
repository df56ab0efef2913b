// Plans of a vehicle on a road of four nodes, a minute between neighbours.
ghost use Rattle.std.specs.Prelude.{◌≡◌, ◌≤◌, length};
ghost use Rattle.ride_model.specs.inner.Vehicle.{IsRoutedSomewhere, IsLawfulSomewhere};
ghost use Rattle.plan_trials.specs.SmallPlans.{ride_of, pickup_at, dropoff_at, vehicle_of, promised, pooled, arrived, carrying};

use super::line_road::{copy_of_rides, copy_of_stops};
use arrayvec::ArrayVec;
use ride_model::{Joins, Kind, Load, Offer, Reply, Ride, Stop, Vehicle};
use stop_plans::*;

fn ride(id: u64, from: u32, to: u32, picked: Option<u64>) -> Ride
    ensures { result ≡ ride_of id from to picked }
{
    Ride {
        id,
        from,
        to,
        seats: 1,
        chairs: 0,
        latest: 600,
        longest: 300,
        picked,
    }
}

fn pickup(ride: u64, node: u32, leg: u64) -> Stop
    ensures { result ≡ pickup_at ride node leg }
{
    Stop {
        ride,
        kind: Kind::Pickup,
        node,
        leg,
    }
}

fn dropoff(ride: u64, node: u32, leg: u64) -> Stop
    ensures { result ≡ dropoff_at ride node leg }
{
    Stop {
        ride,
        kind: Kind::Dropoff,
        node,
        leg,
    }
}

fn vehicle(at: u32, ready: u64, rides: &[Ride], stops: &[Stop]) -> Vehicle
    requires few_rides { length rides.now ≤ 16 }
    requires few_stops { length stops.now ≤ 16 }
    ensures { result ≡ vehicle_of at ready rides.now stops.now }
{
    Vehicle {
        id: 1,
        seats: 2,
        chairs: 0,
        at,
        ready,
        duty: true,
        version: 1,
        rides: copy_of_rides(rides),
        stops: copy_of_stops(stops),
    }
}

fn promised_vehicle() -> Vehicle
    ensures { result ≡ promised }
{
    let stops = [pickup(7, 2, 60), dropoff(7, 4, 120)];
    vehicle(1, 0, &[ride(7, 2, 4, None)], &stops)
}

fn pooled_vehicle() -> Vehicle
    ensures value { result ≡ pooled }
    ensures routed { IsRoutedSomewhere result }
{
    let rides = [ride(7, 2, 4, None), ride(9, 3, 4, None)];
    let stops = [
        pickup(7, 2, 60),
        pickup(9, 3, 60),
        dropoff(9, 4, 60),
        dropoff(7, 4, 0),
    ];
    vehicle(1, 0, &rides, &stops)
}

fn arrived_vehicle() -> Vehicle
    ensures { result ≡ arrived }
{
    let stops = [pickup(7, 2, 0), dropoff(7, 4, 120)];
    vehicle(2, 60, &[ride(7, 2, 4, None)], &stops)
}

fn carrying_vehicle() -> Vehicle
    ensures { result ≡ carrying }
{
    vehicle(4, 210, &[ride(7, 2, 4, Some(60))], &[dropoff(7, 4, 0)])
}

fn are_times(times: ArrayVec<u64, 16>, wanted: &[u64]) -> bool {
    times.as_slice() == wanted
}

/// Whether the seats that are taken after each stop are these, and no chairs.
fn are_loads(loads: ArrayVec<Load, 16>, seats: [u32; 4]) -> bool {
    let wanted = seats.map(|seats| Load { seats, chairs: 0 });
    loads.as_slice() == wanted.as_slice()
}

fn pooled_plan_has_its_times_and_loads() -> bool {
    let vehicle = pooled_vehicle();
    let start = Load {
        seats: 0,
        chairs: 0,
    };
    are_times(times(&vehicle, 0, 0), &[60, 120, 180, 180])
        & are_times(times(&vehicle, 5, 30), &[65, 155, 245, 275])
        & are_loads(loads(&vehicle), [1, 2, 1, 0])
        & (load_at_start(&vehicle) == start)
}

fn has_plan(vehicle: &Vehicle, rides: &[Ride], stops: &[Stop]) -> bool {
    vehicle.rides.as_slice() == rides && vehicle.stops.as_slice() == stops
}

/// Whether two vehicles have one plan.
fn same_plan(vehicle: &Vehicle, other: Vehicle) -> bool {
    has_plan(vehicle, other.rides.as_slice(), other.stops.as_slice())
}

fn ride_goes_in() -> bool {
    let joins = Joins {
        to_pickup: 60,
        after_pickup: 60,
        to_dropoff: 60,
        after_dropoff: 0,
    };
    let offer = Offer {
        i: 1,
        j: 1,
        cost: 0,
        start: 0,
        joins,
    };
    let mut vehicle = promised_vehicle();
    insert_ride(&mut vehicle, ride(9, 3, 4, None), &offer);
    same_plan(&vehicle, pooled_vehicle()) & (vehicle.version == 1)
}

fn ride_goes_out() -> bool {
    let mut vehicle = pooled_vehicle();
    remove_ride(&mut vehicle, 9, 120, 120);
    same_plan(&vehicle, promised_vehicle())
}

/// Whether the call that a law is of takes the ride out too.
fn law_takes_the_ride_out() -> bool {
    let mut vehicle = pooled_vehicle();
    laws::removal_law(&mut vehicle, 9, 120, 120);
    same_plan(&vehicle, promised_vehicle())
}

#[test]
fn a_pooled_plan_has_its_times_and_a_ride_goes_in_and_out_again(rt: HostRuntime) {
    assert!(rt; pooled_plan_has_its_times_and_loads());
    assert!(rt; ride_goes_in() && ride_goes_out() && law_takes_the_ride_out());
}

fn is_picked(reply: Reply) -> bool {
    matches!(reply, Reply::Picked { ride: 7 })
}

fn pickup_is_served() -> bool {
    let mut vehicle = arrived_vehicle();
    let picked = is_picked(serve_first(&mut vehicle, 30));
    let rides = [ride(7, 2, 4, Some(60))];
    let stops = [dropoff(7, 4, 120)];
    picked & (vehicle.ready == 90) & has_plan(&vehicle, &rides, &stops)
}

fn is_dropped(reply: Reply) -> bool {
    matches!(reply, Reply::Dropped { ride: 7 })
}

fn dropoff_is_served() -> bool {
    let mut vehicle = carrying_vehicle();
    let dropped = is_dropped(serve_first(&mut vehicle, 30));
    dropped & (vehicle.ready == 240) & has_plan(&vehicle, &[], &[])
}

#[test]
fn pickup_and_dropoff_are_served(rt: HostRuntime) {
    assert!(rt; pickup_is_served() && dropoff_is_served());
}
