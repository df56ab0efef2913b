// Trials on a road of four nodes in a line, a minute between neighbours.
ghost use Rattle.std.specs.Prelude.{◌≡◌, ◌≤◌, length, IfSome, IsTrue, Some};
ghost use Rattle.ride_model.specs.declared.offer.Offer.{Offer};
ghost use Rattle.ride_model.specs.Offers.{offer_of};
ghost use Rattle.plan_trials.specs.SmallPlans.{four_nodes};
ghost use Rattle.insertion.specs.inner.Asked.{IsAsked};
ghost use Rattle.plan_trials.specs.LineRoad.{is_lawful, vehicle_with};
ghost use Rattle.plan_trials.specs.NearInLine.{near_in_line, may_be_asked};

use super::line_road::{Car, near, vehicle};
use insertion::prices::{number_of_stops, start_of};
use insertion::{best_place, offer_at};
use promises::broken;
use ride_model::{Ids, Kind, Offer, Ride, Settings, Stop, Vehicle};
use slack_tables::*;

// The answer of the search by slack.
pub(crate) fn fast(vehicle: &Vehicle, ride: &Ride, settings: &Settings) -> Option<Offer>
    requires { IsAsked four_nodes vehicle.now ride.now 0 settings.now
        (near_in_line vehicle.now ride.now) }
    ensures { IfSome result (λ (offer : Offer). offer_of four_nodes settings.now vehicle.now
        ride.now 0 offer.i offer.j ≡ Some offer) }
{
    let near = near(vehicle, ride);
    let start = start_of(vehicle, settings.lead, 0);
    let slack = Slack::of(vehicle, start, settings.dwell);
    best_place_fast(vehicle, &slack, ride, 0, settings, &near)
}

// The least cost, where the plain search says the same, and the offer is that of its places.
fn cost(car: Car, rides: &[Ride], stops: &[Stop], ride: Ride, settings: Settings) -> Option<u64>
    requires few_rides { length rides.now ≤ 16 }
    requires few_stops { length stops.now ≤ 16 }
    requires asked { IsTrue (may_be_asked
        (vehicle_with car.at car.ready car.seats car.chairs rides.now stops.now) ride settings) }
{
    let vehicle = vehicle(car, rides, stops);
    let fast = fast(&vehicle, &ride, &settings);
    if agrees(fast, &vehicle, &ride, &settings) {
        fast.map(|offer| offer.cost)
    } else {
        Some(u64::MAX)
    }
}

// Whether an answer costs what the plain search's does, no pair of places is cheaper, and the offer is that of its places.
pub(crate) fn agrees(
    fast: Option<Offer>,
    vehicle: &Vehicle,
    ride: &Ride,
    settings: &Settings,
) -> bool
    requires { IsAsked four_nodes vehicle.now ride.now 0 settings.now
        (near_in_line vehicle.now ride.now) }
{
    let near = near(vehicle, ride);
    let slow = best_place(vehicle, ride, 0, settings, &near);
    match (fast, slow) {
        (Some(fast), Some(slow)) => {
            let there = offer_at(vehicle, ride, fast.i, fast.j, 0, settings, &near);
            fast.cost == slow.cost
                && there == Some(fast)
                && none_below(fast.cost, vehicle, ride, settings)
        }
        (None, None) => none_below(u64::MAX, vehicle, ride, settings),
        _ => false,
    }
}

// Whether no pair of places has an offer below a cost.
fn none_below(cost: u64, vehicle: &Vehicle, ride: &Ride, settings: &Settings) -> bool
    requires { IsAsked four_nodes vehicle.now ride.now 0 settings.now
        (near_in_line vehicle.now ride.now) }
{
    for i in 0..number_of_stops(vehicle) as u32 + 1 {
        if !none_below_with_pickup_at(i, cost, vehicle, ride, settings) {
            return false;
        }
    }
    true
}

fn none_below_with_pickup_at(
    i: u32,
    cost: u64,
    vehicle: &Vehicle,
    ride: &Ride,
    settings: &Settings,
) -> bool
    requires { IsAsked four_nodes vehicle.now ride.now 0 settings.now
        (near_in_line vehicle.now ride.now) }
{
    let near = near(vehicle, ride);
    for j in i..number_of_stops(vehicle) as u32 + 1 {
        if let Some(offer) = offer_at(vehicle, ride, i, j, 0, settings, &near) {
            if offer.cost < cost {
                return false;
            }
        }
    }
    true
}

macro_rules! trip {
    ($id:expr, $from:expr, $to:expr, $seats:expr, $chairs:expr, $latest:expr, $longest:expr, $picked:expr) => {
        Ride {
            id: $id,
            from: $from,
            to: $to,
            seats: $seats,
            chairs: $chairs,
            latest: $latest,
            longest: $longest,
            picked: $picked,
        }
    };
}

macro_rules! ride {
    ($id:expr, $from:expr, $to:expr) => {
        trip!($id, $from, $to, 1, 0, 600, 300, None)
    };
}

macro_rules! pickup {
    ($ride:expr, $node:expr, $leg:expr) => {
        Stop {
            ride: $ride,
            kind: Kind::Pickup,
            node: $node,
            leg: $leg,
        }
    };
}

macro_rules! dropoff {
    ($ride:expr, $node:expr, $leg:expr) => {
        Stop {
            ride: $ride,
            kind: Kind::Dropoff,
            node: $node,
            leg: $leg,
        }
    };
}

macro_rules! car {
    ($at:expr, $ready:expr, $seats:expr, $chairs:expr) => {
        Car {
            at: $at,
            ready: $ready,
            seats: $seats,
            chairs: $chairs,
        }
    };
}

macro_rules! costs {
    ($drive:expr, $wait:expr, $lead:expr, $dwell:expr) => {
        Settings {
            drive: $drive,
            wait: $wait,
            lead: $lead,
            dwell: $dwell,
            ..SETTINGS
        }
    };
}

const CAR: Car = Car {
    at: 1,
    ready: 0,
    seats: 2,
    chairs: 0,
};

const SETTINGS: Settings = Settings {
    batch: 32,
    penalty: 3600,
    drive: 1,
    wait: 0,
    lead: 0,
    dwell: 0,
    log: 1,
};

// Ride 7 from node 2 to node 4 is promised.
const SEVEN: [Ride; 1] = [ride!(7, 2, 4)];

const SEVEN_STOPS: [Stop; 2] = [pickup!(7, 2, 60), dropoff!(7, 4, 120)];

const DWELL: Settings = costs!(1, 0, 0, 30);

#[test]
fn an_idle_vehicle_drives_to_the_rider_and_on_and_keeps_the_limits_to_the_second(rt: HostRuntime) {
    let costs = [
        cost(CAR, &[], &[], ride!(7, 2, 4), SETTINGS),
        cost(CAR, &[], &[], ride!(7, 2, 4), costs!(1, 2, 0, 30)),
        cost(
            CAR,
            &[],
            &[],
            trip!(7, 2, 4, 1, 0, 600, 120, None),
            SETTINGS,
        ),
        cost(
            CAR,
            &[],
            &[],
            trip!(7, 2, 4, 1, 0, 600, 119, None),
            SETTINGS,
        ),
        cost(CAR, &[], &[], trip!(7, 2, 4, 1, 0, 60, 300, None), SETTINGS),
        cost(CAR, &[], &[], trip!(7, 2, 4, 1, 0, 59, 300, None), SETTINGS),
    ];
    let wanted = [Some(180), Some(330), Some(180), None, Some(180), None];
    assert!(rt; costs == wanted);
}

// Rides 7 and 8 from node 2 to node 4, with an hour at each stop.
const PATIENT: [Ride; 2] = [
    trip!(7, 2, 4, 1, 0, 100, 100_000, None),
    trip!(8, 2, 4, 1, 0, 9_000, 100_000, None),
];

const PATIENT_STOPS: [Stop; 2] = [pickup!(7, 2, 0), dropoff!(7, 4, 120)];

const AT_2: Car = car!(2, 0, 2, 0);

const HOUR: Settings = costs!(1, 0, 0, 3600);

#[test]
fn each_stop_takes_its_dwell_and_an_hour_at_each_is_driven_too(rt: HostRuntime) {
    let costs = [
        cost(CAR, &[], &[], ride!(7, 2, 4), DWELL),
        cost(CAR, &[], &[], trip!(7, 2, 4, 1, 0, 600, 149, None), DWELL),
        cost(CAR, &[], &[], trip!(7, 2, 4, 1, 0, 600, 150, None), DWELL),
        cost(AT_2, &[], &[], PATIENT[0], HOUR),
        cost(AT_2, &PATIENT[..1], &PATIENT_STOPS, PATIENT[1], HOUR),
    ];
    let wanted = [Some(210), None, Some(210), Some(3720), Some(7200)];
    assert!(rt; costs == wanted);
}

// The rides that a vehicle's times break.
fn broken_rides(car: Car, rides: &[Ride], stops: &[Stop], dwell: u64) -> Ids
    requires few_rides { length rides.now ≤ 16 }
    requires few_stops { length stops.now ≤ 16 }
    requires lawful { IsTrue (is_lawful
        (vehicle_with car.at car.ready car.seats car.chairs rides.now stops.now)) }
    requires dwell_limit { dwell ≤ 3600 }
{
    let vehicle = vehicle(car, rides, stops);
    broken(&vehicle, dwell)
}

#[test]
fn a_day_late_breaks_both(rt: HostRuntime) {
    let car = car!(2, 1_000_000_000, 2, 0);
    let stops = [
        pickup!(7, 2, 0),
        pickup!(8, 2, 0),
        dropoff!(7, 4, 120),
        dropoff!(8, 4, 0),
    ];
    let named = broken_rides(car, &PATIENT, &stops, 3600);
    assert!(rt; named.items() == [7, 8].as_slice());
}

// Ride 7 with other limits, and with a chair in place of a seat.
const SHORT_SEVEN: [Ride; 1] = [trip!(7, 2, 4, 1, 0, 60, 120, None)];

const CHAIR_SEVEN: [Ride; 1] = [trip!(7, 2, 4, 0, 1, 600, 300, None)];

const ONE_SEAT: Car = car!(1, 0, 1, 0);

const ONE_CHAIR: Car = car!(1, 0, 2, 1);

#[test]
fn a_ride_is_pooled_at_no_added_cost_but_for_dwell_and_two_do_not_share_a_seat_or_a_chair(
    rt: HostRuntime,
) {
    let chair_nine = trip!(9, 3, 4, 0, 1, 600, 300, None);
    let costs = [
        cost(CAR, &SEVEN, &SEVEN_STOPS, ride!(9, 3, 4), SETTINGS),
        cost(CAR, &SEVEN, &SEVEN_STOPS, ride!(9, 3, 4), DWELL),
        cost(ONE_SEAT, &SEVEN, &SEVEN_STOPS, ride!(9, 3, 4), SETTINGS),
        cost(ONE_SEAT, &SEVEN, &SEVEN_STOPS, ride!(10, 1, 3), SETTINGS),
        cost(ONE_CHAIR, &CHAIR_SEVEN, &SEVEN_STOPS, chair_nine, SETTINGS),
        cost(
            ONE_CHAIR,
            &CHAIR_SEVEN,
            &SEVEN_STOPS,
            ride!(10, 3, 4),
            SETTINGS,
        ),
    ];
    let wanted = [Some(0), Some(60), Some(120), Some(120), Some(120), Some(0)];
    assert!(rt; costs == wanted);
}

#[test]
fn the_limits_of_a_promised_ride_are_kept_and_a_plan_that_is_late_already_takes_no_ride(
    rt: HostRuntime,
) {
    let back = trip!(9, 2, 1, 1, 0, 600, 200, None);
    let on = trip!(9, 3, 4, 1, 0, 900, 300, None);
    let costs = [
        cost(CAR, &SHORT_SEVEN, &SEVEN_STOPS, back, SETTINGS),
        cost(CAR, &SEVEN, &SEVEN_STOPS, back, SETTINGS),
        cost(car!(1, 541, 2, 0), &SEVEN, &SEVEN_STOPS, on, SETTINGS),
        cost(car!(1, 540, 2, 0), &SEVEN, &SEVEN_STOPS, on, SETTINGS),
    ];
    assert!(rt; costs == [Some(180), Some(120), None, Some(0)]);
}

// Eight rides from node 2 to node 4.
const MANY_RIDES: [Ride; 8] = [
    ride!(1, 2, 4),
    ride!(2, 2, 4),
    ride!(3, 2, 4),
    ride!(4, 2, 4),
    ride!(5, 2, 4),
    ride!(6, 2, 4),
    ride!(7, 2, 4),
    ride!(8, 2, 4),
];

const MANY_STOPS: [Stop; 16] = [
    pickup!(1, 2, 60),
    pickup!(2, 2, 0),
    pickup!(3, 2, 0),
    pickup!(4, 2, 0),
    pickup!(5, 2, 0),
    pickup!(6, 2, 0),
    pickup!(7, 2, 0),
    pickup!(8, 2, 0),
    dropoff!(1, 4, 120),
    dropoff!(2, 4, 0),
    dropoff!(3, 4, 0),
    dropoff!(4, 4, 0),
    dropoff!(5, 4, 0),
    dropoff!(6, 4, 0),
    dropoff!(7, 4, 0),
    dropoff!(8, 4, 0),
];

// The first seven of them.
const FEWER_RIDES: [Ride; 7] = [
    ride!(1, 2, 4),
    ride!(2, 2, 4),
    ride!(3, 2, 4),
    ride!(4, 2, 4),
    ride!(5, 2, 4),
    ride!(6, 2, 4),
    ride!(7, 2, 4),
];

const FEWER_STOPS: [Stop; 14] = [
    pickup!(1, 2, 60),
    pickup!(2, 2, 0),
    pickup!(3, 2, 0),
    pickup!(4, 2, 0),
    pickup!(5, 2, 0),
    pickup!(6, 2, 0),
    pickup!(7, 2, 0),
    dropoff!(1, 4, 120),
    dropoff!(2, 4, 0),
    dropoff!(3, 4, 0),
    dropoff!(4, 4, 0),
    dropoff!(5, 4, 0),
    dropoff!(6, 4, 0),
    dropoff!(7, 4, 0),
];

#[test]
fn a_plan_of_14_stops_takes_a_ride_and_one_of_16_none(rt: HostRuntime) {
    let car = car!(1, 0, 16, 0);
    let costs = [
        cost(car, &FEWER_RIDES, &FEWER_STOPS, ride!(9, 2, 4), SETTINGS),
        cost(car, &FEWER_RIDES, &FEWER_STOPS, ride!(9, 3, 4), SETTINGS),
        cost(car, &MANY_RIDES, &MANY_STOPS, ride!(9, 2, 4), SETTINGS),
        cost(car, &MANY_RIDES, &MANY_STOPS, ride!(9, 3, 4), SETTINGS),
    ];
    assert!(rt; costs == [Some(0), Some(0), None, None]);
}

// Drawn plans: the rides of each, and its stops.
const RIDES_1: [Ride; 2] = [
    trip!(1, 2, 3, 1, 1, 120, 400, None),
    trip!(2, 1, 4, 2, 0, 600, 300, None),
];

const STOPS_1: [Stop; 4] = [
    pickup!(1, 2, 0),
    pickup!(2, 1, 60),
    dropoff!(1, 3, 120),
    dropoff!(2, 4, 60),
];

const RIDES_2: [Ride; 2] = [
    trip!(1, 1, 3, 2, 0, 600, 400, None),
    trip!(2, 2, 1, 1, 0, 600, 400, None),
];

const STOPS_2: [Stop; 4] = [
    pickup!(1, 1, 120),
    pickup!(2, 2, 60),
    dropoff!(1, 3, 60),
    dropoff!(2, 1, 120),
];

const RIDES_3: [Ride; 2] = [
    trip!(1, 4, 1, 1, 1, 400, 500, None),
    trip!(2, 3, 2, 2, 1, 120, 300, None),
];

const STOPS_3: [Stop; 4] = [
    pickup!(2, 3, 60),
    dropoff!(2, 2, 60),
    pickup!(1, 4, 120),
    dropoff!(1, 1, 180),
];

const RIDES_4: [Ride; 2] = [
    trip!(1, 3, 2, 1, 1, 600, 400, None),
    trip!(2, 3, 4, 1, 0, 240, 300, None),
];

const STOPS_4: [Stop; 4] = [
    pickup!(2, 3, 0),
    pickup!(1, 3, 0),
    dropoff!(2, 4, 60),
    dropoff!(1, 2, 120),
];

const RIDES_5: [Ride; 3] = [
    trip!(1, 4, 2, 0, 1, 400, 400, Some(82)),
    trip!(2, 1, 2, 2, 0, 400, 500, None),
    trip!(3, 2, 4, 1, 0, 240, 400, None),
];

const STOPS_5: [Stop; 5] = [
    pickup!(3, 2, 60),
    pickup!(2, 1, 60),
    dropoff!(1, 2, 60),
    dropoff!(2, 2, 0),
    dropoff!(3, 4, 120),
];

const RIDES_6: [Ride; 2] = [
    trip!(1, 3, 4, 2, 0, 400, 500, None),
    trip!(2, 1, 2, 1, 0, 240, 300, None),
];

const STOPS_6: [Stop; 4] = [
    pickup!(2, 1, 180),
    dropoff!(2, 2, 60),
    pickup!(1, 3, 60),
    dropoff!(1, 4, 60),
];

const RIDES_7: [Ride; 3] = [
    trip!(1, 3, 2, 0, 1, 600, 400, None),
    trip!(2, 4, 3, 1, 1, 600, 500, None),
    trip!(3, 4, 1, 1, 0, 600, 300, None),
];

const STOPS_7: [Stop; 6] = [
    pickup!(2, 4, 60),
    pickup!(3, 4, 0),
    pickup!(1, 3, 60),
    dropoff!(1, 2, 60),
    dropoff!(3, 1, 60),
    dropoff!(2, 3, 120),
];

const RIDES_8: [Ride; 3] = [
    trip!(1, 3, 4, 1, 0, 600, 500, Some(43)),
    trip!(2, 3, 1, 1, 0, 240, 300, None),
    trip!(3, 4, 1, 1, 1, 240, 300, Some(30)),
];

const STOPS_8: [Stop; 4] = [
    pickup!(2, 3, 0),
    dropoff!(3, 1, 120),
    dropoff!(2, 1, 0),
    dropoff!(1, 4, 180),
];

// The costs are those of another program, which tries all pairs of places by the rules.
#[test]
fn drawn_plans_1_to_4(rt: HostRuntime) {
    let costs = [
        cost(
            car!(2, 90, 3, 2),
            &RIDES_1,
            &STOPS_1,
            trip!(9, 4, 1, 1, 1, 400, 600, None),
            costs!(2, 0, 0, 25),
        ),
        cost(
            car!(3, 150, 3, 2),
            &RIDES_2,
            &STOPS_2,
            trip!(9, 4, 1, 1, 0, 400, 300, None),
            costs!(2, 3, 0, 0),
        ),
        cost(
            car!(2, 20, 3, 1),
            &RIDES_3,
            &STOPS_3,
            trip!(9, 4, 3, 2, 0, 400, 150, None),
            costs!(2, 3, 0, 10),
        ),
        cost(
            car!(3, 90, 4, 1),
            &RIDES_4,
            &STOPS_4,
            trip!(9, 3, 1, 2, 1, 900, 150, None),
            costs!(2, 3, 0, 0),
        ),
    ];
    assert!(rt; costs == [None, Some(870), Some(880), Some(750)]);
}

#[test]
fn drawn_plans_5_to_8(rt: HostRuntime) {
    let costs = [
        cost(
            car!(3, 150, 4, 2),
            &RIDES_5,
            &STOPS_5,
            trip!(9, 3, 4, 1, 0, 600, 600, None),
            costs!(2, 1, 30, 10),
        ),
        cost(
            car!(4, 20, 4, 2),
            &RIDES_6,
            &STOPS_6,
            trip!(9, 4, 3, 2, 1, 400, 600, None),
            costs!(1, 0, 30, 10),
        ),
        cost(
            car!(3, 150, 3, 2),
            &RIDES_7,
            &STOPS_7,
            trip!(9, 3, 2, 1, 0, 600, 300, None),
            costs!(1, 0, 0, 25),
        ),
        cost(
            car!(3, 90, 3, 2),
            &RIDES_8,
            &STOPS_8,
            trip!(9, 4, 2, 1, 1, 900, 600, None),
            costs!(1, 3, 0, 10),
        ),
    ];
    assert!(rt; costs == [Some(190), Some(20), Some(50), Some(1400)]);
}
