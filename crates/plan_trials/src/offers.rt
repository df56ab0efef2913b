// A vehicle at node 1 of a road of four nodes, a minute between neighbours, takes ride 7 from node 2 to node 4 and is asked
// for ride 9 from node 3 to node 4.
ghost use Rattle.std.specs.Prelude.{◌≡◌, ◌≤◌, None};
ghost use Rattle.plan_trials.specs.SmallPlans.{ride_of, promised};
ghost use Rattle.plan_trials.specs.NearPlaces.{settings_of, near_3_to_4};

use arrayvec::ArrayVec;
use insertion::*;
use ride_model::{Joins, Kind, Offer, Ride, Settings, Stop, Vehicle};

fn ride(id: u64, from: u32) -> Ride
    ensures { result ≡ ride_of id from 4 None }
{
    Ride {
        id,
        from,
        to: 4,
        seats: 1,
        chairs: 0,
        latest: 600,
        longest: 300,
        picked: None,
    }
}

fn vehicle() -> Vehicle
    ensures { result ≡ promised }
{
    let mut rides = ArrayVec::new();
    rides.push(ride(7, 2));
    let mut stops = ArrayVec::new();
    stops.push(Stop {
        ride: 7,
        kind: Kind::Pickup,
        node: 2,
        leg: 60,
    });
    stops.push(Stop {
        ride: 7,
        kind: Kind::Dropoff,
        node: 4,
        leg: 120,
    });
    Vehicle {
        id: 1,
        seats: 2,
        chairs: 0,
        at: 1,
        ready: 0,
        duty: true,
        version: 1,
        rides,
        stops,
    }
}

fn near() -> Near
    ensures { result ≡ near_3_to_4 }
{
    let mut stops = ArrayVec::new();
    stops.push(NearStop {
        to_from: Some(60),
        from_here: Some(60),
        to_to: Some(120),
        to_here: Some(120),
    });
    stops.push(NearStop {
        to_from: Some(60),
        from_here: Some(60),
        to_to: Some(0),
        to_here: Some(0),
    });
    Near {
        at_from: Some(120),
        at_to: Some(180),
        direct: Some(60),
        stops,
    }
}

fn settings(wait: u64, dwell: u64) -> Settings
    ensures { result ≡ settings_of wait dwell }
{
    Settings {
        batch: 32,
        penalty: 3600,
        drive: 1,
        wait,
        lead: 0,
        dwell,
        log: 1,
    }
}

// The offer at two places.
fn offer(i: u32, j: u32, wait: u64, dwell: u64) -> Option<Offer>
    requires wait_limit { wait ≤ 1000 }
    requires dwell_limit { dwell ≤ 3600 }
{
    let vehicle = vehicle();
    let ride = ride(9, 3);
    let settings = settings(wait, dwell);
    let near = near();
    offer_at(&vehicle, &ride, i, j, 0, &settings, &near)
}

// The least cost.
fn least_cost(wait: u64, dwell: u64) -> Option<u64>
    requires wait_limit { wait ≤ 1000 }
    requires dwell_limit { dwell ≤ 3600 }
{
    let vehicle = vehicle();
    let ride = ride(9, 3);
    let settings = settings(wait, dwell);
    let near = near();
    best_place(&vehicle, &ride, 0, &settings, &near).map(|offer| offer.cost)
}

// The places of the pickup and of the drop-off, and the cost of the offer there.
static PLACES: [(u32, u32, Option<u64>); 6] = [
    (0, 0, Some(240)),
    (0, 1, Some(120)),
    (1, 2, Some(0)),
    (2, 2, Some(120)),
    (2, 1, None),
    (2, 3, None),
];

#[test]
fn pooled_at_no_added_cost_and_each_place_has_its_cost(rt: HostRuntime) {
    let joins = Joins {
        to_pickup: 60,
        after_pickup: 60,
        to_dropoff: 60,
        after_dropoff: 0,
    };
    let pooled = Offer {
        i: 1,
        j: 1,
        cost: 0,
        start: 0,
        joins,
    };
    assert!(rt; offer(1, 1, 0, 0) == Some(pooled));
    for (i, j, cost) in PLACES {
        let found = offer(i, j, 0, 0).map(|offer| offer.cost);
        assert!(rt; found == cost, "at {i} and {j}");
    }
}

#[test]
fn dwell_and_waiting_cost(rt: HostRuntime) {
    let costs = [least_cost(0, 0), least_cost(0, 30), least_cost(2, 0)];
    assert!(rt; costs == [Some(0), Some(60), Some(240)]);
}
