//! The smallest city of seed 1, groups, and reports.
ghost use Rattle.std.specs.Prelude.{◌≡◌, ◌≤◌, [], ◌∷◌, None};
ghost use Rattle.ride_model.specs.inner.Vehicle.{IsRoutedSomewhere};
ghost use Rattle.plan_trials.specs.SmallPlans.{ride_of, pickup_at, dropoff_at, vehicle_of};

use arrayvec::ArrayVec;
use city_maker::laws::{
    commands_are_given, reports_are_accepted, requests_are_given_in_order,
    seed_1_draws_known_numbers,
};
use city_maker::*;
use ride_model::{Command, Kind, Ride, RoadArc, Stop, Vehicle};
use std::alloc::Global;
use std::process::Abort;

macro_rules! arc {
    ($tail:expr, $head:expr, $seconds:expr) => {
        RoadArc {
            tail: $tail,
            head: $head,
            seconds: $seconds,
        }
    };
}

static ARCS: [RoadArc; 8] = [
    arc!(1, 2, 33),
    arc!(2, 1, 33),
    arc!(1, 3, 55),
    arc!(3, 1, 55),
    arc!(2, 4, 42),
    arc!(4, 2, 42),
    arc!(3, 4, 73),
    arc!(4, 3, 73),
];

static COMMANDS: [Command; 4] = [
    Command::Clock { time: 0 },
    Command::Request {
        id: 1,
        from: 4,
        to: 3,
        seats: 2,
        latest: 900,
        longest: 3_600,
        chairs: 0,
    },
    Command::Ask,
    Command::Clock {
        time: 1_000_000_000,
    },
];

fn has_roads_and_commands(city: &City) -> bool {
    city.network.nodes() == 4
        && city.network.arcs() == ARCS.as_slice()
        && city.commands.items() == COMMANDS.as_slice()
}

/// Whether seed 1 gives the city of four nodes, and its one vehicle has nothing to report.
fn seed_1_gives_it(rt: &impl Abort, alloc: Global) -> bool {
    let plan = CityPlan {
        side: 2,
        vehicles: 1,
        requests: 1,
        seed: 1,
    };
    let city = make_city(alloc, &plan).expect(rt, "memory for a city");
    let vehicles = city.fleet.vehicles();
    if vehicles.len() == 1 {
        let reported = next_report(&vehicles[0], 1_000_000_000);
        (vehicles[0].id, vehicles[0].at, vehicles[0].seats) == (1, 4, 4)
            && reported == None
            && has_roads_and_commands(&city)
    } else {
        false
    }
}

#[test]
fn seed_1_gives_this_city_of_four_nodes(rt: HostRuntime) {
    seed_1_draws_known_numbers();
    requests_are_given_in_order();
    commands_are_given();
    reports_are_accepted();
    assert!(rt; seed_1_gives_it(&rt, rt.alloc()));
}

// How many rows and columns a grid has, and how many arcs.
static GRIDS: [(u32, usize); 4] = [(2, 8), (3, 24), (40, 6_240), (100, 39_600)];

fn arcs_of(rt: &impl Abort, alloc: Global, side: u32) -> usize
    requires { (2 ≤ side) × (side ≤ 100) }
{
    let plan = CityPlan {
        side,
        vehicles: 0,
        requests: 0,
        seed: 2_147_483_647,
    };
    let city = make_city(alloc, &plan).expect(rt, "memory for a city");
    city.network.arcs().len()
}

// How many requests there are, how many commands, and the last clock but one.
static GROUPS: [(u32, usize, u64); 5] = [
    (0, 1, 0),
    (1, 4, 0),
    (8, 11, 0),
    (9, 14, 30),
    (17, 24, 60),
];

fn clocks(commands: &[Command]) -> u64 {
    let mut last = 0;
    for command in commands {
        if let Command::Clock { time } = command {
            if *time < 1_000_000_000 {
                last = *time;
            }
        }
    }
    last
}

/// How many commands there are, and the last clock but one.
fn commands_of(rt: &impl Abort, alloc: Global, requests: u32) -> (usize, u64)
    requires { requests ≤ 17 }
{
    let plan = CityPlan {
        side: 3,
        vehicles: 2,
        requests,
        seed: 7,
    };
    let city = make_city(alloc, &plan).expect(rt, "memory for a city");
    let commands = city.commands.items();
    (commands.len(), clocks(commands))
}

#[test]
fn neighbours_are_joined_and_requests_are_taken_in_groups_of_eight(rt: HostRuntime) {
    for &(side, arcs) in GRIDS.iter() {
        assert!(rt; 2 <= side && side <= 100);
        assert!(rt; arcs_of(&rt, rt.alloc(), side) == arcs, "{side} rows");
    }
    for &(requests, commands, clock) in GROUPS.iter() {
        assert!(rt; requests <= 17);
        let told = commands_of(&rt, rt.alloc(), requests);
        assert!(rt; told == (commands, clock), "{requests} requests");
    }
}

// A vehicle on a road of four nodes, a minute between neighbours, that has promised a ride from node 2 to node 4.
fn driving(at: u32, ready: u64, leg: u64) -> Vehicle
    ensures { result ≡ vehicle_of at ready (ride_of 7 2 4 None ∷ [])
        (pickup_at 7 2 leg ∷ dropoff_at 7 4 120 ∷ []) }
{
    let mut rides = ArrayVec::new();
    rides.push(Ride {
        id: 7,
        from: 2,
        to: 4,
        seats: 1,
        chairs: 0,
        latest: 600,
        longest: 300,
        picked: None,
    });
    let mut stops = ArrayVec::new();
    stops.push(Stop {
        ride: 7,
        kind: Kind::Pickup,
        node: 2,
        leg,
    });
    stops.push(Stop {
        ride: 7,
        kind: Kind::Dropoff,
        node: 4,
        leg: 120,
    });
    Vehicle {
        id: 1,
        seats: 2,
        chairs: 0,
        at,
        ready,
        duty: true,
        version: 1,
        rides,
        stops,
    }
}

fn reports<R: Abort>(rt: &R, vehicle: &Vehicle, cases: &[(u64, Option<Command>)])
    requires { IsRoutedSomewhere vehicle.now }
{
    for (clock, report) in cases {
        let found = next_report(vehicle, *clock);
        assert!(rt; found == *report, "at {clock}");
    }
}

#[test]
fn drivers_report_where_they_are_by_the_clock(rt: HostRuntime) {
    let on_way = driving(1, 0, 60);
    let at_node = Some(Command::At {
        vehicle: 1,
        node: 2,
        time: 60,
    });
    reports(
        &rt,
        &on_way,
        &[
            (0, None),
            (1, at_node),
            (59, at_node),
            (60, at_node),
            (90, at_node),
        ],
    );
    let there = driving(2, 60, 0);
    let done = Some(Command::Done { vehicle: 1 });
    reports(
        &rt,
        &there,
        &[(0, None), (59, None), (60, done), (61, done)],
    );
}
