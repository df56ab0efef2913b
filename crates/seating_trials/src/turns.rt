//! Batches that a pricer prices in turn, whatever has changed between them.
ghost use Rattle.std.specs.Prelude.{◌≡◌, ◌≤◌, length, IsTrue};
ghost use Rattle.ride_model.specs.declared.limits.TheConstants.{LATEST_TIME};
ghost use Rattle.batch_commit.specs.inner.Table.{FitsBatch};
ghost use Rattle.plan_trials.specs.LineRoad.{vehicle_with};
ghost use Rattle.plan_trials.specs.SmallPlans.{four_nodes};
ghost use Rattle.seating_trials.specs.InTurn.{count_of, fleet_of, may_drive, turn_of};
ghost use Rattle.seating_trials.specs.TwoRequests.{IsOverLine};

use super::prices::{SETTINGS, cost, idle, line, priced, pricer};
use batch_commit::{Batch, PriceTable};
use plan_trials::line_road::{Car, vehicle};
use pricing_workers::{Pricer, SeatPlaces, offer_of_seat};
use ride_model::{Fleet, Kind, Ride, Stop, Vehicle};
use ride_ports::OpenGate;
use std::alloc::Global;
use std::process::Abort;
use std::thread::Threads;

macro_rules! ride {
    ($id:expr, $from:expr, $to:expr, $picked:expr) => {
        Ride {
            id: $id,
            from: $from,
            to: $to,
            seats: 1,
            chairs: 0,
            latest: 600,
            longest: 300,
            picked: $picked,
        }
    };
}

macro_rules! stop {
    ($kind:ident, $node:expr, $leg:expr) => {
        Stop {
            ride: 7,
            kind: Kind::$kind,
            node: $node,
            leg: $leg,
        }
    };
}

const EIGHT: Ride = ride!(8, 4, 3, None);

const NINE: Ride = ride!(9, 3, 4, None);

// A vehicle, alone or with an idle one.
fn fleet(rt: &impl Abort, alloc: Global, first: Vehicle, more: bool) -> Fleet
    requires { IsTrue (may_drive first) }
    ensures { result ≡ fleet_of first more }
{
    if !more {
        let vehicles = vec![in alloc; first];
        return Fleet::new(vehicles.expect(rt, "there is memory"));
    }
    let vehicles = vec![in alloc; first, idle(2, 4, true)];
    Fleet::new(vehicles.expect(rt, "there is memory"))
}

// A batch over it: ride 9 is asked for, alone or with ride 8.
fn turn(rt: &impl Abort, alloc: Global, time: u64, first: Vehicle, more: bool) -> Batch
    requires { IsTrue (may_drive first) }
    ensures { result ≡ turn_of time first more }
{
    let vehicles = fleet(rt, alloc, first, more);
    if !more {
        let requests = vec![in alloc; NINE].expect(rt, "there is memory");
        return Batch::of(1, time, 0, SETTINGS, requests, vehicles);
    }
    let requests = vec![in alloc; NINE, EIGHT].expect(rt, "there is memory");
    Batch::of(1, time, 0, SETTINGS, requests, vehicles)
}

// The costs of ride 9 in each vehicle, and then those of ride 8.
fn costs_in(table: &PriceTable, more: bool) -> [Option<u64>; 4]
    requires rows { count_of more ≤ table.now.rows }
    requires columns { count_of more ≤ table.now.columns }
{
    if !more {
        return [cost(table, 0, 0), None, None, None];
    }
    [
        cost(table, 0, 0),
        cost(table, 0, 1),
        cost(table, 1, 0),
        cost(table, 1, 1),
    ]
}

// Whether the offer of the first vehicle to the first request is the one at its places.
fn is_offered(rt: &impl Abort, batch: &Batch, pricer: &mut Pricer, table: &PriceTable) -> bool
    requires line { pricer.old ≡ four_nodes }
    requires over_line { IsOverLine batch.now }
    requires some_request { 1 ≤ length batch.now.requests }
    requires some_vehicle { 1 ≤ length batch.now.vehicles }
    requires fits { FitsBatch batch.now table.now }
    ensures { pricer.new ≡ pricer.old }
{
    let Some(offer) = table.cell(0, 0).copied() else {
        return false;
    };
    let seat = SeatPlaces {
        request: 0,
        vehicle: 0,
        i: offer.i,
        j: offer.j,
    };
    let offered = offer_of_seat(batch, pricer, seat).expect(rt, "there is memory");
    offered == Some(offer)
}

// A pricer that has priced other batches gives these costs, and so does a new one.
fn expect(
    rt: &(impl Threads + Sync + Abort),
    kept: &mut Pricer,
    time: u64,
    plan: (Car, &[Ride], &[Stop]),
    more: bool,
    wanted: [Option<u64>; 4],
)
    requires line { kept.old ≡ four_nodes }
    requires soon { time ≤ LATEST_TIME }
    requires few_rides { length plan.1.now ≤ 16 }
    requires few_stops { length plan.2.now ≤ 16 }
    requires drives { IsTrue (may_drive (vehicle_with plan.0.at plan.0.ready plan.0.seats
        plan.0.chairs plan.1.now plan.2.now)) }
    ensures { kept.new ≡ kept.old }
{
    let mut new = pricer(rt, kept.alloc(), kept.roads(), 1);
    let first = vehicle(plan.0, plan.1, plan.2);
    let batch = turn(rt, kept.alloc(), time, first, more);
    let by_kept = priced(rt, &batch, kept, &OpenGate);
    let by_new = priced(rt, &batch, &mut new, &OpenGate);
    assert!(rt; costs_in(&by_kept, more) == wanted, "at {time}");
    assert!(rt; costs_in(&by_new, more) == wanted, "at {time}, anew");
    assert!(rt;
        is_offered(rt, &batch, kept, &by_kept),
        "at {time}, at its places"
    );
}

// On its way to ride 7, with room for both others; at its pickup; with the rider at the drop-off.
const CAR: Car = Car {
    at: 1,
    ready: 0,
    seats: 2,
    chairs: 0,
};

const SEVEN: Ride = ride!(7, 2, 4, None);

// Ride 9 goes along with ride 7, after 120 seconds; ride 8 comes after it, after 180, and takes 60 more. From the idle vehicle ride 9
// takes 60 + 60, after 60, and ride 8 takes 60.
const ON_THE_WAY: [Option<u64>; 4] = [Some(240), Some(240), Some(420), Some(60)];

// At second 30, ride 9 goes along after 90.
const AT_THE_PICKUP: [Option<u64>; 4] = [Some(180), None, None, None];

// At second 200, ride 9 takes 60 + 60 after the drop-off, after 70 seconds, and ride 8 takes 60, after 10.
const AT_THE_DROPOFF: [Option<u64>; 4] = [Some(260), Some(240), Some(80), Some(60)];

#[test]
fn a_pricer_keeps_nothing_that_has_changed(rt: HostRuntime) {
    let roads = line(&rt, rt.alloc());
    let mut pricer = pricer(&rt, rt.alloc(), &roads, 2);
    let stops = [stop!(Pickup, 2, 60), stop!(Dropoff, 4, 120)];
    let plan = (CAR, [SEVEN].as_slice(), stops.as_slice());
    expect(&rt, &mut pricer, 0, plan, true, ON_THE_WAY);
    expect(&rt, &mut pricer, 0, plan, true, ON_THE_WAY);

    let car = Car {
        at: 2,
        ready: 60,
        ..CAR
    };
    let stops = [stop!(Pickup, 2, 0), stop!(Dropoff, 4, 120)];
    let plan = (car, [SEVEN].as_slice(), stops.as_slice());
    expect(&rt, &mut pricer, 30, plan, false, AT_THE_PICKUP);

    let car = Car {
        at: 4,
        ready: 210,
        ..CAR
    };
    let stops = [stop!(Dropoff, 4, 0)];
    let plan = (car, [ride!(7, 2, 4, Some(60))].as_slice(), stops.as_slice());
    expect(&rt, &mut pricer, 200, plan, true, AT_THE_DROPOFF);
}

#[test]
fn batches_are_priced_by_a_hierarchy_once_it_pays(rt: HostRuntime) {
    let roads = line(&rt, rt.alloc());
    let mut pricer = pricer(&rt, rt.alloc(), &roads, 2);
    let stops = [stop!(Pickup, 2, 60), stop!(Dropoff, 4, 120)];
    let plan = (CAR, [SEVEN].as_slice(), stops.as_slice());
    for _ in 0..32 {
        expect(&rt, &mut pricer, 0, plan, true, ON_THE_WAY);
    }
    // What they searched was noted, so that nothing is left to prepare.
    assert!(rt; !pricer.prepare());
}
