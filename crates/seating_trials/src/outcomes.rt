//! Each call once, and each outcome of a request.
ghost use Rattle.std.specs.Prelude.{◌<◌, ◌≡◌, ◌≤◌, [], ◌∷◌, length};
ghost use Rattle.ride_model.specs.Seating.{vehicle_ids};
ghost use Rattle.seating_trials.specs.OneRequest.{settings_of, IsBatchOfOne};

use arrayvec::ArrayVec;
use batch_commit::*;
use ride_model::{
    AmountList, Fleet, Joins, Offer, Outcome, Ride, Seat, SeatList, Settings, Vehicle,
};
use std::alloc::Global;
use std::process::Abort;

fn offer(cost: u64) -> Offer
    ensures i { result.i ≡ 0 }
    ensures j { result.j ≡ 0 }
    ensures cost { result.cost ≡ cost }
{
    Offer {
        i: 0,
        j: 0,
        cost,
        start: 0,
        joins: Joins::default(),
    }
}

fn cost(table: &PriceTable, request: u32, vehicle: u32) -> Option<u64>
    requires request_in { request < table.now.rows }
    requires vehicle_in { vehicle < table.now.columns }
{
    table.cell(request, vehicle).map(|offer| offer.cost)
}

// Whether a table with one offer has it in its cell, and no other.
fn has_one_offer(rt: &impl Abort, alloc: Global) -> bool {
    let cells = vec![in alloc; None; 4].expect(rt, "there is memory");
    let mut table = PriceTable::of(2, 2, cells);
    table.put(1, 0, offer(180));
    cost(&table, 0, 0).is_none()
        && cost(&table, 0, 1).is_none()
        && cost(&table, 1, 0) == Some(180)
        && cost(&table, 1, 1).is_none()
}

// Whether an answer with two prices leaves both requests undecided.
fn is_undecided(rt: &impl Abort, alloc: Global) -> bool {
    let prices = [(7, 180), (8, 240)].to_vec(alloc);
    let prices = AmountList::of(prices.expect(rt, "there is memory"));
    let seating = SeatList::of(Vec::new(alloc));
    let pays = AmountList::of(Vec::new(alloc));
    let answer = Answer::of(alloc, seating, prices, pays).expect(rt, "there is memory");
    let undecided = [(7, Outcome::Gone), (8, Outcome::Gone)];
    answer.outcomes.items() == undecided.as_slice()
}

#[test]
fn a_cell_is_replaced_and_no_other_and_an_answer_is_undecided(rt: HostRuntime) {
    assert!(rt; has_one_offer(&rt, rt.alloc()));
    assert!(rt; is_undecided(&rt, rt.alloc()));
}

fn settings(lead: u64) -> Settings
    ensures { result ≡ settings_of lead }
{
    Settings {
        batch: 32,
        penalty: 3600,
        drive: 1,
        wait: 0,
        lead,
        dwell: 0,
        log: 1,
    }
}

fn vehicle(version: u64) -> Vehicle
    ensures { result.id ≡ 1 }
{
    Vehicle {
        id: 1,
        seats: 2,
        chairs: 0,
        at: 1,
        ready: 0,
        duty: true,
        version,
        rides: ArrayVec::new(),
        stops: ArrayVec::new(),
    }
}

// A list of one item.
fn one<T: Drop>(rt: &impl Abort, alloc: Global, item: T) -> Vec<T>
    ensures { result.items ≡ item ∷ [] }
{
    let mut list = Vec::new(alloc);
    list.push(item).expect(rt, "there is memory");
    list
}

// A batch of request 7 and vehicle 1 of version 0, at the time 0.
fn batch(rt: &impl Abort, alloc: Global, lead: u64) -> Batch
    requires { lead ≤ 3600 }
    ensures { IsBatchOfOne lead result }
{
    let ride = Ride {
        id: 7,
        ..Ride::default()
    };
    let requests = one(rt, alloc, ride);
    let fleet = Fleet::new(one(rt, alloc, vehicle(0)));
    Batch::of(1, 0, 1, settings(lead), requests, fleet)
}

// The request in the vehicle's seat, at the cost 180.
fn seated(rt: &impl Abort, alloc: Global, lead: u64) -> Solved
    requires { lead ≤ 3600 }
    ensures vehicles { vehicle_ids result.batch.vehicles ≡ 1 ∷ [] }
    ensures requests { length result.batch.requests ≡ 1 }
{
    let batch = batch(rt, alloc, lead);
    let table = PriceTable::of(1, 1, one(rt, alloc, Some(offer(180))));
    let seat = Seat {
        request: 7,
        vehicle: 1,
        i: 0,
        j: 0,
    };
    let seating = SeatList::of(one(rt, alloc, seat));
    let prices = AmountList::of(one(rt, alloc, (7, 180)));
    let pays = AmountList::of(Vec::new(alloc));
    let answer = Answer::of(alloc, seating, prices, pays).expect(rt, "there is memory");
    Solved::tie(batch, table, answer)
}

// The request left out, since no vehicle has an offer.
fn left_out(rt: &impl Abort, alloc: Global) -> Solved
    ensures vehicles { vehicle_ids result.batch.vehicles ≡ 1 ∷ [] }
    ensures requests { length result.batch.requests ≡ 1 }
{
    let batch = batch(rt, alloc, 0);
    let table = PriceTable::of(1, 1, one(rt, alloc, None));
    let seating = SeatList::of(Vec::new(alloc));
    let prices = AmountList::of(one(rt, alloc, (7, 3600)));
    let pays = AmountList::of(Vec::new(alloc));
    let answer = Answer::of(alloc, seating, prices, pays).expect(rt, "there is memory");
    Solved::tie(batch, table, answer)
}

// The outcome at this time, where the vehicle has this version.
fn outcome(rt: &impl Abort, mut solved: Solved, now: u64, version: u64, cancelled: bool) -> Outcome
    requires vehicles { vehicle_ids solved.batch.vehicles ≡ 1 ∷ [] }
    requires requests { length solved.batch.requests ≡ 1 }
{
    let vehicles = [vehicle(version)];
    let flags = [cancelled];
    decide(&mut solved, now, vehicles.as_slice(), flags.as_slice());
    let answer = solved.into_answer();
    let (_, outcome) = answer
        .outcomes
        .items()
        .first()
        .expect(rt, "it has an outcome");
    *outcome
}

#[test]
fn a_batch_shows_its_parts(rt: HostRuntime) {
    let fleet = Fleet::new(Vec::new(rt.alloc()));
    let batch = Batch::of(3, 20, 1, settings(0), Vec::new(rt.alloc()), fleet);
    let numbers = (batch.number(), batch.time(), batch.desk());
    let is_empty = batch.requests().is_empty() && batch.vehicles().vehicles().is_empty();
    assert!(rt; numbers == (3, 20, 1) && batch.settings().penalty == 3600 && is_empty);
}

/// The lead, when a seated request is decided, the version of its vehicle then, whether it was cancelled, and what becomes of it.
struct Case {
    lead: u64,
    now: u64,
    version: u64,
    cancelled: bool,
    outcome: Outcome,
}

static CASES: [Case; 4] = [
    Case {
        lead: 0,
        now: 0,
        version: 0,
        cancelled: false,
        outcome: Outcome::Confirmed,
    },
    Case {
        lead: 0,
        now: 0,
        version: 1,
        cancelled: false,
        outcome: Outcome::Moved {
            named: 0,
            stands: 1,
        },
    },
    Case {
        lead: 0,
        now: 0,
        version: 0,
        cancelled: true,
        outcome: Outcome::Gone,
    },
    Case {
        lead: 10,
        now: 20,
        version: 0,
        cancelled: false,
        outcome: Outcome::Behind { start: 10, now: 20 },
    },
];

fn expect_case(rt: &impl Abort, alloc: Global, case: &Case) {
    assert!(rt; case.lead <= 3600);
    let solved = seated(rt, alloc, case.lead);
    let found = outcome(rt, solved, case.now, case.version, case.cancelled);
    assert!(rt;
        found == case.outcome,
        "at {}, of version {}",
        case.now,
        case.version
    );
}

#[test]
fn each_outcome_comes_for_its_cause(rt: HostRuntime) {
    for case in &CASES {
        expect_case(&rt, rt.alloc(), case);
    }
    let away = outcome(&rt, left_out(&rt, rt.alloc()), 0, 0, false);
    assert!(rt; away == Outcome::Away);
}
