//! Two requests and two idle vehicles on a road of four nodes in a line, a minute between neighbours.
ghost use Rattle.std.specs.Prelude.{◌≡◌, ◌≤◌, ◌<◌, true, [], ◌∷◌, IsTrue};
ghost use Rattle.plan_trials.specs.SmallPlans.{arc, four_nodes};
ghost use Rattle.batch_commit.specs.inner.Table.{FitsBatch};
ghost use Rattle.seating_trials.specs.TwoRequests.{idle, batch_of, may_ask, IsOverLine};

use adaptive_roads::Roads;
use arrayvec::ArrayVec;
use batch_commit::{Batch, PriceTable};
use pricing_workers::{Pricer, price_batch};
use ride_model::{Fleet, Network, Ride, RoadArc, Settings, Vehicle};
use ride_ports::{Gate, OpenGate};
use std::alloc::Global;
use std::process::Abort;
use std::sync::atomic::{AtomicU64, Ordering};
use std::thread::Threads;

pub(crate) const SETTINGS: Settings = Settings {
    batch: 32,
    penalty: 3600,
    drive: 1,
    wait: 2,
    lead: 0,
    dwell: 0,
    log: 1,
};

macro_rules! ride {
    ($id:expr, $from:expr, $to:expr, $latest:expr) => {
        Ride {
            id: $id,
            from: $from,
            to: $to,
            seats: 1,
            chairs: 0,
            latest: $latest,
            longest: 300,
            picked: None,
        }
    };
}

const SEVEN: Ride = ride!(7, 2, 4, 600);

const EIGHT: Ride = ride!(8, 4, 3, 600);

pub(crate) fn idle(id: u64, at: u32, duty: bool) -> Vehicle
    ensures { result ≡ idle id at duty }
{
    Vehicle {
        id,
        seats: 2,
        chairs: 0,
        at,
        ready: 0,
        duty,
        version: 0,
        rides: ArrayVec::new(),
        stops: ArrayVec::new(),
    }
}

fn arc(tail: u32, head: u32) -> RoadArc
    ensures { result ≡ arc tail head }
{
    RoadArc {
        tail,
        head,
        seconds: 60,
    }
}

// The road of four nodes.
pub(crate) fn line(rt: &impl Abort, alloc: Global) -> Roads
    ensures { result ≡ four_nodes }
{
    let arcs = [
        arc(1, 2),
        arc(2, 1),
        arc(2, 3),
        arc(3, 2),
        arc(3, 4),
        arc(4, 3),
    ];
    let arcs = arcs.to_vec(alloc).expect(rt, "there is memory");
    let map = Network::new(4, arcs);
    Roads::new(alloc, &map).expect(rt, "there is memory")
}

// A pricer of so many workers.
pub(crate) fn pricer<'r>(
    rt: &impl Abort,
    alloc: Global,
    roads: &'r Roads,
    workers: usize,
) -> Pricer<'r>
    requires { 1 ≤ workers }
    ensures { result ≡ roads.now }
{
    Pricer::new(alloc, roads, workers).expect(rt, "there is memory")
}

// The prices of a batch over the road.
pub(crate) fn priced<G: Gate>(
    rt: &(impl Threads + Sync + Abort),
    batch: &Batch,
    pricer: &mut Pricer,
    gate: &G,
) -> PriceTable
    requires line { pricer.old ≡ four_nodes }
    requires over_line { IsOverLine batch.now }
    ensures fits { FitsBatch batch.now result }
    ensures pricer { pricer.new ≡ pricer.old }
{
    price_batch(rt, batch, pricer, gate).expect(rt, "there is memory")
}

fn vehicles(rt: &impl Abort, alloc: Global, duty: bool) -> Fleet
    ensures { result ≡ idle 1 1 true ∷ idle 2 4 duty ∷ [] }
{
    let vehicles = vec![in alloc; idle(1, 1, true), idle(2, 4, duty)];
    Fleet::new(vehicles.expect(rt, "there is memory"))
}

fn batch(rt: &impl Abort, alloc: Global, first: Ride, second: Ride, duty: bool) -> Batch
    requires { IsTrue (may_ask first second) }
    ensures { result ≡ batch_of (first ∷ second ∷ []) duty }
{
    let requests = vec![in alloc; first, second].expect(rt, "there is memory");
    let vehicles = vehicles(rt, alloc, duty);
    Batch::of(1, 0, 0, SETTINGS, requests, vehicles)
}

fn empty_batch(rt: &impl Abort, alloc: Global) -> Batch
    ensures { result ≡ batch_of [] true }
{
    let vehicles = vehicles(rt, alloc, true);
    Batch::of(1, 0, 0, SETTINGS, Vec::new(alloc), vehicles)
}

pub(crate) fn cost(table: &PriceTable, request: u32, vehicle: u32) -> Option<u64>
    requires request_in { request < table.now.rows }
    requires vehicle_in { vehicle < table.now.columns }
{
    table.cell(request, vehicle).map(|offer| offer.cost)
}

// The costs of the first request in both vehicles, and then those of the second, by so many workers.
fn costs<G: Gate>(
    rt: &(impl Threads + Sync + Abort),
    alloc: Global,
    rides: (Ride, Ride),
    duty: bool,
    workers: usize,
    gate: &G,
) -> [Option<u64>; 4]
    requires asked { IsTrue (may_ask rides.0 rides.1) }
    requires some_worker { 1 ≤ workers }
{
    let roads = line(rt, alloc);
    let batch = batch(rt, alloc, rides.0, rides.1, duty);
    let mut pricer = pricer(rt, alloc, &roads, workers);
    let table = priced(rt, &batch, &mut pricer, gate);
    [
        cost(&table, 0, 0),
        cost(&table, 0, 1),
        cost(&table, 1, 0),
        cost(&table, 1, 1),
    ]
}

// Ride 7 from the vehicle at node 1: 60 + 120 seconds of driving and 60 of waiting; from the one at node 4: 120 + 120, and 120.
// Ride 8 from the vehicle at node 1: 180 + 60, and 180; from the one at node 4: 60, and none.
const BY_HAND: [Option<u64>; 4] = [Some(300), Some(480), Some(600), Some(60)];

#[test]
fn all_pairs_are_priced_by_any_number_of_workers(rt: HostRuntime) {
    let alloc = rt.alloc();
    // One worker, two and three price the same.
    let by_one = costs(&rt, alloc, (SEVEN, EIGHT), true, 1, &OpenGate);
    let by_two = costs(&rt, alloc, (SEVEN, EIGHT), true, 2, &OpenGate);
    let by_three = costs(&rt, alloc, (SEVEN, EIGHT), true, 3, &OpenGate);
    assert!(rt; by_one == BY_HAND && by_two == BY_HAND && by_three == BY_HAND);
    // A vehicle off duty has no offer.
    let off_duty = costs(&rt, alloc, (SEVEN, EIGHT), false, 2, &OpenGate);
    assert!(rt; off_duty == [Some(300), None, Some(600), None]);
    // A limit is kept to the second.
    let late = costs(&rt, alloc, (ride!(7, 2, 4, 59), EIGHT), true, 2, &OpenGate);
    let soon = costs(&rt, alloc, (ride!(7, 2, 4, 60), EIGHT), true, 2, &OpenGate);
    assert!(rt;
        late == [None, None, Some(600), Some(60)] && soon == [Some(300), None, Some(600), Some(60)]
    );
}

/// Counts the passes at place 7, and those elsewhere.
#[derive(Drop)]
struct CountingGate {
    before_rows: AtomicU64,
    elsewhere: AtomicU64,
}

impl Gate for CountingGate {
    fn pass(&self, place: u32) {
        let count = if place == 7 {
            &self.before_rows
        } else {
            &self.elsewhere
        };
        count.fetch_add(1, Ordering::SeqCst);
    }
}

// So many workers pass the gate at place 7 for each of two requests, and nowhere else.
fn expect_passes(rt: &(impl Threads + Sync + Abort), alloc: Global, workers: usize)
    requires { 1 ≤ workers }
{
    let gate = CountingGate {
        before_rows: AtomicU64::new(0),
        elsewhere: AtomicU64::new(0),
    };
    costs(rt, alloc, (SEVEN, EIGHT), true, workers, &gate);
    let before_rows = gate.before_rows.load(Ordering::SeqCst);
    let elsewhere = gate.elsewhere.load(Ordering::SeqCst);
    assert!(rt; before_rows == 2 && elsewhere == 0, "by {workers}");
}

#[test]
fn each_request_passes_the_gate_once(rt: HostRuntime) {
    for workers in 1..3 {
        expect_passes(&rt, rt.alloc(), workers);
    }
}

#[test]
fn an_empty_batch_is_priced(rt: HostRuntime) {
    let alloc = rt.alloc();
    let roads = line(&rt, alloc);
    let batch = empty_batch(&rt, alloc);
    let mut pricer = pricer(&rt, alloc, &roads, 2);
    priced(&rt, &batch, &mut pricer, &OpenGate);
}
