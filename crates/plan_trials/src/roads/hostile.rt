//! Maps that are hard to contract: rows by sweeps are rows by searches, and a contraction that grows too much ends.
ghost use Rattle.std.specs.Prelude.{◌≡◌, ◌+◌, ◌≤◌, length, IfSome};
ghost use Rattle.adaptive_roads.specs.inner.road_hierarchy.Selection.{IsSelectionOf};
ghost use Rattle.ride_model.specs.declared.network.RoadArc.{RoadArc};
ghost use Rattle.plan_trials.specs.roads.Hostile.{IsHostile};

use super::maps::contraction_of;
use adaptive_roads::road_hierarchy::{Hierarchy, Selected, SweepRoom};
use adaptive_roads::{BatchRoads, TravelTimes};
use ride_model::{Network, RoadArc};
use road_times::{Roads, Scratch, Side};
use std::alloc::Global;
use std::process::Abort;

/// The number of nodes.
const NODES: u32 = 60;

/// One of the wanted nodes is wanted twice.
const WANTED: [u32; 4] = [3, 54, 3, 29];

#[derive(Clone, Copy)]
enum Kind {
    /// A street from one node to each other one.
    Star,
    /// An arc from each node to each.
    Complete,
    /// Drawn arcs.
    Drawn,
    /// Drawn arcs that take no time.
    Zeros,
    /// Drawn arcs, three times each, and loops.
    Parallel,
}

/// So many arcs of a kind, and whether a contraction comes to its end.
struct Case {
    kind: Kind,
    arcs: u32,
    contracts: bool,
}

const CASES: [Case; 6] = [
    Case {
        kind: Kind::Star,
        arcs: 118,
        contracts: true,
    },
    Case {
        kind: Kind::Complete,
        arcs: 3_600,
        contracts: false,
    },
    Case {
        kind: Kind::Drawn,
        arcs: 150,
        contracts: true,
    },
    Case {
        kind: Kind::Drawn,
        arcs: 1_500,
        contracts: true,
    },
    Case {
        kind: Kind::Zeros,
        arcs: 200,
        contracts: true,
    },
    Case {
        kind: Kind::Parallel,
        arcs: 300,
        contracts: true,
    },
];

/// A number that looks drawn.
fn drawn(number: u32) -> u32 {
    let mixed = number.wrapping_mul(2_654_435_761);
    mixed ^ mixed >> 15
}

/// An arc between nodes by these numbers.
fn between(tail: u32, head: u32, seconds: u32) -> RoadArc
    ensures { IsHostile result }
{
    RoadArc {
        tail: 1 + tail % NODES,
        head: 1 + head % NODES,
        seconds: seconds % 100,
    }
}

/// An arc of a kind.
fn arc_of(kind: Kind, place: u32) -> RoadArc
    ensures { IsHostile result }
{
    let tail = drawn(place);
    let head = drawn(tail);
    let seconds = drawn(head);
    match kind {
        Kind::Star if place % 2 == 0 => between(0, 1 + place / 2, seconds),
        Kind::Star => between(1 + place / 2, 0, seconds),
        Kind::Complete => between(place / NODES, place, seconds),
        Kind::Drawn => between(tail, head, seconds),
        Kind::Zeros => between(tail, head, 0),
        Kind::Parallel if place % 4 == 3 => between(tail, tail, seconds),
        Kind::Parallel => between(drawn(place / 4), place / 12, seconds),
    }
}

fn map_of(rt: &impl Abort, alloc: Global, case: &Case) -> Network
    ensures { result.nodes ≡ 60 }
{
    assert!(rt; case.arcs <= 2_000_000);
    let mut arcs = Vec::new(alloc);
    for place in 0..case.arcs {
        let arc = arc_of(case.kind, place);
        arcs.push(arc).expect(rt, "there is memory");
    }
    Network::new(NODES, arcs)
}

// Compares the rows of a side by sweeps with those by searches.
fn compare_rows(
    rt: &impl Abort,
    alloc: Global,
    roads: &Roads,
    hierarchy: &Hierarchy,
    selected: &Selected,
    room: &mut SweepRoom,
    side: Side,
)
    requires nodes { (hierarchy.now.nodes ≡ 60) × (roads.now.nodes ≡ 60) }
    requires selected { IsSelectionOf hierarchy.now selected.now }
    requires wanted { length selected.now.wanted ≡ 4 }
    requires room { 60 + length selected.now.nodes ≤ room.old.places }
{
    let mut search = Scratch::new(alloc, roads).expect(rt, "there is memory");
    for place in 0..NODES {
        let mut times = [None; 4];
        roads.rows(&mut search, place + 1, side, &WANTED, &mut times);
        let mut row = [None; 4];
        hierarchy.row_in(selected, room, place + 1, &mut row);
        assert!(rt; row == times, "from place {place}");
    }
}

fn expect_same(rt: &impl Abort, alloc: Global, roads: &Roads, hierarchy: &Hierarchy, side: Side)
    requires nodes { hierarchy.now.nodes ≡ 60 }
    requires roads { roads.now.nodes ≡ 60 }
{
    let selected = Selected::of(alloc, hierarchy, side, &WANTED).expect(rt, "there is memory");
    let places = NODES as usize + selected.count();
    let mut room = SweepRoom::new(alloc, places).expect(rt, "there is memory");
    compare_rows(rt, alloc, roads, hierarchy, &selected, &mut room, side);
}

// The hierarchy of a map, if its contraction does not grow too much.
fn hierarchy_of(rt: &impl Abort, alloc: Global, map: &Network) -> Option<Hierarchy>
    ensures { IfSome result (λ hierarchy. hierarchy.nodes ≡ map.now.nodes) }
{
    let contraction = contraction_of(rt, alloc, map, u64::MAX);
    assert!(rt; contraction.is_spent());
    Hierarchy::new(alloc, contraction).expect(rt, "there is memory")
}

// Compares the rows of both sides.
fn expect_hierarchy(rt: &impl Abort, alloc: Global, map: &Network, hierarchy: &Hierarchy)
    requires nodes { hierarchy.now.nodes ≡ 60 }
    requires map { map.now.nodes ≡ 60 }
{
    let roads = Roads::new(alloc, map).expect(rt, "there is memory");
    expect_same(rt, alloc, &roads, hierarchy, Side::Out);
    expect_same(rt, alloc, &roads, hierarchy, Side::Back);
}

fn expect_case(rt: &impl Abort, alloc: Global, case: &Case) {
    let map = map_of(rt, alloc, case);
    let made = hierarchy_of(rt, alloc, &map);
    assert!(rt; made.is_some() == case.contracts, "of {} arcs", case.arcs);
    if let Some(hierarchy) = &made {
        expect_hierarchy(rt, alloc, &map, hierarchy);
    }
}

// All rows of a batch, which are those of searches.
fn compare_searches(
    rt: &impl Abort,
    alloc: Global,
    times: &mut TravelTimes,
    batch: &BatchRoads,
    roads: &Roads,
)
    requires nodes { (times.old.nodes ≡ 60) × (roads.now.nodes ≡ 60) }
    requires batch { batch.now.roads ≡ times.old }
    requires wanted { length batch.now.wanted ≡ 4 }
{
    let mut search = Scratch::new(alloc, roads).expect(rt, "there is memory");
    for place in 0..NODES {
        let mut row = [None; 4];
        times.row(batch, place + 1, Side::Back, &mut row);
        let mut searched = [None; 4];
        roads.rows(&mut search, place + 1, Side::Back, &WANTED, &mut searched);
        let first = roads.time(&mut search, WANTED[0], place + 1);
        assert!(rt; row == searched && first == searched[0], "to place {place}");
    }
}

#[test]
fn sweeps_and_searches_give_the_same_rows(rt: HostRuntime) {
    for case in &CASES {
        expect_case(&rt, rt.alloc(), case);
    }
}

// All rows of roads that may have adapted, which are those of searches. Returns whether they come by sweeps.
fn adapts(rt: &impl Abort, alloc: Global, map: &Network) -> bool
    requires { map.now.nodes ≡ 60 }
{
    let searched = Roads::new(alloc, map).expect(rt, "there is memory");
    let roads = adaptive_roads::Roads::new(alloc, map).expect(rt, "there is memory");
    let mut times = TravelTimes::new(alloc, &roads).expect(rt, "there is memory");
    roads.prepare_for(alloc, 120);
    times.look();
    let batch = times.towards(&WANTED);
    compare_searches(rt, alloc, &mut times, &batch, &searched);
    batch.is_swept()
}

#[test]
fn a_map_that_does_not_contract_is_searched(rt: HostRuntime) {
    let map = map_of(&rt, rt.alloc(), &CASES[1]);
    let sweeps = adapts(&rt, rt.alloc(), &map);
    assert!(rt; !sweeps);
}
