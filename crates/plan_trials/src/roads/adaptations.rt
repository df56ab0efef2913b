//! A one-way ring of nine nodes, ten seconds from each to the next: it is searched, contracted, swept and climbed.
ghost use Rattle.std.specs.Prelude.{◌≡◌, length};

use adaptive_roads::{BatchRoads, Roads, Scratch, TravelTimes};
use ride_model::{Network, RoadArc};
use road_times::Side;
use std::alloc::Global;
use std::process::Abort;
use std::thread::{Threads, join};

/// The number of nodes.
const NODES: u32 = 9;

/// One of the wanted nodes is wanted twice.
const WANTED: [u32; 4] = [3, 8, 3, 5];

fn ring(rt: &impl Abort, alloc: Global) -> Network
    ensures { result.nodes ≡ 9 }
{
    let mut arcs = Vec::new(alloc);
    for node in 0..NODES {
        let arc = RoadArc {
            tail: 1 + node,
            head: 1 + (node + 1) % NODES,
            seconds: 10,
        };
        arcs.push(arc).expect(rt, "there is memory");
    }
    Network::new(NODES, arcs)
}

/// The time around the ring.
fn around(from: u32, to: u32) -> Option<u64> {
    let steps = to.wrapping_add(NODES).wrapping_sub(from) % NODES;
    Some(u64::from(steps).wrapping_mul(10))
}

/// The row of a node to the wanted nodes, or from them.
fn row_around(node: u32, side: Side) -> [Option<u64>; 4] {
    WANTED.map(|other| match side {
        Side::Out => around(node, other),
        Side::Back => around(other, node),
    })
}

/// Whether both rows of a node, and its times to nodes 7 and 9, are those around the ring.
fn are_around(
    node: u32,
    out: [Option<u64>; 4],
    back: [Option<u64>; 4],
    times: [Option<u64>; 2],
) -> bool {
    out == row_around(node, Side::Out)
        && back == row_around(node, Side::Back)
        && times == [around(node, 7), around(node, 9)]
}

/// Both rows of each node, and its times to two nodes, by one scratch. Returns whether the scratch tells of settled nodes, which it does once.
fn expect_nodes(rt: &impl Abort, alloc: Global, roads: &Roads, towards: &BatchRoads) -> bool
    requires nodes { (roads.now.nodes ≡ 9) × (towards.now.roads.nodes ≡ 9) }
    requires wanted { length towards.now.wanted ≡ 4 }
{
    let mut scratch = Scratch::new(alloc, roads).expect(rt, "there is memory");
    for place in 0..NODES {
        let node = 1 + place;
        let mut out = [None; 4];
        towards.rows(&mut scratch, node, Side::Out, &mut out);
        let mut back = [None; 4];
        towards.rows(&mut scratch, node, Side::Back, &mut back);
        let seven = towards.time(&mut scratch, node, 7);
        let nine = towards.time(&mut scratch, node, 9);
        assert!(rt; are_around(node, out, back, [seven, nine]), "node {node}");
    }
    let is_searched = scratch.take_settled() > 0;
    assert!(rt; scratch.take_settled() == 0);
    is_searched
}

/// Times from a node to each.
fn expect_around(rt: &impl Abort, times: &mut TravelTimes)
    requires { times.old.nodes ≡ 9 }
    ensures { times.new ≡ times.old }
{
    for node in 0..NODES {
        let is_around = times.time(4, 1 + node) == around(4, 1 + node);
        assert!(rt; is_around, "to {node}");
    }
}

/// All rows and times of the ring, by sweeps and climbs with no search, or by searches.
fn expect_times(rt: &impl Abort, alloc: Global, times: &mut TravelTimes, by_sweeps: bool)
    requires { times.old.nodes ≡ 9 }
    ensures { times.new ≡ times.old }
{
    times.look();
    expect_around(rt, times);
    let towards = times.towards(&WANTED);
    let is_searched = expect_nodes(rt, alloc, times.roads(), &towards);
    assert!(rt; towards.is_swept() == by_sweeps && is_searched != by_sweeps);
}

/// A hierarchy is made once what was searched and what is wanted come to enough, and not before; who looks has it then, also who asked
/// before.
fn expect_adapting<'r>(rt: &impl Abort, alloc: Global, roads: &'r Roads)
    requires { roads.now.nodes ≡ 9 }
{
    let mut times = TravelTimes::new(alloc, roads).expect(rt, "there is memory");
    expect_times(rt, alloc, &mut times, false);
    roads.note(9 * 116 - 1);
    roads.prepare_for(alloc, 4);
    expect_times(rt, alloc, &mut times, false);
    roads.note(1);
    roads.prepare_for(alloc, 4);
    expect_times(rt, alloc, &mut times, true);
    let mut others = TravelTimes::new(alloc, roads).expect(rt, "there is memory");
    expect_times(rt, alloc, &mut others, true);
}

/// A hierarchy is made in pieces, until nothing of it is left to do.
fn expect_pieces<'r>(rt: &impl Abort, alloc: Global, roads: &'r Roads)
    requires { roads.now.nodes ≡ 9 }
{
    let mut times = TravelTimes::new(alloc, roads).expect(rt, "there is memory");
    let is_begun = roads.prepare(alloc);
    let mut is_going_on = true;
    for _ in 0..9 {
        is_going_on = roads.prepare(alloc);
    }
    assert!(rt; is_begun && !is_going_on);
    expect_times(rt, alloc, &mut times, true);
}

/// Prepares for more rows than a hierarchy costs, and looks. Returns whether rows come by sweeps then.
fn prepares_and_looks(alloc: Global, roads: &Roads) -> bool
    requires { roads.now.nodes ≡ 9 }
{
    let Ok(mut times) = TravelTimes::new(alloc, roads) else {
        return false;
    };
    roads.prepare_for(alloc, 120);
    times.look();
    times.towards(&WANTED).is_swept()
}

/// Two threads prepare at once: at least the one that makes the hierarchy has it then, and later both.
fn expect_threads<R: Threads + Sync + Abort>(rt: &R, alloc: Global, roads: &Roads)
    requires { roads.now.nodes ≡ 9 }
{
    let (first, second) = join(
        rt,
        || -> bool
            requires { roads.now.nodes ≡ 9 }
        { prepares_and_looks(alloc, roads) },
        || -> bool
            requires { roads.now.nodes ≡ 9 }
        { prepares_and_looks(alloc, roads) },
    );
    assert!(rt; (first || second) && prepares_and_looks(alloc, roads));
}

fn roads_of_ring(rt: &impl Abort, alloc: Global) -> Roads
    ensures { result.nodes ≡ 9 }
{
    let network = ring(rt, alloc);
    Roads::new(alloc, &network).expect(rt, "there is memory")
}

#[test]
fn times_stay_the_same_once_a_map_is_contracted(rt: HostRuntime) {
    let roads = roads_of_ring(&rt, rt.alloc());
    expect_adapting(&rt, rt.alloc(), &roads);
}

#[test]
fn a_hierarchy_is_made_in_pieces(rt: HostRuntime) {
    let roads = roads_of_ring(&rt, rt.alloc());
    expect_pieces(&rt, rt.alloc(), &roads);
}

#[test]
fn threads_share_a_hierarchy(rt: HostRuntime) {
    let roads = roads_of_ring(&rt, rt.alloc());
    expect_threads(&rt, rt.alloc(), &roads);
}
