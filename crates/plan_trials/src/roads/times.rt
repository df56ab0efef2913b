//! Small maps, searched: no hierarchy of them is made.
ghost use Rattle.std.specs.Prelude.{◌≡◌, ◌<◌, length};

use super::maps::{MAPS, NO, SMALL, SMALL_TIMES, all_nodes, expect_line, network};
use adaptive_roads::{BatchRoads, Roads, TravelTimes};
use road_times::Side;
use std::alloc::Global;
use std::process::Abort;

/// Two of the wanted nodes are wanted twice.
const WANTED: [u32; 5] = [3, 1, 2, 3, 1];

// Compares the times from a node to each with a line of the table.
fn expect_times(rt: &impl Abort, times: &mut TravelTimes, place: u32, table: &[u64])
    requires within { place < times.old.nodes }
    ensures { times.new ≡ times.old }
{
    let nodes = times.roads().nodes();
    let first = (place as usize).wrapping_mul(nodes as usize);
    for other in 0..nodes {
        let time = times.time(place + 1, other + 1).unwrap_or(NO);
        let wanted = table.get(first.wrapping_add(other as usize));
        let is_wanted = Some(time) == wanted.copied();
        assert!(rt; is_wanted, "from {place} to {other}");
    }
}

// Compares the rows of a node with the lines of the table, and with its columns.
fn expect_rows(
    rt: &impl Abort,
    times: &mut TravelTimes,
    towards: &BatchRoads,
    place: u32,
    row: &mut [Option<u64>],
    table: &[u64],
)
    requires roads { towards.now.roads ≡ times.old }
    requires within { place < times.old.nodes }
    requires places { length row.old ≡ length towards.now.wanted }
    ensures times { times.new ≡ times.old }
    ensures places { length row.new ≡ length row.old }
{
    // This call tells that the number of a node fits.
    let _nodes = times.roads().nodes();
    times.row(towards, place + 1, Side::Out, row);
    expect_line(rt, row, table, Side::Out, place);
    times.row(towards, place + 1, Side::Back, row);
    expect_line(rt, row, table, Side::Back, place);
}

// Compares all rows and times with the table.
fn compare(
    rt: &impl Abort,
    times: &mut TravelTimes,
    towards: &BatchRoads,
    row: &mut [Option<u64>],
    table: &[u64],
)
    requires roads { towards.now.roads ≡ times.old }
    requires places { length row.old ≡ length towards.now.wanted }
{
    for place in 0..times.roads().nodes() {
        expect_rows(rt, times, towards, place, row, table);
        expect_times(rt, times, place, table);
    }
}

// Compares all rows and times of roads, which are searched, with the table.
fn expect_table(rt: &impl Abort, alloc: Global, roads: &Roads, table: &[u64]) {
    let wanted = all_nodes(rt, alloc, roads.nodes());
    let mut row = vec![in alloc; None; wanted.len()].expect(rt, "there is memory");
    let mut times = TravelTimes::new(alloc, roads).expect(rt, "there is memory");
    let towards = times.towards(&wanted);
    compare(rt, &mut times, &towards, &mut row, table);
}

// The roads of a map of these arcs.
fn roads_of(rt: &impl Abort, alloc: Global, nodes: u32, arcs: &[(u32, u32, u32)]) -> Roads
    ensures { result.nodes ≡ nodes }
{
    let map = network(rt, alloc, nodes, arcs);
    Roads::new(alloc, &map).expect(rt, "there is memory")
}

// Compares the row of node 2 of three, with nodes that are wanted twice.
fn expect_wanted(rt: &impl Abort, times: &mut TravelTimes, side: Side, row: &[Option<u64>; 5])
    requires { times.old.nodes ≡ 3 }
    ensures { times.new ≡ times.old }
{
    let towards = times.towards(&WANTED);
    let mut found = [None; 5];
    times.row(&towards, 2, side, &mut found);
    assert!(rt; found == *row);
}

fn expect_absent(rt: &impl Abort, alloc: Global, roads: &Roads)
    requires { roads.now.nodes ≡ 3 }
{
    let mut times = TravelTimes::new(alloc, roads).expect(rt, "there is memory");
    let out = [Some(60), None, Some(0), Some(60), None];
    expect_wanted(rt, &mut times, Side::Out, &out);
    let back = [None, Some(60), Some(0), None, Some(60)];
    expect_wanted(rt, &mut times, Side::Back, &back);
}

// Compares many times of the first map with its table, by one scratch.
fn expect_many(rt: &impl Abort, times: &mut TravelTimes)
    requires { times.old.nodes ≡ 8 }
{
    for turn in 0..1_000u32 {
        let x = turn % 8;
        let y = turn / 8 % 8;
        let time = times.time(x + 1, y + 1).unwrap_or(NO);
        assert!(rt; time == SMALL_TIMES[(8 * x + y) as usize], "turn {turn}");
    }
}

fn expect_turns(rt: &impl Abort, alloc: Global, roads: &Roads)
    requires { roads.now.nodes ≡ 8 }
{
    assert!(rt; roads.nodes() == 8);
    let mut times = TravelTimes::new(alloc, roads).expect(rt, "there is memory");
    expect_many(rt, &mut times);
}

#[test]
fn rows_and_times_are_the_least_of_small_maps(rt: HostRuntime) {
    for map in &MAPS {
        let roads = roads_of(&rt, rt.alloc(), map.nodes, map.arcs);
        expect_table(&rt, rt.alloc(), &roads, map.times);
    }
}

#[test]
fn a_node_with_no_walk_is_absent_and_a_scratch_serves_a_thousand_searches(rt: HostRuntime) {
    let roads = roads_of(&rt, rt.alloc(), 3, &[(1, 2, 60), (2, 3, 60)]);
    expect_absent(&rt, rt.alloc(), &roads);
    let small = roads_of(&rt, rt.alloc(), 8, &SMALL);
    expect_turns(&rt, rt.alloc(), &small);
}
