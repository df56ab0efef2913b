//! Small maps, contracted to the last node: rows by sweeps, and times by two climbs.
ghost use Rattle.std.specs.Prelude.{◌≡◌, ◌+◌, ◌≤◌, length, IfSome};
ghost use Rattle.adaptive_roads.specs.inner.contraction.Contracted.{IsContractionOf};
ghost use Rattle.adaptive_roads.specs.inner.road_hierarchy.Selection.{IsSelectionOf};

use super::maps::{MAPS, SmallMap, all_nodes, contraction_of, expect_line, network};
use adaptive_roads::road_hierarchy::*;
use adaptive_roads::{Roads, TravelTimes};
use ride_model::Network;
use road_times::Side;
use std::alloc::Global;
use std::process::Abort;

// The hierarchy of a map, if so many links are enough to contract it.
fn hierarchy_of(rt: &impl Abort, alloc: Global, map: &Network, fuel: u64) -> Option<Hierarchy>
    ensures nodes { IfSome result (λ hierarchy. hierarchy.nodes ≡ map.now.nodes) }
    ensures hierarchy { IfSome result (IsContractionOf map.now) }
{
    let contraction = contraction_of(rt, alloc, map, fuel);
    Hierarchy::new(alloc, contraction).expect(rt, "there is memory")
}

// Selects all nodes.
fn select_all(rt: &impl Abort, alloc: Global, hierarchy: &Hierarchy, side: Side) -> Selected
    ensures selection { IsSelectionOf hierarchy.now result }
    ensures wanted { length result.wanted ≡ hierarchy.now.nodes }
{
    let wanted = all_nodes(rt, alloc, hierarchy.nodes());
    Selected::of(alloc, hierarchy, side, &wanted).expect(rt, "there is memory")
}

// Room for the rows of a selection.
fn room_for(rt: &impl Abort, alloc: Global, hierarchy: &Hierarchy, selected: &Selected) -> SweepRoom
    requires { IsSelectionOf hierarchy.now selected.now }
    ensures { hierarchy.now.nodes + length selected.now.nodes ≤ result.places }
{
    let places = hierarchy.nodes() as usize + selected.count();
    SweepRoom::new(alloc, places).expect(rt, "there is memory")
}

// Compares the rows of a side with the lines of the table, or with its columns.
fn expect_side(rt: &impl Abort, alloc: Global, hierarchy: &Hierarchy, side: Side, table: &[u64]) {
    let nodes = hierarchy.nodes();
    let mut row = vec![in alloc; None; nodes as usize].expect(rt, "there is memory");
    let selected = select_all(rt, alloc, hierarchy, side);
    let mut room = room_for(rt, alloc, hierarchy, &selected);
    for place in 0..nodes {
        hierarchy.row_in(&selected, &mut room, place + 1, &mut row);
        expect_line(rt, &row, table, side, place);
    }
}

// Fills a row with the times from a node to each node, each by two climbs.
fn climb_to_all(hierarchy: &Hierarchy, room: &mut SweepRoom, x: u32, row: &mut [Option<u64>])
    requires room { hierarchy.now.nodes + hierarchy.now.nodes ≤ room.old.places }
    requires some_node { 1 ≤ x }
    requires node { x ≤ hierarchy.now.nodes }
    requires places { length row.old ≡ hierarchy.now.nodes }
    ensures room { room.new ≡ room.old }
{
    for place in 0..hierarchy.nodes() {
        row[place as usize] = hierarchy.time(room, x, place + 1);
    }
}

// Compares each time by two climbs with the table.
fn expect_climbs(rt: &impl Abort, alloc: Global, hierarchy: &Hierarchy, table: &[u64]) {
    let nodes = hierarchy.nodes();
    let mut room = SweepRoom::new(alloc, 2 * nodes as usize).expect(rt, "there is memory");
    let mut row = vec![in alloc; None; nodes as usize].expect(rt, "there is memory");
    for place in 0..nodes {
        climb_to_all(hierarchy, &mut room, place + 1, &mut row);
        expect_line(rt, &row, table, Side::Out, place);
    }
}

// Fills a row with the times from a node to each node.
fn travel_to_all(times: &mut TravelTimes, x: u32, row: &mut [Option<u64>])
    requires some_node { 1 ≤ x }
    requires node { x ≤ times.old.nodes }
    requires places { length row.old ≡ times.old.nodes }
    ensures times { times.new ≡ times.old }
{
    for place in 0..times.roads().nodes() {
        row[place as usize] = times.time(x, place + 1);
    }
}

// Compares each time with the table.
fn expect_travels(rt: &impl Abort, alloc: Global, times: &mut TravelTimes, table: &[u64])
    ensures { times.new ≡ times.old }
{
    let nodes = times.roads().nodes();
    let mut row = vec![in alloc; None; nodes as usize].expect(rt, "there is memory");
    for place in 0..nodes {
        travel_to_all(times, place + 1, &mut row);
        expect_line(rt, &row, table, Side::Out, place);
    }
}

// Compares times by searches with the table, and then those by climbs.
fn expect_same_travels(rt: &impl Abort, alloc: Global, roads: &Roads, table: &[u64]) {
    let mut times = TravelTimes::new(alloc, roads).expect(rt, "there is memory");
    expect_travels(rt, alloc, &mut times, table);
    roads.prepare_for(alloc, 120);
    times.look();
    expect_travels(rt, alloc, &mut times, table);
}

// Compares all rows and times of a hierarchy and the roads of a map with the table.
fn expect_both(
    rt: &impl Abort,
    alloc: Global,
    network: &Network,
    hierarchy: &Hierarchy,
    table: &[u64],
)
    requires nodes { hierarchy.now.nodes ≡ network.now.nodes }
    requires hierarchy { IsContractionOf network.now hierarchy.now }
{
    expect_side(rt, alloc, hierarchy, Side::Out, table);
    expect_side(rt, alloc, hierarchy, Side::Back, table);
    expect_climbs(rt, alloc, hierarchy, table);
    let roads = Roads::new(alloc, network).expect(rt, "there is memory");
    expect_same_travels(rt, alloc, &roads, table);
}

// Compares all that a map tells with its table. It is left as it is where no link may be looked at.
fn expect_map(rt: &impl Abort, alloc: Global, map: &SmallMap) {
    let network = network(rt, alloc, map.nodes, map.arcs);
    let unmade = hierarchy_of(rt, alloc, &network, 0);
    assert!(rt; unmade.is_none());
    let made = hierarchy_of(rt, alloc, &network, u64::MAX);
    let hierarchy = made.expect(rt, "no node is left");
    expect_both(rt, alloc, &network, &hierarchy, map.times);
}

#[test]
fn sweeps_and_climbs_give_the_least_times_of_small_maps(rt: HostRuntime) {
    for map in &MAPS {
        expect_map(&rt, rt.alloc(), map);
    }
}
