//! Small maps, whose travel times were computed outside by Floyd's and Warshall's method.
ghost use Rattle.std.specs.Prelude.{◌≡◌, ◌≤◌, length, All};
ghost use Rattle.adaptive_roads.specs.inner.contraction.Contracted.{IsContractionOf};

use adaptive_roads::contraction::Contraction;
use ride_model::{Network, RoadArc};
use road_times::Side;
use std::alloc::Global;
use std::process::Abort;

/// No walk.
pub(super) const NO: u64 = u64::MAX;

pub(super) const SMALL: [(u32, u32, u32); 14] = [
    (1, 5, 52),
    (5, 3, 10),
    (5, 7, 15),
    (5, 2, 50),
    (3, 8, 2),
    (3, 4, 2),
    (8, 3, 45),
    (1, 1, 28),
    (5, 8, 44),
    (1, 1, 30),
    (4, 3, 24),
    (5, 3, 17),
    (7, 3, 29),
    (1, 5, 51),
];

pub(super) const SMALL_TIMES: [u64; 64] = [
    0, 101, 61, 63, 51, NO, 66, 63, NO, 0, NO, NO, NO, NO, NO, NO, NO, NO, 0, 2, NO, NO, NO, 2, NO,
    NO, 24, 0, NO, NO, NO, 26, NO, 50, 10, 12, 0, NO, 15, 12, NO, NO, NO, NO, NO, 0, NO, NO, NO,
    NO, 29, 31, NO, NO, 0, 31, NO, NO, 45, 47, NO, NO, NO, 0,
];

const EXTREME: [(u32, u32, u32); 9] = [
    (1, 1, 0),
    (3, 2, 1000000000),
    (3, 5, 0),
    (5, 1, 0),
    (4, 6, 1000000000),
    (6, 5, 1000000000),
    (5, 4, 1000000000),
    (1, 1, 1000000000),
    (4, 3, 1000000000),
];

const EXTREME_TIMES: [u64; 36] = [
    0, NO, NO, NO, NO, NO, NO, 0, NO, NO, NO, NO, 0, 1000000000, 0, 1000000000, 0, 2000000000,
    1000000000, 2000000000, 1000000000, 0, 1000000000, 1000000000, 0, 3000000000, 2000000000,
    1000000000, 0, 2000000000, 1000000000, 4000000000, 3000000000, 2000000000, 1000000000, 0,
];

/// Parallel arcs both ways, a loop, and a node that no arc touches.
const PAIR: [(u32, u32, u32); 5] = [(1, 2, 60), (1, 2, 50), (2, 1, 60), (1, 1, 7), (2, 1, 61)];

const PAIR_TIMES: [u64; 9] = [0, 50, NO, 60, 0, NO, NO, NO, 0];

/// A map, and the travel times from each node to each, line by line.
pub(super) struct SmallMap {
    pub(super) nodes: u32,
    pub(super) arcs: &'static [(u32, u32, u32)],
    pub(super) times: &'static [u64],
}

/// Those maps, and one without arcs.
pub(super) const MAPS: [SmallMap; 4] = [
    SmallMap {
        nodes: 8,
        arcs: &SMALL,
        times: &SMALL_TIMES,
    },
    SmallMap {
        nodes: 6,
        arcs: &EXTREME,
        times: &EXTREME_TIMES,
    },
    SmallMap {
        nodes: 3,
        arcs: &PAIR,
        times: &PAIR_TIMES,
    },
    SmallMap {
        nodes: 2,
        arcs: &[],
        times: &[0, NO, NO, 0],
    },
];

// An arc of a map with so many nodes.
fn arc_within(rt: &impl Abort, nodes: u32, arc: (u32, u32, u32)) -> RoadArc
    ensures tail { (1 ≤ result.tail) × (result.tail ≤ nodes) }
    ensures head { (1 ≤ result.head) × (result.head ≤ nodes) }
    ensures seconds { result.seconds ≤ 1000000000 }
{
    let (tail, head, seconds) = arc;
    assert!(rt;
        1 <= tail && tail <= nodes && 1 <= head && head <= nodes && seconds <= 1_000_000_000
    );
    RoadArc {
        tail,
        head,
        seconds,
    }
}

/// A map of these arcs: from a node to a node, in so many seconds.
pub(super) fn network(
    rt: &impl Abort,
    alloc: Global,
    nodes: u32,
    arcs: &[(u32, u32, u32)],
) -> Network
    ensures { result.nodes ≡ nodes }
{
    assert!(rt; 1 <= nodes && nodes <= 500_000 && arcs.len() <= 2_000_000);
    let mut list = Vec::new(alloc);
    for arc in arcs {
        let arc = arc_within(rt, nodes, *arc);
        list.push(arc).expect(rt, "there is memory");
    }
    Network::new(nodes, list)
}

/// The nodes of a map with so many.
pub(super) fn all_nodes(rt: &impl Abort, alloc: Global, nodes: u32) -> Vec<u32>
    ensures nodes { All (λ node. (1 ≤ node) × (node ≤ nodes)) result.items }
    ensures count { length result.items ≡ nodes }
{
    let mut list = Vec::new(alloc);
    for node in 0..nodes {
        list.push(node + 1).expect(rt, "there is memory");
    }
    list
}

/// The contraction of a map, as far as so many links go.
pub(super) fn contraction_of(
    rt: &impl Abort,
    alloc: Global,
    map: &Network,
    fuel: u64,
) -> Contraction
    ensures nodes { result.nodes ≡ map.now.nodes }
    ensures hierarchy { IsContractionOf map.now result }
{
    let mut contraction = Contraction::new(alloc, map).expect(rt, "there is memory");
    contraction
        .contract_some(fuel)
        .expect(rt, "there is memory");
    contraction
}

/// Compares the row of a side of a node with a line of the table of its map, or with a column.
pub(super) fn expect_line(
    rt: &impl Abort,
    row: &[Option<u64>],
    table: &[u64],
    side: Side,
    node: u32,
) {
    for (other, time) in row.iter().enumerate() {
        let (line, column) = match side {
            Side::Out => (node as usize, other),
            Side::Back => (other, node as usize),
        };
        let wanted = table.get(line.wrapping_mul(row.len()).wrapping_add(column));
        let is_wanted = Some(time.unwrap_or(NO)) == wanted.copied();
        assert!(rt; is_wanted, "from {line} to {column}");
    }
}
