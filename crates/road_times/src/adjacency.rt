// Adjacency arrays: the arcs of a map, packed by the node that they leave.
ghost use Rattle.std.specs.Prelude.{◌≡◌, ℕ, ◌≤◌, length, IfOk};
ghost use Rattle.ride_model.specs.Road.{RoadMap};
ghost use Rattle.road_times.specs.inner.Turned.{turned_map};
ghost use Rattle.road_times.specs.inner.Adjacency.{IsAdjacency, neighbors_at};
ghost use Rattle.road_times.specs.inner.Sorting.{tails_of, ArePlaced};

use crate::side::Side;
use crate::sorting::{pack, starts};
use ride_model::Network;
use std::alloc::{AllocError, Global};

/// The end of an arc, as its other end sees it.
#[derive(Clone, Copy, Default)]
pub(crate) struct Neighbor {
    pub(crate) node: u32,
    pub(crate) seconds: u32,
}

/// The neighbors of node x stand at the places from `starts[x]` up to `starts[x + 1]`.
#[derive(Drop)]
pub(crate) struct Adjacency {
    pub(crate) starts: Vec<u32>,
    pub(crate) neighbors: Vec<Neighbor>,
}

impl Adjacency {
    /// The adjacency of a map as a search meets it, from the nodes that its arcs leave.
    pub(crate) fn new(
        alloc: Global,
        map: &Network,
        side: Side,
        tails: &[u32],
    ) -> Result<Adjacency, AllocError>
        requires { tails.now ≡ tails_of side map.now.arcs }
        ensures packed { IfOk result (IsAdjacency (turned_map side map.now)) }
        ensures placed { IfOk result (λ adjacency.
            ArePlaced side map.now.arcs adjacency.starts.items
            adjacency.neighbors.items (length map.now.arcs)) }
    {
        let starts = starts(alloc, tails, map.nodes())?;
        let neighbors = pack(alloc, map.arcs(), side, starts.as_slice())?;
        Ok(Adjacency { starts, neighbors })
    }

    /// The neighbors of a node.
    #[inline]
    pub(crate) fn at(&self, node: u32) -> &[Neighbor]
        requires { (roads : RoadMap) × IsAdjacency roads self.now × (node ≤ roads.nodes) }
        ensures { result.now ≡ neighbors_at self.now node }
    {
        let first = self.starts[node as usize] as usize;
        let end = self.starts[node as usize + 1] as usize;
        &self.neighbors[first..end]
    }
}
