//! Least travel times over a road network.
#![tactic(auto)]

ghost use Rattle.std.specs.Prelude.{◌≡◌, ◌+◌, ◌≤◌, length, map, All, IfOk};
ghost use Rattle.ride_model.specs.Road.{IsRoadMap, IsNode, travel};
ghost use Rattle.road_times.specs.inner.Turned.{travel_by};

use ride_model::Network;
use std::alloc::{AllocError, Global};
use std::marker::Model;

mod adjacency;
mod search;
mod side;
mod sorting;

use adjacency::Adjacency;
use search::Search;
pub use side::Side;

/// Want of memory.
pub type NoMemory = AllocError;

// Memory: an arc takes 12 bytes in the network, 8 in each direction here and 4 for its tail; a node takes 4
// in each direction here and 44 in a scratch (keys and labels 16 each, links 8, the list of settled nodes 4).
// The largest map, 500,000 nodes and 2,000,000 arcs, takes 64 megabytes for its arcs and 26 for its nodes,
// one scratch included.

/// A road network with the arcs of each node at hand, in both directions.
///
/// `tails` has the node that each arc leaves, in the order of the network: with it the roads mean that very
/// network, the order of its arcs included.
pub struct Roads {
    nodes: u32,
    tails: Vec<u32>,
    forward: Adjacency,
    backward: Adjacency,
}

impl Model for Roads {
    ghost use Rattle.ride_model.specs.Road.{RoadMap};

    ghost Value = { RoadMap };

    ghost use Rattle.road_times.specs.inner.Stored.{stored_map, AreRoads};

    ghost view = { λ roads. stored_map roads.nodes roads.tails.items roads.forward };

    ghost invariant = { λ roads. AreRoads (stored_map roads.nodes roads.tails.items roads.forward) roads.forward roads.backward };
}

impl Drop for Roads {
    fn drop(self) {
        let Roads {
            nodes: _,
            tails,
            forward,
            backward,
        } = self;
        drop(tails);
        drop(forward);
        drop(backward);
    }
}

/// What a search needs besides the roads, so that it takes no memory.
#[derive(Drop)]
pub struct Scratch {
    search: Search,
}

impl Model for Scratch {
    ghost use Rattle.std.specs.Prelude.{◌-◌, ◌≤◌, length};
    ghost use Rattle.road_times.specs.inner.Room.{Room};

    ghost Value = { Room };

    ghost use Rattle.road_times.specs.inner.Search.{IsReady};

    ghost view = { λ scratch. record { nodes = length scratch.search.labels.items - 1 } };

    ghost invariant = { λ scratch. IsReady scratch.search };
}

impl Roads {
    /// The roads of a map, packed by a counting sort.
    pub fn new(alloc: Global, map: &Network) -> Result<Roads, NoMemory>
        ensures { IfOk result (λ roads. roads ≡ map.now) }
    {
        let tails = sorting::tails(alloc, map.arcs(), Side::Out)?;
        let forward = Adjacency::new(alloc, map, Side::Out, tails.as_slice())?;
        let heads = sorting::tails(alloc, map.arcs(), Side::Back)?;
        let backward = Adjacency::new(alloc, map, Side::Back, heads.as_slice())?;
        Ok(Roads {
            nodes: map.nodes(),
            tails,
            forward,
            backward,
        })
    }

    /// The number of nodes.
    pub fn nodes(&self) -> u32
        ensures nodes { result ≡ self.now.nodes }
        ensures fits { IsRoadMap self.now }
    {
        self.nodes
    }

    /// The network that the roads were made from, its arcs in their order.
    pub fn network(&self, alloc: Global) -> Result<Network, NoMemory>
        ensures { IfOk result (λ network. network ≡ self.now) }
    {
        let arcs = sorting::unpack(
            alloc,
            self.tails.as_slice(),
            self.forward.starts.as_slice(),
            self.forward.neighbors.as_slice(),
        )?;
        Ok(Network::new(self.nodes, arcs))
    }

    /// The travel time from x to y in seconds, None where there is no walk. Takes no memory.
    pub fn time(&self, scratch: &mut Scratch, x: u32, y: u32) -> Option<u64>
        requires scratch { scratch.old.nodes ≡ self.now.nodes }
        requires from { IsNode self.now x }
        requires to { IsNode self.now y }
        ensures time { result ≡ travel self.now x y }
        ensures scratch { scratch.new ≡ scratch.old }
        ensures fits { IsRoadMap self.now }
    {
        let search = &mut scratch.search;
        search.begin(x);
        search.time_to(&self.forward, y)
    }

    /// Fills a row with the travel times from x to each of the wanted nodes, or from each of them to x.
    ///
    /// A node may be wanted more than once, and x too. The search stops as soon as all wanted nodes are settled,
    /// or no other node can be reached.
    pub fn rows(
        &self,
        scratch: &mut Scratch,
        x: u32,
        side: Side,
        wanted: &[u32],
        into: &mut [Option<u64>],
    )
        requires scratch { scratch.old.nodes ≡ self.now.nodes }
        requires node { IsNode self.now x }
        requires wanted { All (IsNode self.now) wanted.now }
        requires places { length wanted.now ≡ length into.old }
        ensures row { into.new ≡ map (travel_by side self.now x) wanted.now }
        ensures scratch { scratch.new ≡ scratch.old }
        ensures fits { IsRoadMap self.now }
    {
        let adjacency = match side {
            Side::Out => &self.forward,
            Side::Back => &self.backward,
        };
        scratch.search.row(adjacency, x, wanted, into);
    }
}

impl Scratch {
    /// How many nodes the last search settled: what it cost.
    pub fn settled(&self) -> usize
        ensures { result ≤ self.now.nodes + 1 }
    {
        self.search.count
    }

    /// A scratch for searches over these roads.
    pub fn new(alloc: Global, roads: &Roads) -> Result<Scratch, NoMemory>
        ensures { IfOk result (λ scratch. scratch.nodes ≡ roads.now.nodes) }
    {
        let search = Search::new(alloc, roads.nodes() + 1)?;
        Ok(Scratch { search })
    }
}
