//! Road networks.
ghost use Rattle.std.specs.Prelude.{◌≡◌, ◌≤◌, length, All};
ghost use Rattle.ride_model.specs.Road.{IsArc, IsRoadMap};

use std::marker::Model;

/// A directed road from `tail` to `head` that takes so many seconds. Nodes are numbered from 1.
#[derive(Clone, Copy, PartialEq, Eq, Default)]
pub struct RoadArc {
    pub tail: u32,
    pub head: u32,
    pub seconds: u32,
}

/// A road network: nodes 1 to `nodes`, and arcs among them.
#[derive(Drop)]
pub struct Network {
    nodes: u32,
    arcs: Vec<RoadArc>,
}

impl Model for Network {
    ghost use Rattle.ride_model.specs.Road.{RoadMap, IsRoadMap};

    ghost Value = { RoadMap };

    ghost view = { λ network. record { nodes = network.nodes; arcs = network.arcs.items } };

    ghost invariant = { λ network. IsRoadMap (record { nodes = network.nodes; arcs = network.arcs.items }) };
}

impl Network {
    /// The network of these nodes and arcs, in order.
    pub fn new(nodes: u32, arcs: Vec<RoadArc>) -> Network
        requires { IsRoadMap (record { nodes = nodes; arcs = arcs.items }) }
        ensures nodes { result.nodes ≡ nodes }
        ensures arcs { result.arcs ≡ arcs.items }
    {
        Network { nodes, arcs }
    }

    /// The number of nodes.
    #[inline]
    pub fn nodes(&self) -> u32
        ensures nodes { result ≡ self.now.nodes }
        ensures fits { IsRoadMap self.now }
    {
        self.nodes
    }

    /// The arcs, in order.
    #[inline]
    pub fn arcs(&self) -> &[RoadArc]
        ensures arcs { result.now ≡ self.now.arcs }
        ensures fits { IsRoadMap self.now }
    {
        self.arcs.as_slice()
    }
}
