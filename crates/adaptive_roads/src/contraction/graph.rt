// The arcs of a map and the shortcuts that were added, chained by the nodes that they leave and by those that they lead to.
ghost use Rattle.std.specs.Prelude.{◌≡◌, suc, ◌≢◌, ℕ, ◌+◌, ◌^◌, ◌<◌, ◌≤◌, [], length, slice_index_or, Contains, IfOk, OnOk, OnErr, IsTrue, IsFalse, ◌↔◌};
ghost use Rattle.ride_model.specs.declared.network.RoadArc.{RoadArc};
ghost use Rattle.road_times.specs.inner.Turned.{turned_arc};
ghost use Rattle.adaptive_roads.specs.declared.contraction.graph.Chain.{Chain};
ghost use Rattle.adaptive_roads.specs.declared.contraction.graph.Neighbor.{Neighbor};
ghost use Rattle.adaptive_roads.specs.inner.contraction.Graph.{next_of, firsts_in, chain_at, arc_at, IsFit, IsGraph, IsSameGraph, HasPushed, IsNeighbor, IsTakenOut, IsLive, relinked};
ghost use Rattle.adaptive_roads.specs.inner.contraction.Levels.{level_in};

use ride_model::RoadArc;
use road_times::Side;
use std::alloc::{AllocError, Global};

/// The level of a node that is not contracted.
pub(crate) const IN_CORE: u32 = u32::MAX;

/// The most arcs and shortcuts of a graph, together its links.
pub(crate) const MOST_LINKS: usize = 5_000_000;

/// The most arcs of a chain that are looked at when it is pruned.
const MOST_PRUNED: u32 = 1_000;

/// What follows an arc or shortcut: `next_out` and `next_back` are one more than the place of the next one that leaves the same
/// node, or that leads to the same, and 0 at the end. The next one always has an earlier place.
#[derive(Clone, Copy)]
pub(crate) struct Chain {
    pub(crate) next_out: u32,
    pub(crate) next_back: u32,
}

/// The end of an arc, as its other end sees it.
#[derive(Clone, Copy)]
pub(crate) struct Neighbor {
    pub(crate) node: u32,
    pub(crate) seconds: u32,
}

/// The arcs and shortcuts, the chains of each at the same place, the level of each node, and the contracted nodes in the order of
/// their levels. The arcs stand by themselves, so that they are left when the chains are freed.
#[derive(Drop)]
pub(crate) struct Graph {
    pub(crate) nodes: u32,
    pub(crate) arcs: Vec<RoadArc>,
    pub(crate) chains: Vec<Chain>,
    pub(crate) first_out: Vec<u32>,
    pub(crate) first_back: Vec<u32>,
    pub(crate) levels: Vec<u32>,
    pub(crate) order: Vec<u32>,
}

/// A chain with another next one.
#[inline]
fn with_next(chain: Chain, side: Side, next: u32) -> Chain
    ensures { result ≡ relinked side chain next }
{
    match side {
        Side::Out => Chain {
            next_out: next,
            next_back: chain.next_back,
        },
        Side::Back => Chain {
            next_out: chain.next_out,
            next_back: next,
        },
    }
}

/// An arc as a search meets it.
#[inline]
pub(crate) fn turned(arc: &RoadArc, side: Side) -> RoadArc
    ensures { result ≡ turned_arc side arc.now }
{
    match side {
        Side::Out => *arc,
        Side::Back => RoadArc {
            tail: arc.head,
            head: arc.tail,
            seconds: arc.seconds,
        },
    }
}

impl Graph {
    /// A graph of so many nodes with no arc, with room for so many.
    pub(crate) fn new(alloc: Global, nodes: u32, room: usize) -> Result<Graph, AllocError>
        requires { nodes < 2 ^ 31 }
        ensures graph { IfOk result IsGraph }
        ensures nodes { IfOk result (λ graph. graph.nodes ≡ nodes) }
        ensures arcs { IfOk result (λ graph. graph.arcs.items ≡ []) }
        ensures order { IfOk result (λ graph. length graph.order.items ≡ 0) }
    {
        let arcs = Vec::with_capacity(alloc, room)?;
        let chains = Vec::with_capacity(alloc, room)?;
        let first_out = vec![in alloc; 0u32; nodes as usize + 1]?;
        let first_back = vec![in alloc; 0u32; nodes as usize + 1]?;
        let levels = vec![in alloc; IN_CORE; nodes as usize + 1]?;
        let order = Vec::with_capacity(alloc, nodes as usize)?;
        Ok(Graph {
            nodes,
            arcs,
            chains,
            first_out,
            first_back,
            levels,
            order,
        })
    }

    /// Adds an arc or a shortcut.
    pub(crate) fn add(&mut self, arc: RoadArc) -> Result<(), AllocError>
        requires graph { IsGraph self.old }
        requires fits { IsFit self.old.nodes arc }
        requires room { length self.old.arcs.items < MOST_LINKS }
        ensures graph { IsGraph self.new }
        ensures ok { OnOk result (HasPushed self.old self.new arc) }
        ensures err { OnErr result (IsSameGraph self.old self.new) }
    {
        let chain = Chain {
            next_out: self.first_out[arc.tail as usize],
            next_back: self.first_back[arc.head as usize],
        };
        self.chains.reserve(1)?;
        self.arcs.push(arc)?;
        self.chains.push(chain)?;
        let count = self.arcs.len() as u32;
        self.first_out[arc.tail as usize] = count;
        self.first_back[arc.head as usize] = count;
        Ok(())
    }

    /// The place, and one more, of the first arc of a node.
    #[inline]
    pub(crate) fn first(&self, side: Side, node: u32) -> u32
        requires graph { IsGraph self.now }
        requires node { node ≤ self.now.nodes }
        ensures { result ≡ slice_index_or (firsts_in side self.now) node 0 }
    {
        match side {
            Side::Out => self.first_out[node as usize],
            Side::Back => self.first_back[node as usize],
        }
    }

    /// The place, and one more, of the arc that follows in a chain.
    #[inline]
    pub(crate) fn next(&self, side: Side, place: usize) -> u32
        requires graph { IsGraph self.now }
        requires place { place < length self.now.arcs.items }
        ensures { result ≡ next_of side (chain_at self.now.chains.items place) }
    {
        let chain = &self.chains[place];
        match side {
            Side::Out => chain.next_out,
            Side::Back => chain.next_back,
        }
    }

    /// The arc at a place as a search meets it.
    #[inline]
    pub(crate) fn arc(&self, side: Side, place: usize) -> RoadArc
        requires { place < length self.now.arcs.items }
        ensures { result ≡ arc_at side self.now.arcs.items place }
    {
        turned(&self.arcs[place], side)
    }

    /// Whether a node is not contracted.
    #[inline]
    pub(crate) fn is_in_core(&self, node: u32) -> bool
        requires graph { IsGraph self.now }
        requires node { node ≤ self.now.nodes }
        ensures { IsTrue result ↔ (level_in self.now.levels.items node ≡ IN_CORE) }
    {
        self.levels[node as usize] == IN_CORE
    }

    /// Fills a list with the neighbors of a node that are in the core, by the arcs of one side. A loop has no neighbor.
    pub(crate) fn neighbors(
        &self,
        side: Side,
        node: u32,
        list: &mut Vec<Neighbor>,
    ) -> Result<(), AllocError>
        requires graph { IsGraph self.now }
        requires node { node ≤ self.now.nodes }
        ensures sound { (neighbor : Neighbor) → Contains list.new.items neighbor
            → IsNeighbor side self.now node neighbor }
        ensures complete { OnOk result
            ((neighbor : Neighbor) → IsNeighbor side self.now node neighbor
            → Contains list.new.items neighbor) }
    {
        list.clear();
        let mut cursor = self.first(side, node);
        while cursor > 0 {
            let place = cursor as usize - 1;
            cursor = self.next(side, place);
            let arc = self.arc(side, place);
            if arc.head == node {
                continue;
            }
            if !self.is_in_core(arc.head) {
                continue;
            }
            list.push(Neighbor {
                node: arc.head,
                seconds: arc.seconds,
            })?;
        }
        Ok(())
    }

    /// Takes a node out of the core.
    pub(crate) fn take(&mut self, node: u32) -> Result<(), AllocError>
        requires graph { IsGraph self.old }
        requires some { 1 ≤ node }
        requires node { node ≤ self.old.nodes }
        requires in_core { level_in self.old.levels.items node ≡ IN_CORE }
        requires room { length self.old.order.items + 1 < IN_CORE }
        ensures graph { IsGraph self.new }
        ensures ok { OnOk result (IsTakenOut self.old self.new node) }
        ensures err { OnErr result (IsSameGraph self.old self.new) }
    {
        let level = self.order.len() as u32;
        self.order.push(node)?;
        self.levels[node as usize] = level;
        Ok(())
    }

    /// Writes what follows an arc in a chain: what follows the next, which leads to a contracted node.
    fn pass_over(&mut self, side: Side, place: usize, later: usize)
        requires graph { IsGraph self.old }
        requires place { place < length self.old.arcs.items }
        requires later { later < length self.old.arcs.items }
        requires next { next_of side (chain_at self.old.chains.items place) ≡ suc later }
        requires dead { ¬ (IsLive side self.old.arcs.items self.old.levels.items later) }
        ensures graph { IsGraph self.new }
        ensures same { IsSameGraph self.old self.new }
    {
        let beyond = self.next(side, later);
        let chain = self.chains[place];
        self.chains[place] = with_next(chain, side, beyond);
    }

    /// Takes arcs to contracted nodes out of a chain, but for its first.
    pub(crate) fn prune(&mut self, side: Side, node: u32)
        requires graph { IsGraph self.old }
        requires node { node ≤ self.old.nodes }
        ensures graph { IsGraph self.new }
        ensures same { IsSameGraph self.old self.new }
    {
        let mut cursor = self.first(side, node);
        'chain: for _ in 0..MOST_PRUNED {
            if cursor == 0 {
                return;
            }
            let place = cursor as usize - 1;
            let next = self.next(side, place);
            if next == 0 {
                return;
            }
            let later = next as usize - 1;
            let arc = self.arc(side, later);
            if self.is_in_core(arc.head) {
                cursor = next;
                continue;
            }
            self.pass_over(side, place, later);
        }
    }
}
