//! The contraction of a road map, node after node, in the order of a heuristic.
//!
//! Geisberger, Sanders, Schultes and Delling, "Contraction hierarchies: faster and simpler hierarchical routing in road
//! networks", 2008. Whatever the heuristic answers, what stands is a hierarchy of the map: its order, the limits of its
//! searches and its budget stand in no contract.
ghost use Rattle.std.specs.Prelude.{◌≡◌, ℕ, ◌+◌, ◌<◌, ◌≤◌, [], length, All, Some, IfOk, IfSome, IsTrue, IsFalse, ◌↔◌, Ok, false, slice_get, slice_index_or};
ghost use Rattle.ride_model.specs.Road.{RoadMap};
ghost use Rattle.radix_queue.specs.inner.Queue.{Queue};
ghost use Rattle.adaptive_roads.specs.inner.contraction.Contracted.{IsContractionOf, IsFitContraction};
ghost use Rattle.adaptive_roads.specs.inner.contraction.Graph.{IsGraph};
ghost use Rattle.adaptive_roads.specs.inner.contraction.Levels.{level_in};
ghost use Rattle.adaptive_roads.specs.inner.contraction.View.{contracted_of};

use radix_queue::RadixQueue;
use ride_model::{Network, RoadArc};
use std::alloc::{AllocError, Global};
use std::marker::Model;

mod graph;
mod shortcuts;
mod start;
mod witness;

use graph::{Graph, MOST_LINKS, Neighbor};
use shortcuts::{contract, judge};
use start::{first_candidates, graph_of};
use witness::Witness;

/// Want of memory.
pub type NoMemory = AllocError;

/// How many links may be looked at, for each node and arc of the map, before the contraction ends.
const MOST_WORK: u64 = 1_000;

/// What is added to each priority, so that none is below zero.
pub(crate) const BIAS: u64 = 1 << 32;

// Memory: a link takes 20 bytes, 12 for the arc and 8 for its chains, and a node 84: 16 in the graph, 40 in the witness, 24 in the
// queue and 4 for its depth. Room for the most links is taken at the start. The largest map, 500,000 nodes and 2,000,000 arcs, takes
// at most 142 megabytes while it is contracted, and 64 of them once that is finished: the arcs, levels and order are handed on.

/// A road map that is being contracted.
pub struct Contraction {
    graph: Graph,
    witness: Witness,
    queue: RadixQueue,
    depths: Vec<u32>,
    ins: Vec<Neighbor>,
    outs: Vec<Neighbor>,
    most_links: usize,
    work_left: u64,
    is_spent: bool,
}

impl Drop for Contraction {
    fn drop(self) {
        let Contraction {
            graph,
            witness,
            queue,
            depths,
            ins,
            outs,
            most_links: _,
            work_left: _,
            is_spent: _,
        } = self;
        drop(graph);
        drop(witness);
        drop(queue);
        drop(depths);
        drop(ins);
        drop(outs);
    }
}

/// What a contraction leaves: the arcs and shortcuts, the level of each node, where that of a node of the core is u32::MAX, and the
/// contracted nodes in the order of their levels.
#[derive(Drop)]
pub struct Levelled {
    pub nodes: u32,
    pub arcs: Vec<RoadArc>,
    pub levels: Vec<u32>,
    pub order: Vec<u32>,
}

impl Model for Contraction {
    ghost use Rattle.std.specs.Prelude.{◌≡◌, ◌+◌, length};
    ghost use Rattle.adaptive_roads.specs.inner.contraction.Contracted.{Contracted};

    ghost Value = { Contracted };

    ghost use Rattle.adaptive_roads.specs.inner.contraction.View.{contracted_of};
    ghost use Rattle.adaptive_roads.specs.inner.contraction.Graph.{IsGraph};
    ghost use Rattle.adaptive_roads.specs.inner.contraction.Witness.{IsRoomy};

    ghost view = { λ c. contracted_of c.is_spent c.graph };

    ghost invariant = { λ c. IsGraph c.graph × IsRoomy c.graph.nodes c.witness × (length c.queue.keys ≡ c.graph.nodes + 1) };
}

/// The priority of a node: few shortcuts, many links that go, and neighbors of which few are contracted.
fn priority(shortcuts: u64, depth: u64, degree: u64) -> u64 {
    let more = shortcuts
        .saturating_mul(2)
        .saturating_add(depth.saturating_mul(2));
    BIAS.saturating_add(more).saturating_sub(degree)
}

/// Notes that a neighbor of these nodes was contracted, at this depth.
fn deepen(depths: &mut [u32], neighbors: &[Neighbor], depth: u32) {
    for neighbor in neighbors {
        if let Some(had) = depths.get_mut(neighbor.node as usize) {
            *had = (*had).max(depth);
        }
    }
}

impl Contraction {
    /// A map of which no node is contracted.
    pub fn new(alloc: Global, map: &Network) -> Result<Contraction, NoMemory>
        ensures hierarchy { IfOk result (IsContractionOf map.now) }
        ensures nodes { IfOk result (λ contraction. contraction.nodes ≡ map.now.nodes) }
        ensures arcs { IfOk result (λ contraction. contraction.arcs ≡ map.now.arcs) }
        ensures order { IfOk result (λ contraction. contraction.order ≡ []) }
        ensures unspent { IfOk result (λ contraction. IsFalse contraction.is_spent) }
        ensures core { IfOk result (λ contraction.
            All (λ level. level ≡ 4294967295) contraction.levels) }
    {
        let arcs = map.arcs().len();
        // A city of crossing streets comes to 2.6 links an arc.
        let most_links = (arcs + arcs + arcs).min(MOST_LINKS);
        let depths = vec![in alloc; 0u32; map.nodes() as usize + 1]?;
        let queue = first_candidates(alloc, map)?;
        let witness = Witness::new(alloc, map.nodes())?;
        let graph = graph_of(alloc, map, most_links)?;
        Ok(Contraction {
            graph,
            witness,
            queue,
            depths,
            ins: Vec::new(alloc),
            outs: Vec::new(alloc),
            most_links,
            work_left: MOST_WORK * (u64::from(map.nodes()) + arcs as u64),
            is_spent: false,
        })
    }

    /// Contracts a node of this depth, and deepens its neighbors. Answers how many links were looked at, and
    /// None where the node has to stay.
    fn take(&mut self, node: u32, depth: u32) -> Result<Option<u64>, NoMemory>
        requires some { 1 ≤ node }
        requires node { node ≤ self.old.nodes }
        ensures hierarchy { (roads : RoadMap) → IsContractionOf roads self.old
            → IsContractionOf roads self.new }
        ensures nodes { self.new.nodes ≡ self.old.nodes }
        ensures spent { self.new.is_spent ≡ self.old.is_spent }
    {
        let Some(work) = contract(
            &mut self.graph,
            &mut self.witness,
            node,
            &mut self.ins,
            &mut self.outs,
        )?
        else {
            return Ok(None);
        };
        self.work_left = self.work_left.saturating_sub(work);
        let below = depth.saturating_add(1);
        deepen(self.depths.as_mut_slice(), self.ins.as_slice(), below);
        deepen(self.depths.as_mut_slice(), self.outs.as_slice(), below);
        Ok(Some(work))
    }

    /// Judges the next node, and contracts it if no other is to come before it. Answers how many links were looked at, and None
    /// where nothing is left to contract, or the budget is spent.
    fn step(&mut self) -> Result<Option<u64>, NoMemory>
        ensures hierarchy { (roads : RoadMap) → IsContractionOf roads self.old
            → IsContractionOf roads self.new }
        ensures nodes { self.new.nodes ≡ self.old.nodes }
        ensures spent { self.new.is_spent ≡ self.old.is_spent }
    {
        if self.work_left == 0 {
            return Ok(None);
        }
        let Some((node, key)) = self.queue.take_least() else {
            return Ok(None);
        };
        let judged = judge(
            &self.graph,
            &mut self.witness,
            node,
            &mut self.ins,
            &mut self.outs,
        )?;
        self.work_left = self.work_left.saturating_sub(judged.work);
        if judged.shortcuts > self.most_links.saturating_sub(self.graph.arcs.len()) as u64 {
            self.work_left = 0;
            return Ok(None);
        }
        let depth = self.depths.get(node as usize).copied().unwrap_or(0);
        let degree = self.ins.len().saturating_add(self.outs.len()) as u64;
        let wanted = priority(judged.shortcuts, u64::from(depth), degree);
        if wanted > key {
            self.queue.put_or_lower(node, wanted);
            return Ok(Some(judged.work));
        }
        if node == 0 {
            return Ok(Some(judged.work));
        }
        let work = self.take(node, depth)?.unwrap_or(0);
        Ok(Some(judged.work.saturating_add(work)))
    }

    /// Contracts nodes until so many links were looked at. Answers whether more is left to contract: false where no node is
    /// left, or where the budget of shortcuts or of work is spent; then the rest stays as the core, for good.
    pub fn contract_some(&mut self, fuel: u64) -> Result<bool, NoMemory>
        ensures hierarchy { (roads : RoadMap) → IsContractionOf roads self.old
            → IsContractionOf roads self.new }
        ensures nodes { self.new.nodes ≡ self.old.nodes }
        ensures spent { IfOk result (λ more. IsFalse more ↔ IsTrue self.new.is_spent) }
        ensures over { IsTrue self.old.is_spent → (self.new ≡ self.old) × (result ≡ Ok false) }
    {
        if self.is_spent {
            return Ok(false);
        }
        let mut left = fuel;
        while left > 0 {
            let Some(work) = self.step()? else {
                self.is_spent = true;
                return Ok(false);
            };
            left = left.saturating_sub(work.max(1));
        }
        Ok(true)
    }

    /// Whether no more nodes are contracted: none is left, or a budget is spent.
    pub fn is_spent(&self) -> bool
        ensures { result ≡ self.now.is_spent }
    {
        self.is_spent
    }

    /// The number of nodes.
    pub fn nodes(&self) -> u32
        ensures nodes { result ≡ self.now.nodes }
        ensures fits { IsFitContraction self.now }
    {
        self.graph.nodes
    }

    /// The level of each node, where that of a node of the core is u32::MAX.
    pub fn levels(&self) -> &[u32]
        ensures { result.now ≡ self.now.levels }
    {
        self.graph.levels.as_slice()
    }

    /// The contracted nodes in the order of their levels.
    pub fn order(&self) -> &[u32]
        ensures { result.now ≡ self.now.order }
    {
        self.graph.order.as_slice()
    }

    /// The number of arcs and shortcuts.
    pub fn links(&self) -> usize
        ensures { result ≡ length self.now.arcs }
    {
        self.graph.arcs.len()
    }

    /// An arc or a shortcut.
    pub fn link(&self, place: usize) -> RoadArc
        requires { place < length self.now.arcs }
        ensures { slice_get self.now.arcs place ≡ Some result }
    {
        self.graph.arcs[place]
    }

    /// The graph alone: what only contracting needs is freed.
    fn into_graph(self) -> Graph
        ensures graph { IsGraph result }
        ensures seen { contracted_of self.is_spent result ≡ self }
    {
        let Contraction {
            graph,
            witness,
            queue,
            depths,
            ins,
            outs,
            most_links: _,
            work_left: _,
            is_spent: _,
        } = self;
        drop(witness);
        drop(queue);
        drop(depths);
        drop(ins);
        drop(outs);
        graph
    }

    /// What the contraction leaves, as far as it went. All else is freed, and nothing is copied.
    pub fn finish(self) -> Levelled
        ensures nodes { result.nodes ≡ self.nodes }
        ensures arcs { result.arcs.items ≡ self.arcs }
        ensures levels { result.levels.items ≡ self.levels }
        ensures order { result.order.items ≡ self.order }
        ensures few { length result.arcs.items ≤ 5000000 }
        ensures fits { IsFitContraction self }
    {
        let graph = self.into_graph();
        Levelled {
            nodes: graph.nodes,
            arcs: graph.arcs,
            levels: graph.levels,
            order: graph.order,
        }
    }
}
