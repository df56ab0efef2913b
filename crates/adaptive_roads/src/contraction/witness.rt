// Witness searches: label-setting searches with a limit, which find ways through the core past a node. That what they find are
// ways is all that is promised, since a witness that is missed costs a shortcut and nothing else.
ghost use Rattle.std.specs.Prelude.{◌≡◌, ◌≢◌, ℕ, ◌+◌, ◌^◌, ◌<◌, ◌≤◌, length, IfOk, IfSome, IsTrue};
ghost use Rattle.adaptive_roads.specs.declared.contraction.graph.Graph.{Graph};
ghost use Rattle.adaptive_roads.specs.inner.contraction.Graph.{IsGraph};
ghost use Rattle.adaptive_roads.specs.inner.contraction.Levels.{level_in};
ghost use Rattle.adaptive_roads.specs.inner.contraction.Witness.{ReachesPast, IsFound, IsRoomy, IsWitness};

use crate::contraction::graph::{Graph, IN_CORE};
use radix_queue::RadixQueue;
use road_times::Side;
use std::alloc::{AllocError, Global};

/// The weight of the lightest way that was found to a node, in the round of a search.
#[derive(Clone, Copy)]
pub(crate) struct Reached {
    pub(crate) round: u32,
    pub(crate) time: u64,
}

/// What witness searches need. A time counts in its own round alone, so that a search begins without a sweep of the last.
pub(crate) struct Witness {
    pub(crate) queue: RadixQueue,
    pub(crate) reached: Vec<Reached>,
    pub(crate) round: u32,
}

impl Drop for Witness {
    fn drop(self) {
        let Witness {
            queue,
            reached,
            round: _,
        } = self;
        drop(queue);
        drop(reached);
    }
}

impl Witness {
    /// A witness for graphs of so many nodes.
    pub(crate) fn new(alloc: Global, nodes: u32) -> Result<Witness, AllocError>
        requires { nodes < 2 ^ 31 }
        ensures { IfOk result (IsRoomy nodes) }
    {
        let queue = RadixQueue::new(alloc, nodes + 1)?;
        let nothing = Reached { round: 0, time: 0 };
        let reached = vec![in alloc; nothing; nodes as usize + 1]?;
        Ok(Witness {
            queue,
            reached,
            round: 0,
        })
    }

    /// Notes a way to a node.
    fn improve(&mut self, node: u32, time: u64)
        requires room { (nodes : ℕ) × IsRoomy nodes self.old × (node ≤ nodes) }
        requires floor { self.old.queue.floor ≤ time }
        ensures room { (nodes : ℕ) → IsRoomy nodes self.old → IsRoomy nodes self.new }
        ensures floor { self.new.queue.floor ≡ self.old.queue.floor }
        ensures ways { (graph : Graph) (avoided source : ℕ) → IsFound graph avoided source node time
            → IsWitness graph avoided source self.old → IsWitness graph avoided source self.new }
    {
        let reached = self.reached[node as usize];
        if reached.round == self.round && reached.time <= time {
            return;
        }
        self.reached[node as usize] = Reached {
            round: self.round,
            time,
        };
        self.queue.put_or_lower(node, time);
    }

    /// Begins a round at a source. Answers false where the rounds are used up.
    fn begin(&mut self, source: u32) -> bool
        requires room { (nodes : ℕ) × IsRoomy nodes self.old × (source ≤ nodes) }
        ensures room { (nodes : ℕ) → IsRoomy nodes self.old → IsRoomy nodes self.new }
        ensures floor { IsTrue result → self.new.queue.floor ≡ 0 }
        ensures ways { IsTrue result → (graph : Graph) (avoided : ℕ)
            → IsFound graph avoided source source 0
            → IsWitness graph avoided source self.new }
    {
        if self.round == u32::MAX {
            return false;
        }
        self.round += 1;
        self.queue.clear();
        self.improve(source, 0);
        true
    }

    /// Relaxes the arcs of a node that lead to nodes of the core other than the one that is avoided.
    fn relax(&mut self, graph: &Graph, avoided: u32, node: u32, time: u64) -> u64
        requires graph { IsGraph graph.now }
        requires room { IsRoomy graph.now.nodes self.old }
        requires node { node ≤ graph.now.nodes }
        requires floor { self.old.queue.floor ≡ time }
        requires low { time < 2 ^ 62 }
        ensures room { IsRoomy graph.now.nodes self.new }
        ensures floor { self.new.queue.floor ≡ time }
        ensures ways { (source : ℕ) → IsFound graph.now avoided source node time
            → IsWitness graph.now avoided source self.old
            → IsWitness graph.now avoided source self.new }
    {
        let mut work = 0u64;
        let mut cursor = graph.first(Side::Out, node);
        while cursor > 0 {
            let place = cursor as usize - 1;
            cursor = graph.next(Side::Out, place);
            let arc = graph.arc(Side::Out, place);
            work = work.saturating_add(1);
            if arc.head == avoided {
                continue;
            }
            if !graph.is_in_core(arc.head) {
                continue;
            }
            self.improve(arc.head, time + u64::from(arc.seconds));
        }
        work
    }

    /// Settles the next node. Answers how many links it looked at, and None where no node is left within the limit.
    fn advance(&mut self, graph: &Graph, avoided: u32, limit: u64) -> Option<u64>
        requires graph { IsGraph graph.now }
        requires room { IsRoomy graph.now.nodes self.old }
        requires low { limit < 2 ^ 62 }
        requires some { (source : ℕ) × IsWitness graph.now avoided source self.old }
        ensures room { IsRoomy graph.now.nodes self.new }
        ensures ways { (source : ℕ) → IsWitness graph.now avoided source self.old
            → IsWitness graph.now avoided source self.new }
    {
        let (node, time) = self.queue.take_least()?;
        if time > limit {
            return None;
        }
        Some(self.relax(graph, avoided, node, time))
    }

    /// Searches from a node of the core until so many nodes are settled, or the next is farther than the limit. Answers how
    /// many links it looked at, and None where the rounds are used up.
    pub(crate) fn search(
        &mut self,
        graph: &Graph,
        avoided: u32,
        source: u32,
        limit: u64,
        most: u32,
    ) -> Option<u64>
        requires graph { IsGraph graph.now }
        requires room { IsRoomy graph.now.nodes self.old }
        requires node { source ≤ graph.now.nodes }
        requires live { level_in graph.now.levels.items source ≡ IN_CORE }
        requires apart { source ≢ avoided }
        requires low { limit < 2 ^ 62 }
        ensures room { IsRoomy graph.now.nodes self.new }
        ensures ways { IfSome result (λ _. IsWitness graph.now avoided source self.new) }
    {
        if !self.begin(source) {
            return None;
        }
        let mut work = 0u64;
        'settling: for _ in 0..most {
            let Some(looked) = self.advance(graph, avoided, limit) else {
                return Some(work);
            };
            work = work.saturating_add(looked);
        }
        Some(work)
    }

    /// Whether a way to a node was found that weighs no more than the limit.
    pub(crate) fn reaches(&self, node: u32, limit: u64) -> bool
        requires room { (nodes : ℕ) × IsRoomy nodes self.now × (node ≤ nodes) }
        ensures { IsTrue result → (graph : Graph) (avoided source : ℕ)
            → IsWitness graph avoided source self.now
            → ReachesPast graph.arcs.items graph.levels.items
            (length graph.order.items) avoided source node limit }
    {
        let reached = self.reached[node as usize];
        reached.round == self.round && reached.time <= limit
    }
}
