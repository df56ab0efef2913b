// Dijkstra's label-setting search ("A note on two problems in connexion with graphs", 1959) over a radix queue. It
// can be stopped at a node and taken up again, so that a row costs no more than its farthest node.
ghost use Rattle.std.specs.Prelude.{◌≡◌, ◌≢◌, ℕ, ◌+◌, ◌<◌, ◌≤◌, length, slice_get, slice_set, replicate, Some, None, map, All, IfOk, IsTrue, IsFalse};
ghost use Rattle.ride_model.specs.Road.{RoadMap, IsRoadMap, IsNode, travel};
ghost use Rattle.radix_queue.specs.inner.Queue.{IsAboveFloor, IsEmpty};
ghost use Rattle.road_times.specs.declared.adjacency.Neighbor.{Neighbor};
ghost use Rattle.road_times.specs.declared.adjacency.Adjacency.{Adjacency};
ghost use Rattle.road_times.specs.inner.Adjacency.{IsAdjacency};
ghost use Rattle.road_times.specs.inner.Search.{label_of, IsRelaxed, IsReady, IsOver};

use crate::adjacency::{Adjacency, Neighbor};
use radix_queue::RadixQueue;
use std::alloc::{AllocError, Global};

/// The labels of the nodes that are settled, in a list of `count` nodes, and the queue of those that are reached.
pub(crate) struct Search {
    pub(crate) queue: RadixQueue,
    pub(crate) labels: Vec<Option<u64>>,
    pub(crate) settled: Vec<u32>,
    pub(crate) count: usize,
}

impl Drop for Search {
    fn drop(self) {
        let Search {
            queue,
            labels,
            settled,
            count: _,
        } = self;
        drop(queue);
        drop(labels);
        drop(settled);
    }
}

/// Relaxes the arcs of a node that was settled with this label.
fn relax(queue: &mut RadixQueue, labels: &[Option<u64>], neighbors: &[Neighbor], label: u64)
    requires rooms { length queue.old.keys ≡ length labels.now }
    requires inside { (place : ℕ) (neighbor : Neighbor)
        → slice_get neighbors.now place ≡ Some neighbor → neighbor.node < length labels.now }
    requires floor { queue.old.floor ≡ label }
    requires above { IsAboveFloor queue.old }
    requires below { (node had : ℕ) → label_of labels.now node ≡ Some had → had ≤ label }
    requires fits { label ≤ 500000000000000 }
    ensures { IsRelaxed labels.now neighbors.now (length neighbors.now) label queue.old queue.new }
{
    for neighbor in neighbors {
        if labels[neighbor.node as usize].is_none() {
            queue.put_or_lower(neighbor.node, label + u64::from(neighbor.seconds));
        }
    }
}

impl Search {
    /// An empty search for the nodes below `places`.
    pub(crate) fn new(alloc: Global, places: u32) -> Result<Search, AllocError>
        ensures sized { IfOk result (λ search. length search.labels.items ≡ places) }
        ensures ready { IfOk result IsReady }
    {
        let labels = vec![in alloc; None; places as usize]?;
        let settled = vec![in alloc; 0; places as usize]?;
        let queue = RadixQueue::new(alloc, places)?;
        Ok(Search {
            queue,
            labels,
            settled,
            count: 0,
        })
    }

    /// Takes all labels and keys away, in time of the number of nodes that have one.
    fn clear(&mut self)
        requires { IsReady self.old }
        ensures keys { self.new.queue.keys ≡ replicate (length self.old.labels.items) None }
        ensures floor { self.new.queue.floor ≡ 0 }
        ensures labels { (node : ℕ) → label_of self.new.labels.items node ≡ None }
        ensures size { length self.new.labels.items ≡ length self.old.labels.items }
        ensures ready { IsReady self.new }
    {
        self.queue.clear();
        while self.count > 0 {
            self.count -= 1;
            let node = self.settled[self.count];
            self.labels[node as usize] = None;
        }
    }

    /// Begins a search from a source.
    pub(crate) fn begin(&mut self, source: u32)
        requires ready { IsReady self.old }
        requires inside { source < length self.old.labels.items }
        ensures begun { (roads : RoadMap) (adjacency : Adjacency) → IsRoadMap roads
            → IsAdjacency roads adjacency
            → length self.old.labels.items ≡ roads.nodes + 1
            → IsOver roads adjacency source self.new }
        ensures size { length self.new.labels.items ≡ length self.old.labels.items }
        ensures ready { IsReady self.new }
    {
        self.clear();
        self.queue.put_or_lower(source, 0);
    }

    /// Labels a node that has no label.
    fn settle(&mut self, node: u32, label: u64)
        requires ready { IsReady self.old }
        requires inside { node < length self.old.labels.items }
        requires unsettled { label_of self.old.labels.items node ≡ None }
        ensures labels { self.new.labels.items ≡ slice_set self.old.labels.items node (Some label) }
        ensures queue { self.new.queue ≡ self.old.queue }
        ensures count { self.new.count ≡ self.old.count + 1 }
        ensures ready { IsReady self.new }
    {
        self.labels[node as usize] = Some(label);
        self.settled[self.count] = node;
        self.count += 1;
    }

    /// Settles the next node and relaxes its arcs. Answers false where no node is left.
    fn advance(&mut self, adjacency: &Adjacency) -> bool
        requires over { (roads : RoadMap) × (source : ℕ)
            × IsOver roads adjacency.now source self.old }
        requires ready { IsReady self.old }
        ensures over { (roads : RoadMap) (source : ℕ) → IsOver roads adjacency.now source self.old
            → IsOver roads adjacency.now source self.new }
        ensures left { IsFalse result → IsEmpty self.new.queue }
        ensures count { IsTrue result → self.new.count ≡ self.old.count + 1 }
        ensures labels { IsFalse result → self.new.labels ≡ self.old.labels }
        ensures size { length self.new.labels.items ≡ length self.old.labels.items }
        ensures ready { IsReady self.new }
    {
        let Some((node, label)) = self.queue.take_least() else {
            return false;
        };
        self.settle(node, label);
        relax(
            &mut self.queue,
            self.labels.as_slice(),
            adjacency.at(node),
            label,
        );
        true
    }

    /// The travel time from the source to a node: takes the search up again until the node is settled, or nothing is left.
    pub(crate) fn time_to(&mut self, adjacency: &Adjacency, node: u32) -> Option<u64>
        requires over { (roads : RoadMap) × (source : ℕ)
            × IsOver roads adjacency.now source self.old × (node ≤ roads.nodes) }
        requires ready { IsReady self.old }
        ensures time { (roads : RoadMap) (source : ℕ) → IsOver roads adjacency.now source self.old
            → result ≡ travel roads source node }
        ensures over { (roads : RoadMap) (source : ℕ) → IsOver roads adjacency.now source self.old
            → IsOver roads adjacency.now source self.new }
        ensures size { length self.new.labels.items ≡ length self.old.labels.items }
        ensures ready { IsReady self.new }
    {
        while self.labels[node as usize].is_none() {
            if !self.advance(adjacency) {
                return None;
            }
        }
        self.labels[node as usize]
    }

    /// Fills a row with the travel times from a source to the wanted nodes.
    pub(crate) fn row(
        &mut self,
        adjacency: &Adjacency,
        source: u32,
        wanted: &[u32],
        into: &mut [Option<u64>],
    )
        requires over { (roads : RoadMap) × IsRoadMap roads × IsAdjacency roads adjacency.now
            × (length self.old.labels.items ≡ roads.nodes + 1) × IsNode roads source
            × All (IsNode roads) wanted.now }
        requires ready { IsReady self.old }
        requires places { length wanted.now ≡ length into.old }
        ensures row { (roads : RoadMap) → IsRoadMap roads → IsAdjacency roads adjacency.now
            → length self.old.labels.items ≡ roads.nodes + 1
            → into.new ≡ map (travel roads source) wanted.now }
        ensures size { length self.new.labels.items ≡ length self.old.labels.items }
        ensures ready { IsReady self.new }
    {
        self.begin(source);
        for (place, node) in wanted.iter().enumerate() {
            into[place] = self.time_to(adjacency, *node);
        }
    }
}
