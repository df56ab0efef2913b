// A contraction begins: the graph of the map, and the nodes in the order of their degrees.
ghost use Rattle.std.specs.Prelude.{◌≡◌, ℕ, ◌+◌, ◌≤◌, [], length, map, take, IfOk, OnOk};
ghost use Rattle.adaptive_roads.specs.inner.contraction.Graph.{IsGraph};

use crate::contraction::BIAS;
use crate::contraction::graph::Graph;
use radix_queue::RadixQueue;
use ride_model::Network;
use std::alloc::{AllocError, Global};

/// Adds the arcs of a map to a graph of its nodes that has none.
fn add_arcs(graph: &mut Graph, map: &Network) -> Result<(), AllocError>
    requires graph { IsGraph graph.old }
    requires nodes { graph.old.nodes ≡ map.now.nodes }
    requires arcs { graph.old.arcs.items ≡ [] }
    ensures { OnOk result (IsGraph graph.new × (graph.new.nodes ≡ map.now.nodes)
        × (graph.new.arcs.items ≡ map.now.arcs)
        × (graph.new.order.items ≡ graph.old.order.items)) }
{
    for arc in map.arcs() {
        graph.add(*arc)?;
    }
    Ok(())
}

/// The graph of a map.
pub(crate) fn graph_of(alloc: Global, map: &Network, room: usize) -> Result<Graph, AllocError>
    ensures graph { IfOk result IsGraph }
    ensures nodes { IfOk result (λ graph. graph.nodes ≡ map.now.nodes) }
    ensures arcs { IfOk result (λ graph. graph.arcs.items ≡ map.now.arcs) }
    ensures order { IfOk result (λ graph. length graph.order.items ≡ 0) }
{
    let mut graph = Graph::new(alloc, map.nodes(), room)?;
    add_arcs(&mut graph, map)?;
    Ok(graph)
}

/// The nodes by priorities that their degrees suggest: half of the pairs of a link in and a link out need a shortcut.
pub(crate) fn first_candidates(alloc: Global, map: &Network) -> Result<RadixQueue, AllocError>
    ensures { IfOk result (λ queue. length queue.keys ≡ map.now.nodes + 1) }
{
    let nodes = map.nodes();
    let mut degrees = vec![in alloc; 0u32; nodes as usize + 1]?;
    count_ends(degrees.as_mut_slice(), map);
    let mut queue = RadixQueue::new(alloc, nodes + 1)?;
    fill(&mut queue, degrees.as_slice());
    Ok(queue)
}

/// Counts the arcs at each node.
fn count_ends(degrees: &mut [u32], map: &Network) {
    for arc in map.arcs() {
        if let Some(degree) = degrees.get_mut(arc.tail as usize) {
            *degree = degree.saturating_add(1);
        }
        if let Some(degree) = degrees.get_mut(arc.head as usize) {
            *degree = degree.saturating_add(1);
        }
    }
}

/// Puts each node in.
fn fill(queue: &mut RadixQueue, degrees: &[u32])
    requires sized { length queue.old.keys ≡ length degrees.now }
    requires few { length degrees.now ≤ 500001 }
    requires floor { queue.old.floor ≡ 0 }
    ensures { length queue.new.keys ≡ length degrees.now }
{
    for (node, degree) in degrees.iter().enumerate() {
        let ends = u64::from(*degree);
        let first = BIAS
            .saturating_add(ends.saturating_mul(ends) / 4)
            .saturating_sub(ends);
        queue.put_or_lower(node as u32, first);
    }
}
