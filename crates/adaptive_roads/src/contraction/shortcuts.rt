// A node is contracted: what goes over it is covered by witnesses or shortcuts, and then it leaves the core.
ghost use Rattle.std.specs.Prelude.{◌≡◌, ℕ, ◌+◌, ◌<◌, ◌≤◌, length, Contains, IfOk, IsSome, IsTrue};
ghost use Rattle.ride_model.specs.Road.{RoadMap};
ghost use Rattle.adaptive_roads.specs.declared.contraction.graph.Graph.{Graph};
ghost use Rattle.adaptive_roads.specs.declared.contraction.graph.Neighbor.{Neighbor};
ghost use Rattle.adaptive_roads.specs.inner.contraction.Graph.{IsGraph, IsSameGraph};
ghost use Rattle.adaptive_roads.specs.inner.contraction.Levels.{level_in};
ghost use Rattle.adaptive_roads.specs.inner.contraction.Witness.{IsRoomy, IsWitness};
ghost use Rattle.adaptive_roads.specs.inner.contraction.Growth.{IsHierarchyGraph, HasShortcuts, IsIncoming, IsOutgoing, IsCovered};

use crate::contraction::graph::{Graph, MOST_LINKS, Neighbor};
use crate::contraction::witness::Witness;
use ride_model::RoadArc;
use ride_model::limits::LONGEST_ARC;
use road_times::Side;
use std::alloc::AllocError;

/// The most nodes that a witness search settles.
const MOST_SETTLED: u32 = 60;

/// The most nodes that a search settles which only judges a node.
const MOST_JUDGED: u32 = 20;

/// The most nodes that are contracted.
const MOST_CONTRACTED: usize = 1_000_000;

/// Covers what goes from one neighbor over a node to another: by a witness, or else by a shortcut. Answers false where neither
/// is to be had.
fn cover_pair(
    graph: &mut Graph,
    witness: &Witness,
    node: u32,
    into: Neighbor,
    onward: Neighbor,
) -> Result<bool, AllocError>
    requires graph { IsGraph graph.old }
    requires room { IsRoomy graph.old.nodes witness.now }
    requires into { IsIncoming graph.old node into }
    requires onward { IsOutgoing graph.old node onward }
    requires ways { (base : Graph) × HasShortcuts node base graph.old
        × IsWitness base node into.node witness.now }
    ensures graph { IsGraph graph.new }
    ensures grown { HasShortcuts node graph.old graph.new }
    ensures covered { IfOk result (λ done. IsTrue done → IsCovered graph.new node into onward) }
{
    if into.node == onward.node {
        return Ok(true);
    }
    let seconds = u64::from(into.seconds) + u64::from(onward.seconds);
    if witness.reaches(onward.node, seconds) {
        return Ok(true);
    }
    if seconds > LONGEST_ARC {
        return Ok(false);
    }
    if graph.arcs.len() >= MOST_LINKS {
        return Ok(false);
    }
    graph.add(RoadArc {
        tail: into.node,
        head: onward.node,
        seconds: seconds as u32,
    })?;
    Ok(true)
}

/// The most seconds of a neighbor.
fn longest(neighbors: &[Neighbor]) -> u32 {
    let mut most = 0;
    for neighbor in neighbors {
        most = most.max(neighbor.seconds);
    }
    most
}

/// Covers what goes from one neighbor over a node to the others. Answers the number of links that were looked at, and None
/// where not all could be covered.
fn cover(
    graph: &mut Graph,
    witness: &mut Witness,
    node: u32,
    into: Neighbor,
    outs: &[Neighbor],
) -> Result<Option<u64>, AllocError>
    requires graph { IsGraph graph.old }
    requires room { IsRoomy graph.old.nodes witness.old }
    requires into { IsIncoming graph.old node into }
    requires outs { (onward : Neighbor) → Contains outs.now onward
        → IsOutgoing graph.old node onward }
    ensures graph { IsGraph graph.new }
    ensures room { IsRoomy graph.new.nodes witness.new }
    ensures grown { HasShortcuts node graph.old graph.new }
    ensures covered { IfOk result
        (λ work. IsSome work → (onward : Neighbor) → Contains outs.now onward
        → IsCovered graph.new node into onward) }
{
    let limit = u64::from(into.seconds) + u64::from(longest(outs));
    let Some(work) = witness.search(graph, node, into.node, limit, MOST_SETTLED) else {
        return Ok(None);
    };
    for onward in outs {
        if !cover_pair(graph, witness, node, into, *onward)? {
            return Ok(None);
        }
    }
    Ok(Some(work))
}

/// Covers all that goes over a node.
fn cover_all(
    graph: &mut Graph,
    witness: &mut Witness,
    node: u32,
    ins: &[Neighbor],
    outs: &[Neighbor],
) -> Result<Option<u64>, AllocError>
    requires graph { IsGraph graph.old }
    requires room { IsRoomy graph.old.nodes witness.old }
    requires ins { (into : Neighbor) → Contains ins.now into → IsIncoming graph.old node into }
    requires outs { (onward : Neighbor) → Contains outs.now onward
        → IsOutgoing graph.old node onward }
    ensures graph { IsGraph graph.new }
    ensures room { IsRoomy graph.new.nodes witness.new }
    ensures grown { HasShortcuts node graph.old graph.new }
    ensures covered { IfOk result
        (λ work. IsSome work → (into onward : Neighbor) → Contains ins.now into
        → Contains outs.now onward
        → IsCovered graph.new node into onward) }
{
    let mut work = 0u64;
    for into in ins {
        let Some(looked) = cover(graph, witness, node, *into, outs)? else {
            return Ok(None);
        };
        work = work.saturating_add(looked);
    }
    Ok(Some(work))
}

/// Takes a node of the core out of it. Answers the number of links that were looked at, and None where the node has to stay.
fn take_out(
    graph: &mut Graph,
    witness: &mut Witness,
    node: u32,
    ins: &mut Vec<Neighbor>,
    outs: &mut Vec<Neighbor>,
) -> Result<Option<u64>, AllocError>
    requires graph { IsGraph graph.old }
    requires room { IsRoomy graph.old.nodes witness.old }
    requires some { 1 ≤ node }
    requires node { node ≤ graph.old.nodes }
    ensures graph { IsGraph graph.new }
    ensures nodes { graph.new.nodes ≡ graph.old.nodes }
    ensures room { IsRoomy graph.new.nodes witness.new }
    ensures hierarchy { (roads : RoadMap) → IsHierarchyGraph roads graph.old
        → IsHierarchyGraph roads graph.new }
{
    if !graph.is_in_core(node) {
        return Ok(None);
    }
    if graph.order.len() >= MOST_CONTRACTED {
        return Ok(None);
    }
    graph.neighbors(Side::Back, node, ins)?;
    graph.neighbors(Side::Out, node, outs)?;
    let Some(work) = cover_all(graph, witness, node, ins.as_slice(), outs.as_slice())? else {
        return Ok(None);
    };
    graph.take(node)?;
    Ok(Some(work))
}

/// Prunes the chains of some nodes.
fn prune_all(graph: &mut Graph, side: Side, neighbors: &[Neighbor])
    requires { IsGraph graph.old }
    ensures graph { IsGraph graph.new }
    ensures same { IsSameGraph graph.old graph.new }
{
    for neighbor in neighbors {
        if neighbor.node > graph.nodes {
            continue;
        }
        graph.prune(side, neighbor.node);
    }
}

/// Contracts a node of the core. Answers the number of links that were looked at, and None where the node has to stay.
pub(crate) fn contract(
    graph: &mut Graph,
    witness: &mut Witness,
    node: u32,
    ins: &mut Vec<Neighbor>,
    outs: &mut Vec<Neighbor>,
) -> Result<Option<u64>, AllocError>
    requires graph { IsGraph graph.old }
    requires room { IsRoomy graph.old.nodes witness.old }
    requires some { 1 ≤ node }
    requires node { node ≤ graph.old.nodes }
    ensures graph { IsGraph graph.new }
    ensures nodes { graph.new.nodes ≡ graph.old.nodes }
    ensures room { IsRoomy graph.new.nodes witness.new }
    ensures hierarchy { (roads : RoadMap) → IsHierarchyGraph roads graph.old
        → IsHierarchyGraph roads graph.new }
{
    let work = take_out(graph, witness, node, ins, outs)?;
    prune_all(graph, Side::Out, ins.as_slice());
    prune_all(graph, Side::Back, outs.as_slice());
    Ok(work)
}

/// What the contraction of a node would take.
#[derive(Clone, Copy)]
pub(crate) struct Judged {
    /// The number of shortcuts.
    pub(crate) shortcuts: u64,
    /// The number of links that were looked at.
    pub(crate) work: u64,
}

/// How many shortcuts from one neighbor over a node to the others would be needed, after a short search.
fn judge_from(
    graph: &Graph,
    witness: &mut Witness,
    node: u32,
    into: Neighbor,
    outs: &[Neighbor],
) -> Judged
    requires graph { IsGraph graph.now }
    requires room { IsRoomy graph.now.nodes witness.old }
    requires into { IsIncoming graph.now node into }
    requires outs { (onward : Neighbor) → Contains outs.now onward
        → IsOutgoing graph.now node onward }
    ensures { IsRoomy graph.now.nodes witness.new }
{
    let limit = u64::from(into.seconds) + u64::from(longest(outs));
    let work = witness
        .search(graph, node, into.node, limit, MOST_JUDGED)
        .unwrap_or(0);
    let mut shortcuts = 0u64;
    for onward in outs {
        if into.node == onward.node {
            continue;
        }
        let seconds = u64::from(into.seconds) + u64::from(onward.seconds);
        if !witness.reaches(onward.node, seconds) {
            shortcuts = shortcuts.saturating_add(1);
        }
    }
    Judged { shortcuts, work }
}

/// Judges what the contraction of a node would take, and lists its neighbors.
pub(crate) fn judge(
    graph: &Graph,
    witness: &mut Witness,
    node: u32,
    ins: &mut Vec<Neighbor>,
    outs: &mut Vec<Neighbor>,
) -> Result<Judged, AllocError>
    requires graph { IsGraph graph.now }
    requires room { IsRoomy graph.now.nodes witness.old }
    requires node { node ≤ graph.now.nodes }
    ensures { IsRoomy graph.now.nodes witness.new }
{
    graph.neighbors(Side::Back, node, ins)?;
    graph.neighbors(Side::Out, node, outs)?;
    Ok(judge_all(graph, witness, node, ins.as_slice(), outs.as_slice()))
}

/// How many shortcuts over a node would be needed.
fn judge_all(
    graph: &Graph,
    witness: &mut Witness,
    node: u32,
    ins: &[Neighbor],
    outs: &[Neighbor],
) -> Judged
    requires graph { IsGraph graph.now }
    requires room { IsRoomy graph.now.nodes witness.old }
    requires ins { (into : Neighbor) → Contains ins.now into → IsIncoming graph.now node into }
    requires outs { (onward : Neighbor) → Contains outs.now onward
        → IsOutgoing graph.now node onward }
    ensures { IsRoomy graph.now.nodes witness.new }
{
    let mut shortcuts = 0u64;
    let mut work = 0u64;
    for into in ins {
        let judged = judge_from(graph, witness, node, *into, outs);
        shortcuts = shortcuts.saturating_add(judged.shortcuts);
        work = work.saturating_add(judged.work);
    }
    Judged { shortcuts, work }
}
