//! Travel times by a contraction hierarchy: rows by a climb upward and then one sweep downward, and single times by two climbs.
//!
//! Delling, Goldberg and Werneck, "Faster batched shortest paths in road networks" (RPHAST), 2011: the nodes from which arcs
//! lead down to a wanted node are selected once a batch, in descending order, so that the sweep of each row is one pass over
//! flat arrays. The climb is a pass over the levels above its node. A single time needs no selection: a climb from one node and a climb
//! against the arcs from the other meet.
//!
//! A hierarchy is packed from a contraction of which no node is left, and the wanted nodes of a batch are selected once for either
//! side. `adaptive_roads` then gives the rows, the same whether they come from sweeps or from searches of the roads.
ghost use Rattle.std.specs.Prelude.{◌≡◌, ◌≢◌, ℕ, ◌+◌, ◌<◌, ◌≤◌, length, map, IfOk, IfSome, IfNone};
ghost use Rattle.ride_model.specs.Road.{RoadMap, IsRoadMap, travel};
ghost use Rattle.road_times.specs.declared.side.Side.TheVariants.{Out, Back};
ghost use Rattle.road_times.specs.inner.Turned.{travel_by};
ghost use Rattle.adaptive_roads.specs.inner.contraction.Contracted.{Contracted, IsContractionOf, IsFitContraction};
ghost use Rattle.adaptive_roads.specs.inner.contraction.Levels.{level_in};
ghost use Rattle.adaptive_roads.specs.inner.road_hierarchy.Links.{IsLinkBy};
ghost use Rattle.adaptive_roads.specs.inner.road_hierarchy.Sweep.{never, label_for};
ghost use Rattle.adaptive_roads.specs.inner.road_hierarchy.Descents.{AreDescents};
ghost use Rattle.adaptive_roads.specs.inner.road_hierarchy.Marks.{node_at};
ghost use Rattle.adaptive_roads.specs.inner.road_hierarchy.Packed.{IsPackingOf, IsWhole, levelled};
ghost use Rattle.adaptive_roads.specs.inner.road_hierarchy.Climb.{AreClimbs, opposite};
ghost use Rattle.adaptive_roads.specs.inner.road_hierarchy.Selection.{IsSelectionOf};

use crate::contraction::{Contraction, Levelled};
use road_times::Side;
use std::alloc::{AllocError, Global};
use std::marker::Model;

mod climb;
mod descents;
mod links;
mod marks;
mod meet;
mod selected;
mod sweep;

use climb::climb;
use descents::Descents;
use meet::least_sum;
pub use selected::Selected;
use sweep::{read, sweep, time_for};

/// Want of memory.
pub type NoMemory = AllocError;

// Memory: an arc or shortcut takes 8 bytes, and a node 24. While a hierarchy is packed the arcs of the contraction take 12 more each,
// and a node 8 more: at most 116 megabytes for the largest map. A worker's room takes 8 bytes a node and 8 a selected node, and a room
// for single times 16 bytes a node.

/// A contraction of all nodes packed for climbs and sweeps. To contracts it means the same as the contraction, but for loops.
///
/// The descents are the arcs that lead down to each node, and the ascents those that lead up from it.
pub struct Hierarchy {
    levels: Vec<u32>,
    order: Vec<u32>,
    descents: Descents,
    ascents: Descents,
}

impl Model for Hierarchy {
    ghost use Rattle.adaptive_roads.specs.inner.contraction.Contracted.{Contracted};

    ghost Value = { Contracted };

    ghost use Rattle.adaptive_roads.specs.inner.road_hierarchy.Packed.{hierarchy_of, IsPacked};

    ghost view = { λ h. hierarchy_of h.levels.items h.order.items h.descents h.ascents };

    ghost invariant = { λ h. IsPacked h.levels.items h.order.items h.descents h.ascents };
}

impl Drop for Hierarchy {
    fn drop(self) {
        let Hierarchy {
            levels,
            order,
            descents,
            ascents,
        } = self;
        drop(levels);
        drop(order);
        drop(descents);
        drop(ascents);
    }
}

/// What rows and times write, so that they take no memory: the labels of a climb by levels, and then those of the selected nodes, or of
/// a second climb.
#[derive(Drop)]
pub struct SweepRoom {
    labels: Vec<u64>,
}

impl Model for SweepRoom {
    ghost use Rattle.std.specs.Prelude.{length};
    ghost use Rattle.adaptive_roads.specs.inner.road_hierarchy.Rooms.{Places};

    ghost Value = { Places };

    ghost view = { λ room. record { places = length room.labels.items } };
}

/// Packs what a contraction of all nodes has left.
fn packed(alloc: Global, made: Levelled) -> Result<Hierarchy, NoMemory>
    requires fits { IsFitContraction (levelled made) }
    requires few { length made.arcs.items < 4294967296 }
    requires whole { length made.order.items ≡ made.nodes }
    ensures { IfOk result (IsPackingOf (levelled made)) }
{
    let core = made.order.len() as u32;
    let arcs = made.arcs.as_slice();
    let levels = made.levels.as_slice();
    let descents = Descents::new(alloc, arcs, Side::Out, levels, core)?;
    let ascents = Descents::new(alloc, arcs, Side::Back, levels, core)?;
    Ok(Hierarchy {
        levels: made.levels,
        order: made.order,
        descents,
        ascents,
    })
}

impl Hierarchy {
    /// Packs a contraction. None where nodes are left that are not contracted.
    pub fn new(alloc: Global, contraction: Contraction) -> Result<Option<Hierarchy>, NoMemory>
        ensures packed { IfOk result (λ made. IfSome made (IsPackingOf contraction)) }
        ensures hierarchy { IfOk result (λ made. IfSome made (λ hierarchy.
            (map : RoadMap) → IsContractionOf map contraction → IsContractionOf map hierarchy)) }
        ensures none { IfOk result (λ made.
            IfNone made (length contraction.order ≢ contraction.nodes)) }
    {
        let made = contraction.finish();
        if made.order.len() != made.nodes as usize {
            return Ok(None);
        }
        let hierarchy = packed(alloc, made)?;
        Ok(Some(hierarchy))
    }

    /// The number of nodes.
    pub fn nodes(&self) -> u32
        ensures nodes { result ≡ self.now.nodes }
        ensures fits { IsFitContraction self.now }
        ensures whole { IsWhole self.now }
    {
        self.order.len() as u32
    }

    /// The level of each node.
    pub(crate) fn levels(&self) -> &[u32]
        ensures levels { result.now ≡ self.now.levels }
        ensures fits { IsFitContraction self.now }
        ensures few { self.now.nodes < 4294967295 }
    {
        self.levels.as_slice()
    }

    /// The contracted nodes in the order of their levels.
    pub(crate) fn order(&self) -> &[u32]
        ensures order { result.now ≡ self.now.order }
        ensures fits { IsFitContraction self.now }
        ensures few { self.now.nodes < 4294967295 }
    {
        self.order.as_slice()
    }

    /// The arcs that lead down to each contracted node, as a search on a side meets them.
    pub(crate) fn descents_by(&self, side: Side) -> &Descents
        ensures { AreDescents (IsLinkBy side self.now.arcs) self.now.levels (length self.now.order)
            result.now.starts.items result.now.uppers.items }
    {
        match side {
            Side::Out => &self.descents,
            Side::Back => &self.ascents,
        }
    }

    /// The arcs that lead up from each contracted node, as a search on a side meets them the other way round.
    fn ascents_by(&self, side: Side) -> &Descents
        ensures { AreDescents (IsLinkBy (opposite side) self.now.arcs) self.now.levels
            (length self.now.order) result.now.starts.items result.now.uppers.items }
    {
        match side {
            Side::Out => &self.ascents,
            Side::Back => &self.descents,
        }
    }

    /// Labels each level by the least weight of a way up to its node from x, or down from its node to x.
    fn climb(&self, side: Side, x: u32, climbs: &mut [u64])
        requires some_node { 1 ≤ x }
        requires node { x ≤ self.now.nodes }
        requires room { length climbs.old ≡ self.now.nodes }
        ensures climbs { AreClimbs side self.now x climbs.new }
        ensures low { (level : ℕ) → node_at climbs.new level ≤ never }
        ensures inside { (node : ℕ) → 1 ≤ node → node ≤ self.now.nodes
            → level_in self.now.levels node < self.now.nodes }
    {
        let first = self.levels[x as usize] as usize;
        climb(self.ascents_by(side), &self.levels, first, climbs);
    }

    /// Labels the places of a selection with the travel times from x to its nodes, or from them to x: a climb, and then a sweep.
    fn label(&self, selected: &Selected, x: u32, climbs: &mut [u64], labels: &mut [u64])
        requires selected { IsSelectionOf self.now selected.now }
        requires some_node { 1 ≤ x }
        requires node { x ≤ self.now.nodes }
        requires climbs { length climbs.old ≡ self.now.nodes }
        requires labels { length selected.now.nodes ≤ length labels.old }
        ensures labels { (roads : RoadMap) (place : ℕ) → IsRoadMap roads
            → IsContractionOf roads self.now → place < length selected.now.nodes
            → node_at labels.new place ≡ label_for
            (travel_by selected.now.side roads x (node_at selected.now.nodes place)) }
    {
        self.climb(selected.side, x, climbs);
        sweep(
            &selected.ranks,
            climbs,
            &selected.starts,
            &selected.steps,
            labels,
        );
    }

    /// Fills a row with the travel times from x to each of the wanted nodes of a selection, or from each of them to x. Takes no
    /// memory, and time of the number of nodes and of the arcs that were selected.
    pub fn row_in(
        &self,
        selected: &Selected,
        room: &mut SweepRoom,
        x: u32,
        into: &mut [Option<u64>],
    )
        requires selected { IsSelectionOf self.now selected.now }
        requires room { self.now.nodes + length selected.now.nodes ≤ room.old.places }
        requires some_node { 1 ≤ x }
        requires node { x ≤ self.now.nodes }
        requires places { length selected.now.wanted ≡ length into.old }
        ensures row { (roads : RoadMap) → IsRoadMap roads → IsContractionOf roads self.now
            → into.new ≡ map (travel_by selected.now.side roads x) selected.now.wanted }
        ensures room { room.new ≡ room.old }
    {
        let (climbs, labels) = room.labels.split_at_mut(self.order.len());
        self.label(selected, x, climbs, labels);
        read(&selected.places, labels, into);
    }

    /// The travel time from x to y in seconds, None where there is no way: two climbs, which meet at the highest node of a least way.
    /// Takes no memory, and time of the number of nodes.
    pub fn time(&self, room: &mut SweepRoom, x: u32, y: u32) -> Option<u64>
        requires room { self.now.nodes + self.now.nodes ≤ room.old.places }
        requires some_from { 1 ≤ x }
        requires from { x ≤ self.now.nodes }
        requires some_to { 1 ≤ y }
        requires to { y ≤ self.now.nodes }
        ensures time { (roads : RoadMap) → IsRoadMap roads → IsContractionOf roads self.now
            → result ≡ travel roads x y }
        ensures room { room.new ≡ room.old }
    {
        let nodes = self.order.len();
        let (ups, rest) = room.labels.split_at_mut(nodes);
        let downs = &mut rest[..nodes];
        self.climb(Side::Out, x, ups);
        self.climb(Side::Back, y, downs);
        time_for(least_sum(ups, downs))
    }
}

impl SweepRoom {
    /// Room for so many labels: one for each node, and one for each node of a selection. For single times, two for each node.
    pub fn new(alloc: Global, places: usize) -> Result<SweepRoom, NoMemory>
        ensures { IfOk result (λ room. room.places ≡ places) }
    {
        Ok(SweepRoom {
            labels: vec![in alloc; 0; places]?,
        })
    }
}
