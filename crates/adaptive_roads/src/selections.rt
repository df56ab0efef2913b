//! What is selected of a hierarchy for a batch.
ghost use Rattle.std.specs.Prelude.{◌≡◌, ◌≤◌, ◌+◌, length, map, All, IfOk};
ghost use Rattle.ride_model.specs.Road.{RoadMap, IsRoadMap, travel};
ghost use Rattle.road_times.specs.inner.Turned.{travel_by};
ghost use Rattle.adaptive_roads.specs.inner.contraction.Contracted.{IsContractionOf};

use crate::road_hierarchy::{Hierarchy, Selected, SweepRoom};
use ride_model::NoMemory;
use road_times::Side;
use std::alloc::Global;
use std::marker::Model;

/// What rows to wanted nodes need of a hierarchy, and rows from these nodes. Times between any two nodes need no more than the
/// hierarchy.
#[derive(Drop)]
pub struct Selections<'h> {
    hierarchy: &'h Hierarchy,
    out: Selected,
    back: Selected,
}

impl<'h> Model for Selections<'h> {
    ghost use Rattle.adaptive_roads.specs.inner.Selections.{Selected};

    ghost Value = { Selected };

    ghost use Rattle.adaptive_roads.specs.inner.Selections.{AreSelections};

    ghost view = { λ s. record { hierarchy = s.hierarchy.now; wanted = s.out.wanted } };

    ghost invariant = { λ s. AreSelections s.hierarchy.now s.out s.back };
}

impl<'h> Selections<'h> {
    /// Selects for these wanted nodes.
    pub(crate) fn of(
        alloc: Global,
        hierarchy: &'h Hierarchy,
        wanted: &[u32],
    ) -> Result<Selections<'h>, NoMemory>
        requires { All (λ node. (1 ≤ node) × (node ≤ hierarchy.now.nodes)) wanted.now }
        ensures hierarchy { IfOk result (λ made. made.hierarchy ≡ hierarchy.now) }
        ensures wanted { IfOk result (λ made. made.wanted ≡ wanted.now) }
    {
        let out = Selected::of(alloc, hierarchy, Side::Out, wanted)?;
        let back = Selected::of(alloc, hierarchy, Side::Back, wanted)?;
        Ok(Selections {
            hierarchy,
            out,
            back,
        })
    }

    /// Fills a row with the travel times from x to each of the wanted nodes, or from each of them to x.
    pub(crate) fn row(&self, room: &mut SweepRoom, x: u32, side: Side, into: &mut [Option<u64>])
        requires room { self.now.hierarchy.nodes + self.now.hierarchy.nodes ≤ room.old.places }
        requires some_node { 1 ≤ x }
        requires node { x ≤ self.now.hierarchy.nodes }
        requires places { length self.now.wanted ≡ length into.old }
        ensures row { (roads : RoadMap) → IsRoadMap roads → IsContractionOf roads self.now.hierarchy
            → into.new ≡ map (travel_by side roads x) self.now.wanted }
        ensures room { room.new ≡ room.old }
    {
        let selected = match side {
            Side::Out => &self.out,
            Side::Back => &self.back,
        };
        self.hierarchy.row_in(selected, room, x, into);
    }

    /// The travel time from x to y.
    pub(crate) fn time(&self, room: &mut SweepRoom, x: u32, y: u32) -> Option<u64>
        requires room { self.now.hierarchy.nodes + self.now.hierarchy.nodes ≤ room.old.places }
        requires some_from { 1 ≤ x }
        requires from { x ≤ self.now.hierarchy.nodes }
        requires some_to { 1 ≤ y }
        requires to { y ≤ self.now.hierarchy.nodes }
        ensures time { (roads : RoadMap) → IsRoadMap roads
            → IsContractionOf roads self.now.hierarchy → result ≡ travel roads x y }
        ensures room { room.new ≡ room.old }
    {
        self.hierarchy.time(room, x, y)
    }
}
