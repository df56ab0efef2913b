//! Travel times for a batch by searches, or by sweeps and climbs, whichever is at hand: the times are the same.
ghost use Rattle.std.specs.Prelude.{◌≡◌, length, map, All, IfSome};
ghost use Rattle.ride_model.specs.Road.{IsRoadMap, IsNode, travel};
ghost use Rattle.road_times.specs.inner.Turned.{travel_by};
ghost use Rattle.adaptive_roads.specs.inner.Selections.{IsSelectedOf};

use crate::Roads;
use crate::scratch::Scratch;
use crate::selections::Selections;
use road_times::Side;
use std::marker::Model;

/// Rows of travel times between any node and the wanted nodes of a batch, and times from any node to another.
#[derive(Drop)]
pub struct BatchRoads<'a> {
    roads: &'a Roads,
    wanted: &'a [u32],
    selections: Option<Selections<'a>>,
}

impl<'a> Model for BatchRoads<'a> {
    ghost use Rattle.adaptive_roads.specs.inner.Batch.{Wants};

    ghost Value = { Wants };

    ghost use Rattle.adaptive_roads.specs.inner.Batch.{AreServed};

    ghost view = { λ b. record { roads = b.roads.now; wanted = b.wanted.now } };

    ghost invariant = { λ b. AreServed b.roads.now b.wanted.now b.selections };
}

impl<'a> BatchRoads<'a> {
    /// By sweeps over what was selected and by climbs, if anything was selected, and else by searches.
    pub(crate) fn over(
        roads: &'a Roads,
        wanted: &'a [u32],
        selections: Option<Selections<'a>>,
    ) -> BatchRoads<'a>
        requires nodes { All (IsNode roads.now) wanted.now }
        requires selected { IfSome selections (IsSelectedOf roads.now wanted.now) }
        ensures roads { result.roads ≡ roads.now }
        ensures wanted { result.wanted ≡ wanted.now }
    {
        BatchRoads {
            roads,
            wanted,
            selections,
        }
    }

    /// Whether rows come by sweeps.
    pub fn is_swept(&self) -> bool {
        self.selections.is_some()
    }

    /// Fills a row with the travel times from x to each of the wanted nodes, or from each of them to x. Takes no memory.
    pub fn rows(&self, scratch: &mut Scratch, x: u32, side: Side, into: &mut [Option<u64>])
        requires scratch { scratch.old.nodes ≡ self.now.roads.nodes }
        requires node { IsNode self.now.roads x }
        requires places { length self.now.wanted ≡ length into.old }
        ensures row { into.new ≡ map (travel_by side self.now.roads x) self.now.wanted }
        ensures scratch { scratch.new ≡ scratch.old }
        ensures fits { IsRoadMap self.now.roads }
    {
        // This call tells that the roads are a map.
        let _nodes = self.roads.nodes();
        if let Some(selections) = &self.selections {
            selections.row(&mut scratch.sweep, x, side, into);
            return;
        }
        self.roads
            .searched()
            .rows(&mut scratch.search, x, side, self.wanted, into);
        scratch.count();
    }

    /// The travel time from x to y. Takes no memory.
    pub fn time(&self, scratch: &mut Scratch, x: u32, y: u32) -> Option<u64>
        requires scratch { scratch.old.nodes ≡ self.now.roads.nodes }
        requires from { IsNode self.now.roads x }
        requires to { IsNode self.now.roads y }
        ensures time { result ≡ travel self.now.roads x y }
        ensures scratch { scratch.new ≡ scratch.old }
    {
        // This call tells that the roads are a map.
        let _nodes = self.roads.nodes();
        if let Some(selections) = &self.selections {
            return selections.time(&mut scratch.sweep, x, y);
        }
        let time = self.roads.searched().time(&mut scratch.search, x, y);
        scratch.count();
        time
    }
}
