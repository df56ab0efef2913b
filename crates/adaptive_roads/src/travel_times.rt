//! Travel times over roads, as one asks for them.
ghost use Rattle.std.specs.Prelude.{◌≡◌, length, map, All, IfOk, IfSome};
ghost use Rattle.ride_model.specs.Road.{IsNode, IsRoadMap, travel};
ghost use Rattle.road_times.specs.inner.Turned.{travel_by};
ghost use Rattle.adaptive_roads.specs.inner.Seen.{IsSeenOf};
ghost use Rattle.adaptive_roads.specs.inner.Selections.{IsSelectedOf};

use crate::Roads;
use crate::batch_roads::BatchRoads;
use crate::road_hierarchy::Hierarchy;
use crate::scratch::Scratch;
use crate::selections::Selections;
use ride_model::NoMemory;
use road_times::Side;
use std::alloc::Global;
use std::marker::Model;

/// Whether the hierarchy of roads was seen.
#[derive(Clone, Copy)]
enum Seen<'r> {
    NotYet,
    /// It is there, and was made of these roads.
    There(&'r Hierarchy),
    /// Memory was wanting to compare it with the roads.
    Never,
}

/// Travel times between any two nodes of roads, and rows of them for batches: by searches, and by a hierarchy of the roads as soon as that
/// is there. To contracts it is the map.
pub struct TravelTimes<'r> {
    alloc: Global,
    roads: &'r Roads,
    seen: Seen<'r>,
    scratch: Scratch,
}

impl<'r> Model for TravelTimes<'r> {
    ghost use Rattle.std.specs.Prelude.{◌≡◌};
    ghost use Rattle.ride_model.specs.Road.{RoadMap};
    ghost use Rattle.road_times.specs.inner.Turned.{travel_by};
    ghost use Rattle.adaptive_roads.specs.inner.Seen.{IsSeenOf};

    ghost Value = { RoadMap };

    ghost view = { λ t. t.roads.now };

    ghost invariant = { λ t. (t.scratch.nodes ≡ t.roads.now.nodes) × IsSeenOf t.roads.now t.seen };
}

impl Drop for TravelTimes<'_> {
    fn drop(self) {
        let TravelTimes {
            alloc: _,
            roads: _,
            seen: _,
            scratch,
        } = self;
        drop(scratch);
    }
}

impl<'r> TravelTimes<'r> {
    /// Travel times over these roads.
    pub fn new(alloc: Global, roads: &'r Roads) -> Result<TravelTimes<'r>, NoMemory>
        ensures times { IfOk result (λ times. times ≡ roads.now) }
        ensures fits { IsRoadMap roads.now }
    {
        // This call tells that the map is within its limits.
        let _nodes = roads.nodes();
        let scratch = Scratch::new(alloc, roads)?;
        Ok(TravelTimes {
            alloc,
            roads,
            seen: Seen::NotYet,
            scratch,
        })
    }

    /// The roads.
    pub fn roads(&self) -> &'r Roads
        ensures { result.now ≡ self.now }
    {
        self.roads
    }

    /// Looks whether the hierarchy is there. Once it is, it is compared with the roads: that takes memory, and where it is wanting they are
    /// searched for good.
    pub fn look(&mut self)
        ensures { self.new ≡ self.old }
    {
        if let Seen::NotYet = self.seen {
            self.seen = looked(self.alloc, self.roads);
        }
    }

    /// The travel time from x to y in seconds, None where there is no way. Takes no memory.
    pub fn time(&mut self, x: u32, y: u32) -> Option<u64>
        requires from { IsNode self.old x }
        requires to { IsNode self.old y }
        ensures time { result ≡ travel self.old x y }
        ensures kept { self.new ≡ self.old }
    {
        // This call tells that the map is within its limits.
        let _nodes = self.roads.nodes();
        if let Seen::There(hierarchy) = self.seen {
            return hierarchy.time(&mut self.scratch.sweep, x, y);
        }
        let roads = self.roads.searched();
        roads.time(&mut self.scratch.search, x, y)
    }

    /// The roads towards the wanted nodes of a batch: by sweeps where the hierarchy was seen and there is memory for what is selected of it,
    /// and else by searches.
    pub fn towards<'a>(&self, wanted: &'a [u32]) -> BatchRoads<'a>
    where
        'r: 'a,
        requires { All (IsNode self.now) wanted.now }
        ensures roads { result.roads ≡ self.now }
        ensures wanted { result.wanted ≡ wanted.now }
    {
        BatchRoads::over(self.roads, wanted, self.selections(wanted))
    }

    /// Fills a row with the travel times from x to each wanted node, or from each of them to x. Takes no memory.
    pub fn row(&mut self, towards: &BatchRoads, x: u32, side: Side, into: &mut [Option<u64>])
        requires roads { towards.now.roads ≡ self.old }
        requires node { IsNode self.old x }
        requires places { length towards.now.wanted ≡ length into.old }
        ensures row { into.new ≡ map (travel_by side self.old x) towards.now.wanted }
        ensures kept { self.new ≡ self.old }
    {
        towards.rows(&mut self.scratch, x, side, into);
    }

    // What is selected of the hierarchy for wanted nodes, if it was seen and there is memory.
    fn selections(&self, wanted: &[u32]) -> Option<Selections<'r>>
        requires { All (IsNode self.now) wanted.now }
        ensures { IfSome result (IsSelectedOf self.now wanted.now) }
    {
        match self.seen {
            Seen::There(hierarchy) => Selections::of(self.alloc, hierarchy, wanted).ok(),
            _ => None,
        }
    }
}

// Whether the hierarchy of roads is there.
fn looked(alloc: Global, roads: &Roads) -> Seen<'_>
    ensures { IsSeenOf roads.now result }
{
    let Some(made) = roads.made() else {
        return Seen::NotYet;
    };
    match made.hierarchy_of(alloc, roads.searched()) {
        Ok(Some(hierarchy)) => Seen::There(hierarchy),
        _ => Seen::Never,
    }
}
