//! The roads, and the owner's settings.
ghost use Rattle.std.specs.Prelude.{◌≡◌, ◌≤◌, ◌<◌, All, IfOk};
ghost use Rattle.ride_model.specs.Fleet.{IsFleet};
ghost use Rattle.ride_model.specs.Seating.{vehicle_ids};
ghost use Rattle.ride_model.specs.Road.{IsRoadMap, IsNode, travel};
ghost use Rattle.ride_model.specs.Step.{is_node};

use crate::places::Places;
use adaptive_roads::{Roads, TravelTimes};
use ride_model::{NoMemory, Settings, Vehicle};
use std::alloc::Global;
use std::marker::Model;

/// What never changes while a board stands, with travel times over its roads.
pub(crate) struct Setup<'r> {
    times: TravelTimes<'r>,
    settings: Settings,
    places: Places,
}

impl<'r> Model for Setup<'r> {
    ghost use Rattle.board_core.specs.inner.Given.{Given};

    ghost Value = { Given };

    ghost view = { λ setup. record { roads = setup.times; settings = setup.settings; ids = setup.places } };
}

impl Drop for Setup<'_> {
    fn drop(self) {
        let Setup {
            times,
            settings: _,
            places,
        } = self;
        drop(times);
        drop(places);
    }
}

impl<'r> Setup<'r> {
    pub(crate) fn new(
        alloc: Global,
        roads: &'r Roads,
        settings: Settings,
        fleet: &[Vehicle],
    ) -> Result<Setup<'r>, NoMemory>
        requires fleet { IsFleet fleet.now }
        ensures setup { IfOk result (λ setup. setup
            ≡ record { roads = roads.now; settings = settings; ids = vehicle_ids fleet.now }) }
        ensures fits { IsRoadMap roads.now }
    {
        let times = TravelTimes::new(alloc, roads)?;
        let places = Places::new(alloc, fleet)?;
        Ok(Setup {
            times,
            settings,
            places,
        })
    }

    pub(crate) fn settings(&self) -> Settings
        ensures { result ≡ self.now.settings }
    {
        self.settings
    }

    /// The places of the vehicles, by their ids.
    pub(crate) fn places(&self) -> &Places
        ensures { result.now ≡ self.now.ids }
    {
        &self.places
    }

    /// Whether a number is that of a node.
    pub(crate) fn is_node(&self, number: u64) -> bool
        ensures { result ≡ is_node self.now.roads number }
    {
        1 <= number && number <= u64::from(self.times.roads().nodes())
    }

    /// Looks whether a hierarchy of the roads is there. May take memory; where it is wanting, travel times come as before.
    pub(crate) fn look(&mut self)
        ensures { self.new ≡ self.old }
    {
        self.times.look();
    }

    /// The travel time between two nodes, None where there is no way. Takes no memory.
    pub(crate) fn time(&mut self, from: u32, to: u32) -> Option<u64>
        requires from { IsNode self.old.roads from }
        requires to { IsNode self.old.roads to }
        ensures time { result ≡ travel self.old.roads from to }
        ensures kept { self.new ≡ self.old }
    {
        self.times.time(from, to)
    }
}
