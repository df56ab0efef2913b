//! The tables of a plan.
ghost use Rattle.std.specs.Prelude.{◌≡◌, ◌≤◌, ◌<◌, ◌+◌, ◌-◌, ◌∷◌, length, slice_index, slice_index_or, []};
ghost use Rattle.ride_model.specs.inner.Vehicle.{IsLawfulSomewhere};
ghost use Rattle.ride_model.specs.declared.limits.TheConstants.{LATEST_READY, LONGEST_DWELL, MOST_STOPS};
ghost use Rattle.slack_tables.specs.inner.Tables.{PlanSlack, load_at, room_at};
ghost use Rattle.slack_tables.specs.inner.SlackOf.{slack_of};

use crate::rooms::{Row, rows};
use crate::trips::trips_of;
use arrayvec::ArrayVec;
use promises::keeps;
use ride_model::{Load, Vehicle};
use std::marker::Model;
use stop_plans::{load_at_start, loads, times};

/// What a search for places reads of a vehicle's plan: its arrivals, its loads, and by how much its stops may be later.
#[derive(Drop)]
pub struct Slack {
    on_time: bool,
    times: ArrayVec<u64, 16>,
    loads: ArrayVec<Load, 17>,
    rooms: ArrayVec<Row, 17>,
}

impl Model for Slack {
    ghost use Rattle.slack_tables.specs.inner.Tables.{PlanSlack, rows_of};

    ghost Value = { PlanSlack };

    ghost view = { λ s. record { on_time = s.on_time; times = s.times.items; loads = s.loads.items; rooms = rows_of s.rooms.items } };
}

impl Slack {
    /// The tables of a vehicle that leaves at `start` and stands `dwell` seconds at each stop.
    pub fn of(vehicle: &Vehicle, start: u64, dwell: u64) -> Slack
        requires lawful { IsLawfulSomewhere vehicle.now }
        requires start_limit { start ≤ LATEST_READY }
        requires dwell_limit { dwell ≤ LONGEST_DWELL }
        ensures { result ≡ slack_of vehicle.now start dwell }
    {
        let stops = vehicle.stops.as_slice();
        let times = times(vehicle, start, dwell);
        let trips = trips_of(vehicle.rides.as_slice(), stops, times.as_slice());
        Slack {
            on_time: keeps(vehicle, start, dwell),
            times,
            loads: from_start(load_at_start(vehicle), loads(vehicle).as_slice()),
            rooms: rows(trips.as_slice(), stops.len()),
        }
    }

    /// Whether the plan keeps its promises.
    #[inline]
    pub(crate) fn on_time(&self) -> bool
        ensures { result ≡ self.now.on_time }
    {
        self.on_time
    }

    /// The number of stops.
    #[inline]
    pub(crate) fn stops(&self) -> usize
        ensures { result ≡ length self.now.times }
    {
        self.times.len()
    }

    /// The arrival at the stop at a place.
    #[inline]
    pub(crate) fn time(&self, place: usize) -> u64
        requires { place < length self.now.times }
        ensures { result ≡ slice_index self.now.times place }
    {
        self.times.as_slice()[place]
    }

    /// The load before a place.
    #[inline]
    pub(crate) fn load(&self, place: usize) -> Load
        requires { place < length self.now.loads }
        ensures { result ≡ load_at self.now place }
    {
        self.loads.as_slice()[place]
    }

    /// By how much the stops from a place on may be later, for a change before another place, which is not behind it.
    #[inline]
    pub(crate) fn room(&self, change: usize, place: usize) -> u64
        requires row_there { change < length self.now.rooms }
        requires in_order { change ≤ place }
        requires within { place - change < length (slice_index_or self.now.rooms change []) }
        ensures { result ≡ room_at self.now change place }
    {
        let row = &self.rooms.as_slice()[change];
        row.as_slice()[place - change]
    }
}

// The load at the start and those after each stop.
fn from_start(first: Load, after: &[Load]) -> ArrayVec<Load, 17>
    requires { length after.now ≤ MOST_STOPS }
    ensures { result.items ≡ first ∷ after.now }
{
    let mut loads = ArrayVec::new();
    loads.push(first);
    for load in after {
        loads.push(*load);
    }
    loads
}
