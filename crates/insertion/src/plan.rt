//! A vehicle's plan for a batch, and when it comes to which place.
ghost use Rattle.std.specs.Prelude.{◌≡◌, ◌≤◌, length, All, IfSome};
ghost use Rattle.ride_model.specs.inner.Vehicle.{IsRoutedSomewhere};
ghost use Rattle.ride_model.specs.declared.limits.TheConstants.{LATEST_TIME, LONGEST_DWELL, LONGEST_LEAD};
ghost use Rattle.insertion.specs.inner.Arrivals.{plan_of, leave_at, pickup_at};
ghost use Rattle.insertion.specs.inner.Joined.{to_pickup_of};

use crate::joins::to_pickup;
use crate::near::Near;
use crate::prices::start_of;
use arrayvec::ArrayVec;
use ride_model::{Settings, Vehicle};
use stop_plans::times;

/// A vehicle's plan for a batch.
#[derive(Drop)]
pub struct Plan {
    /// The time of the batch.
    pub time: u64,
    pub start: u64,
    /// The arrival at each stop.
    pub times: ArrayVec<u64, 16>,
}

/// A vehicle's plan for a batch of this time.
pub fn plan_of(vehicle: &Vehicle, time: u64, settings: &Settings) -> Plan
    requires routed { IsRoutedSomewhere vehicle.now }
    requires time_limit { time ≤ LATEST_TIME }
    requires lead_limit { settings.now.lead ≤ LONGEST_LEAD }
    requires dwell_limit { settings.now.dwell ≤ LONGEST_DWELL }
    ensures { result ≡ plan_of vehicle.now time settings.now }
{
    let start = start_of(vehicle, settings.lead, time);
    Plan {
        time,
        start,
        times: times(vehicle, start, settings.dwell),
    }
}

/// The arrival at a pickup directly before the stop at a place, where there is a way to it.
pub fn pickup_at(near: &Near, dwell: u64, plan: &Plan, place: usize) -> Option<u64>
    requires within_near { place ≤ length near.now.stops.items }
    requires within_plan { place ≤ length plan.now.times.items }
    requires start_limit { plan.now.start ≤ 10000000000000000 }
    requires soon { All (λ time. time ≤ 10000000000000000) plan.now.times.items }
    requires dwell_limit { dwell ≤ LONGEST_DWELL }
    requires short { IfSome (to_pickup_of near.now place) (λ seconds. seconds ≤ 500000000000000) }
    ensures { result ≡ pickup_at near.now dwell plan.now place }
{
    let leg = to_pickup(near.at_from, near.stops.as_slice(), place)?;
    Some(leave_at(plan.start, dwell, plan.times.as_slice(), place) + leg)
}

/// When a vehicle with these arrivals leaves for a place.
pub fn leave_at(start: u64, dwell: u64, times: &[u64], place: usize) -> u64
    requires within { place ≤ length times.now }
    requires start_limit { start ≤ 10000000000000000 }
    requires soon { All (λ time. time ≤ 10000000000000000) times.now }
    requires dwell_limit { dwell ≤ LONGEST_DWELL }
    ensures time { result ≡ leave_at start dwell times.now place }
    ensures bounded { result ≤ 10000000000003600 }
{
    if place == 0 {
        start
    } else {
        times[place - 1] + dwell
    }
}
