//! Promises kept.
ghost use Rattle.std.specs.Prelude.{◌≡◌, ◌≤◌, length, not, All};
ghost use Rattle.std.specs.List.{list_all};
ghost use Rattle.ride_model.specs.declared.vehicle.Ride.{Ride};
ghost use Rattle.ride_model.specs.Keeps.{keeps};
ghost use Rattle.ride_model.specs.inner.Vehicle.{IsRoutedSomewhere};
ghost use Rattle.ride_model.specs.declared.limits.TheConstants.{LATEST_READY, LONGEST_DWELL};
ghost use Rattle.promises.specs.inner.Arrivals.{breaks_along, IsLimited};

use crate::arrivals::breaks_limit;
use crate::room::has_room;
use ride_model::{Ride, Stop, Vehicle};
use stop_plans::times;

/// Whether a vehicle that leaves at `start` and stands `dwell` seconds at each stop keeps its promises: each pickup comes by
/// the ride's latest time, each ride takes at most its longest time, and what is aboard always fits.
pub fn keeps(vehicle: &Vehicle, start: u64, dwell: u64) -> bool
    requires routed { IsRoutedSomewhere vehicle.now }
    requires start_limit { start ≤ LATEST_READY }
    requires dwell_limit { dwell ≤ LONGEST_DWELL }
    ensures { result ≡ keeps vehicle.now start dwell }
{
    let times = times(vehicle, start, dwell);
    keeps_limits(
        vehicle.rides.as_slice(),
        vehicle.stops.as_slice(),
        times.as_slice(),
    ) && has_room(vehicle)
}

// Whether the arrivals at these stops break no limit of any of these rides.
fn keeps_limits(rides: &[Ride], stops: &[Stop], times: &[u64]) -> bool
    requires one_each { length times.now ≡ length stops.now }
    requires limited { All IsLimited rides.now }
    requires soon { All (λ time. time ≤ 10000000000000000) times.now }
    ensures { result ≡ list_all (λ (ride : Ride). not
        (breaks_along stops.now times.now ride)) rides.now }
{
    for ride in rides {
        if breaks_limit(ride, stops, times) {
            return false;
        }
    }
    true
}
