//! Stop times.
ghost use Rattle.std.specs.Prelude.{◌≡◌, ◌≤◌, length, All};
ghost use Rattle.ride_model.specs.declared.vehicle.Stop.{Stop};
ghost use Rattle.ride_model.specs.Times.{times_from, times_of};
ghost use Rattle.ride_model.specs.inner.Vehicle.{IsRoutedSomewhere};
ghost use Rattle.ride_model.specs.declared.limits.TheConstants.{LATEST_READY, LONGEST_DWELL, MOST_STOPS};

use arrayvec::ArrayVec;
use ride_model::{Stop, Vehicle};

/// The arrival at each stop, in seconds, where the vehicle leaves at `start` and stands `dwell` seconds at each stop.
pub fn times(vehicle: &Vehicle, start: u64, dwell: u64) -> ArrayVec<u64, 16>
    requires routed { IsRoutedSomewhere vehicle.now }
    requires start_limit { start ≤ LATEST_READY }
    requires dwell_limit { dwell ≤ LONGEST_DWELL }
    ensures { result.items ≡ times_of vehicle.now start dwell }
{
    times_along(vehicle.stops.as_slice(), start, dwell)
}

// The arrivals along stops, each leg of which is at most 5 x 10^14 seconds.
fn times_along(stops: &[Stop], start: u64, dwell: u64) -> ArrayVec<u64, 16>
    requires few { length stops.now ≤ MOST_STOPS }
    requires legs { All (λ (stop : Stop). stop.leg ≤ 500000000000000) stops.now }
    requires start_limit { start ≤ LATEST_READY }
    requires dwell_limit { dwell ≤ LONGEST_DWELL }
    ensures { result.items ≡ times_from dwell start stops.now }
{
    let mut times = ArrayVec::new();
    let mut leave = start;
    for stop in stops {
        let time = leave + stop.leg;
        times.push(time);
        leave = time + dwell;
    }
    times
}
