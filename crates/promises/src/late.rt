//! Promises broken.
ghost use Rattle.std.specs.Prelude.{◌≡◌, ◌≤◌, length, filter, All};
ghost use Rattle.ride_model.specs.Keeps.{broken_of};
ghost use Rattle.ride_model.specs.Vehicle.{ride_ids};
ghost use Rattle.ride_model.specs.inner.Vehicle.{IsLawfulSomewhere};
ghost use Rattle.ride_model.specs.declared.limits.TheConstants.{LONGEST_DWELL, MOST_RIDES};
ghost use Rattle.promises.specs.inner.Arrivals.{breaks_along, IsLimited};

use crate::arrivals::breaks_limit;
use ride_model::{Ids, Ride, Stop, Vehicle};
use stop_plans::times;

/// The rides, in order of confirmation, of which an arrival breaks a limit where the vehicle leaves when it is ready and
/// stands `dwell` seconds at each stop.
pub fn broken(vehicle: &Vehicle, dwell: u64) -> Ids
    requires lawful { IsLawfulSomewhere vehicle.now }
    requires dwell_limit { dwell ≤ LONGEST_DWELL }
    ensures { result ≡ broken_of vehicle.now dwell }
{
    let times = times(vehicle, vehicle.ready, dwell);
    broken_among(
        vehicle.rides.as_slice(),
        vehicle.stops.as_slice(),
        times.as_slice(),
    )
}

// Those of these rides of which the arrivals at these stops break a limit.
fn broken_among(rides: &[Ride], stops: &[Stop], times: &[u64]) -> Ids
    requires few { length rides.now ≤ MOST_RIDES }
    requires one_each { length times.now ≡ length stops.now }
    requires limited { All IsLimited rides.now }
    requires soon { All (λ time. time ≤ 10000000000000000) times.now }
    ensures { result ≡ ride_ids (filter (breaks_along stops.now times.now) rides.now) }
{
    let mut broken = Ids::new();
    for ride in rides {
        if breaks_limit(ride, stops, times) {
            broken.push(ride.id);
        }
    }
    broken
}
