//! Arrivals at a ride's visits, and whether they break a limit.
ghost use Rattle.std.specs.Prelude.{◌≡◌, ◌≤◌, length, All, IfSome};
ghost use Rattle.stop_plans.specs.inner.First.{is_visit};
ghost use Rattle.ride_model.specs.declared.limits.TheConstants.{LONGEST_RIDE};
ghost use Rattle.promises.specs.inner.Arrivals.{arrival_of, boarding_of, breaks_between, breaks_along, IsLimited};

use ride_model::{Kind, Ride, Stop};

/// Whether the arrivals at these stops break a limit of a ride.
pub fn breaks_limit(ride: &Ride, stops: &[Stop], times: &[u64]) -> bool
    requires one_each { length times.now ≡ length stops.now }
    requires limited { IsLimited ride.now }
    requires soon { All (λ time. time ≤ 10000000000000000) times.now }
    ensures { result ≡ breaks_along stops.now times.now ride.now }
{
    match (
        boarding(ride, stops, times),
        arrival(stops, times, ride.id, Kind::Dropoff),
    ) {
        (Some(boarding), Some(dropoff)) => is_broken_by(ride, boarding, dropoff),
        _ => false,
    }
}

// Whether a boarding and an arrival at the drop-off break a limit of a ride.
fn is_broken_by(ride: &Ride, boarding: u64, dropoff: u64) -> bool
    requires limited { ride.now.longest ≤ LONGEST_RIDE }
    requires soon { boarding ≤ 10000000000000000 }
    ensures { result ≡ breaks_between ride.now boarding dropoff }
{
    let is_late = ride.picked.is_none() && boarding > ride.latest;
    is_late || dropoff > boarding + ride.longest
}

// When the rider of a ride boards.
fn boarding(ride: &Ride, stops: &[Stop], times: &[u64]) -> Option<u64>
    requires one_each { length times.now ≡ length stops.now }
    requires limited { IsLimited ride.now }
    requires soon { All (λ time. time ≤ 10000000000000000) times.now }
    ensures value { result ≡ boarding_of ride.now ride.now.picked stops.now times.now }
    ensures bounded { IfSome result (λ time. time ≤ 10000000000000000) }
{
    match ride.picked {
        Some(picked) => Some(picked),
        None => arrival(stops, times, ride.id, Kind::Pickup),
    }
}

// The first arrival at a visit of this kind of a ride, where these are the stops and the arrivals at them.
fn arrival(stops: &[Stop], times: &[u64], id: u64, kind: Kind) -> Option<u64>
    requires one_each { length times.now ≡ length stops.now }
    requires soon { All (λ time. time ≤ 10000000000000000) times.now }
    ensures value { result ≡ arrival_of id kind stops.now times.now }
    ensures bounded { IfSome result (λ time. time ≤ 10000000000000000) }
{
    for (i, stop) in stops.iter().enumerate() {
        if is_visit(stop, id, kind) {
            return Some(times[i]);
        }
    }
    None
}

// Whether a stop is a visit of this kind of a ride.
fn is_visit(stop: &Stop, id: u64, kind: Kind) -> bool
    ensures { result ≡ is_visit id kind stop.now }
{
    stop.ride == id && stop.kind == kind
}
