//! Riders' trips in a plan, and by how much each may be delayed.
ghost use Rattle.std.specs.Prelude.{◌≡◌, ◌≤◌, length, All, IfSome};
ghost use Rattle.std.specs.List.{filter_map};
ghost use Rattle.ride_model.specs.declared.vehicle.Ride.{Ride};
ghost use Rattle.ride_model.specs.declared.limits.TheConstants.{MOST_RIDES};
ghost use Rattle.stop_plans.specs.inner.First.{is_visit};
ghost use Rattle.promises.specs.inner.Arrivals.{IsLimited};
ghost use Rattle.slack_tables.specs.inner.Trips.{first_visit, boarding_visit, trip_of};
ghost use Rattle.slack_tables.specs.declared.trips.Visit.{Visit};

use arrayvec::ArrayVec;
use ride_model::{Kind, Ride, Stop};

/// A visit of a ride: the place of a stop and the arrival there.
#[derive(Clone, Copy, PartialEq, Eq, Default)]
pub struct Visit {
    pub place: usize,
    pub time: u64,
}

/// A rider's trip in a plan, and by how much it may be delayed.
#[derive(Clone, Copy, PartialEq, Eq, Default)]
pub struct Trip {
    /// How many stops are served when the rider is aboard: none for one who is so at the start.
    pub boarded: usize,
    /// The place of the drop-off.
    pub dropoff: usize,
    /// By how much the pickup may be later.
    pub wait_room: u64,
    /// By how much the drop-off may be later than the boarding allows for.
    pub ride_room: u64,
}

/// The trips of these rides, where these are the stops and the arrivals at them.
pub fn trips_of(rides: &[Ride], stops: &[Stop], times: &[u64]) -> ArrayVec<Trip, 16>
    requires few { length rides.now ≤ MOST_RIDES }
    requires one_each { length times.now ≡ length stops.now }
    requires limited { All IsLimited rides.now }
    requires soon { All (λ time. time ≤ 10000000000000000) times.now }
    ensures { result.items ≡ filter_map
        (λ (ride : Ride). trip_of ride stops.now times.now) rides.now }
{
    let mut trips = ArrayVec::new();
    for ride in rides {
        if let Some(trip) = trip_of(ride, stops, times) {
            trips.push(trip);
        }
    }
    trips
}

// The trip of a ride.
fn trip_of(ride: &Ride, stops: &[Stop], times: &[u64]) -> Option<Trip>
    requires one_each { length times.now ≡ length stops.now }
    requires limited { IsLimited ride.now }
    requires soon { All (λ time. time ≤ 10000000000000000) times.now }
    ensures { result ≡ trip_of ride.now stops.now times.now }
{
    let boarding = boarding(ride, stops, times)?;
    let dropoff = first_visit(stops, times, ride.id, Kind::Dropoff)?;
    Some(Trip {
        boarded: boarding.place,
        dropoff: dropoff.place,
        wait_room: ride.latest.saturating_sub(boarding.time),
        ride_room: (boarding.time + ride.longest).saturating_sub(dropoff.time),
    })
}

// How many stops are served when the rider is aboard, and when that is.
fn boarding(ride: &Ride, stops: &[Stop], times: &[u64]) -> Option<Visit>
    requires one_each { length times.now ≡ length stops.now }
    requires limited { IsLimited ride.now }
    requires soon { All (λ time. time ≤ 10000000000000000) times.now }
    ensures value { result ≡ boarding_visit ride.now ride.now.picked stops.now times.now }
    ensures bounded { IfSome result (λ (visit : Visit). visit.time ≤ 10000000000000000) }
{
    match ride.picked {
        Some(picked) => Some(Visit {
            place: 0,
            time: picked,
        }),
        None => {
            let pickup = first_visit(stops, times, ride.id, Kind::Pickup)?;
            Some(Visit {
                place: pickup.place + 1,
                time: pickup.time,
            })
        }
    }
}

// The first visit of this kind of a ride.
fn first_visit(stops: &[Stop], times: &[u64], id: u64, kind: Kind) -> Option<Visit>
    requires one_each { length times.now ≡ length stops.now }
    requires soon { All (λ time. time ≤ 10000000000000000) times.now }
    ensures value { result ≡ first_visit 0 id kind stops.now times.now }
    ensures bounded { IfSome result (λ (visit : Visit). visit.time ≤ 10000000000000000) }
    ensures within { IfSome result (λ (visit : Visit). visit.place ≤ length stops.now) }
{
    for (i, stop) in stops.iter().enumerate() {
        if is_visit(stop, id, kind) {
            return Some(Visit {
                place: i,
                time: times[i],
            });
        }
    }
    None
}

// Whether a stop is a visit of this kind of a ride.
fn is_visit(stop: &Stop, id: u64, kind: Kind) -> bool
    ensures { result ≡ is_visit id kind stop.now }
{
    stop.ride == id && stop.kind == kind
}
