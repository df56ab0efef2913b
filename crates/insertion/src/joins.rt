//! The legs into and out of two new stops.
ghost use Rattle.std.specs.Prelude.{◌≡◌, ◌≤◌, ◌==◌, length, if◌then◌else◌};
ghost use Rattle.insertion.specs.declared.near.NearStop.{NearStop};
ghost use Rattle.insertion.specs.inner.Joined.{leg_before, leg_after, four_legs, joins_near};

use crate::near::{Near, NearStop};
use ride_model::Joins;

/// The legs with the pickup at place `i` and the drop-off at place `j`, where each exists.
pub fn joins_at(near: &Near, i: usize, j: usize) -> Option<Joins>
    requires in_order { i ≤ j }
    requires in_range { j ≤ length near.now.stops.items }
    ensures { result ≡ joins_near near.now i j }
{
    let stops = near.stops.as_slice();
    let to_pickup = to_pickup(near.at_from, stops, i);
    let after_dropoff = after_dropoff(stops, j);
    if i == j {
        return joined(to_pickup, near.direct, near.direct, after_dropoff);
    }
    joined(
        to_pickup,
        after_pickup(stops, i),
        to_dropoff(near.at_to, stops, j),
        after_dropoff,
    )
}

// The four legs, where each exists.
fn joined(
    to_pickup: Option<u64>,
    after_pickup: Option<u64>,
    to_dropoff: Option<u64>,
    after_dropoff: Option<u64>,
) -> Option<Joins>
    ensures { result ≡ four_legs to_pickup after_pickup to_dropoff after_dropoff }
{
    Some(Joins {
        to_pickup: to_pickup?,
        after_pickup: after_pickup?,
        to_dropoff: to_dropoff?,
        after_dropoff: after_dropoff?,
    })
}

/// The leg to a pickup before the stop at a place.
pub fn to_pickup(first: Option<u64>, stops: &[NearStop], place: usize) -> Option<u64>
    requires { place ≤ length stops.now }
    ensures { result ≡ leg_before first (λ (stop : NearStop). stop.to_from) stops.now place }
{
    if place == 0 {
        first
    } else {
        stops[place - 1].to_from
    }
}

// The leg to a drop-off before the stop at a place.
fn to_dropoff(first: Option<u64>, stops: &[NearStop], place: usize) -> Option<u64>
    requires { place ≤ length stops.now }
    ensures { result ≡ leg_before first (λ (stop : NearStop). stop.to_to) stops.now place }
{
    if place == 0 {
        first
    } else {
        stops[place - 1].to_to
    }
}

// The leg from a pickup to the stop at a place, 0 where none is there.
fn after_pickup(stops: &[NearStop], place: usize) -> Option<u64>
    ensures { result ≡ leg_after (λ (stop : NearStop). stop.from_here) stops.now place }
{
    if place < stops.len() {
        stops[place].from_here
    } else {
        Some(0)
    }
}

// The leg from a drop-off to the stop at a place, 0 where none is there.
fn after_dropoff(stops: &[NearStop], place: usize) -> Option<u64>
    ensures { result ≡ leg_after (λ (stop : NearStop). stop.to_here) stops.now place }
{
    if place < stops.len() {
        stops[place].to_here
    } else {
        Some(0)
    }
}
