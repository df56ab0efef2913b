//! Legs, read from the times near a ride.
ghost use Rattle.std.specs.Prelude.{◌≡◌, ◌≤◌, ◌<◌, length, All};
ghost use Rattle.insertion.specs.declared.near.NearStop.{NearStop};
ghost use Rattle.insertion.specs.inner.Joined.{leg_before, leg_after};
ghost use Rattle.slack_tables.specs.inner.Search.{IsShort, IsNearStop};

use insertion::NearStop;

/// The leg to a pickup before the stop at a place.
#[inline(always)]
pub fn leg_to_pickup(first: Option<u64>, stops: &[NearStop], place: usize) -> Option<u64>
    requires within { place ≤ length stops.now }
    requires short { IsShort first }
    requires all_short { All IsNearStop stops.now }
    ensures value { result ≡ leg_before first (λ (stop : NearStop). stop.to_from) stops.now place }
    ensures is_short { IsShort result }
{
    if place == 0 {
        first
    } else {
        stops[place - 1].to_from
    }
}

/// The leg to a drop-off before the stop at a place.
#[inline(always)]
pub fn leg_to_dropoff(first: Option<u64>, stops: &[NearStop], place: usize) -> Option<u64>
    requires within { place ≤ length stops.now }
    requires short { IsShort first }
    requires all_short { All IsNearStop stops.now }
    ensures value { result ≡ leg_before first (λ (stop : NearStop). stop.to_to) stops.now place }
    ensures is_short { IsShort result }
{
    if place == 0 {
        first
    } else {
        stops[place - 1].to_to
    }
}

/// The leg from a pickup to the stop at a place.
#[inline(always)]
pub fn leg_from_pickup(stops: &[NearStop], place: usize) -> Option<u64>
    requires within { place < length stops.now }
    requires all_short { All IsNearStop stops.now }
    ensures value { result ≡ leg_after (λ (stop : NearStop). stop.from_here) stops.now place }
    ensures is_short { IsShort result }
{
    stops[place].from_here
}

/// The leg from a drop-off to the stop at a place.
#[inline(always)]
pub fn leg_from_dropoff(stops: &[NearStop], place: usize) -> Option<u64>
    requires within { place < length stops.now }
    requires all_short { All IsNearStop stops.now }
    ensures value { result ≡ leg_after (λ (stop : NearStop). stop.to_here) stops.now place }
    ensures is_short { IsShort result }
{
    stops[place].to_here
}
