//! What a ride more adds to a plan's drive.
ghost use Rattle.std.specs.Prelude.{◌≡◌, ◌≤◌};
ghost use Rattle.ride_model.specs.Offers.{leg_at};
ghost use Rattle.ride_model.specs.declared.limits.TheConstants.{LONGEST_DWELL};
ghost use Rattle.insertion.specs.inner.Drawn.{stands_more, drives_more, AreShort};

use ride_model::{Joins, Stop};

/// The seconds that a plan becomes longer: the new legs and stands, without the legs that they replace.
pub fn drives_more(dwell: u64, stops: &[Stop], i: usize, j: usize, joins: &Joins) -> u64
    requires dwell_limit { dwell ≤ LONGEST_DWELL }
    requires short { AreShort joins.now }
    ensures seconds { result ≡ drives_more dwell stops.now i j joins.now }
    ensures bounded { result ≤ 2000000000007200 }
{
    let legs = joins.to_pickup + joins.after_pickup + joins.to_dropoff + joins.after_dropoff;
    let more = legs + stands_more(dwell, stops);
    let replaced = if i == j {
        joins.to_dropoff
    } else {
        leg_at(stops, i)
    };
    more.saturating_sub(leg_at(stops, j))
        .saturating_sub(replaced)
}

// How long a vehicle stands more with two stops more, up to the last arrival.
fn stands_more(dwell: u64, stops: &[Stop]) -> u64
    requires { dwell ≤ LONGEST_DWELL }
    ensures seconds { result ≡ stands_more dwell stops.now }
    ensures bounded { result ≤ 7200 }
{
    if stops.is_empty() {
        dwell
    } else {
        dwell + dwell
    }
}

// The leg to the stop at a place, 0 where none is there.
fn leg_at(stops: &[Stop], place: usize) -> u64
    ensures { result ≡ leg_at stops.now place }
{
    match stops.get(place) {
        Some(stop) => stop.leg,
        None => 0,
    }
}
