//! By how much the stops of a plan may be later.
ghost use Rattle.std.specs.Prelude.{◌≡◌, ◌≤◌, ◌+◌, ◌-◌, map};
ghost use Rattle.std.specs.List.{range_with_len};
ghost use Rattle.ride_model.specs.declared.limits.TheConstants.{MOST_STOPS};
ghost use Rattle.slack_tables.specs.inner.SlackOf.{rooms_of};
ghost use Rattle.slack_tables.specs.inner.Tables.{rows_of};
ghost use Rattle.slack_tables.specs.inner.Trips.{room_in, room_of};

use crate::trips::Trip;
use arrayvec::ArrayVec;

/// More than any delay.
const NO_LIMIT: u64 = u64::MAX;

/// The rooms for a change before one place, one for each place from there on.
pub type Row = ArrayVec<u64, 17>;

/// The rows of rooms of a plan with so many stops.
pub fn rows(trips: &[Trip], stops: usize) -> ArrayVec<Row, 17>
    requires { stops ≤ MOST_STOPS }
    ensures { rows_of result.items ≡ rooms_of trips.now stops }
{
    let mut rows = ArrayVec::new();
    for change in 0..stops + 1 {
        rows.push(row(trips, change, stops));
    }
    rows
}

// The rooms for a change before a place.
fn row(trips: &[Trip], change: usize, stops: usize) -> Row
    requires few { stops ≤ MOST_STOPS }
    requires within { change ≤ stops }
    ensures { result.items ≡ map (room_of trips.now change)
        (range_with_len change (stops + 1 - change)) }
{
    let mut row = ArrayVec::new();
    for place in change..stops + 1 {
        row.push(room_of(trips, change, place));
    }
    row
}

// By how much the stops from a place on may be later, where those before the place of the change come as they did.
fn room_of(trips: &[Trip], change: usize, place: usize) -> u64
    ensures { result ≡ room_of trips.now change place }
{
    let mut least = NO_LIMIT;
    for trip in trips {
        least = least.min(room_in(trip, change, place));
    }
    least
}

// The same for one trip.
fn room_in(trip: &Trip, change: usize, place: usize) -> u64
    ensures { result ≡ room_in trip.now change place }
{
    if place < trip.boarded {
        trip.wait_room
    } else if trip.boarded <= change && place <= trip.dropoff {
        trip.ride_room
    } else {
        NO_LIMIT
    }
}
