//! Seats and amounts of a batch, spread over its requests and its fleet.
ghost use Rattle.std.specs.Prelude.{◌≡◌, ◌≤◌, ◌<◌, ℕ, length, map, nat_eq, IfSome, MatchOption};
ghost use Rattle.std.specs.List.{IsDistinct};
ghost use Rattle.ride_model.specs.declared.offer.Seat.{Seat};
ghost use Rattle.ride_model.specs.declared.limits.TheConstants.{LARGEST_BATCH, MOST_VEHICLES};
ghost use Rattle.batch_commit.specs.inner.Answer.{place_of};
ghost use Rattle.dual_check.specs.inner.Orders.{StandsInOrder};
ghost use Rattle.dual_check.specs.inner.Costs.{seat_place, seat_columns, amount_alone, amounts_over};

use crate::orders::items_by_id;
use arrayvec::ArrayVec;
use ride_model::Seat;

/// The place in the fleet of each request's vehicle, if the request has a seat; none where the seats do not stand in the
/// requests' order.
pub fn columns_of(
    requests: &[u64],
    fleet: &[u64],
    seats: &[Seat],
) -> Option<ArrayVec<Option<u32>, 128>>
    requires few { length requests.now ≤ LARGEST_BATCH }
    requires few_vehicles { length fleet.now ≤ MOST_VEHICLES }
    requires ids_differ { IsDistinct nat_eq requests.now }
    ensures { MatchOption result
        (StandsInOrder (λ (seat : Seat). seat.request) requests.now seats.now → ⊥)
        (λ columns. StandsInOrder (λ (seat : Seat). seat.request) requests.now seats.now
        × (columns.items ≡ seat_columns requests.now fleet.now seats.now)) }
{
    let seats: ArrayVec<Option<Seat>, 128> = items_by_id(requests, seats)?;
    Some(places_of(seats.as_slice(), fleet))
}

// The places in the fleet of the vehicles of seats.
fn places_of(seats: &[Option<Seat>], fleet: &[u64]) -> ArrayVec<Option<u32>, 128>
    requires few { length seats.now ≤ LARGEST_BATCH }
    requires few_vehicles { length fleet.now ≤ MOST_VEHICLES }
    ensures { result.items ≡ map (seat_place fleet.now) seats.now }
{
    let mut places = ArrayVec::new();
    for seat in seats {
        places.push(seat_place(fleet, *seat));
    }
    places
}

// The place in the fleet of a seat's vehicle.
fn seat_place(fleet: &[u64], seat: Option<Seat>) -> Option<u32>
    requires { length fleet.now ≤ MOST_VEHICLES }
    ensures { result ≡ seat_place fleet.now seat }
{
    match seat {
        None => None,
        Some(seat) => Some(place_in(fleet, seat.vehicle)),
    }
}

// The place of an id in the fleet, 0 where it is not there.
fn place_in(fleet: &[u64], id: u64) -> u32
    requires { length fleet.now ≤ MOST_VEHICLES }
    ensures { result ≡ place_of fleet.now id }
{
    fleet.iter().position(|other| *other == id).unwrap_or(0) as u32
}

/// Each id's amount, 0 where it has none; none where the amounts do not stand in the ids' order.
pub fn amounts_over(ids: &[u64], amounts: &[(u64, u64)]) -> Option<ArrayVec<u64, 1_000>>
    requires few { length ids.now ≤ MOST_VEHICLES }
    requires ids_differ { IsDistinct nat_eq ids.now }
    ensures { MatchOption result
        (StandsInOrder (λ (item : ℕ × ℕ). item.0) ids.now amounts.now → ⊥)
        (λ each. StandsInOrder (λ (item : ℕ × ℕ). item.0) ids.now amounts.now
        × (each.items ≡ amounts_over ids.now amounts.now)) }
{
    let amounts: ArrayVec<Option<(u64, u64)>, 1_000> = items_by_id(ids, amounts)?;
    Some(amounts_alone(amounts.as_slice()))
}

// The amounts without their ids, 0 for none.
fn amounts_alone(amounts: &[Option<(u64, u64)>]) -> ArrayVec<u64, 1_000>
    requires { length amounts.now ≤ MOST_VEHICLES }
    ensures { result.items ≡ map amount_alone amounts.now }
{
    let mut alone = ArrayVec::new();
    for amount in amounts {
        alone.push(amount.map_or(0, |amount| amount.1));
    }
    alone
}
