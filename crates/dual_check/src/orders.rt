//! Items with ids, and lists of ids in whose order they stand.
ghost use Rattle.std.specs.Prelude.{◌≡◌, ◌≤◌, ℕ, length, map, drop, nat_eq, MatchOption};
ghost use Rattle.std.specs.List.{IsDistinct};
ghost use Rattle.dual_check.specs.inner.Orders.{item_of, StandsInOrder, first_if_of};

use arrayvec::ArrayVec;
use ride_model::{Ride, Seat, Vehicle};

/// What has an id.
pub trait HasId {
    ghost id_of: { Self → ℕ };

    fn id(&self) -> u64
        ensures { result ≡ id_of self.now };
}

impl HasId for Ride {
    ghost id_of = { λ ride. ride.id };

    fn id(&self) -> u64 {
        self.id
    }
}

impl HasId for Vehicle {
    ghost id_of = { λ vehicle. vehicle.id };

    fn id(&self) -> u64 {
        self.id
    }
}

// A seat goes by its request.
impl HasId for Seat {
    ghost id_of = { λ seat. seat.request };

    fn id(&self) -> u64 {
        self.request
    }
}

// An amount goes by the id that it is of.
impl HasId for (u64, u64) {
    ghost id_of = { λ amount. amount.0 };

    fn id(&self) -> u64 {
        self.0
    }
}

/// The ids of items.
pub fn ids_of<T: HasId, const N: usize>(items: &[T]) -> ArrayVec<u64, N>
    requires { length items.now ≤ N }
    ensures { result.items ≡ map T.id_of items.now }
{
    let mut ids = ArrayVec::new();
    for item in items {
        ids.push(item.id());
    }
    ids
}

/// Each id's item, if it has one; none where the items are not of some of these ids, in their order.
pub fn items_by_id<T: HasId + Copy, const N: usize>(
    ids: &[u64],
    items: &[T],
) -> Option<ArrayVec<Option<T>, N>>
    requires few { length ids.now ≤ N }
    requires ids_differ { IsDistinct nat_eq ids.now }
    ensures { MatchOption result
        (StandsInOrder T.id_of ids.now items.now → ⊥)
        (λ each. StandsInOrder T.id_of ids.now items.now
        × (each.items ≡ map (item_of T.id_of items.now) ids.now)) }
{
    let mut each = ArrayVec::new();
    let mut next = 0;
    for id in ids {
        let item = item_at(items, next, *id);
        if item.is_some() {
            next += 1;
        }
        each.push(item);
    }
    if next == items.len() {
        Some(each)
    } else {
        None
    }
}

// The item at a place, if there is one and it is of this id.
fn item_at<T: HasId + Copy>(items: &[T], place: usize, id: u64) -> Option<T>
    ensures { result ≡ first_if_of T.id_of (drop place items.now) id }
{
    if place < items.len() && items[place].id() == id {
        Some(items[place])
    } else {
        None
    }
}
