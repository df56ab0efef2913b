//! Plans with one ride more or less.
ghost use Rattle.std.specs.Prelude.{◌≡◌, ◌≤◌, ◌+◌, ℕ, List, length, Some, None, IsTrue, IsFalse, nat_eq};
ghost use Rattle.ride_model.specs.declared.vehicle.Ride.{Ride};
ghost use Rattle.ride_model.specs.declared.vehicle.Vehicle.{Vehicle};
ghost use Rattle.ride_model.specs.Road.{RoadMap, IsRoadMap};
ghost use Rattle.ride_model.specs.Vehicle.{IsRide, IsPlanFor, IsRouted, IsLawful};
ghost use Rattle.ride_model.specs.inner.Vehicle.{IsFresh};
ghost use Rattle.ride_model.specs.Times.{visits_of};
ghost use Rattle.ride_model.specs.Keeps.{keeps_ride, breaks_ride};
ghost use Rattle.ride_model.specs.Insertion.{stops_with, stops_without, inserted, without_ride};
ghost use Rattle.model_laws.specs.inner.Sooner.{AllSooner};

/// With a ride more the other stops keep their order.
pub fn insertion_keeps_the_other_stops()
    ensures { (v : Vehicle) (ride : Ride) (i j : ℕ) → IsPlanFor v.rides.items v.stops.items
        → IsFresh v.rides.items ride.id
        → i ≤ j → j ≤ length v.stops.items
        → stops_without ride.id (stops_with ride i j v.stops.items) ≡ v.stops.items }
{}

/// With a ride more there are exactly two stops more.
pub fn insertion_adds_two_stops()
    ensures { (v : Vehicle) (ride : Ride) (i j : ℕ) → i ≤ j → j ≤ length v.stops.items
        → length (stops_with ride i j v.stops.items) ≡ length v.stops.items + 2 }
{}

/// A vehicle in order stays so with a ride more: its stops are what its rides need, with the legs of the road.
pub fn insertion_gives_a_plan()
    ensures { (roads : RoadMap) (v new : Vehicle) (ride : Ride) (i j : ℕ) → IsRouted roads v
        → IsRide roads ride
        → IsFresh v.rides.items ride.id → ride.picked ≡ None → i ≤ j → j ≤ length v.stops.items
        → inserted roads v ride i j ≡ Some new → IsRouted roads new }
{}

/// A lawful vehicle is lawful without one of its rides.
pub fn removal_leaves_a_lawful_vehicle()
    ensures { (roads : RoadMap) (v : Vehicle) (id : ℕ) → IsRoadMap roads → IsLawful roads v
        → IsLawful roads (without_ride roads v id) }
{}

/// Without a ride no visit of another ride is later, and none comes later after the one before it.
pub fn removal_makes_no_visit_later()
    ensures { (roads : RoadMap) (v : Vehicle) (id other start dwell : ℕ) → IsRoadMap roads
        → IsRouted roads v
        → IsFalse (nat_eq other id)
        → AllSooner 0 (visits_of (without_ride roads v id) start dwell other)
        (visits_of v start dwell other) }
{}

/// A promise that is kept is kept without another ride, and one that is not broken is not broken.
pub fn removal_keeps_the_other_promises()
    ensures kept { (roads : RoadMap) (v : Vehicle) (id start dwell : ℕ) (ride : Ride)
        → IsRoadMap roads → IsRouted roads v
        → IsFalse (nat_eq ride.id id) → IsTrue (keeps_ride v start dwell ride)
        → IsTrue (keeps_ride (without_ride roads v id) start dwell ride) }
    ensures not_broken { (roads : RoadMap) (v : Vehicle) (id dwell : ℕ) (ride : Ride)
        → IsRoadMap roads → IsRouted roads v
        → IsFalse (nat_eq ride.id id) → IsFalse (breaks_ride v dwell ride)
        → IsFalse (breaks_ride (without_ride roads v id) dwell ride) }
{}
