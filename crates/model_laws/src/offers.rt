//! What offers and seatings cost.
ghost use Rattle.std.specs.Prelude.{◌≡◌, ◌<◌, ◌≤◌, ◌^◌, ◌+◌, ℕ, List, length, Some, None};
ghost use Rattle.ride_model.specs.declared.offer.Offer.{Offer};
ghost use Rattle.ride_model.specs.declared.offer.Seat.{Seat};
ghost use Rattle.ride_model.specs.declared.settings.Settings.{Settings};
ghost use Rattle.ride_model.specs.declared.vehicle.Ride.{Ride};
ghost use Rattle.ride_model.specs.declared.vehicle.Vehicle.{Vehicle};
ghost use Rattle.ride_model.specs.Road.{RoadMap, IsRoadMap};
ghost use Rattle.ride_model.specs.Settings.{IsSettings};
ghost use Rattle.ride_model.specs.Vehicle.{IsRide, IsRouted};
ghost use Rattle.ride_model.specs.inner.Vehicle.{IsFresh};
ghost use Rattle.ride_model.specs.Times.{drive_of};
ghost use Rattle.ride_model.specs.Insertion.{inserted};
ghost use Rattle.ride_model.specs.Offers.{offer_of, price};
ghost use Rattle.ride_model.specs.Seating.{BatchCopy, IsSeating, seating_cost};
ghost use Rattle.ride_model.specs.inner.Seating.{IsBatchOver};

/// A plan with a ride more drives no less, so that no cost is cut off at 0.
pub fn insertion_drives_no_less()
    ensures { (roads : RoadMap) (v new : Vehicle) (ride : Ride) (i j dwell : ℕ) → IsRoadMap roads
        → IsRouted roads v
        → IsRide roads ride → IsFresh v.rides.items ride.id → ride.picked ≡ None → i ≤ j
        → j ≤ length v.stops.items
        → inserted roads v ride i j ≡ Some new → drive_of v dwell ≤ drive_of new dwell }
{}

/// An offer costs less than 2^42.
pub fn offer_costs_are_bounded()
    ensures { (roads : RoadMap) (settings : Settings) (v : Vehicle) (ride : Ride)
        (time i j : ℕ) (offer : Offer)
        → IsRoadMap roads → IsSettings settings → IsRouted roads v → IsRide roads ride
        → IsFresh v.rides.items ride.id
        → ride.picked ≡ None → offer_of roads settings v ride time i j ≡ Some offer
        → offer.cost < 2 ^ 42 }
{}

/// A batch's seating costs less than 2^50.
pub fn seating_costs_are_bounded()
    ensures { (roads : RoadMap) (batch : BatchCopy) (seats : List Seat) → IsRoadMap roads
        → IsBatchOver roads batch
        → IsSeating roads batch seats → seating_cost roads batch seats < 2 ^ 50 }
{}

/// No offer of a vehicle to a ride costs less than its price.
pub fn price_is_the_least_cost()
    ensures { (roads : RoadMap) (settings : Settings) (v : Vehicle) (ride : Ride)
        (time i j : ℕ) (offer : Offer)
        → offer_of roads settings v ride time i j ≡ Some offer
        → (cost : ℕ) × (price roads settings v ride time ≡ Some cost) × (cost ≤ offer.cost) }
{}
