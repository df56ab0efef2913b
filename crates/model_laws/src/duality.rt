//! Weak duality of the assignment problem in which rows may be left out.
ghost use Rattle.std.specs.Prelude.{ℕ, List, nat_eq};
ghost use Rattle.std.specs.List.{IsDistinct};
ghost use Rattle.ride_model.specs.declared.offer.Seat.{Seat};
ghost use Rattle.ride_model.specs.Road.{RoadMap};
ghost use Rattle.ride_model.specs.Vehicle.{ride_ids};
ghost use Rattle.ride_model.specs.Seating.{BatchCopy, IsLeastSeating, Certifies};

/// Prices that certify a seating of a batch of different requests make it least.
pub fn certified_seating_is_least()
    ensures { (roads : RoadMap) (batch : BatchCopy) (seats : List Seat) (prices pays : List (ℕ × ℕ))
        → IsDistinct nat_eq (ride_ids batch.requests) → Certifies roads batch seats prices pays
        → IsLeastSeating roads batch seats }
{}
