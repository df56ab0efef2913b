//! Travel times are the least weights of walks.
ghost use Rattle.std.specs.Prelude.{◌≡◌, ◌≤◌, ◌+◌, ℕ, Option, Some, IsSomeAnd};
ghost use Rattle.ride_model.specs.Road.{RoadMap, IsRoadMap, travel};
ghost use Rattle.ride_model.specs.inner.Road.{IsTravel};

/// The travel time is the least weight of a walk, and absent exactly where there is no walk.
pub fn travel_is_least_weight()
    ensures { (map : RoadMap) (x y : ℕ) → IsRoadMap map → IsTravel map x y (travel map x y) }
{}

/// There is one travel time.
pub fn travel_is_unique()
    ensures { (map : RoadMap) (x y : ℕ) (s t : Option ℕ) → IsTravel map x y s → IsTravel map x y t
        → s ≡ t }
{}

/// Staying takes no time.
pub fn staying_takes_no_time()
    ensures { (map : RoadMap) (x : ℕ) → travel map x x ≡ Some 0 }
{}

/// A detour takes no less time.
pub fn detour_is_not_shorter()
    ensures { (map : RoadMap) (x y z s t : ℕ) → IsRoadMap map → travel map x y ≡ Some s
        → travel map y z ≡ Some t
        → IsSomeAnd (travel map x z) (λ direct. direct ≤ s + t) }
{}

/// A travel time is at most 5 x 10^14 seconds.
pub fn travel_is_bounded()
    ensures { (map : RoadMap) (x y t : ℕ) → IsRoadMap map → travel map x y ≡ Some t
        → t ≤ 500000000000000 }
{}
