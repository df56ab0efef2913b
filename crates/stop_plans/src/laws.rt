//! The removal law.
ghost use Rattle.std.specs.Prelude.{◌≡◌, ◌≤◌, ℕ, IsFalse, nat_eq};
ghost use Rattle.ride_model.specs.Road.{RoadMap};
ghost use Rattle.ride_model.specs.Vehicle.{IsLawful};
ghost use Rattle.ride_model.specs.Times.{visits_of};
ghost use Rattle.ride_model.specs.Insertion.{without_ride};
ghost use Rattle.model_laws.specs.inner.Sooner.{AllSooner};
ghost use Rattle.stop_plans.specs.inner.Change.{RemovesFrom};

use crate::remove::remove_ride;
use ride_model::Vehicle;

/// Taking a ride that is not aboard out of a lawful vehicle leaves a lawful vehicle, makes no other stop later and no other
/// ride longer, whenever the vehicle starts and however long it stands at stops.
pub fn removal_law(vehicle: &mut Vehicle, id: u64, first: u64, second: u64)
    requires { (roads : RoadMap) × RemovesFrom roads vehicle.old id first second }
    ensures vehicle { (roads : RoadMap) → RemovesFrom roads vehicle.old id first second
        → vehicle.new ≡ without_ride roads vehicle.old id }
    ensures lawful { (roads : RoadMap) → RemovesFrom roads vehicle.old id first second
        → IsLawful roads vehicle.new }

    // The visits of each other ride come sooner by some seconds, a later one by no less than the one before it.
    ensures sooner { (roads : RoadMap) → RemovesFrom roads vehicle.old id first second
        → (other start dwell : ℕ) → IsFalse (nat_eq other id)
        → AllSooner 0 (visits_of vehicle.new start dwell other)
        (visits_of vehicle.old start dwell other) }
{
    remove_ride(vehicle, id, first, second);
}
