//! A plan with a ride less.
ghost use Rattle.std.specs.Prelude.{◌≡◌, ◌<◌, ◌≤◌, ◌-◌, ◌&&◌, ◌==◌, ℕ, length, remove, not, true, false};
ghost use Rattle.ride_model.specs.declared.vehicle.Vehicle.{Vehicle};
ghost use Rattle.ride_model.specs.Road.{RoadMap};
ghost use Rattle.ride_model.specs.Insertion.{without_ride, rides_without};
ghost use Rattle.stop_plans.specs.inner.Change.{RemovesFrom};
ghost use Rattle.stop_plans.specs.inner.Legged.{relegged};
ghost use Rattle.stop_plans.specs.inner.First.{IsFirst, is_visit};

use crate::insert::set_leg;
use arrayvec::ArrayVec;
use ride_model::{Kind, Ride, Stop, Vehicle};

/// Takes a ride that is not aboard and its two stops out of a vehicle's plan. `first` and `second` are the travel times to
/// the stops behind the pickup and the drop-off in the plan that is left.
pub fn remove_ride(vehicle: &mut Vehicle, id: u64, first: u64, second: u64)
    requires { (roads : RoadMap) × RemovesFrom roads vehicle.old id first second }
    ensures { (roads : RoadMap) → RemovesFrom roads vehicle.old id first second
        → vehicle.new ≡ without_ride roads vehicle.old id }
{
    let pickup = place_of(vehicle.stops.as_slice(), id, Kind::Pickup);
    let dropoff = place_of(vehicle.stops.as_slice(), id, Kind::Dropoff);
    remove_stop(&mut vehicle.stops, dropoff, second);
    remove_stop(&mut vehicle.stops, pickup, first);
    drop_ride(&mut vehicle.rides, id);
}

// Takes out the stop at a place, and sets the leg of the one behind it.
fn remove_stop(stops: &mut ArrayVec<Stop, 16>, place: usize, after: u64)
    requires { place < length stops.old.items }
    ensures { stops.new.items ≡ relegged place after (remove stops.old.items place) }
{
    stops.remove(place);
    set_leg(stops.as_mut_slice(), place, after);
}

// The first place at which a ride is picked up or dropped, or the number of stops.
fn place_of(stops: &[Stop], id: u64, kind: Kind) -> usize
    ensures { IsFirst (is_visit id kind) stops.now result }
{
    for (place, stop) in stops.iter().enumerate() {
        if stop.ride == id && stop.kind == kind {
            return place;
        }
    }
    stops.len()
}

// Takes a ride out of a list of rides.
pub fn drop_ride(rides: &mut ArrayVec<Ride, 16>, id: u64)
    ensures { rides.new.items ≡ rides_without id rides.old.items }
{
    rides.retain(|ride| ride.id != id);
}
