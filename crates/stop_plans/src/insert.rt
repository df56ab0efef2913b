//! A plan with a ride more.
ghost use Rattle.std.specs.Prelude.{◌≡◌, ◌<◌, ◌≤◌, length};
ghost use Rattle.ride_model.specs.declared.vehicle.Vehicle.{Vehicle};
ghost use Rattle.ride_model.specs.Road.{RoadMap};
ghost use Rattle.ride_model.specs.declared.limits.TheConstants.{MOST_STOPS};
ghost use Rattle.stop_plans.specs.inner.Change.{InsertsInto};
ghost use Rattle.stop_plans.specs.inner.Legged.{relegged, with_stop};

use arrayvec::ArrayVec;
use ride_model::{Kind, Offer, Ride, Stop, Vehicle};

/// Puts a ride into a vehicle's plan at the places of an offer, with the offer's legs. Neither the vehicle's ready time
/// nor its version changes.
pub fn insert_ride(vehicle: &mut Vehicle, ride: Ride, offer: &Offer)
    requires { (roads : RoadMap) × (new : Vehicle)
        × InsertsInto roads vehicle.old ride offer.now new }
    ensures { (roads : RoadMap) (new : Vehicle) → InsertsInto roads vehicle.old ride offer.now new
        → vehicle.new ≡ new }
{
    let pickup = Stop {
        ride: ride.id,
        kind: Kind::Pickup,
        node: ride.from,
        leg: offer.joins.to_pickup,
    };
    let dropoff = Stop {
        ride: ride.id,
        kind: Kind::Dropoff,
        node: ride.to,
        leg: offer.joins.to_dropoff,
    };
    vehicle.rides.push(ride);
    insert_stop(
        &mut vehicle.stops,
        offer.j as usize,
        dropoff,
        offer.joins.after_dropoff,
    );
    insert_stop(
        &mut vehicle.stops,
        offer.i as usize,
        pickup,
        offer.joins.after_pickup,
    );
}

// Puts a stop before the one at a place, whose leg becomes `after`.
fn insert_stop(stops: &mut ArrayVec<Stop, 16>, place: usize, stop: Stop, after: u64)
    requires within { place ≤ length stops.old.items }
    requires room { length stops.old.items < MOST_STOPS }
    ensures { stops.new.items ≡ with_stop place stop after stops.old.items }
{
    set_leg(stops.as_mut_slice(), place, after);
    stops.insert(place, stop);
}

// Sets the leg of the stop at a place, where one is there.
pub fn set_leg(stops: &mut [Stop], place: usize, leg: u64)
    ensures { stops.new ≡ relegged place leg stops.old }
{
    if place < stops.len() {
        stops[place].leg = leg;
    }
}
