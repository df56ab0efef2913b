//! A plan with its first stop served.
ghost use Rattle.std.specs.Prelude.{◌≡◌, ◌+◌, ◌≤◌, ◌==◌, ◌∷◌, List, if◌then◌else◌};
ghost use Rattle.ride_model.specs.declared.vehicle.Stop.{Stop};
ghost use Rattle.ride_model.specs.Insertion.{rides_without};
ghost use Rattle.ride_model.specs.Step.{rides_with_picked, served, served_reply};
ghost use Rattle.ride_model.specs.inner.Vehicle.{IsLawfulSomewhere};
ghost use Rattle.ride_model.specs.declared.limits.TheConstants.{LATEST_READY, LONGEST_DWELL};
ghost use Rattle.stop_plans.specs.inner.Change.{HasFirstStopAt};

use crate::remove::drop_ride;
use ride_model::{Kind, Reply, Ride, Vehicle};

/// Serves the first stop, which is at the vehicle's node, in `dwell` seconds: the rider of a pickup is aboard from the
/// vehicle's ready time on, and the ride of a drop-off is over. The version stays as it is.
pub fn serve_first(vehicle: &mut Vehicle, dwell: u64) -> Reply
    requires lawful { IsLawfulSomewhere vehicle.old }
    requires at_stop { HasFirstStopAt vehicle.old }
    requires dwell_limit { dwell ≤ LONGEST_DWELL }
    requires in_the_day { vehicle.old.ready + dwell ≤ LATEST_READY }
    ensures vehicle { (stop : Stop) (rest : List Stop) → vehicle.old.stops.items ≡ stop ∷ rest
        → vehicle.new ≡ served dwell vehicle.old stop rest stop.kind }
    ensures reply { (stop : Stop) (rest : List Stop) → vehicle.old.stops.items ≡ stop ∷ rest
        → result ≡ served_reply stop stop.kind }
{
    let stop = vehicle.stops.remove(0);
    let reply = match stop.kind {
        Kind::Pickup => {
            mark_picked(vehicle.rides.as_mut_slice(), stop.ride, vehicle.ready);
            Reply::Picked { ride: stop.ride }
        }
        Kind::Dropoff => {
            drop_ride(&mut vehicle.rides, stop.ride);
            Reply::Dropped { ride: stop.ride }
        }
    };
    vehicle.ready += dwell;
    reply
}

// Notes when a ride was picked up.
fn mark_picked(rides: &mut [Ride], id: u64, time: u64)
    ensures { rides.new ≡ rides_with_picked id time rides.old }
{
    for ride in rides.iter_mut() {
        *ride = with_picked(*ride, id, time);
    }
}

// A ride as it is after the pickup of the ride of an id.
fn with_picked(ride: Ride, id: u64, time: u64) -> Ride
    ensures { result ≡ (if ride.id == id then record ride { picked = Some time } else ride) }
{
    if ride.id == id {
        Ride {
            picked: Some(time),
            ..ride
        }
    } else {
        ride
    }
}
