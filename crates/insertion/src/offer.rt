//! The offer at two places.
ghost use Rattle.std.specs.Prelude.{◌≡◌, ◌≤◌, ◌+◌, ◌-◌, ◌*◌, All, Option, length};
ghost use Rattle.ride_model.specs.declared.offer.Offer.{Offer};
ghost use Rattle.ride_model.specs.declared.vehicle.Ride.{Ride};
ghost use Rattle.ride_model.specs.declared.vehicle.Vehicle.{Vehicle};
ghost use Rattle.ride_model.specs.Road.{RoadMap};
ghost use Rattle.ride_model.specs.Offers.{offer_of};
ghost use Rattle.ride_model.specs.Settings.{IsSettings};
ghost use Rattle.ride_model.specs.declared.limits.TheConstants.{LATEST_READY, LONGEST_DWELL};
ghost use Rattle.insertion.specs.inner.Arrivals.{plan_of, leave_at};
ghost use Rattle.insertion.specs.inner.Asked.{IsAsked};
ghost use Rattle.insertion.specs.inner.Drawn.{drives_more, IsDrawn, IsDrawnFor, AreShort};

use crate::drives::drives_more;
use crate::joins::joins_at;
use crate::near::Near;
use crate::plan::{Plan, leave_at, plan_of};
use crate::prices::{cost, may_offer, number_of_stops};
use promises::keeps;
use ride_model::{Offer, Ride, Settings, Vehicle};
use stop_plans::insert_ride;

/// The offer of a vehicle to a ride with the pickup directly before old stop `i` and the drop-off directly before old stop
/// `j`, for a batch of the time `now`. There is none where the vehicle is not open, a place is out of range, a leg does not
/// exist, or the plan would break a promise.
pub fn offer_at(
    vehicle: &Vehicle,
    ride: &Ride,
    i: u32,
    j: u32,
    now: u64,
    settings: &Settings,
    near: &Near,
) -> Option<Offer>
    requires { (roads : RoadMap) × IsAsked roads vehicle.now ride.now now settings.now near.now }
    ensures { (roads : RoadMap) → IsAsked roads vehicle.now ride.now now settings.now near.now
        → result ≡ offer_of roads settings.now vehicle.now ride.now now i j }
{
    let plan = plan_of(vehicle, now, settings);
    match drawn_at(vehicle, i, j, settings, near, &plan) {
        Some(drawn) => kept(vehicle, ride, drawn, settings.dwell),
        None => None,
    }
}

/// The offer of a vehicle with this plan at two places, were the promises kept.
pub fn drawn_at(
    vehicle: &Vehicle,
    i: u32,
    j: u32,
    settings: &Settings,
    near: &Near,
    plan: &Plan,
) -> Option<Offer>
    requires asked { (roads : RoadMap) × (ride : Ride)
        × IsAsked roads vehicle.now ride plan.now.time settings.now near.now }
    requires plan { plan.now ≡ plan_of vehicle.now plan.now.time settings.now }
    ensures { (roads : RoadMap) (ride : Ride)
        → IsAsked roads vehicle.now ride plan.now.time settings.now near.now
        → IsDrawnFor roads vehicle.now ride settings.now.dwell result
        (offer_of roads settings.now vehicle.now ride plan.now.time i j) }
{
    if !may_offer(vehicle, i as usize, j as usize, plan.time) {
        return None;
    }
    // The plan with the ride would have more than 16 stops.
    if number_of_stops(vehicle) > 14 {
        return None;
    }
    match joins_at(near, i as usize, j as usize) {
        None => None,
        Some(joins) => {
            let offer = Offer {
                i,
                j,
                cost: 0,
                start: plan.start,
                joins,
            };
            Some(priced(vehicle, offer, settings, plan))
        }
    }
}

// The offer with its cost.
fn priced(vehicle: &Vehicle, offer: Offer, settings: &Settings, plan: &Plan) -> Offer
    requires ranges { IsSettings settings.now }
    requires short { AreShort offer.joins }
    requires within { offer.i ≤ length plan.now.times.items }
    requires start_limit { plan.now.start ≤ LATEST_READY }
    requires soon { All (λ time. time ≤ 10000000000000000) plan.now.times.items }
    ensures { result ≡ record offer {
      cost = settings.now.drive * drives_more settings.now.dwell
          vehicle.now.stops.items offer.i offer.j offer.joins
          + settings.now.wait * (leave_at plan.now.start settings.now.dwell plan.now.times.items
          offer.i + offer.joins.to_pickup - plan.now.time);
    } }
{
    let (i, j) = (offer.i as usize, offer.j as usize);
    let driven = drives_more(settings.dwell, vehicle.stops.as_slice(), i, j, &offer.joins);
    let leave = leave_at(plan.start, settings.dwell, plan.times.as_slice(), i);
    let waited = (leave + offer.joins.to_pickup).saturating_sub(plan.time);
    let cost = cost(settings, driven, waited);
    Offer { cost, ..offer }
}

/// The offer that is drawn, where its plan keeps the promises.
pub fn kept(vehicle: &Vehicle, ride: &Ride, drawn: Offer, dwell: u64) -> Option<Offer>
    requires drawn { (roads : RoadMap) × (offer : Option Offer)
        × IsDrawn roads vehicle.now ride.now dwell drawn offer }
    requires dwell_limit { dwell ≤ LONGEST_DWELL }
    ensures { (roads : RoadMap) (offer : Option Offer)
        → IsDrawn roads vehicle.now ride.now dwell drawn offer → result ≡ offer }
{
    let mut new = vehicle.copy();
    insert_ride(&mut new, *ride, &drawn);
    if keeps(&new, drawn.start, dwell) {
        Some(drawn)
    } else {
        None
    }
}
