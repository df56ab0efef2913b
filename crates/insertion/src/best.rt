//! The cheapest places.
ghost use Rattle.std.specs.Prelude.{◌≡◌, ◌≤◌, ◌⊎◌, length, IfSome, Option, Some};
ghost use Rattle.ride_model.specs.declared.offer.Offer.{Offer};
ghost use Rattle.ride_model.specs.Road.{RoadMap, lesser};
ghost use Rattle.ride_model.specs.Offers.{offer_of, price};
ghost use Rattle.ride_model.specs.declared.limits.TheConstants.{LONGEST_DWELL};
ghost use Rattle.insertion.specs.inner.Arrivals.{plan_of, is_by};
ghost use Rattle.insertion.specs.inner.Asked.{IsAsked};
ghost use Rattle.insertion.specs.inner.Drawn.{IsDrawnFor};
ghost use Rattle.insertion.specs.inner.Least.{cost_if_any, least_with_pickup};
ghost use Rattle.insertion.specs.inner.Rooms.{rooms_of};

use crate::near::Near;
use crate::offer::{drawn_at, kept};
use crate::plan::{Plan, pickup_at, plan_of};
use crate::prices::{is_open, number_of_stops};
use crate::rooms::rooms_of;
use ride_model::{Offer, Ride, Settings, Vehicle};

/// An offer of a vehicle to a ride of least cost, for a batch of the time `now`; none where there is no offer.
pub fn best_place(
    vehicle: &Vehicle,
    ride: &Ride,
    now: u64,
    settings: &Settings,
    near: &Near,
) -> Option<Offer>
    requires { (roads : RoadMap) × IsAsked roads vehicle.now ride.now now settings.now near.now }
    ensures price { (roads : RoadMap) → IsAsked roads vehicle.now ride.now now settings.now near.now
        → cost_if_any result ≡ price roads settings.now vehicle.now ride.now now }
    ensures an_offer { (roads : RoadMap)
        → IsAsked roads vehicle.now ride.now now settings.now near.now
        → IfSome result (λ (offer : Offer). offer_of roads settings.now vehicle.now ride.now now
        offer.i offer.j ≡ Some offer) }
{
    if !is_open(vehicle, now) {
        return None;
    }
    // The plan with the ride would have more than 16 stops.
    if number_of_stops(vehicle) > 14 {
        return None;
    }
    let plan = plan_of(vehicle, now, settings);
    let rooms = rooms_of(vehicle, ride);
    let rooms = rooms.as_slice();
    let mut best = None;
    for i in 0..number_of_stops(vehicle) as u32 + 1 {
        best = best_with_pickup_at(best, vehicle, ride, i, settings, near, &plan, rooms);
    }
    best
}

// The best of an offer and those with the pickup at a place, of which there is none where it would be too late already.
fn best_with_pickup_at(
    other: Option<Offer>,
    vehicle: &Vehicle,
    ride: &Ride,
    i: u32,
    settings: &Settings,
    near: &Near,
    plan: &Plan,
    rooms: &[bool],
) -> Option<Offer>
    requires asked { (roads : RoadMap)
        × IsAsked roads vehicle.now ride.now plan.now.time settings.now near.now }
    requires plan { plan.now ≡ plan_of vehicle.now plan.now.time settings.now }
    requires rooms { rooms.now ≡ rooms_of vehicle.now ride.now }
    requires within { i ≤ length vehicle.now.stops.items }
    requires room { length vehicle.now.stops.items ≤ 14 }
    ensures cost { (roads : RoadMap)
        → IsAsked roads vehicle.now ride.now plan.now.time settings.now near.now
        → cost_if_any result ≡ lesser (cost_if_any other)
        (least_with_pickup roads settings.now vehicle.now ride.now plan.now.time i i) }
    ensures an_offer { (roads : RoadMap)
        → IsAsked roads vehicle.now ride.now plan.now.time settings.now near.now
        → IfSome other (λ (offer : Offer). offer_of roads settings.now vehicle.now ride.now
        plan.now.time offer.i offer.j ≡ Some offer)
        → IfSome result (λ (offer : Offer). offer_of roads settings.now vehicle.now ride.now
        plan.now.time offer.i offer.j ≡ Some offer) }
{
    let pickup = pickup_at(near, settings.dwell, plan, i as usize);
    if !is_by(ride.latest, pickup) {
        return other;
    }
    let mut best = other;
    for j in i..number_of_stops(vehicle) as u32 + 1 {
        // What the ride takes must fit on all the way to the drop-off.
        if !rooms[j as usize] {
            return best;
        }
        let drawn = drawn_at(vehicle, i, j, settings, near, plan);
        best = better(best, vehicle, ride, drawn, settings.dwell);
    }
    best
}

// The cheaper of an offer and one that is drawn, the plan of which is looked at only where it costs less.
fn better(
    best: Option<Offer>,
    vehicle: &Vehicle,
    ride: &Ride,
    drawn: Option<Offer>,
    dwell: u64,
) -> Option<Offer>
    requires drawn { (roads : RoadMap) × (offer : Option Offer)
        × IsDrawnFor roads vehicle.now ride.now dwell drawn offer }
    requires dwell_limit { dwell ≤ LONGEST_DWELL }
    ensures cost { (roads : RoadMap) (offer : Option Offer)
        → IsDrawnFor roads vehicle.now ride.now dwell drawn offer
        → cost_if_any result ≡ lesser (cost_if_any best) (cost_if_any offer) }
    ensures one { (roads : RoadMap) (offer : Option Offer)
        → IsDrawnFor roads vehicle.now ride.now dwell drawn offer
        → (result ≡ best) ⊎ (result ≡ offer) }
{
    match drawn {
        None => best,
        Some(drawn) => {
            if is_by(drawn.cost, cost_if_any(best)) {
                return best;
            }
            cheaper(best, kept(vehicle, ride, drawn, dwell))
        }
    }
}

// What an offer costs, where there is one.
fn cost_if_any(offer: Option<Offer>) -> Option<u64>
    ensures { result ≡ cost_if_any offer }
{
    match offer {
        Some(offer) => Some(offer.cost),
        None => None,
    }
}

// Whether there is a number, and it is not above a limit.
fn is_by(limit: u64, number: Option<u64>) -> bool
    ensures { result ≡ is_by limit number }
{
    match number {
        Some(number) => number <= limit,
        None => false,
    }
}

// The cheaper of two offers, the first where they cost the same.
fn cheaper(first: Option<Offer>, second: Option<Offer>) -> Option<Offer>
    ensures cost { cost_if_any result ≡ lesser (cost_if_any first) (cost_if_any second) }
    ensures one { (result ≡ first) ⊎ (result ≡ second) }
{
    match (first, second) {
        (Some(a), Some(b)) => Some(if b.cost < a.cost { b } else { a }),
        (None, second) => second,
        (first, None) => first,
    }
}
