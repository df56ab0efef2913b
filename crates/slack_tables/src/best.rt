//! The cheapest places.
ghost use Rattle.std.specs.Prelude.{◌≡◌, ◌≤◌, ◌<◌, ◌+◌, ◌&&◌, length, true, nat_le, IfSome, Some};
ghost use Rattle.ride_model.specs.declared.offer.Offer.{Offer};
ghost use Rattle.ride_model.specs.Road.{RoadMap};
ghost use Rattle.ride_model.specs.Offers.{start_of, is_open, offer_of, price};
ghost use Rattle.ride_model.specs.declared.limits.TheConstants.{LATEST_TIME};
ghost use Rattle.insertion.specs.inner.Asked.{IsAsked};
ghost use Rattle.insertion.specs.inner.Least.{cost_if_any};
ghost use Rattle.slack_tables.specs.inner.Tables.{load_at};
ghost use Rattle.slack_tables.specs.inner.SlackOf.{slack_of};
ghost use Rattle.slack_tables.specs.inner.Search.{has_room, pickup_at, lateness, least_at, least_from, cost_found, IsFound, IsSearch};

use crate::found::{Found, cheaper, found_at};
use crate::offered::offered;
use crate::places::{Pickup, cost_apart, cost_together, has_room, lateness, pickup_at};
use crate::slack::Slack;
use crate::terms::{Terms, terms_of};
use insertion::Near;
use insertion::prices::start_of;
use ride_model::{Offer, Ride, Settings, Vehicle};

/// An offer of a vehicle to a ride of least cost, for a batch of the time `now`; none where there is no offer. The tables are
/// those of the vehicle from its start for that batch.
pub fn best_place_fast(
    vehicle: &Vehicle,
    slack: &Slack,
    ride: &Ride,
    now: u64,
    settings: &Settings,
    near: &Near,
) -> Option<Offer>
    requires asked { (roads : RoadMap)
        × IsAsked roads vehicle.now ride.now now settings.now near.now }
    requires slack { slack.now ≡ slack_of vehicle.now
        (start_of vehicle.now settings.now.lead now) settings.now.dwell }
    ensures price { (roads : RoadMap) → IsAsked roads vehicle.now ride.now now settings.now near.now
        → cost_if_any result ≡ price roads settings.now vehicle.now ride.now now }
    ensures an_offer { (roads : RoadMap)
        → IsAsked roads vehicle.now ride.now now settings.now near.now
        → IfSome result (λ (offer : Offer). offer_of roads settings.now vehicle.now ride.now now
        offer.i offer.j ≡ Some offer) }
{
    if !may_offer(vehicle, slack, now) {
        return None;
    }
    let start = start_of(vehicle, settings.lead, now);
    let terms = terms_of(vehicle, ride, start, now, settings);
    let found = cheapest(&terms, slack, near)?;
    offered(found, start, near)
}

// Whether a vehicle may have an offer: it is open, and its plan has room for two stops more and is not late already.
#[inline]
fn may_offer(vehicle: &Vehicle, slack: &Slack, time: u64) -> bool
    ensures { result ≡ (is_open vehicle.now time && nat_le (length slack.now.times) 14
        && slack.now.on_time) }
{
    is_open(vehicle, time) && slack.stops() <= 14 && slack.on_time()
}

// On duty, and idle or not yet at its next node.
#[inline]
fn is_open(vehicle: &Vehicle, time: u64) -> bool
    ensures { result ≡ is_open vehicle.now time }
{
    vehicle.duty && (vehicle.stops.is_empty() || time <= vehicle.ready)
}

// The cheapest pair of places.
fn cheapest(terms: &Terms, slack: &Slack, near: &Near) -> Option<Found>
    requires { IsSearch terms.now slack.now near.now }
    ensures cost { cost_found result ≡ least_from terms.now slack.now near.now 0 }
    ensures places { IfSome result (IsFound terms.now slack.now near.now) }
{
    let mut best = None;
    for place in 0..slack.stops() as u32 + 1 {
        best = cheaper(best, cheapest_with_pickup_at(terms, slack, near, place));
    }
    best
}

// The cheapest with the pickup at a place.
#[inline(always)]
fn cheapest_with_pickup_at(terms: &Terms, slack: &Slack, near: &Near, place: u32) -> Option<Found>
    requires search { IsSearch terms.now slack.now near.now }
    requires within { place ≤ length slack.now.times }
    ensures cost { cost_found result ≡ least_at terms.now slack.now near.now place place }
    ensures places { IfSome result (IsFound terms.now slack.now near.now) }
{
    let at = place as usize;
    if !has_room(terms, slack, at) {
        return None;
    }
    let time = pickup_at(terms, slack, near, at)?;
    let pickup = Pickup {
        place,
        time,
        late: 0,
    };
    let together = found_at(place, place, cost_together(terms, slack, near, pickup));
    cheaper(together, cheapest_behind(terms, slack, near, pickup))
}

// The cheapest with this pickup and the drop-off at a later place.
#[inline(always)]
fn cheapest_behind(terms: &Terms, slack: &Slack, near: &Near, pickup: Pickup) -> Option<Found>
    requires search { IsSearch terms.now slack.now near.now }
    requires within { pickup.place ≤ length slack.now.times }
    requires room { has_room terms.now (load_at slack.now pickup.place) ≡ true }
    requires picks_up { pickup_at terms.now slack.now near.now pickup.place ≡ Some pickup.time }
    requires soon { pickup.time ≤ LATEST_TIME }
    ensures cost { cost_found result
        ≡ least_at terms.now slack.now near.now pickup.place (pickup.place + 1) }
    ensures places { IfSome result (IsFound terms.now slack.now near.now) }
{
    let place = pickup.place as usize;
    if place == slack.stops() {
        return None;
    }
    let late = lateness(terms, slack, near, place, pickup.time)?;
    cheapest_apart(terms, slack, near, Pickup { late, ..pickup })
}

// The same where it is known by how much the stops behind the pickup are later.
#[inline(always)]
fn cheapest_apart(terms: &Terms, slack: &Slack, near: &Near, pickup: Pickup) -> Option<Found>
    requires search { IsSearch terms.now slack.now near.now }
    requires within { pickup.place < length slack.now.times }
    requires room { has_room terms.now (load_at slack.now pickup.place) ≡ true }
    requires picks_up { pickup_at terms.now slack.now near.now pickup.place ≡ Some pickup.time }
    requires is_late { lateness terms.now slack.now near.now pickup.place pickup.time
        ≡ Some pickup.late }
    requires soon { pickup.time ≤ LATEST_TIME }
    requires not_late { pickup.late ≤ 600000000000000 }
    ensures cost { cost_found result
        ≡ least_at terms.now slack.now near.now pickup.place (pickup.place + 1) }
    ensures places { IfSome result (IsFound terms.now slack.now near.now) }
{
    let mut best = None;
    for place in pickup.place + 1..slack.stops() as u32 + 1 {
        // What the ride takes must fit on all the way to the drop-off.
        if !has_room(terms, slack, place as usize) {
            return best;
        }
        let cost = cost_apart(terms, slack, near, pickup, place);
        best = cheaper(best, found_at(pickup.place, place, cost));
    }
    best
}
