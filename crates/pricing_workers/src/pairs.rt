//! The price of a pair.
ghost use Rattle.std.specs.Prelude.{◌≡◌, ◌≤◌, ◌<◌, ◌+◌, length, map, slice_index_or, IfSome, Some};
ghost use Rattle.std.specs.List.{range_with_len};
ghost use Rattle.ride_model.specs.declared.offer.Offer.{Offer};
ghost use Rattle.ride_model.specs.declared.vehicle.Vehicle.{Vehicle};
ghost use Rattle.ride_model.specs.Offers.{offer_of, price, start_of};
ghost use Rattle.ride_model.specs.Road.{RoadMap};
ghost use Rattle.ride_model.specs.declared.limits.TheConstants.{MOST_STOPS};
ghost use Rattle.insertion.specs.inner.Asked.{HoldsTimes, IsAsked};
ghost use Rattle.insertion.specs.inner.Least.{cost_if_any};
ghost use Rattle.slack_tables.specs.inner.SlackOf.{slack_of};
ghost use Rattle.pricing_workers.specs.inner.Cells.{IsCellOf};
ghost use Rattle.pricing_workers.specs.inner.Rows.{HoldsAt, near_at, IsWide};
ghost use Rattle.pricing_workers.specs.inner.Pairs.{MayPrice};

use crate::times::Times;
use crate::wanted::Wanted;
use arrayvec::ArrayVec;
use batch_commit::Batch;
use insertion::{Near, NearStop, best_place};
use ride_model::{Offer, Ride, Settings, Vehicle};
use slack_tables::{Slack, best_place_fast};

/// How the places of a pair are searched for a least offer.
#[derive(Clone, Copy, PartialEq, Eq)]
pub enum Search {
    /// By the tables of the plan, fast.
    BySlack,
    /// By the whole plan at each pair of places, so that no table is trusted.
    ByWholePlans,
}

/// The least offer of the vehicle at a place to a request, whose times are at hand.
pub(crate) fn price_pair(
    search: Search,
    batch: &Batch,
    wanted: &Wanted,
    times: &Times,
    ride: &Ride,
    place: usize,
) -> Option<Offer>
    requires place { place < length batch.now.vehicles }
    requires ready { (roads : RoadMap) × MayPrice roads batch.now wanted.now times.now ride.now }
    ensures { (roads : RoadMap) (v : Vehicle)
        → MayPrice roads batch.now wanted.now times.now ride.now
        → IsCellOf roads batch.now ride.now (slice_index_or batch.now.vehicles place v) result }
{
    let vehicle = &batch.vehicles().vehicles()[place];
    let plan = &wanted.plans[place];
    let near = near(times, plan.first, vehicle);
    least_offer(
        search,
        vehicle,
        plan.tables.slack(),
        ride,
        batch.time(),
        batch.settings(),
        &near,
    )
}

// A least offer of a vehicle to a ride, found by one of the ways.
fn least_offer(
    search: Search,
    vehicle: &Vehicle,
    slack: &Slack,
    ride: &Ride,
    now: u64,
    settings: &Settings,
    near: &Near,
) -> Option<Offer>
    requires asked { (roads : RoadMap)
        × IsAsked roads vehicle.now ride.now now settings.now near.now }
    requires slack { slack.now
        ≡ slack_of vehicle.now (start_of vehicle.now settings.now.lead now) settings.now.dwell }
    ensures price { (roads : RoadMap) → IsAsked roads vehicle.now ride.now now settings.now near.now
        → cost_if_any result ≡ price roads settings.now vehicle.now ride.now now }
    ensures an_offer { (roads : RoadMap)
        → IsAsked roads vehicle.now ride.now now settings.now near.now
        → IfSome result (λ (offer : Offer).
        offer_of roads settings.now vehicle.now ride.now now offer.i offer.j ≡ Some offer) }
{
    match search {
        Search::BySlack => best_place_fast(vehicle, slack, ride, now, settings, near),
        Search::ByWholePlans => best_place(vehicle, ride, now, settings, near),
    }
}

// The times between a vehicle's nodes, which begin at a place of the rows, and a request's.
pub(crate) fn near(times: &Times, first: usize, vehicle: &Vehicle) -> Near
    requires wide { IsWide (first + 1 + length vehicle.now.stops.items) times.now }
    ensures { (roads : RoadMap) (ride : Ride) → HoldsAt roads ride first vehicle.now times.now
        → HoldsTimes roads vehicle.now ride result }
{
    let here = times.at(first);
    Near {
        at_from: here.to_from,
        at_to: here.to_to,
        direct: times.direct,
        stops: near_stops(times, first + 1, vehicle.stops.as_slice().len()),
    }
}

// The times at so many nodes from a place of the rows on.
fn near_stops(times: &Times, first: usize, count: usize) -> ArrayVec<NearStop, 16>
    requires few { count ≤ MOST_STOPS }
    requires wide { IsWide (first + count) times.now }
    ensures { result.items
        ≡ map (λ node. near_at times.now (first + node)) (range_with_len 0 count) }
{
    let mut near = ArrayVec::new();
    for node in 0..count {
        near.push(times.at(first + node));
    }
    near
}
