//! What a ride costs at a pair of places, by the tables of the plan.
ghost use Rattle.std.specs.Prelude.{◌≡◌, ◌≤◌, ◌<◌, ◌+◌, ◌-◌, length, slice_index, IfSome};
ghost use Rattle.ride_model.specs.declared.limits.TheConstants.{LATEST_TIME};
ghost use Rattle.slack_tables.specs.inner.SlackOf.{AreTables};
ghost use Rattle.slack_tables.specs.inner.Tables.{load_at};
ghost use Rattle.slack_tables.specs.inner.Search.{leave_at, last_time, has_room, at_most, pickup_at, lateness, within_rooms, added, cost_of, cost_of_dropoff, cost_together, cost_apart, IsShort, AreTerms, IsSearch};

use crate::legs::{leg_from_dropoff, leg_from_pickup, leg_to_dropoff, leg_to_pickup};
use crate::slack::Slack;
use crate::terms::Terms;
use insertion::Near;

/// A pickup before the stop at a place.
#[derive(Clone, Copy, PartialEq, Eq, Default)]
pub struct Pickup {
    pub place: u32,
    /// The arrival there.
    pub time: u64,
    /// By how much the stops behind it are later.
    pub late: u64,
}

/// Whether what the ride takes fits beside the load before a place.
#[inline(always)]
pub fn has_room(terms: &Terms, slack: &Slack, place: usize) -> bool
    requires terms { AreTerms terms.now }
    requires tables { AreTables slack.now }
    requires within { place ≤ length slack.now.times }
    ensures { result ≡ has_room terms.now (load_at slack.now place) }
{
    let load = slack.load(place);
    load.seats + terms.takes.seats <= terms.most.seats
        && load.chairs + terms.takes.chairs <= terms.most.chairs
}

/// The arrival at a pickup before the stop at a place, where it is not too late.
#[inline(always)]
pub fn pickup_at(terms: &Terms, slack: &Slack, near: &Near, place: usize) -> Option<u64>
    requires search { IsSearch terms.now slack.now near.now }
    requires within { place ≤ length slack.now.times }
    ensures value { result ≡ pickup_at terms.now slack.now near.now place }
    ensures bounded { IfSome result (λ time. time ≤ LATEST_TIME) }
{
    let leg = leg_to_pickup(near.at_from, near.stops.as_slice(), place)?;
    at_most(terms.latest, leave_at(terms, slack, place) + leg)
}

/// By how much the stops behind that pickup are later, where it is no more than their room.
#[inline(always)]
pub fn lateness(terms: &Terms, slack: &Slack, near: &Near, place: usize, pickup: u64) -> Option<u64>
    requires search { IsSearch terms.now slack.now near.now }
    requires within { place < length slack.now.times }
    requires soon { pickup ≤ LATEST_TIME }
    ensures value { result ≡ lateness terms.now slack.now near.now place pickup }
    ensures bounded { IfSome result (λ seconds. seconds ≤ 600000000000000) }
{
    let leg = leg_from_pickup(near.stops.as_slice(), place)?;
    let arrival = pickup + terms.dwell + leg;
    // A detour takes no less time: nothing is cut off.
    at_most(
        slack.room(place, place),
        arrival.saturating_sub(slack.time(place)),
    )
}

/// The cost with the drop-off directly behind a pickup, no stop behind which is later yet.
#[inline(always)]
pub fn cost_together(terms: &Terms, slack: &Slack, near: &Near, pickup: Pickup) -> Option<u64>
    requires search { IsSearch terms.now slack.now near.now }
    requires within { pickup.place ≤ length slack.now.times }
    requires soon { pickup.time ≤ LATEST_TIME }
    requires not_late { pickup.late ≡ 0 }
    ensures { result ≡ cost_together terms.now slack.now near.now pickup.place pickup.time }
{
    let leave = pickup.time + terms.dwell;
    cost_of_dropoff(terms, slack, near, pickup, pickup.place, leave, near.direct)
}

/// The cost with the drop-off before a place behind that of the pickup.
#[inline(always)]
pub fn cost_apart(
    terms: &Terms,
    slack: &Slack,
    near: &Near,
    pickup: Pickup,
    place: u32,
) -> Option<u64>
    requires search { IsSearch terms.now slack.now near.now }
    requires in_order { pickup.place ≤ place }
    requires within { place ≤ length slack.now.times }
    requires soon { pickup.time ≤ LATEST_TIME }
    requires not_late { pickup.late ≤ 600000000000000 }
    ensures { result ≡ cost_apart terms.now slack.now near.now pickup.place
        place pickup.late pickup.time }
{
    let leg = leg_to_dropoff(near.at_to, near.stops.as_slice(), place as usize);
    let leave = leave_at(terms, slack, place as usize) + pickup.late;
    cost_of_dropoff(terms, slack, near, pickup, place, leave, leg)
}

// The cost for a drop-off before a place that is reached by a leg, where it is there, after leaving at this time.
#[inline(always)]
fn cost_of_dropoff(
    terms: &Terms,
    slack: &Slack,
    near: &Near,
    pickup: Pickup,
    place: u32,
    leave: u64,
    leg: Option<u64>,
) -> Option<u64>
    requires search { IsSearch terms.now slack.now near.now }
    requires in_order { pickup.place ≤ place }
    requires within { place ≤ length slack.now.times }
    requires soon { pickup.time ≤ LATEST_TIME }
    requires leaves { leave ≤ 20000000000000000 }
    requires short { IsShort leg }
    ensures { result ≡ cost_of_dropoff terms.now slack.now near.now pickup.place place
        pickup.late pickup.time leave leg }
{
    let dropoff = at_most(pickup.time + terms.longest, leave + leg?)?;
    let seconds = added(terms, slack, near, pickup, place, dropoff)?;
    Some(cost_of(terms, pickup.time, seconds))
}

// The seconds by which the plan becomes longer for a drop-off at this time before the stop at a place.
#[inline(always)]
fn added(
    terms: &Terms,
    slack: &Slack,
    near: &Near,
    pickup: Pickup,
    place: u32,
    dropoff: u64,
) -> Option<u64>
    requires search { IsSearch terms.now slack.now near.now }
    requires in_order { pickup.place ≤ place }
    requires within { place ≤ length slack.now.times }
    requires soon { dropoff ≤ 1001000000 }
    ensures value { result ≡ added terms.now slack.now near.now
        pickup.place place pickup.late dropoff }
    ensures bounded { IfSome result (λ seconds. seconds ≤ 600000000000000) }
{
    let at = place as usize;
    if at == slack.stops() {
        return Some(dropoff.saturating_sub(last_time(terms, slack)));
    }
    let leg = leg_from_dropoff(near.stops.as_slice(), at)?;
    // A detour takes no less time: nothing is cut off.
    let delay = (dropoff + terms.dwell + leg).saturating_sub(slack.time(at));
    within_rooms(slack, pickup, at, delay)
}

// A delay of the stops from a place on, where it is no more than their room.
#[inline(always)]
fn within_rooms(slack: &Slack, pickup: Pickup, place: usize, delay: u64) -> Option<u64>
    requires tables { AreTables slack.now }
    requires in_order { pickup.place ≤ place }
    requires within { place ≤ length slack.now.times }
    ensures value { result ≡ within_rooms slack.now pickup.place place pickup.late delay }
    ensures same { IfSome result (λ seconds. seconds ≡ delay) }
{
    if delay <= slack.room(pickup.place as usize, place)
        && delay.saturating_sub(pickup.late) <= slack.room(place, place)
    {
        Some(delay)
    } else {
        None
    }
}

// The cost of so many seconds more of driving, and of a pickup at this time.
#[inline(always)]
fn cost_of(terms: &Terms, pickup: u64, seconds: u64) -> u64
    requires terms { AreTerms terms.now }
    requires soon { pickup ≤ LATEST_TIME }
    requires short { seconds ≤ 600000000000000 }
    ensures { result ≡ cost_of terms.now pickup seconds }
{
    terms.drive * seconds + terms.wait * pickup.saturating_sub(terms.time)
}

// When the vehicle leaves for a place.
#[inline(always)]
fn leave_at(terms: &Terms, slack: &Slack, place: usize) -> u64
    requires terms { AreTerms terms.now }
    requires tables { AreTables slack.now }
    requires within { place ≤ length slack.now.times }
    ensures value { result ≡ leave_at terms.now.start terms.now.dwell slack.now.times place }
    ensures bounded { result ≤ 10000000000003600 }
{
    if place == 0 {
        terms.start
    } else {
        slack.time(place - 1) + terms.dwell
    }
}

// The last arrival, or the start where there is none.
#[inline(always)]
fn last_time(terms: &Terms, slack: &Slack) -> u64
    ensures { result ≡ last_time terms.now.start slack.now.times }
{
    let stops = slack.stops();
    if stops == 0 {
        terms.start
    } else {
        slack.time(stops - 1)
    }
}

// A number, where it is not above a limit.
#[inline(always)]
fn at_most(limit: u64, number: u64) -> Option<u64>
    ensures value { result ≡ at_most limit number }
    ensures bounded { IfSome result (λ n. n ≤ limit) }
    ensures no_more { IfSome result (λ n. n ≤ number) }
{
    if number <= limit { Some(number) } else { None }
}
