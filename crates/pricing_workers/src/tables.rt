//! The tables of a vehicle's plan, kept until what they were made of changes.
ghost use Rattle.std.specs.Prelude.{◌≡◌, ◌≤◌, ◌↔◌, IsTrue};
ghost use Rattle.ride_model.specs.inner.Vehicle.{IsLawfulSomewhere};
ghost use Rattle.ride_model.specs.declared.limits.TheConstants.{LATEST_READY, LONGEST_DWELL};
ghost use Rattle.slack_tables.specs.inner.SlackOf.{slack_of};

use ride_model::{Ride, Stop, Vehicle};
use slack_tables::Slack;
use std::marker::Model;

/// The tables of a plan, and what they were made of. To contracts they mean the tables.
#[derive(Drop)]
pub(crate) struct PlanTables {
    vehicle: Vehicle,
    start: u64,
    dwell: u64,
    slack: Slack,
}

impl Model for PlanTables {
    ghost use Rattle.slack_tables.specs.inner.Tables.{PlanSlack};

    ghost Value = { PlanSlack };

    ghost use Rattle.std.specs.Prelude.{◌≡◌};
    ghost use Rattle.slack_tables.specs.inner.SlackOf.{slack_of};

    ghost view = { λ t. t.slack };

    ghost invariant = { λ t. t.slack ≡ slack_of t.vehicle t.start t.dwell };
}

impl PlanTables {
    /// The tables of a vehicle that leaves at `start` and stands `dwell` seconds at each stop.
    pub(crate) fn of(vehicle: &Vehicle, start: u64, dwell: u64) -> PlanTables
        requires lawful { IsLawfulSomewhere vehicle.now }
        requires start_limit { start ≤ LATEST_READY }
        requires dwell_limit { dwell ≤ LONGEST_DWELL }
        ensures { result ≡ slack_of vehicle.now start dwell }
    {
        PlanTables {
            vehicle: vehicle.copy(),
            start,
            dwell,
            slack: Slack::of(vehicle, start, dwell),
        }
    }

    /// Makes them those of a vehicle, a start and a dwell: anew only where the vehicle has changed, or where one of the others has and the
    /// plan has a stop. The tables of a plan without stops know no time, so that an idle vehicle's stay as the clock runs.
    pub(crate) fn renew(&mut self, vehicle: &Vehicle, start: u64, dwell: u64)
        requires lawful { IsLawfulSomewhere vehicle.now }
        requires start_limit { start ≤ LATEST_READY }
        requires dwell_limit { dwell ≤ LONGEST_DWELL }
        ensures { self.new ≡ slack_of vehicle.now start dwell }
    {
        let is_same = is_same_vehicle(&self.vehicle, vehicle);
        if is_same && (self.start == start && self.dwell == dwell || vehicle.stops.is_empty()) {
            return;
        }
        if !is_same {
            self.vehicle = vehicle.copy();
        }
        self.start = start;
        self.dwell = dwell;
        self.slack = Slack::of(vehicle, start, dwell);
    }

    /// The tables.
    #[inline]
    pub(crate) fn slack(&self) -> &Slack
        ensures { result.now ≡ self.now }
    {
        &self.slack
    }
}

// Whether two vehicles are equal.
fn is_same_vehicle(one: &Vehicle, other: &Vehicle) -> bool
    ensures { IsTrue result ↔ (one.now ≡ other.now) }
{
    one.id == other.id
        && one.version == other.version
        && one.at == other.at
        && one.ready == other.ready
        && one.duty == other.duty
        && one.seats == other.seats
        && one.chairs == other.chairs
        && are_same_stops(one.stops.as_slice(), other.stops.as_slice())
        && are_same_rides(one.rides.as_slice(), other.rides.as_slice())
}

fn are_same_stops(some: &[Stop], others: &[Stop]) -> bool
    ensures { IsTrue result ↔ (some.now ≡ others.now) }
{
    some == others
}

fn are_same_rides(some: &[Ride], others: &[Ride]) -> bool
    ensures { IsTrue result ↔ (some.now ≡ others.now) }
{
    some == others
}
