//! What drivers report: where they are, stops that were served, and duty.
ghost use Rattle.std.specs.Prelude.{◌≡◌, ◌<◌, ◌≤◌, ◌^◌, All};
ghost use Rattle.ride_model.specs.declared.command.Command.TheVariants.{At, Done};
ghost use Rattle.ride_model.specs.State.{State, placed_vehicle};
ghost use Rattle.ride_model.specs.Step.{duty_found, served_state, step};
ghost use Rattle.ride_model.specs.Road.{IsRoadMap, IsNode};
ghost use Rattle.ride_model.specs.Settings.{IsSettings};
ghost use Rattle.ride_model.specs.Vehicle.{IsLawful};
ghost use Rattle.ride_model.specs.inner.Vehicle.{IsLawfulSomewhere};
ghost use Rattle.ride_model.specs.declared.limits.TheConstants.{LONGEST_DWELL};
ghost use Rattle.board_core.specs.inner.Given.{Given};
ghost use Rattle.board_core.specs.inner.Service.{state_at, answered_at, IsInOrder, HasRoomAbove};
ghost use Rattle.board_core.specs.inner.Reports.{lateness_of, IsMoved};

use crate::plans::{first_stop, put_at, put_before, serve};
use crate::service::Service;
use crate::setup::Setup;
use promises::broken;
use ride_model::limits::{LATEST_READY, LATEST_TIME};
use ride_model::refusals::{
    DAY_OVER, NO_STOP, NO_WAY, NOT_AT_STOP, ODD_TIME, REPORT_OFF_MAP, REPORT_TOO_EARLY,
    UNKNOWN_VEHICLE,
};
use ride_model::{Kind, Reply, RequestState, Stop, Vehicle};

impl Service {
    /// A vehicle is at a node at a time.
    pub(crate) fn report(&mut self, setup: &mut Setup, id: u64, node: u64, time: u64) -> Reply
        requires { IsInOrder setup.old self.old }
        ensures answered { (rest : State)
            → step (state_at setup.old self.old rest) (At id node time)
            ≡ answered_at setup.old self.new rest result }
        ensures setup { setup.new ≡ setup.old }
    {
        let Some(place) = self.place_of(setup.places(), id) else {
            return Reply::Refused {
                code: UNKNOWN_VEHICLE,
            };
        };
        if !setup.is_node(node) {
            return Reply::Refused {
                code: REPORT_OFF_MAP,
            };
        }
        if time > LATEST_TIME {
            return Reply::Refused { code: ODD_TIME };
        }
        if time < self.vehicles[place].ready {
            return Reply::Refused {
                code: REPORT_TOO_EARLY,
            };
        }
        move_to(&mut self.vehicles[place], setup, node as u32, time)
    }

    /// A vehicle has served its first stop.
    pub(crate) fn serve(&mut self, setup: &Setup, id: u64) -> Reply
        requires { IsInOrder setup.now self.old }
        ensures { (rest : State)
            → step (state_at setup.now self.old rest) (Done id)
            ≡ answered_at setup.now self.new rest result }
    {
        let Some(place) = self.place_of(setup.places(), id) else {
            return Reply::Refused {
                code: UNKNOWN_VEHICLE,
            };
        };
        let vehicle = &self.vehicles[place];
        let Some(stop) = first_stop(vehicle) else {
            return Reply::Refused { code: NO_STOP };
        };
        let dwell = setup.settings().dwell;
        if vehicle.at != stop.node {
            return Reply::Refused { code: NOT_AT_STOP };
        }
        if vehicle.ready + dwell > LATEST_READY {
            return Reply::Refused { code: DAY_OVER };
        }
        let state = served_state(vehicle, &stop);
        self.requests.set_state(stop.ride, state);
        serve(&mut self.vehicles[place], dwell)
    }

    /// A driver comes on duty or goes off duty.
    pub(crate) fn set_duty(&mut self, setup: &Setup, id: u64, duty: bool) -> Reply
        requires { IsInOrder setup.now self.old }
        ensures { (rest : State)
            → duty_found (state_at setup.now self.old rest) duty
            (placed_vehicle (state_at setup.now self.old rest) id)
            ≡ answered_at setup.now self.new rest result }
    {
        let Some(place) = self.place_of(setup.places(), id) else {
            return Reply::Refused {
                code: UNKNOWN_VEHICLE,
            };
        };
        let vehicle = &mut self.vehicles[place];
        vehicle.duty = duty;
        vehicle.version += 1;
        Reply::Duty
    }
}

// What becomes of the request of a stop that a vehicle serves.
fn served_state(vehicle: &Vehicle, stop: &Stop) -> RequestState
    ensures { result ≡ served_state vehicle.now stop.now.kind }
{
    match stop.kind {
        Kind::Pickup => RequestState::Aboard(vehicle.id),
        Kind::Dropoff => RequestState::Done,
    }
}

// Reports a vehicle at a node, where there is a way from there to its first stop.
fn move_to(vehicle: &mut Vehicle, setup: &mut Setup, node: u32, time: u64) -> Reply
    requires map { IsRoadMap setup.old.roads }
    requires settings { IsSettings setup.old.settings }
    requires lawful { IsLawful setup.old.roads vehicle.old }
    requires version { vehicle.old.version < 2 ^ 63 }
    requires node { IsNode setup.old.roads node }
    requires late { vehicle.old.ready ≤ time }
    requires time_limit { time ≤ LATEST_TIME }
    ensures moved { IsMoved setup.old vehicle.old node time result vehicle.new }
    ensures setup { setup.new ≡ setup.old }
{
    let Some(first) = first_stop(vehicle) else {
        put_at(vehicle, node, time);
        return Reply::OnMap;
    };
    let old = vehicle.ready + first.leg;
    let Some(leg) = setup.time(node, first.node) else {
        return Reply::Refused { code: NO_WAY };
    };
    put_before(vehicle, node, time, leg);
    lateness(vehicle, time + leg, old, setup.settings().dwell)
}

// The reply to a report by which the first stop is reached at `new` in place of `old`.
fn lateness(vehicle: &Vehicle, new: u64, old: u64, dwell: u64) -> Reply
    requires lawful { IsLawfulSomewhere vehicle.now }
    requires dwell_limit { dwell ≤ LONGEST_DWELL }
    ensures { result ≡ lateness_of vehicle.now dwell new old }
{
    if new <= old {
        return Reply::OnMap;
    }
    Reply::Late {
        seconds: new - old,
        broken: broken(vehicle, dwell),
    }
}
