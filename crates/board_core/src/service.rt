//! The service as it stands: what commands change.
ghost use Rattle.std.specs.Prelude.{◌≡◌, ◌≤◌, ◌<◌, [], length, slice_index_or, Some, None, MatchOption, IfOk, OnErr, IsErr};
ghost use Rattle.ride_model.specs.declared.vehicle.Vehicle.{Vehicle};
ghost use Rattle.ride_model.specs.Seating.{vehicle_ids};
ghost use Rattle.ride_model.specs.State.{State};
ghost use Rattle.ride_model.specs.Step.{step, clock_step, ask_step};
ghost use Rattle.ride_model.specs.declared.limits.TheConstants.{MOST_VEHICLES};
ghost use Rattle.board_core.specs.inner.Given.{Given};
ghost use Rattle.board_core.specs.inner.Opening.{IsRequest};
ghost use Rattle.board_core.specs.inner.Service.{state_at, answered_at, placed_in, IsInOrder};

mod reports;
mod requests;
mod settling;
mod waiting;

use crate::places::Places;
use crate::request_book::RequestBook;
use crate::setup::Setup;
use crate::wishes::Wish;
use ride_model::limits::{LATEST_TIME, MOST_BATCHES};
use ride_model::refusals::{BATCHES_FULL, ODD_TIME};
use ride_model::{Command, NoMemory, Reply, Vehicle};
use std::alloc::Global;

/// The clock, the vehicles in fleet order, the requests, and how many batches were asked for.
pub(crate) struct Service {
    pub(crate) clock: u64,
    pub(crate) vehicles: Vec<Vehicle>,
    pub(crate) requests: RequestBook,
    pub(crate) asked: u64,
}

impl Drop for Service {
    fn drop(self) {
        let Service {
            clock: _,
            vehicles,
            requests,
            asked: _,
        } = self;
        drop(vehicles);
        drop(requests);
    }
}

impl Service {
    /// The service of a fleet, before anything happened.
    pub(crate) fn new(alloc: Global, fleet: &[Vehicle]) -> Result<Service, NoMemory>
        requires { length fleet.now ≤ MOST_VEHICLES }
        ensures clock { IfOk result (λ service. service.clock ≡ 0) }
        ensures vehicles { IfOk result (λ service. service.vehicles.items ≡ fleet.now) }
        ensures requests { IfOk result (λ service. service.requests ≡ []) }
        ensures asked { IfOk result (λ service. service.asked ≡ 0) }
    {
        let vehicles = copies_of(alloc, fleet)?;
        let requests = RequestBook::new(alloc)?;
        Ok(Service {
            clock: 0,
            vehicles,
            requests,
            asked: 0,
        })
    }

    /// The place of the vehicle of an id.
    pub(crate) fn place_of(&self, places: &Places, id: u64) -> Option<usize>
        requires { places.now ≡ vehicle_ids self.now.vehicles.items }
        ensures within { MatchOption result (placed_in self.now.vehicles.items id ≡ None)
            (λ place. place < length self.now.vehicles.items) }
        ensures placed { MatchOption result (placed_in self.now.vehicles.items id ≡ None)
            (λ place. (v : Vehicle) → placed_in self.now.vehicles.items id
            ≡ Some (place, slice_index_or self.now.vehicles.items place v)) }
    {
        places.of(id)
    }

    /// Answers a command.
    pub(crate) fn answer(&mut self, setup: &mut Setup, command: &Command) -> Result<Reply, NoMemory>
        requires { IsInOrder setup.old self.old }
        ensures answered { (rest : State) → IfOk result (λ reply.
            step (state_at setup.old self.old rest) command.now
            ≡ answered_at setup.old self.new rest reply) }
        ensures no_memory { OnErr result (self.new ≡ self.old) }
        ensures only_requests { IsErr result → IsRequest command.now }
        ensures setup { setup.new ≡ setup.old }
    {
        match *command {
            Command::Request {
                id,
                from,
                to,
                seats,
                latest,
                longest,
                chairs,
            } => self.request(
                setup,
                Wish {
                    id,
                    from,
                    to,
                    seats,
                    latest,
                    longest,
                    chairs,
                },
            ),
            Command::Cancel { id } => Ok(self.cancel(setup, id)),
            Command::At {
                vehicle,
                node,
                time,
            } => Ok(self.report(setup, vehicle, node, time)),
            Command::Done { vehicle } => Ok(self.serve(setup, vehicle)),
            Command::On { vehicle } => Ok(self.set_duty(setup, vehicle, true)),
            Command::Off { vehicle } => Ok(self.set_duty(setup, vehicle, false)),
            Command::Clock { time } => Ok(self.advance(time)),
            Command::Ask => Ok(self.ask()),
            Command::Bad { .. } => Ok(Reply::Noted),
        }
    }

    // The clock never falls.
    #[tactic(auto, unfolding(ride_model::specs::Step::clock_step))]
    fn advance(&mut self, time: u64) -> Reply
        ensures { (setup : Given) (rest : State)
            → clock_step (state_at setup self.old rest) time
            ≡ answered_at setup self.new rest result }
    {
        if time > LATEST_TIME {
            return Reply::Refused { code: ODD_TIME };
        }
        self.clock = self.clock.max(time);
        Reply::Now { time: self.clock }
    }

    // One more batch is asked for.
    #[tactic(auto, unfolding(ride_model::specs::Step::ask_step))]
    fn ask(&mut self) -> Reply
        ensures { (setup : Given) (rest : State)
            → ask_step (state_at setup self.old rest) ≡ answered_at setup self.new rest result }
    {
        if self.asked >= MOST_BATCHES {
            return Reply::Refused { code: BATCHES_FULL };
        }
        self.asked += 1;
        Reply::Asked { count: self.asked }
    }
}

/// Copies of vehicles, in order.
pub(crate) fn copies_of(alloc: Global, vehicles: &[Vehicle]) -> Result<Vec<Vehicle>, NoMemory>
    ensures { IfOk result (λ copies. copies.items ≡ vehicles.now) }
{
    let mut copies = Vec::with_capacity(alloc, vehicles.len())?;
    for vehicle in vehicles {
        copies.push(vehicle.copy())?;
    }
    Ok(copies)
}
