//! Requests that go into a batch, or wait again.
ghost use Rattle.std.specs.Prelude.{◌≡◌, ◌≤◌, length, map, IfOk};
ghost use Rattle.ride_model.specs.declared.reply.RequestState.TheVariants.{Waiting, InBatch};
ghost use Rattle.ride_model.specs.State.{State, request_state};
ghost use Rattle.ride_model.specs.Batch.{with_request_states, standing_rides, was_cancelled};
ghost use Rattle.ride_model.specs.Fleet.{IsFleet};
ghost use Rattle.ride_model.specs.Settings.{IsSettings};
ghost use Rattle.ride_model.specs.Vehicle.{ride_ids};
ghost use Rattle.ride_model.specs.declared.limits.TheConstants.{LARGEST_BATCH};
ghost use Rattle.model_laws.specs.inner.Requests.{is_in};
ghost use Rattle.board_core.specs.inner.Given.{Given};
ghost use Rattle.board_core.specs.inner.Marking.{marked_in, state_in, still_in};
ghost use Rattle.board_core.specs.inner.Service.{state_at, batch_at};

use crate::request_book::RequestBook;
use crate::service::{Service, copies_of};
use crate::setup::Setup;
use arrayvec::ArrayVec;
use batch_commit::Batch;
use ride_model::{Fleet, NoMemory, RequestState, Ride};
use std::alloc::Global;

impl Service {
    /// The batch of a number that a desk would open.
    pub(crate) fn batch(
        &self,
        alloc: Global,
        setup: &Setup,
        number: u64,
        desk: u8,
    ) -> Result<Batch, NoMemory>
        requires settings { IsSettings setup.now.settings }
        requires fleet { IsFleet self.now.vehicles.items }
        ensures { IfOk result (λ batch. batch ≡ batch_at setup.now self.now number desk) }
    {
        // This call tells that the requests' ids differ.
        let _many = self.requests.len();
        let settings = setup.settings();
        let requests = self.requests.first_waiting(alloc, settings.batch as usize)?;
        let vehicles = copies_of(alloc, self.vehicles.as_slice())?;
        Ok(Batch::of(
            number,
            self.clock,
            desk,
            settings,
            requests,
            Fleet::new(vehicles),
        ))
    }

    /// Puts requests into a batch.
    pub(crate) fn put_in(&mut self, ids: &[u64], number: u64)
        ensures requests { self.new.requests
            ≡ marked_in (InBatch number) ids.now self.old.requests }
        ensures others { self.new ≡ record self.old { requests = self.new.requests } }
    {
        mark(&mut self.requests, ids, RequestState::InBatch(number));
    }

    /// Lets those requests of a batch wait again that are still in it.
    pub(crate) fn release(&mut self, batch: &Batch)
        ensures { (setup : Given) (rest : State)
            → with_request_states Waiting (standing_rides batch.now (state_at setup self.old rest))
            (state_at setup self.old rest)
            ≡ state_at setup self.new rest }
    {
        let ids = standing(&self.requests, batch.requests(), batch.number());
        mark(&mut self.requests, ids.as_slice(), RequestState::Waiting);
    }

    /// Whether each of these requests was cancelled.
    pub(crate) fn cancelled(&self, rides: &[Ride]) -> ArrayVec<bool, 128>
        requires { length rides.now ≤ LARGEST_BATCH }
        ensures { (setup : Given) (rest : State)
            → result.items ≡ map (was_cancelled
            (state_at setup self.now rest)) (ride_ids rides.now) }
    {
        let mut flags = ArrayVec::new();
        for ride in rides {
            flags.push(is_cancelled(&self.requests, ride.id));
        }
        flags
    }
}

// Sets the states of requests.
fn mark(requests: &mut RequestBook, ids: &[u64], state: RequestState)
    ensures { requests.new ≡ marked_in state ids.now requests.old }
{
    for id in ids {
        requests.set_state(*id, state);
    }
}

// The requests that are still in a batch.
fn standing(requests: &RequestBook, rides: &[Ride], number: u64) -> ArrayVec<u64, 128>
    requires { length rides.now ≤ LARGEST_BATCH }
    ensures { result.items ≡ ride_ids (still_in requests.now number rides.now) }
{
    let mut ids = ArrayVec::new();
    for ride in rides {
        if is_still_in(requests, ride.id, number) {
            ids.push(ride.id);
        }
    }
    ids
}

fn is_still_in(requests: &RequestBook, id: u64, number: u64) -> bool
    ensures { result ≡ is_in number (state_in requests.now id) }
{
    match requests.state(id) {
        Some(RequestState::InBatch(other)) => other == number,
        _ => false,
    }
}

fn is_cancelled(requests: &RequestBook, id: u64) -> bool
    ensures { (s : State) → s.requests ≡ requests.now → result ≡ was_cancelled s id }
{
    matches!(requests.state(id), Some(RequestState::Cancelled))
}
