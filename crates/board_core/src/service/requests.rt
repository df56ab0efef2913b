//! What riders ask for: rides, and to be let go.
ghost use Rattle.std.specs.Prelude.{◌≡◌, ◌<◌, ◌≤◌, ◌^◌, length, nat_le, is_some, IfOk, OnErr, MatchOption, Some, None};
ghost use Rattle.ride_model.specs.declared.command.Command.TheVariants.{Cancel};
ghost use Rattle.ride_model.specs.declared.reply.RequestState.TheVariants.{Confirmed};
ghost use Rattle.ride_model.specs.Road.{IsRoadMap};
ghost use Rattle.ride_model.specs.State.{State, request_state};
ghost use Rattle.ride_model.specs.Step.{refused, step, with_accepted};
ghost use Rattle.ride_model.specs.declared.reply.Reply.TheVariants.{Waiting};
ghost use Rattle.board_core.specs.inner.Given.{Given};
ghost use Rattle.board_core.specs.inner.Service.{state_at, answered_at, IsInOrder};
ghost use Rattle.board_core.specs.inner.Wishes.{ride_of, wish_step, joins_nodes, has_odd_load, has_odd_limits, MayBeAccepted};
ghost use Rattle.board_core.specs.inner.request_book.Book.{request_of};

use crate::plans::free;
use crate::request_book::RequestBook;
use crate::service::Service;
use crate::setup::Setup;
use crate::wishes::Wish;
use ride_model::limits::{LATEST_TIME, LONGEST_RIDE, MOST_CHAIRS, MOST_REQUESTS, MOST_SEATS};
use ride_model::refusals::{
    END_OFF_MAP, KNOWN_ID, ODD_LOAD, ODD_TIME, REQUEST_CLOSED, REQUESTS_FULL, RIDER_ABOARD,
    SAME_ENDS, UNKNOWN_REQUEST, UNKNOWN_VEHICLE,
};
use ride_model::{NoMemory, Reply, RequestState, Ride};

impl Service {
    /// Accepts a request, where nothing speaks against it.
    pub(crate) fn request(&mut self, setup: &Setup, wish: Wish) -> Result<Reply, NoMemory>
        requires { IsRoadMap setup.now.roads }
        ensures answered { (rest : State) → IfOk result (λ reply.
            wish_step (state_at setup.now self.old rest) wish
            ≡ answered_at setup.now self.new rest reply) }
        ensures no_memory { OnErr result (self.new ≡ self.old) }
    {
        if let Some(code) = self.refusal(setup, &wish) {
            return Ok(Reply::Refused { code });
        }
        self.requests.accept(ride_of(&wish))?;
        Ok(Reply::Waiting)
    }

    // What speaks against a request.
    fn refusal(&self, setup: &Setup, wish: &Wish) -> Option<u8>
        requires { IsRoadMap setup.now.roads }
        ensures answered { (rest : State) → MatchOption result
            (wish_step (state_at setup.now self.now rest) wish.now
            ≡ record {
              state = with_accepted (state_at setup.now self.now rest) (ride_of wish.now);
              reply = Waiting;
            })
            (λ code. wish_step (state_at setup.now self.now rest) wish.now
            ≡ refused (state_at setup.now self.now rest) code) }
        ensures accepted { result ≡ None → MayBeAccepted self.now.requests wish.now }
    {
        if is_known(&self.requests, wish.id) {
            Some(KNOWN_ID)
        } else if !joins_nodes(wish, setup) {
            Some(END_OFF_MAP)
        } else if wish.from == wish.to {
            Some(SAME_ENDS)
        } else if has_odd_load(wish) {
            Some(ODD_LOAD)
        } else if has_odd_limits(wish) {
            Some(ODD_TIME)
        } else if is_full(&self.requests) {
            Some(REQUESTS_FULL)
        } else {
            None
        }
    }

    /// Cancels a request that is not aboard.
    pub(crate) fn cancel(&mut self, setup: &mut Setup, id: u64) -> Reply
        requires { IsInOrder setup.old self.old }
        ensures answered { (rest : State)
            → step (state_at setup.old self.old rest) (Cancel id)
            ≡ answered_at setup.old self.new rest result }
        ensures setup { setup.new ≡ setup.old }
    {
        let Some(state) = self.requests.state(id) else {
            return Reply::Refused {
                code: UNKNOWN_REQUEST,
            };
        };
        match state {
            RequestState::Waiting | RequestState::InBatch(_) => {
                self.requests.set_state(id, RequestState::Cancelled);
                Reply::Cancelled
            }
            RequestState::Confirmed(vehicle) => self.free(setup, id, vehicle),
            RequestState::Aboard(_) => Reply::Refused { code: RIDER_ABOARD },
            RequestState::Done | RequestState::Away(_) | RequestState::Cancelled => {
                Reply::Refused {
                    code: REQUEST_CLOSED,
                }
            }
        }
    }

    // Cancels a request that a vehicle has promised, and frees the vehicle of it.
    fn free(&mut self, setup: &mut Setup, id: u64, vehicle: u64) -> Reply
        requires in_order { IsInOrder setup.old self.old }
        requires confirmed { (rest : State)
            → request_state (state_at setup.old self.old rest) id ≡ Some (Confirmed vehicle) }
        ensures answered { (rest : State)
            → step (state_at setup.old self.old rest) (Cancel id)
            ≡ answered_at setup.old self.new rest result }
        ensures setup { setup.new ≡ setup.old }
    {
        let Some(place) = self.place_of(setup.places(), vehicle) else {
            return Reply::Refused {
                code: UNKNOWN_VEHICLE,
            };
        };
        free(&mut self.vehicles[place], setup, id);
        self.requests.set_state(id, RequestState::Cancelled);
        Reply::Freed { vehicle }
    }
}

// Whether a request of the id was accepted.
fn is_known(requests: &RequestBook, id: u64) -> bool
    ensures { result ≡ is_some (request_of requests.now id) }
{
    requests.state(id).is_some()
}

// Whether no more requests are accepted.
fn is_full(requests: &RequestBook) -> bool
    ensures { result ≡ nat_le MOST_REQUESTS (length requests.now) }
{
    requests.len() >= MOST_REQUESTS as usize
}

// Whether a ride is to join two nodes of the map.
fn joins_nodes(wish: &Wish, setup: &Setup) -> bool
    ensures { result ≡ joins_nodes setup.now.roads wish.now }
{
    setup.is_node(wish.from) && setup.is_node(wish.to)
}

// Whether there are too many seats or chairs, or none.
fn has_odd_load(wish: &Wish) -> bool
    ensures { result ≡ has_odd_load wish.now }
{
    wish.seats > MOST_SEATS || wish.chairs > MOST_CHAIRS || wish.seats + wish.chairs == 0
}

// Whether a limit is out of its range.
fn has_odd_limits(wish: &Wish) -> bool
    ensures { result ≡ has_odd_limits wish.now }
{
    wish.latest > LATEST_TIME || wish.longest == 0 || wish.longest > LONGEST_RIDE
}

// The ride that is asked for.
fn ride_of(wish: &Wish) -> Ride
    requires from { wish.now.from < 2 ^ 32 }
    requires to { wish.now.to < 2 ^ 32 }
    requires seats { wish.now.seats ≤ MOST_SEATS }
    requires chairs { wish.now.chairs ≤ MOST_CHAIRS }
    ensures { result ≡ ride_of wish.now }
{
    Ride {
        id: wish.id,
        from: wish.from as u32,
        to: wish.to as u32,
        seats: wish.seats as u32,
        chairs: wish.chairs as u32,
        latest: wish.latest,
        longest: wish.longest,
        picked: None,
    }
}
