//! The accepted requests, in order of acceptance, and which of them wait.
ghost use Rattle.std.specs.Prelude.{◌≡◌, ◌<◌, ◌++◌, [], ◌∷◌, ◌↔◌, ℕ, length, take, option_map, None, Contains, IfOk, OnOk, OnErr, IsTrue};
ghost use Rattle.ride_model.specs.declared.reply.RequestState.TheVariants.{Waiting};
ghost use Rattle.ride_model.specs.Batch.{is_waiting};
ghost use Rattle.ride_model.specs.State.{AcceptedRequest};
ghost use Rattle.board_core.specs.inner.request_book.Book.{IsBook, request_of, with_state, waiting_of};
ghost use Rattle.board_core.specs.inner.request_book.Marked.{marked};

use indexmap::IndexMap;
use ride_model::limits::MOST_REQUESTS;
use ride_model::{NoMemory, RequestState, Ride};
use std::alloc::Global;
use std::marker::Model;
use wait_list::WaitList;

/// An accepted request.
#[derive(Clone, Copy, PartialEq, Eq)]
pub struct Accepted {
    ride: Ride,
    state: RequestState,
}

/// The accepted requests, in order of acceptance.
///
/// A request is found by its id, and the first that waits, in constant time.
#[derive(Drop)]
pub struct RequestBook {
    requests: IndexMap<u64, Accepted>,
    waiting: WaitList,
}

impl Model for RequestBook {
    ghost use Rattle.std.specs.Prelude.{List};
    ghost use Rattle.ride_model.specs.State.{AcceptedRequest};

    ghost Value = { List AcceptedRequest };

    ghost use Rattle.board_core.specs.inner.request_book.Kept.{requests_in, IsKept};

    ghost view = { λ book. requests_in book.requests.entries };

    ghost invariant = { λ book. IsKept book.requests.entries book.waiting };
}

impl RequestBook {
    /// No requests.
    pub fn new(alloc: Global) -> Result<RequestBook, NoMemory>
        ensures { IfOk result (λ book. book ≡ []) }
    {
        let waiting = WaitList::new(alloc, MOST_REQUESTS)?;
        Ok(RequestBook {
            requests: IndexMap::new(alloc),
            waiting,
        })
    }

    /// The number of accepted requests.
    pub fn len(&self) -> usize
        ensures count { result ≡ length self.now }
        ensures is_book { IsBook self.now }
    {
        self.requests.len()
    }

    /// What has become of the request of an id, None where none of the id was accepted.
    pub fn state(&self, id: u64) -> Option<RequestState>
        ensures { result ≡ option_map
            (λ (request : AcceptedRequest). request.state) (request_of self.now id) }
    {
        let request = self.requests.get(&id)?;
        Some(request.state)
    }

    /// Accepts the request of a ride, which waits.
    pub fn accept(&mut self, ride: Ride) -> Result<(), NoMemory>
        requires room { length self.old < MOST_REQUESTS }
        requires fresh { request_of self.old ride.id ≡ None }
        ensures accepted { OnOk result
            (self.new ≡ self.old ++ (record { ride = ride; state = Waiting }) ∷ []) }
        ensures refused { OnErr result (self.new ≡ self.old) }
    {
        let place = self.requests.len() as u32;
        let accepted = Accepted {
            ride,
            state: RequestState::Waiting,
        };
        self.requests.insert(ride.id, accepted)?;
        self.waiting.add(place);
        Ok(())
    }

    /// Sets what has become of the request of an id.
    pub fn set_state(&mut self, id: u64, state: RequestState)
        ensures { self.new ≡ with_state id state self.old }
    {
        let Some(index) = self.requests.get_index_of(&id) else {
            return;
        };
        let before = self.requests[index].state;
        self.requests[index].state = state;
        mark(
            &mut self.waiting,
            index as u32,
            is_waiting(before),
            is_waiting(state),
        );
    }

    /// The rides of the first requests that wait, at most so many.
    pub fn first_waiting(&self, alloc: Global, most: usize) -> Result<Vec<Ride>, NoMemory>
        ensures { IfOk result (λ rides. rides.items ≡ take most (waiting_of self.now)) }
    {
        let mut rides = Vec::with_capacity(alloc, most)?;
        let mut next = self.waiting.first();
        while let Some(place) = next {
            if rides.len() == most {
                break;
            }
            rides.push(self.requests[place as usize].ride)?;
            next = self.waiting.after(place);
        }
        Ok(rides)
    }
}

// Takes a place out of the list where it waited and waits no more, and puts it back where it did not wait and waits.
fn mark(list: &mut WaitList, place: u32, waited: bool, waits: bool)
    requires in_range { place < list.old.capacity }
    requires known { IsTrue waited ↔ Contains list.old.places place }
    ensures places { list.new.places ≡ marked waited waits place list.old.places }
    ensures capacity { list.new.capacity ≡ list.old.capacity }
{
    match (waited, waits) {
        (true, false) => list.remove(place),
        (false, true) => list.put_back(place),
        _ => {}
    }
}

fn is_waiting(state: RequestState) -> bool
    ensures { result ≡ is_waiting state }
{
    matches!(state, RequestState::Waiting)
}
