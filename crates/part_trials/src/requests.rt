//! Requests 5, 7 and 3, accepted in this order, and what becomes of them.
ghost use Rattle.std.specs.Prelude.{◌≡◌, ◌∷◌, [], ◌++◌, None, length, ◌<◌};
ghost use Rattle.ride_model.specs.declared.reply.RequestState.TheVariants.{Waiting};
ghost use Rattle.board_core.specs.inner.request_book.Book.{request_of};
ghost use Rattle.part_trials.specs.SmallRequests.{row_ride, row_request};

use board_core::request_book::RequestBook;
use ride_model::{RequestState, Ride};
use std::alloc::Global;
use std::process::Abort;

/// A request's new state, the state that it has then, and which requests wait.
struct Change {
    id: u64,
    state: RequestState,
    found: Option<RequestState>,
    waiting: &'static [u64],
}

/// A request that waits again keeps its place.
static WAITS_AGAIN: [Change; 4] = [
    Change {
        id: 5,
        state: RequestState::InBatch(1),
        found: Some(RequestState::InBatch(1)),
        waiting: &[7, 3],
    },
    Change {
        id: 7,
        state: RequestState::InBatch(1),
        found: Some(RequestState::InBatch(1)),
        waiting: &[3],
    },
    Change {
        id: 7,
        state: RequestState::Waiting,
        found: Some(RequestState::Waiting),
        waiting: &[7, 3],
    },
    Change {
        id: 5,
        state: RequestState::Waiting,
        found: Some(RequestState::Waiting),
        waiting: &[5, 7, 3],
    },
];

/// What becomes of a request. One that was not accepted has no state.
static ENDS: [Change; 6] = [
    Change {
        id: 7,
        state: RequestState::Confirmed(9),
        found: Some(RequestState::Confirmed(9)),
        waiting: &[5, 3],
    },
    Change {
        id: 7,
        state: RequestState::Aboard(9),
        found: Some(RequestState::Aboard(9)),
        waiting: &[5, 3],
    },
    Change {
        id: 7,
        state: RequestState::Done,
        found: Some(RequestState::Done),
        waiting: &[5, 3],
    },
    Change {
        id: 7,
        state: RequestState::Away(2),
        found: Some(RequestState::Away(2)),
        waiting: &[5, 3],
    },
    Change {
        id: 7,
        state: RequestState::Cancelled,
        found: Some(RequestState::Cancelled),
        waiting: &[5, 3],
    },
    Change {
        id: 8,
        state: RequestState::Done,
        found: None,
        waiting: &[5, 3],
    },
];

/// The first that wait, at most so many.
static FIRST: [(usize, &[u64]); 3] = [(2, &[5, 7]), (9, &[5, 7, 3]), (0, &[])];

fn ride(id: u64) -> Ride
    ensures { result ≡ row_ride id }
{
    Ride {
        id,
        from: 1,
        to: 2,
        seats: 1,
        chairs: 0,
        latest: 600,
        longest: 300,
        picked: None,
    }
}

// A book with one request more.
fn accepted(rt: &impl Abort, mut book: RequestBook, id: u64) -> RequestBook
    requires few { length book < 3 }
    requires fresh { request_of book id ≡ None }
    ensures { result ≡ book ++ row_request id ∷ [] }
{
    book.accept(ride(id)).expect(rt, "there is memory");
    book
}

fn three_requests(rt: &impl Abort, alloc: Global) -> RequestBook {
    let book = RequestBook::new(alloc).expect(rt, "there is memory");
    let book = accepted(rt, book, 5);
    accepted(rt, accepted(rt, book, 7), 3)
}

// Whether these are the first that wait, where at most so many are asked for.
fn wait_first(
    rt: &impl Abort,
    alloc: Global,
    book: &RequestBook,
    most: usize,
    ids: &[u64],
) -> bool {
    let waiting = book
        .first_waiting(alloc, most)
        .expect(rt, "there is memory");
    for (ride, id) in waiting.iter().zip(ids) {
        if ride.id != *id {
            return false;
        }
    }
    waiting.len() == ids.len()
}

// Whether of the three requests these have the state of those that wait, and no others.
fn have_waiting(book: &RequestBook, ids: &[u64]) -> bool {
    for id in [5, 7, 3] {
        let waits = book.state(id) == Some(RequestState::Waiting);
        if waits != ids.contains(&id) {
            return false;
        }
    }
    book.len() == 3
}

fn expect_change(rt: &impl Abort, alloc: Global, book: &mut RequestBook, change: &Change) {
    book.set_state(change.id, change.state);
    let is_found = book.state(change.id) == change.found;
    let wait = wait_first(rt, alloc, book, 9, change.waiting);
    assert!(rt;
        is_found && wait && have_waiting(book, change.waiting),
        "request {}",
        change.id
    );
}

// Compares what is seen of three requests after each change.
fn expect_changes(rt: &impl Abort, alloc: Global, changes: &[Change]) {
    let mut book = three_requests(rt, alloc);
    for change in changes {
        expect_change(rt, alloc, &mut book, change);
    }
}

// Compares the first that wait of three requests.
fn expect_first(rt: &impl Abort, alloc: Global) {
    let book = three_requests(rt, alloc);
    assert!(rt; have_waiting(&book, &[5, 7, 3]) && book.state(4).is_none());
    for (most, ids) in &FIRST {
        assert!(rt; wait_first(rt, alloc, &book, *most, ids), "of {most}");
    }
}

#[test]
fn requests_wait_in_order_of_acceptance_whatever_becomes_of_others(rt: HostRuntime) {
    let alloc = rt.alloc();
    expect_first(&rt, alloc);
    expect_changes(&rt, alloc, &WAITS_AGAIN);
    expect_changes(&rt, alloc, &ENDS);
}
