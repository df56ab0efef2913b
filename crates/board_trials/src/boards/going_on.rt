//! A board that is shared once something has happened on it: its feed ends, and its desk closes the batch that it had open.
ghost use Rattle.std.specs.Prelude.{◌≡◌, Some};
ghost use Rattle.ride_model.specs.State.{open_batch_numbered};
ghost use Rattle.board_core.specs.Recorded.{state_of};

use super::days::{opened, tell};
use super::{SEVEN, roads};
use adaptive_roads::Roads;
use batch_commit::Batch;
use board_core::Board;
use fleet_board::{PassSet, SharedBoard};
use plan_trials::trial_town::{fleet, settings};
use pricing_workers::Pricer;
use ride_model::{Actor, Command, Ending, Entry, Event};
use ride_ports::OpenGate;
use session_loops::desk_loop;
use std::process::Abort;
use std::sync::Wait;
use std::thread::Threads;

/// Request 7, the ask and the batch that is opened; and then the end of the feed, the commit and the end of the desk.
const ENTRIES_BEFORE: u64 = 3;

const ENTRIES: usize = 6;

// Opens a batch of request 7 on a board.
fn open_one(rt: &impl Abort, board: &mut Board<'_>) -> Batch
    ensures start { board.new.start ≡ board.old.start }
    ensures desk { result.desk ≡ 1 }
    ensures held { open_batch_numbered (state_of board.new) result.desk result.number
        ≡ Some result }
{
    tell(rt, board, 1, SEVEN);
    tell(rt, board, 1, Command::Ask);
    opened(rt, board, 1)
}

// The batch that an event opens, 0 where it opens none.
fn opened_by(event: &Event) -> u64 {
    match event {
        Event::Opened { batch, .. } => *batch,
        _ => 0,
    }
}

// The batch that an event commits, 0 where it commits none.
fn committed_by(event: &Event) -> u64 {
    match event {
        Event::Committed { batch, .. } => *batch,
        _ => 0,
    }
}

// Whether all is there: the fifth entry is the commit of the batch that the third opened.
fn is_whole(entries: &[Entry]) -> bool {
    entries.len() == ENTRIES
        && opened_by(&entries[2].event) == 1
        && committed_by(&entries[4].event) == 1
}

// Shares a board on which a batch is open, and lets its actors go on to their ends.
fn go_on<R: Threads + Wait + Sync + Abort + AllocGlobal>(
    rt: &R,
    board: Board<'_>,
    batch: Batch,
    pricer: &mut Pricer<'_>,
)
    requires roads { pricer.old ≡ board.start.roads }
    requires desk { batch.desk ≡ 1 }
    requires held { open_batch_numbered (state_of board) batch.desk batch.number ≡ Some batch }
{
    assert!(rt; !board.has_ended(Actor::Feed(1)));
    assert!(rt; !board.has_ended(Actor::Desk(1)));
    // This call tells that the history is legal.
    let _history = board.entries();
    let Ok(shared) = SharedBoard::share(rt.alloc(), board) else {
        panic!(rt; "there is memory");
    };
    let (board, passes) = shared;
    let PassSet {
        feed_1,
        desk_1,
        mut scribe,
        ..
    } = passes;
    let Some(mut feed) = feed_1 else {
        panic!(rt; "a board has a feed");
    };
    let Some(mut desk) = desk_1 else {
        panic!(rt; "a board has a desk");
    };
    assert!(rt; scribe.seen() == ENTRIES_BEFORE);
    board.end(rt, &mut feed, Ending::Whole);
    let ran = desk_loop(rt, &board, &mut desk, Some(batch), pricer, &OpenGate);
    assert!(rt; !ran.no_memory);
    let Ok(tail) = board.tail(rt, rt.alloc(), &mut scribe, 0, 100) else {
        panic!(rt; "there is memory");
    };
    assert!(rt; tail.settled && is_whole(tail.entries.as_slice()));
}

// The same over the town.
fn run<R: Threads + Wait + Sync + Abort + AllocGlobal>(rt: &R, roads: &Roads)
    requires { roads.now.nodes ≡ 4 }
{
    let alloc = rt.alloc();
    let Ok(fleet) = fleet(alloc, roads) else {
        panic!(rt; "there is memory");
    };
    let Ok(mut board) = Board::new(alloc, roads, settings(1), fleet, 1, 1) else {
        panic!(rt; "there is memory");
    };
    let Ok(mut pricer) = Pricer::new(alloc, roads, 1) else {
        panic!(rt; "there is memory");
    };
    let batch = open_one(rt, &mut board);
    go_on(rt, board, batch, &mut pricer);
}

#[test]
fn a_board_that_is_shared_goes_on_from_what_stands(rt: HostRuntime) {
    let roads = roads(&rt, rt.alloc());
    run(&rt, &roads);
}
