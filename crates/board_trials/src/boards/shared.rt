//! Boards that passes share: a booking that comes due, desks that seat, a rider who cancels in an open batch, orders that go stale, and
//! what a scribe reads.
ghost use Rattle.std.specs.Prelude.{◌≡◌, ◌≤◌, ◌<◌, ℕ, [], ◌∷◌, length, All};
ghost use Rattle.ride_model.specs.Legal.{versions_of};
ghost use Rattle.ride_model.specs.Text.{IsSpelledCommand};
ghost use Rattle.turn_lock.specs.Passes.{knowledge};
ghost use Rattle.fleet_board.specs.inner.Passes.{IsPoint, commands_in, root_of};
ghost use Rattle.batch_commit.specs.inner.Table.{IsPriceable};
ghost use Rattle.fleet_board.specs.Roles.{MayFeed, MayOpen, MayCommit};
ghost use Rattle.fleet_board.specs.Sharing.{MayUse};
ghost use Rattle.booking_desk.specs.Desk.{Booking};
ghost use Rattle.idle_moves.specs.inner.Watch.{Watches, watched_ids};

use super::days::is_spelled;
use super::{CANCEL, EIGHT, NINE, SEVEN, roads};
use adaptive_roads::Roads;
use batch_commit::Batch;
use board_core::{Board, Opening};
use booking_desk::BookingDesk;
use fleet_board::{ActorPass, PassSet, SharedBoard};
use idle_moves::{Move, VersionWatch};
use plan_trials::trial_town::{fleet, settings};
use pricing_workers::{Pricer, seat_batch};
use ride_model::{Command, Entry, Event, Outcome};
use ride_ports::OpenGate;
use std::alloc::Global;
use std::process::Abort;
use std::sync::Wait;
use std::thread::Threads;

/// What happens on a shared board of one vehicle, one feed and so many desks, and what is read of it then.
struct Play {
    shows: &'static str,
    desks: u8,
    /// Whether a booking comes due first.
    books: bool,
    told: &'static [Command],
    /// How many desks then open a batch, each of which is committed in the same order.
    batches: u8,
    /// What is told while the first one's batch is open, where there is no second one.
    told_then: &'static [Command],
    /// How many entries there are.
    entries: usize,
    /// What the last of them finds, where it is a commit.
    outcomes: &'static [(u64, Outcome)],
    /// How many entries a watch takes into account at once.
    most: u32,
    /// The version of the vehicle after each time until the watch has caught up.
    versions: &'static [u64],
}

/// Vehicle 1 goes off duty.
const OFF: Command = Command::Off { vehicle: 1 };

const ON: Command = Command::On { vehicle: 1 };

/// A report of vehicle 1 at a node.
macro_rules! at_node {
    ($node:expr) => {
        Command::At {
            vehicle: 1,
            node: $node,
            time: 5,
        }
    };
}

const AT_NODE_1: Command = at_node!(1);

const AT_NODE_2: Command = at_node!(2);

/// A report of a node that is not on the map.
const AT_NODE_9: Command = at_node!(9);

/// Desks open batches and commit them.
static BATCHES: [Play; 3] = [
    Play {
        shows: "each of two desks has a batch of one request, and the second one's pair is stale",
        desks: 2,
        books: false,
        told: &[SEVEN, EIGHT, Command::Ask, Command::Ask],
        batches: 2,
        told_then: &[],
        entries: 8,
        outcomes: &[(
            8,
            Outcome::Moved {
                named: 0,
                stands: 1,
            },
        )],
        most: 100,
        versions: &[1],
    },
    Play {
        shows: "a rider cancels while the batch is open, whose commit finds the request gone",
        desks: 2,
        books: false,
        told: &[SEVEN, Command::Ask],
        batches: 1,
        told_then: &[CANCEL],
        entries: 5,
        outcomes: &[(7, Outcome::Gone)],
        most: 100,
        versions: &[0],
    },
    Play {
        shows: "an order goes stale where a ride is confirmed",
        desks: 1,
        books: false,
        told: &[SEVEN, Command::Ask],
        batches: 1,
        told_then: &[],
        entries: 4,
        outcomes: &[(7, Outcome::Confirmed)],
        most: 100,
        versions: &[1],
    },
];

/// The feed reports.
static REPORTS: [Play; 3] = [
    Play {
        shows: "an order of version 0 no longer stands",
        desks: 1,
        books: false,
        told: &[OFF],
        batches: 0,
        told_then: &[],
        entries: 1,
        outcomes: &[],
        most: 100,
        versions: &[1],
    },
    Play {
        shows: "each accepted report makes a version, and no other entry does",
        desks: 1,
        books: false,
        told: &[
            AT_NODE_1,
            Command::Clock { time: 9 },
            Command::Done { vehicle: 1 },
            AT_NODE_9,
            OFF,
            ON,
            AT_NODE_2,
        ],
        batches: 0,
        told_then: &[],
        entries: 7,
        outcomes: &[],
        most: 1,
        versions: &[1, 1, 1, 1, 2, 3, 4, 4],
    },
    Play {
        shows: "where as many entries stood there as were wanted, the watch has not caught up",
        desks: 1,
        books: false,
        told: &[AT_NODE_1, OFF, ON, AT_NODE_2],
        batches: 0,
        told_then: &[],
        entries: 4,
        outcomes: &[],
        most: 2,
        versions: &[2, 4, 4],
    },
];

/// A booking comes due.
static BOOKINGS: [Play; 1] = [Play {
    shows: "a booking that is due is submitted once",
    desks: 1,
    books: true,
    told: &[],
    batches: 0,
    told_then: &[],
    entries: 1,
    outcomes: &[],
    most: 100,
    versions: &[0],
}];

// How many entries a feed has seen, of which no more are its own commands.
fn seen(feed: &ActorPass<'_>) -> u64
    requires { IsPoint (knowledge feed.now) }
    ensures { length (commands_in (knowledge feed.now).own) ≤ result }
{
    feed.seen()
}

// Submits commands.
fn tell_all<'r, R: Wait + Abort>(
    rt: &R,
    board: &SharedBoard<'r>,
    feed: &mut ActorPass<'r>,
    commands: &[Command],
)
    requires { MayFeed board.now feed.old }
    ensures { MayFeed board.now feed.new }
{
    for command in commands {
        assert!(rt; is_spelled(command));
        assert!(rt; seen(feed) < 1_000);
        assert!(rt; board.submit(rt, feed, command).is_ok());
    }
}

// A desk whose one booking is due.
fn desk_with_one(rt: &impl Abort, alloc: Global) -> BookingDesk
    ensures { (log : ℕ)
        → All (λ (booking : Booking). IsSpelledCommand log booking.request) result.held }
{
    let request = NINE;
    assert!(rt; is_spelled(&request));
    let Ok(mut desk) = BookingDesk::new(alloc, 1) else {
        panic!(rt; "there is memory");
    };
    let Ok(_) = desk.book(60, &request) else {
        panic!(rt; "there is memory");
    };
    desk.clock(60);
    desk
}

// What is due is submitted once.
fn release<'r, R: Wait + Abort + AllocGlobal>(
    rt: &R,
    board: &SharedBoard<'r>,
    feed: &mut ActorPass<'r>,
)
    requires { MayFeed board.now feed.old }
    ensures { MayFeed board.now feed.new }
{
    let mut desk = desk_with_one(rt, rt.alloc());
    assert!(rt; seen(feed) < 1_000);
    assert!(rt; desk.release_due(rt, board, feed) == Ok(1));
    assert!(rt; desk.held() == 0 && feed.seen() == 1);
    assert!(rt; desk.due().is_none());
}

// What the feed of a play gives before batches are opened.
fn begin<'r, R: Wait + Abort + AllocGlobal>(
    rt: &R,
    board: &SharedBoard<'r>,
    feed: &mut ActorPass<'r>,
    play: &Play,
)
    requires { MayFeed board.now feed.old }
    ensures { MayFeed board.now feed.new }
{
    if play.books {
        release(rt, board, feed);
    } else {
        tell_all(rt, board, feed, play.told);
    }
}

// Opens a batch that was asked for.
fn open<'r, R: Wait + Abort>(rt: &R, board: &SharedBoard<'r>, desk: &mut ActorPass<'r>) -> Batch
    requires { MayOpen board.now desk.old }
    ensures open_now { MayCommit board.now desk.new result }
    ensures priceable { IsPriceable (root_of (knowledge desk.new)).start.roads result }
    ensures root { (knowledge desk.new).root ≡ (knowledge desk.old).root }
{
    match board.open_batch(rt, desk) {
        Ok(Opening::Batch(batch)) => batch,
        Ok(Opening::Idle) => panic!(rt; "a batch was asked for"),
        Ok(Opening::Ended) => panic!(rt; "a batch was asked for"),
        Err(_) => panic!(rt; "there is memory"),
    }
}

// Commits an open batch.
fn commit<'r, R: Threads + Wait + Sync + Abort>(
    rt: &R,
    board: &SharedBoard<'r>,
    desk: &mut ActorPass<'r>,
    pricer: &mut Pricer<'_>,
    batch: Batch,
)
    requires desk { MayCommit board.now desk.old batch }
    requires priceable { IsPriceable pricer.old batch }
    requires roads { pricer.old ≡ (root_of (knowledge desk.old)).start.roads }
    ensures { pricer.new ≡ pricer.old }
{
    match seat_batch(rt, batch, pricer, &OpenGate) {
        Ok(solved) => board.commit(rt, desk, solved),
        Err(_) => panic!(rt; "there is memory"),
    }
}

// One desk opens a batch, and commits it once this was told.
fn seat_by_one<'r, R: Threads + Wait + Sync + Abort>(
    rt: &R,
    board: &SharedBoard<'r>,
    feed: &mut ActorPass<'r>,
    desk: &mut ActorPass<'r>,
    pricer: &mut Pricer<'_>,
    told_then: &[Command],
)
    requires feed { MayFeed board.now feed.old }
    requires desk { MayOpen board.now desk.old }
    requires roads { pricer.old ≡ (root_of (knowledge desk.old)).start.roads }
{
    let batch = open(rt, board, desk);
    tell_all(rt, board, feed, told_then);
    commit(rt, board, desk, pricer, batch);
}

// Two desks open batches, and commit them in the same order.
fn seat_by_two<'r, R: Threads + Wait + Sync + Abort>(
    rt: &R,
    board: &SharedBoard<'r>,
    first: &mut ActorPass<'r>,
    second: &mut ActorPass<'r>,
    pricer: &mut Pricer<'_>,
)
    requires first { MayOpen board.now first.old }
    requires second { MayOpen board.now second.old }
    requires roads_of_first { pricer.old ≡ (root_of (knowledge first.old)).start.roads }
    requires roads_of_second { pricer.old ≡ (root_of (knowledge second.old)).start.roads }
{
    let seven = open(rt, board, first);
    let eight = open(rt, board, second);
    commit(rt, board, first, pricer, seven);
    commit(rt, board, second, pricer, eight);
}

/// An order to vehicle 1 that names a version.
fn order(version: u64) -> Move
    ensures vehicle { result.vehicle ≡ 1 }
{
    Move {
        request: 9,
        vehicle: 1,
        version,
        node: 3,
        seconds: 120,
    }
}

// The watch catches up or does not, after which an order stands that names a version, and others do not.
fn expect_version<'r, R: Wait + Abort + AllocGlobal>(
    rt: &R,
    board: &SharedBoard<'r>,
    scribe: &mut ActorPass<'r>,
    watch: &mut VersionWatch,
    most: u32,
    caught_up: bool,
    version: u64,
)
    requires pass { MayUse board.now scribe.old }
    requires point { IsPoint (knowledge scribe.old) }
    requires watches { Watches (knowledge scribe.old) watch.old }
    requires some { 1 ≤ most }
    requires vehicle { watched_ids watch.old ≡ 1 ∷ [] }
    ensures pass { MayUse board.now scribe.new }
    ensures point { IsPoint (knowledge scribe.new) }
    ensures watches { Watches (knowledge scribe.new) watch.new }
    ensures vehicle { watched_ids watch.new ≡ 1 ∷ [] }
{
    assert!(rt; watch.catch_up(rt, rt.alloc(), board, scribe, most) == Ok(caught_up));
    assert!(rt; watch.stands(&order(version)) == Ok(()));
    for other in 0..9 {
        if other != version {
            assert!(rt; watch.stands(&order(other)) == Err((other, version)));
        }
    }
}

// The watch catches up step by step, the last time with fewer entries than are wanted.
fn expect_versions<'r, R: Wait + Abort + AllocGlobal>(
    rt: &R,
    board: &SharedBoard<'r>,
    scribe: &mut ActorPass<'r>,
    watch: &mut VersionWatch,
    play: &Play,
)
    requires pass { MayUse board.now scribe.old }
    requires point { IsPoint (knowledge scribe.old) }
    requires watches { Watches (knowledge scribe.old) watch.old }
    requires vehicle { watched_ids watch.old ≡ 1 ∷ [] }
    ensures pass { MayUse board.now scribe.new }
    ensures point { IsPoint (knowledge scribe.new) }
{
    assert!(rt; play.most >= 1);
    let steps = play.versions.len();
    for (step, version) in play.versions.iter().enumerate() {
        let caught_up = step + 1 == steps;
        expect_version(rt, board, scribe, watch, play.most, caught_up, *version);
    }
}

// What a scribe is told of the entries from each place on, at most three at a time.
fn expect_tails<'r, R: Wait + Abort + AllocGlobal>(
    rt: &R,
    board: &SharedBoard<'r>,
    scribe: &mut ActorPass<'r>,
    entries: usize,
)
    requires pass { MayUse board.now scribe.old }
    requires point { IsPoint (knowledge scribe.old) }
    ensures pass { MayUse board.now scribe.new }
    ensures point { IsPoint (knowledge scribe.new) }
{
    for from in 0..=entries {
        let tail = board.tail(rt, rt.alloc(), scribe, from as u64, 3);
        let tail = tail.expect(rt, "there is memory");
        assert!(rt; tail.entries.len() == (entries - from).min(3) && !tail.settled);
    }
}

// The last of so many entries is a commit that finds this.
fn expect_outcomes<'r, R: Wait + Abort + AllocGlobal>(
    rt: &R,
    board: &SharedBoard<'r>,
    scribe: &mut ActorPass<'r>,
    play: &Play,
)
    requires pass { MayUse board.now scribe.old }
    requires point { IsPoint (knowledge scribe.old) }
{
    let last = play.entries.saturating_sub(1) as u64;
    let tail = board.tail(rt, rt.alloc(), scribe, last, 3);
    let tail = tail.expect(rt, "there is memory");
    assert!(rt;
        has_outcomes(&tail.entries, play.outcomes),
        "{}",
        play.shows
    );
}

// Whether entries are one, which finds this where it is a commit.
fn has_outcomes(entries: &[Entry], outcomes: &[(u64, Outcome)]) -> bool {
    let [entry] = entries else {
        return false;
    };
    match &entry.event {
        Event::Committed {
            outcomes: found,
            ..
        } => found.items() == outcomes,
        _ => outcomes.is_empty(),
    }
}

// What is read of a board once a play is over.
fn expect_read<'r, R: Wait + Abort + AllocGlobal>(
    rt: &R,
    board: &SharedBoard<'r>,
    scribe: &mut ActorPass<'r>,
    watch: &mut VersionWatch,
    play: &Play,
)
    requires pass { MayUse board.now scribe.old }
    requires point { IsPoint (knowledge scribe.old) }
    requires watches { Watches (knowledge scribe.old) watch.old }
    requires vehicle { watched_ids watch.old ≡ 1 ∷ [] }
{
    expect_versions(rt, board, scribe, watch, play);
    expect_tails(rt, board, scribe, play.entries);
    expect_outcomes(rt, board, scribe, play);
}

// A play is given to a board that is shared for it.
fn share<'r, R: Threads + Wait + Sync + Abort + AllocGlobal>(
    rt: &R,
    board: Board<'r>,
    watch: &mut VersionWatch,
    pricer: &mut Pricer<'_>,
    play: &Play,
)
    requires roads { pricer.old ≡ board.start.roads }
    requires history { board.history ≡ [] }
    requires place { watch.old.place ≡ 0 }
    requires versions { watch.old.versions ≡ versions_of board.start.vehicles }
    requires vehicle { watched_ids watch.old ≡ 1 ∷ [] }
{
    let Ok(started) = SharedBoard::start(rt.alloc(), board) else {
        panic!(rt; "there is memory");
    };
    let (board, passes) = started;
    let PassSet {
        feed_1,
        desk_1,
        desk_2,
        mut scribe,
        ..
    } = passes;
    let Some(mut feed) = feed_1 else {
        panic!(rt; "a board has a feed");
    };
    let Some(mut first) = desk_1 else {
        panic!(rt; "a board has a desk");
    };
    begin(rt, &board, &mut feed, play);
    match play.batches {
        0 => {}
        1 => seat_by_one(rt, &board, &mut feed, &mut first, pricer, play.told_then),
        _ => {
            let Some(mut second) = desk_2 else {
                panic!(rt; "this board has two desks");
            };
            seat_by_two(rt, &board, &mut first, &mut second, pricer);
        }
    }
    expect_read(rt, &board, &mut scribe, watch, play);
}

// The same on a new board.
fn run<R: Threads + Wait + Sync + Abort + AllocGlobal>(rt: &R, roads: &Roads, play: &Play)
    requires { roads.now.nodes ≡ 4 }
{
    let alloc = rt.alloc();
    assert!(rt; 1 <= play.desks && play.desks <= 2);
    let Ok(fleet) = fleet(alloc, roads) else {
        panic!(rt; "there is memory");
    };
    let Ok(mut watch) = VersionWatch::new(alloc, &fleet) else {
        panic!(rt; "there is memory");
    };
    let Ok(board) = Board::new(alloc, roads, settings(1), fleet, 1, play.desks) else {
        panic!(rt; "there is memory");
    };
    let Ok(mut pricer) = Pricer::new(alloc, roads, play.desks as usize) else {
        panic!(rt; "there is memory");
    };
    share(rt, board, &mut watch, &mut pricer, play);
}

fn run_all<R: Threads + Wait + Sync + Abort + AllocGlobal>(rt: &R, roads: &Roads, plays: &[Play])
    requires { roads.now.nodes ≡ 4 }
{
    for play in plays {
        run(rt, roads, play);
    }
}

#[test]
fn passes_share_a_board(rt: HostRuntime) {
    let roads = roads(&rt, rt.alloc());
    run_all(&rt, &roads, BATCHES.as_slice());
    run_all(&rt, &roads, REPORTS.as_slice());
    run_all(&rt, &roads, BOOKINGS.as_slice());
}
