//! The board's own calls, and the same calls through passes of a shared board.
ghost use Rattle.std.specs.Prelude.{◌≡◌, ◌≤◌, ◌+◌, [], length, Some, IsSome, IfOk, OnOk};
ghost use Rattle.std.specs.Thread.{IsSync};
ghost use Rattle.turn_lock.specs.Passes.{knowledge};
ghost use Rattle.fleet_board.specs.inner.Passes.{commands_in};
ghost use Rattle.fleet_board.specs.Roles.{MayFeed};
ghost use Rattle.ride_bench.specs.Shared.{MayBegin, MayLook};

use crate::boards::board;
use crate::stopwatch::Stopwatch;
use adaptive_roads::Roads;
use board_core::Board;
use fleet_board::{ActorPass, PassSet, SharedBoard};
use ride_model::{Command, Ending, Entry, Event, NoMemory};
use std::alloc::{AllocError, Global};
use std::io;
use std::rt::Clock;
use std::sync::Wait;
use std::thread::{Threads, join_mut};

/// The most entries that the scribe copies at a look.
const MOST: u32 = 1024;

/// How many commands are timed.
const COMMANDS: u32 = 1_000_000;

/// Whose calls are timed.
#[derive(Clone, Copy)]
enum Load {
    OneFeed,
    TwoFeeds,
    FeedsAndScribe,
}

/// The passes of two feeds and of the scribe.
#[derive(Drop)]
struct Passes<'r> {
    first: ActorPass<'r>,
    second: ActorPass<'r>,
    scribe: ActorPass<'r>,
}

// Applies so many commands as feed 1, without a lock.
fn apply_clocks(board: &mut Board<'_>, count: u32) -> Result<(), NoMemory>
    requires feeds { board.old.feeds ≡ 2 }
    requires history { board.old.history ≡ [] }
    requires count { count ≤ 1000000 }
    ensures applied { OnOk result (length board.new.history ≡ count) }
{
    // This call tells that no feed has ended.
    let _entries = board.entries();
    for time in 0..count {
        let _reply = board.apply(
            1,
            &Command::Clock {
                time: u64::from(time),
            },
        )?;
    }
    Ok(())
}

// Submits so many commands of a feed.
fn submit_clocks<'r, R: Wait>(
    rt: &R,
    board: &SharedBoard<'r>,
    feed: &mut ActorPass<'r>,
    count: u32,
) -> Result<(), NoMemory>
    requires feed { MayBegin board.now feed.old }
    requires count { count ≤ 1000000 }
    ensures feed { MayFeed board.now feed.new }
    ensures submitted { OnOk result (length (commands_in (knowledge feed.new).own) ≡ count) }
{
    for time in 0..count {
        let _reply = board.submit(
            rt,
            feed,
            &Command::Clock {
                time: u64::from(time),
            },
        )?;
    }
    Ok(())
}

// Submits so many commands of a feed and ends it, so that the scribe ends too.
fn run_feed<'r, R: Wait>(
    rt: &R,
    board: &SharedBoard<'r>,
    feed: &mut ActorPass<'r>,
    count: u32,
) -> Result<(), NoMemory>
    requires feed { MayBegin board.now feed.old }
    requires count { count ≤ 1000000 }
    ensures submitted { OnOk result (length (commands_in (knowledge feed.new).own) ≡ count) }
{
    let submitted = submit_clocks(rt, board, feed, count);
    board.end(rt, feed, Ending::Whole);
    submitted
}

// Runs two feeds in a thread each.
fn run_feeds<'a, 'r, R: Threads + Wait + Sync>(
    rt: &'a R,
    board: &'a SharedBoard<'r>,
    first: &mut ActorPass<'r>,
    second: &mut ActorPass<'r>,
    each: u32,
) -> (Result<(), NoMemory>, Result<(), NoMemory>)
    requires first { MayBegin board.now first.old }
    requires second { MayBegin board.now second.old }
    requires each { each ≤ 1000000 }
    ensures first { OnOk result.0 (length (commands_in (knowledge first.new).own) ≡ each) }
    ensures second { OnOk result.1 (length (commands_in (knowledge second.new).own) ≡ each) }
{
    join_mut(
        rt,
        &mut || -> Result<(), NoMemory>
            requires { MayBegin board.now first.now × (each ≤ 1000000) }
            ensures { OnOk result (length (commands_in (knowledge first.exit.now).own) ≡ each) }
        { run_feed(rt, board, first, each) },
        &mut || -> Result<(), NoMemory>
            requires { MayBegin board.now second.now × (each ≤ 1000000) }
            ensures { OnOk result (length (commands_in (knowledge second.exit.now).own) ≡ each) }
        { run_feed(rt, board, second, each) },
    )
}

// How many of these entries end an actor.
fn ends_in(entries: &[Entry]) -> u32 {
    let mut ends = 0u32;
    for entry in entries {
        if matches!(entry.event, Event::Finish { .. }) {
            ends = ends.wrapping_add(1);
        }
    }
    ends
}

// The next entries of the history from a place on: the place behind them, and how many of them end an actor.
fn look<'r, R: Wait>(
    rt: &R,
    alloc: Global,
    board: &SharedBoard<'r>,
    scribe: &mut ActorPass<'r>,
    from: u64,
) -> Result<(u64, u32), NoMemory>
    requires scribe { MayLook board.now scribe.old }
    requires from { from ≤ length (knowledge scribe.old).seen }
    ensures scribe { MayLook board.now scribe.new }
    ensures next { IfOk result (λ found. (from ≤ found.0)
        × (found.0 ≤ length (knowledge scribe.new).seen)) }
{
    let tail = board.tail(rt, alloc, scribe, from, MOST)?;
    let entries = tail.entries.as_slice();
    let next = place_behind(from, entries)?;
    Ok((next, ends_in(entries)))
}

// The place behind entries. More than a number counts do not fit into memory.
fn place_behind(from: u64, entries: &[Entry]) -> Result<u64, NoMemory>
    ensures { IfOk result (λ next. next ≡ from + length entries.now) }
{
    from.checked_add(entries.len() as u64).ok_or(AllocError)
}

// Looks at the history as it grows until two actors have ended, and answers how many entries it has seen by then.
fn run_scribe<'r, R: Wait>(
    rt: &R,
    alloc: Global,
    board: &SharedBoard<'r>,
    scribe: &mut ActorPass<'r>,
) -> Result<u64, NoMemory>
    requires scribe { MayLook board.now scribe.old }
    ensures seen { IfOk result (λ count. count ≤ length (knowledge scribe.new).seen) }
{
    let mut count = 0;
    let mut ends = 0u32;
    'looks: for _ in rt.forever() {
        let (next, more_ends) = look(rt, alloc, board, scribe, count)?;
        let caught_up = next == count;
        count = next;
        ends = ends.wrapping_add(more_ends);
        if ends >= 2 {
            return Ok(count);
        }
        if caught_up {
            board.wait_for_news(rt, scribe);
        }
    }
    unreachable!()
}

// Runs two feeds, and the scribe beside them. Where a thread cannot be made the scribe comes last.
fn run_all<'a, 'r, R: Threads + Wait + Sync>(
    rt: &'a R,
    alloc: Global,
    board: &'a SharedBoard<'r>,
    first: &mut ActorPass<'r>,
    second: &mut ActorPass<'r>,
    scribe: &mut ActorPass<'r>,
    each: u32,
) -> (
    Result<u64, NoMemory>,
    (Result<(), NoMemory>, Result<(), NoMemory>),
)
    requires first { MayBegin board.now first.old }
    requires second { MayBegin board.now second.old }
    requires scribe { MayLook board.now scribe.old }
    requires each { each ≤ 1000000 }
    ensures first { OnOk result.1.0 (length (commands_in (knowledge first.new).own) ≡ each) }
    ensures second { OnOk result.1.1 (length (commands_in (knowledge second.new).own) ≡ each) }
    ensures seen { IfOk result.0 (λ count. count ≤ length (knowledge scribe.new).seen) }
{
    join_mut(
        rt,
        &mut || -> Result<u64, NoMemory>
            requires { MayLook board.now scribe.now }
            ensures { IfOk result (λ count. count ≤ length (knowledge scribe.exit.now).seen) }
        { run_scribe(rt, alloc, board, scribe) },
        &mut || -> (Result<(), NoMemory>, Result<(), NoMemory>)
            requires { IsSync R.row × MayBegin board.now first.now × MayBegin board.now second.now
                × (each ≤ 1000000) }
            ensures { OnOk result.0 (length (commands_in (knowledge first.exit.now).own) ≡ each)
                × OnOk result.1 (length (commands_in (knowledge second.exit.now).own) ≡ each) }
        { run_feeds(rt, board, first, second, each) },
    )
}

// The passes of two feeds and of the scribe.
fn passes_of<'r>(passes: PassSet<'r>) -> Passes<'r>
    requires first { IsSome passes.feed_1 }
    requires second { IsSome passes.feed_2 }
    ensures first { passes.entry.feed_1 ≡ Some result.first }
    ensures second { passes.entry.feed_2 ≡ Some result.second }
    ensures scribe { passes.entry.scribe ≡ result.scribe }
{
    let PassSet {
        feed_1,
        feed_2,
        scribe,
        ..
    } = passes;
    let Some(first) = feed_1 else {
        unreachable!();
    };
    let Some(second) = feed_2 else {
        unreachable!();
    };
    Passes {
        first,
        second,
        scribe,
    }
}

// A shared board on which nothing happened yet, and its passes.
fn share(alloc: Global, roads: &Roads) -> Result<(SharedBoard<'_>, Passes<'_>), NoMemory>
    requires { roads.now.nodes ≡ 4 }
    ensures first { IfOk result (λ r. MayBegin r.0 r.1.first) }
    ensures second { IfOk result (λ r. MayBegin r.0 r.1.second) }
    ensures scribe { IfOk result (λ r. MayLook r.0 r.1.scribe) }
{
    let fresh = board(alloc, roads)?;
    let (shared, passes) = SharedBoard::start(alloc, fresh)?;
    Ok((shared, passes_of(passes)))
}

// Prints how many commands a second were answered.
fn print_rate(rt: &impl Print, name: &str, micros: u128) -> io::Result<()> {
    let rate = u128::from(COMMANDS) * 1_000_000 / micros.max(1);
    println!(rt; "{name}: {rate} commands a second")
}

// The microseconds of the board's own calls, without a lock.
fn time_own<R: Clock>(rt: &R, alloc: Global, roads: &Roads) -> Result<u128, NoMemory>
    requires { roads.now.nodes ≡ 4 }
{
    let mut board = board(alloc, roads)?;
    time_clocks(rt, &mut board)
}

// The microseconds of a board's own calls.
fn time_clocks<R: Clock>(rt: &R, board: &mut Board<'_>) -> Result<u128, NoMemory>
    requires feeds { board.old.feeds ≡ 2 }
    requires history { board.old.history ≡ [] }
{
    let watch = Stopwatch::start(rt);
    apply_clocks(board, COMMANDS)?;
    Ok(watch.elapsed(rt).as_micros())
}

// Runs new passes: one feed, two feeds, or two feeds and the scribe. Answers how many entries the scribe saw.
fn run_passes<'r, R: Threads + Wait + Sync>(
    rt: &R,
    alloc: Global,
    board: &SharedBoard<'r>,
    passes: &mut Passes<'r>,
    load: Load,
    each: u32,
) -> Result<u64, NoMemory>
    requires first { MayBegin board.now passes.old.first }
    requires second { MayBegin board.now passes.old.second }
    requires scribe { MayLook board.now passes.old.scribe }
    requires each { each ≤ 1000000 }
{
    let Passes {
        first,
        second,
        scribe,
    } = passes;
    let (seen, (first_fed, second_fed)) = match load {
        Load::OneFeed => (Ok(0), (run_feed(rt, board, first, each), Ok(()))),
        Load::TwoFeeds => (Ok(0), run_feeds(rt, board, first, second, each)),
        Load::FeedsAndScribe => run_all(rt, alloc, board, first, second, scribe, each),
    };
    first_fed.and(second_fed).and(seen)
}

// The microseconds that new passes run, and how many entries the scribe saw.
fn time_passes<'r, R: Clock + Threads + Wait + Sync>(
    rt: &R,
    alloc: Global,
    board: &SharedBoard<'r>,
    passes: &mut Passes<'r>,
    load: Load,
    each: u32,
) -> Result<(u128, u64), NoMemory>
    requires first { MayBegin board.now passes.old.first }
    requires second { MayBegin board.now passes.old.second }
    requires scribe { MayLook board.now passes.old.scribe }
    requires each { each ≤ 1000000 }
{
    let watch = Stopwatch::start(rt);
    let entries = run_passes(rt, alloc, board, passes, load, each)?;
    Ok((watch.elapsed(rt).as_micros(), entries))
}

// The same of a new board.
fn time_load<R: Clock + Threads + Wait + Sync>(
    rt: &R,
    alloc: Global,
    roads: &Roads,
    load: Load,
    each: u32,
) -> Result<(u128, u64), NoMemory>
    requires roads { roads.now.nodes ≡ 4 }
    requires each { each ≤ 1000000 }
{
    let (board, mut passes) = share(alloc, roads)?;
    time_passes(rt, alloc, &board, &mut passes, load, each)
}

// How many entries two passes of 1,000 submits and an end each leave.
fn entries_seen<R: Clock + Threads + Wait + Sync>(rt: &R, alloc: Global) -> Result<u64, NoMemory> {
    let roads = plan_trials::trial_town::roads(alloc)?;
    let (_, entries) = time_load(rt, alloc, &roads, Load::FeedsAndScribe, 1000)?;
    Ok(entries)
}

/// Prints how many entries two passes of 1,000 submits and an end each leave.
pub fn small<R: Clock + Print + Threads + Wait + Sync>(rt: &R, alloc: Global) -> io::Result<()> {
    let entries = entries_seen(rt, alloc)?;
    println!(rt; "shared {entries} entries")
}

// Times passes that give all commands together.
fn time_rate<R: Clock + Print + Threads + Wait + Sync>(
    rt: &R,
    alloc: Global,
    roads: &Roads,
    name: &str,
    load: Load,
    each: u32,
) -> io::Result<()>
    requires roads { roads.now.nodes ≡ 4 }
    requires each { each ≤ 1000000 }
{
    let (micros, _) = time_load(rt, alloc, roads, load, each)?;
    print_rate(rt, name, micros)
}

// Times the board's own calls, and those of one pass, of two, and of two beside the scribe.
fn time_all<R: Clock + Print + Threads + Wait + Sync>(
    rt: &R,
    alloc: Global,
    roads: &Roads,
) -> io::Result<()>
    requires { roads.now.nodes ≡ 4 }
{
    print_rate(rt, "no lock", time_own(rt, alloc, roads)?)?;
    time_rate(rt, alloc, roads, "one pass", Load::OneFeed, COMMANDS)?;
    time_rate(rt, alloc, roads, "two passes", Load::TwoFeeds, COMMANDS / 2)?;
    time_rate(
        rt,
        alloc,
        roads,
        "two passes and the scribe",
        Load::FeedsAndScribe,
        COMMANDS / 2,
    )
}

/// Times the board's own calls, and those of one pass, of two, and of two beside the scribe.
pub fn shared<R: Clock + Print + Threads + Wait + Sync>(rt: &R, alloc: Global) -> io::Result<()> {
    let roads = plan_trials::trial_town::roads(alloc)?;
    time_all(rt, alloc, &roads)
}
