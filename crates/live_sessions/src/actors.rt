//! The actors of a session: feeds, desks and the scribe, each in a thread of its own.
//!
//! Where a thread cannot be made its loop runs after those beside it. So the feeds come first, then the desks, which end once
//! the feeds have, and then the scribe.
ghost use Rattle.std.specs.Thread.{IsSync};
ghost use Rattle.live_sessions.specs.inner.Actors.{LeavesScribe, MayScribe};
ghost use Rattle.live_sessions.specs.inner.Serving.{feed_run};
ghost use Rattle.live_sessions.specs.inner.Stages.{LeavesActors, LeavesDesks, LeavesFeeds, MayRunActors, MayRunDesks, MayRunFeeds};

use crate::desk_pairs::{Desks, run_desks};
use crate::feed_pairs::{Feeders, run_feeds};
use crate::shared::Shared;
use fleet_board::ActorPass;
use ride_ports::{Failed, Gate, Ran, Sink, Source};
use session_loops::{Scribed, scribe_loop};
use std::sync::Wait;
use std::thread::{Threads, join_mut};

/// The actors of a session.
#[derive(Drop)]
pub(crate) struct Actors<'r> {
    pub(crate) feeds: Feeders<'r>,
    pub(crate) desks: Desks<'r>,
    pub(crate) scribe: ActorPass<'r>,
}

/// What the loops of a session answered, those of all desks together.
#[derive(Clone, Copy)]
pub(crate) struct Answers {
    pub(crate) riders: Ran,
    pub(crate) drivers: Ran,
    pub(crate) desks: Ran,
    pub(crate) scribed: Result<Scribed, Failed>,
}

/// Runs the actors to their ends. Where the head of the log was not written, nothing is.
pub(crate) fn run_actors<'r, R: Threads + Wait + Sync, S: Source, K: Sink, G: Gate>(
    shared: &Shared<'_, 'r, R, G>,
    actors: &mut Actors<'r>,
    riders: &mut S,
    drivers: &mut S,
    out: &mut K,
    head_failed: bool,
) -> Answers
    requires { MayRunActors shared.now.board.now shared.now.log actors.old }
    ensures { LeavesActors shared.now.board.now shared.now.log
        (feed_run S.left S.faults riders.old riders.new)
        (feed_run S.left S.faults drivers.old drivers.new)
        head_failed (K.written out.old) (K.written out.new) (K.faults out.old) (K.faults out.new)
        result actors.old actors.new }
{
    let (scribed, (desks, (riders, drivers))) = run_all(
        shared,
        &mut actors.feeds,
        &mut actors.desks,
        &mut actors.scribe,
        riders,
        drivers,
        out,
        head_failed,
    );
    Answers {
        riders,
        drivers,
        desks,
        scribed,
    }
}

// Runs feeds and desks, and the scribe beside them.
fn run_all<'r, R: Threads + Wait + Sync, S: Source, K: Sink, G: Gate>(
    shared: &Shared<'_, 'r, R, G>,
    feeds: &mut Feeders<'r>,
    desks: &mut Desks<'r>,
    scribe: &mut ActorPass<'r>,
    riders: &mut S,
    drivers: &mut S,
    out: &mut K,
    head_failed: bool,
) -> (Result<Scribed, Failed>, (Ran, (Ran, Ran)))
    requires feeds { MayRunFeeds shared.now.board.now feeds.old }
    requires desks { MayRunDesks shared.now.board.now desks.old }
    requires scribe { MayScribe shared.now.board.now shared.now.log scribe.old }
    ensures feeds { LeavesFeeds shared.now.board.now
        (feed_run S.left S.faults riders.old riders.new)
        (feed_run S.left S.faults drivers.old drivers.new) result.1.1 feeds.old feeds.new }
    ensures desks { LeavesDesks shared.now.board.now result.1.0 desks.old desks.new }
    ensures scribe { LeavesScribe shared.now.board.now shared.now.log head_failed
        (K.written out.old) (K.written out.new) (K.faults out.old) (K.faults out.new)
        result.0 scribe.old scribe.new }
{
    join_mut(
        shared.rt,
        &mut || -> Result<Scribed, Failed>
            requires { MayScribe shared.now.board.now shared.now.log scribe.now }
            ensures { LeavesScribe shared.entry.now.board.now shared.entry.now.log head_failed
                (K.written out.entry.now) (K.written out.exit.now)
                (K.faults out.entry.now) (K.faults out.exit.now)
                result scribe.entry.now scribe.exit.now }
        { run_scribe(shared, scribe, out, head_failed) },
        &mut || -> (Ran, (Ran, Ran))
            requires { IsSync R.row × MayRunFeeds shared.now.board.now feeds.now
                × MayRunDesks shared.now.board.now desks.now }
            ensures { LeavesFeeds shared.entry.now.board.now
                (feed_run S.left S.faults riders.entry.now riders.exit.now)
                (feed_run S.left S.faults drivers.entry.now drivers.exit.now)
                result.1 feeds.entry.now feeds.exit.now
                × LeavesDesks shared.entry.now.board.now result.0 desks.entry.now desks.exit.now }
        { run_orders(shared, feeds, desks, riders, drivers) },
    )
}

// Runs the feeds, and the desks beside them.
fn run_orders<'r, R: Threads + Wait + Sync, S: Source, G: Gate>(
    shared: &Shared<'_, 'r, R, G>,
    feeds: &mut Feeders<'r>,
    desks: &mut Desks<'r>,
    riders: &mut S,
    drivers: &mut S,
) -> (Ran, (Ran, Ran))
    requires feeds { MayRunFeeds shared.now.board.now feeds.old }
    requires desks { MayRunDesks shared.now.board.now desks.old }
    ensures feeds { LeavesFeeds shared.now.board.now
        (feed_run S.left S.faults riders.old riders.new)
        (feed_run S.left S.faults drivers.old drivers.new) result.1 feeds.old feeds.new }
    ensures desks { LeavesDesks shared.now.board.now result.0 desks.old desks.new }
{
    join_mut(
        shared.rt,
        &mut || -> Ran
            requires { IsSync R.row × MayRunDesks shared.now.board.now desks.now }
            ensures { LeavesDesks shared.entry.now.board.now result desks.entry.now desks.exit.now }
        { run_desks(shared, desks) },
        &mut || -> (Ran, Ran)
            requires { IsSync R.row × MayRunFeeds shared.now.board.now feeds.now }
            ensures { LeavesFeeds shared.entry.now.board.now
                (feed_run S.left S.faults riders.entry.now riders.exit.now)
                (feed_run S.left S.faults drivers.entry.now drivers.exit.now)
                result feeds.entry.now feeds.exit.now }
        { run_feeds(shared, feeds, riders, drivers) },
    )
}

// Runs the scribe, where the sink took the head.
fn run_scribe<'r, R: Wait, K: Sink, G: Gate>(
    shared: &Shared<'_, 'r, R, G>,
    pass: &mut ActorPass<'r>,
    out: &mut K,
    head_failed: bool,
) -> Result<Scribed, Failed>
    requires { MayScribe shared.now.board.now shared.now.log pass.old }
    ensures { LeavesScribe shared.now.board.now shared.now.log head_failed
        (K.written out.old) (K.written out.new) (K.faults out.old) (K.faults out.new)
        result pass.old pass.new }
{
    if head_failed {
        return Err(Failed);
    }
    scribe_loop(shared.rt, shared.alloc, shared.board, pass, out, shared.log)
}
