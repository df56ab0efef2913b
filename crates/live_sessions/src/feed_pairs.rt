//! The feeds of riders and of drivers beside one another.
ghost use Rattle.live_sessions.specs.inner.Actors.{LeavesFeeder, MayRunFeeder};
ghost use Rattle.live_sessions.specs.inner.Serving.{feed_run};
ghost use Rattle.live_sessions.specs.inner.Stages.{LeavesFeeds, MayRunFeeds};

use crate::living::FeedStart;
use crate::outcomes::nothing_wanting;
use crate::shared::Shared;
use fleet_board::ActorPass;
use ride_ports::{Gate, Ran, Source};
use session_loops::feed_loop;
use std::sync::Wait;
use std::thread::{Threads, join_mut};

/// A feed: its pass, and how it stands when the session begins.
#[derive(Drop)]
pub(crate) struct Feeder<'r> {
    pub(crate) pass: ActorPass<'r>,
    pub(crate) start: FeedStart,
}

/// The feed of riders, which is feed 1, and that of drivers, feed 2, where there is one.
#[derive(Drop)]
pub(crate) struct Feeders<'r> {
    pub(crate) riders: Feeder<'r>,
    pub(crate) drivers: Option<Feeder<'r>>,
}

// Runs a feed. Of one that has ended nothing is read.
fn run_feed<'r, R: Wait, S: Source, G: Gate>(
    shared: &Shared<'_, 'r, R, G>,
    feeder: &mut Feeder<'r>,
    source: &mut S,
) -> Ran
    requires { MayRunFeeder shared.now.board.now feeder.old }
    ensures { LeavesFeeder shared.now.board.now
        (feed_run S.left S.faults source.old source.new) result feeder.old feeder.new }
{
    if !feeder.start.lives {
        return nothing_wanting();
    }
    feed_loop(
        shared.rt,
        shared.alloc,
        shared.board,
        &mut feeder.pass,
        source,
        shared.gate,
        feeder.start.form,
    )
}

// Runs two feeds.
fn run_both_feeds<'r, R: Threads + Wait + Sync, S: Source, G: Gate>(
    shared: &Shared<'_, 'r, R, G>,
    one: &mut Feeder<'r>,
    two: &mut Feeder<'r>,
    riders: &mut S,
    drivers: &mut S,
) -> (Ran, Ran)
    requires one { MayRunFeeder shared.now.board.now one.old }
    requires two { MayRunFeeder shared.now.board.now two.old }
    ensures one { LeavesFeeder shared.now.board.now
        (feed_run S.left S.faults riders.old riders.new) result.0 one.old one.new }
    ensures two { LeavesFeeder shared.now.board.now
        (feed_run S.left S.faults drivers.old drivers.new) result.1 two.old two.new }
{
    join_mut(
        shared.rt,
        &mut || -> Ran
            requires { MayRunFeeder shared.now.board.now one.now }
            ensures { LeavesFeeder shared.entry.now.board.now
                (feed_run S.left S.faults riders.entry.now riders.exit.now)
                result one.entry.now one.exit.now }
        { run_feed(shared, one, riders) },
        &mut || -> Ran
            requires { MayRunFeeder shared.now.board.now two.now }
            ensures { LeavesFeeder shared.entry.now.board.now
                (feed_run S.left S.faults drivers.entry.now drivers.exit.now)
                result two.entry.now two.exit.now }
        { run_feed(shared, two, drivers) },
    )
}

/// Runs the feeds of riders and of drivers. Where there is no feed of drivers, nothing of theirs is read.
pub(crate) fn run_feeds<'r, R: Threads + Wait + Sync, S: Source, G: Gate>(
    shared: &Shared<'_, 'r, R, G>,
    feeders: &mut Feeders<'r>,
    riders: &mut S,
    drivers: &mut S,
) -> (Ran, Ran)
    requires { MayRunFeeds shared.now.board.now feeders.old }
    ensures { LeavesFeeds shared.now.board.now
        (feed_run S.left S.faults riders.old riders.new)
        (feed_run S.left S.faults drivers.old drivers.new) result feeders.old feeders.new }
{
    let Some(mut second) = feeders.drivers.take() else {
        let ran = run_feed(shared, &mut feeders.riders, riders);
        return (ran, nothing_wanting());
    };
    let answers = run_both_feeds(shared, &mut feeders.riders, &mut second, riders, drivers);
    feeders.drivers = Some(second);
    answers
}
