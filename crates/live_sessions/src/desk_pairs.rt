//! One desk, or two beside one another.
ghost use Rattle.std.specs.Thread.{IsSync};
ghost use Rattle.live_sessions.specs.inner.Actors.{LeavesDesk, MayRunDesk};
ghost use Rattle.live_sessions.specs.inner.Stages.{LeavesDesks, MayRunDesks};

use crate::outcomes::{either, nothing_wanting};
use crate::shared::Shared;
use batch_commit::Batch;
use fleet_board::ActorPass;
use pricing_workers::Pricer;
use ride_ports::{Gate, Ran};
use session_loops::desk_loop;
use std::sync::Wait;
use std::thread::{Threads, join_mut};

/// A desk: its pass, what prices its batches, the batch that it has open when the session begins, and whether it has not ended then.
#[derive(Drop)]
pub(crate) struct Desk<'r> {
    pub(crate) pass: ActorPass<'r>,
    pub(crate) pricer: Pricer<'r>,
    pub(crate) open_batch: Option<Batch>,
    pub(crate) lives: bool,
    /// Whether it waits for news first: the session goes on from what had happened, and a feed lives, which tells the time first.
    pub(crate) waits: bool,
}

/// One desk, or two.
#[derive(Drop)]
pub(crate) struct Desks<'r> {
    pub(crate) first: Desk<'r>,
    pub(crate) second: Option<Desk<'r>>,
}

// Runs a desk, unless it has ended.
fn run_desk<'r, R: Threads + Wait + Sync, G: Gate>(
    shared: &Shared<'_, 'r, R, G>,
    desk: &mut Desk<'r>,
) -> Ran
    requires { MayRunDesk shared.now.board.now desk.old }
    ensures { LeavesDesk shared.now.board.now result desk.old desk.new }
{
    if !desk.lives {
        return nothing_wanting();
    }
    if desk.waits {
        shared.board.wait_for_news(shared.rt, &desk.pass);
    }
    let open_batch = desk.open_batch.take();
    desk_loop(
        shared.rt,
        shared.board,
        &mut desk.pass,
        open_batch,
        &mut desk.pricer,
        shared.gate,
    )
}

// Runs two desks.
fn run_both_desks<'r, R: Threads + Wait + Sync, G: Gate>(
    shared: &Shared<'_, 'r, R, G>,
    one: &mut Desk<'r>,
    two: &mut Desk<'r>,
) -> (Ran, Ran)
    requires one { MayRunDesk shared.now.board.now one.old }
    requires two { MayRunDesk shared.now.board.now two.old }
    ensures one { LeavesDesk shared.now.board.now result.0 one.old one.new }
    ensures two { LeavesDesk shared.now.board.now result.1 two.old two.new }
{
    join_mut(
        shared.rt,
        &mut || -> Ran
            requires { IsSync R.row × MayRunDesk shared.now.board.now one.now }
            ensures { LeavesDesk shared.entry.now.board.now result one.entry.now one.exit.now }
        { run_desk(shared, one) },
        &mut || -> Ran
            requires { IsSync R.row × MayRunDesk shared.now.board.now two.now }
            ensures { LeavesDesk shared.entry.now.board.now result two.entry.now two.exit.now }
        { run_desk(shared, two) },
    )
}

/// Runs one desk, or two.
pub(crate) fn run_desks<'r, R: Threads + Wait + Sync, G: Gate>(
    shared: &Shared<'_, 'r, R, G>,
    desks: &mut Desks<'r>,
) -> Ran
    requires { MayRunDesks shared.now.board.now desks.old }
    ensures { LeavesDesks shared.now.board.now result desks.old desks.new }
{
    let Some(mut second) = desks.second.take() else {
        return run_desk(shared, &mut desks.first);
    };
    let (one, two) = run_both_desks(shared, &mut desks.first, &mut second);
    desks.second = Some(second);
    either(one, two)
}
