//! A session from before its actors run to after they did.
ghost use Rattle.std.specs.Prelude.{◌≡◌, ◌≤◌, IfOk, IsSome, MatchOption, None, Some};
ghost use Rattle.live_sessions.specs.Resuming.{is_broken_off};
ghost use Rattle.live_sessions.specs.inner.Resuming.{MayGoOn};
ghost use Rattle.live_sessions.specs.inner.Stages.{IsClosed, IsEquipped, IsReady, MayClose, MayRunActors, board_of};

use crate::actors::Actors;
use crate::desk_pairs::{Desk, Desks};
use crate::feed_pairs::{Feeder, Feeders};
use crate::living::{FeedStart, Living, is_broken_off, living_on};
use crate::resuming::Interrupted;
use adaptive_roads::Roads;
use batch_commit::Batch;
use board_core::Board;
use fleet_board::{ActorPass, PassSet, SharedBoard};
use line_text::text_page::Output;
use pricing_workers::Pricer;
use ride_model::NoMemory;
use std::alloc::Global;

/// A board, its actors, and its log on the way out, with what the log's head names.
#[derive(Drop)]
pub(crate) struct Stage<'r> {
    pub(crate) board: SharedBoard<'r>,
    pub(crate) actors: Actors<'r>,
    pub(crate) output: Output,
    pub(crate) log: u8,
    pub(crate) feeds: u8,
    pub(crate) desks: u8,
    /// Whether an actor was cut, or a batch given up, before the session began.
    pub(crate) broken_off: bool,
}

/// Takes all memory that a session needs before its actors run.
pub(crate) fn prepare<'r>(
    alloc: Global,
    roads: &'r Roads,
    interrupted: Interrupted<'r>,
) -> Result<Stage<'r>, NoMemory>
    requires may_go_on { MayGoOn roads.now interrupted }
    requires workers { 1 ≤ interrupted.workers }
    ensures ready { IfOk result IsReady }
    ensures board { IfOk result (λ stage. board_of stage
        ≡ record interrupted.entry.board { spare = 0 }) }
    ensures may_run { IfOk result
        (λ stage. MayRunActors stage.board stage.log stage.actors) }
    ensures log { IfOk result (λ stage. stage.log
        ≡ interrupted.entry.board.start.settings.log) }
    ensures feeds { IfOk result (λ stage. stage.feeds ≡ interrupted.entry.board.feeds) }
    ensures desks { IfOk result (λ stage. stage.desks ≡ interrupted.entry.board.desks) }
    ensures broken_off { IfOk result (λ stage. stage.broken_off
        ≡ is_broken_off interrupted.entry.board.history) }
{
    let Interrupted {
        board,
        first,
        second,
        workers,
    } = interrupted;
    let output = Output::new(alloc)?;
    let log = board.log();
    let feeds = board.feeds();
    let desks = board.desks();
    let living = living_on(&board);
    let broken_off = is_broken_off(board.entries());
    let (board, passes) = SharedBoard::share(alloc, board)?;
    let actors = actors_of(
        alloc,
        roads,
        passes,
        living,
        first,
        second,
        workers as usize,
    )?;
    Ok(Stage {
        board,
        actors,
        output,
        log,
        feeds,
        desks,
        broken_off,
    })
}

// The actors of a set of passes, with pricers for their desks, and with the batches that these have open.
fn actors_of<'r>(
    alloc: Global,
    roads: &'r Roads,
    passes: PassSet<'r>,
    living: Living,
    first: Option<Batch>,
    second: Option<Batch>,
    workers: usize,
) -> Result<Actors<'r>, NoMemory>
    requires feed_1 { IsSome passes.feed_1 }
    requires desk_1 { IsSome passes.desk_1 }
    requires workers { 1 ≤ workers }
    ensures feed_1 { IfOk result (λ actors. (passes.entry.feed_1 ≡ Some actors.feeds.riders.pass)
        × (actors.feeds.riders.start ≡ living.riders)) }
    ensures feed_2 { IfOk result (λ actors. MatchOption actors.feeds.drivers
        (passes.entry.feed_2 ≡ None)
        (λ feeder. (passes.entry.feed_2 ≡ Some feeder.pass)
        × (feeder.start ≡ living.drivers))) }
    ensures desk_1 { IfOk result (λ actors. (passes.entry.desk_1 ≡ Some actors.desks.first.pass)
        × IsEquipped roads.now first living.first actors.desks.first) }
    ensures desk_2 { IfOk result (λ actors. MatchOption actors.desks.second
        (passes.entry.desk_2 ≡ None)
        (λ desk. (passes.entry.desk_2 ≡ Some desk.pass)
        × IsEquipped roads.now second living.second desk)) }
    ensures scribe { IfOk result (λ actors. actors.scribe ≡ passes.entry.scribe) }
{
    let PassSet {
        feed_1,
        feed_2,
        desk_1,
        desk_2,
        scribe,
    } = passes;
    let waits = living.has_begun && (living.riders.lives || living.drivers.lives);
    let Some(riders) = feeder_of(feed_1, living.riders) else {
        unreachable!();
    };
    let drivers = feeder_of(feed_2, living.drivers);
    let Some(first) = desk_of(alloc, roads, desk_1, first, living.first, waits, workers)? else {
        unreachable!();
    };
    let second = desk_of(alloc, roads, desk_2, second, living.second, waits, workers)?;
    Ok(Actors {
        feeds: Feeders { riders, drivers },
        desks: Desks { first, second },
        scribe,
    })
}

// The feed of a pass.
fn feeder_of<'r>(pass: Option<ActorPass<'r>>, start: FeedStart) -> Option<Feeder<'r>>
    ensures { MatchOption result (pass.entry ≡ None)
        (λ feeder. (pass.entry ≡ Some feeder.pass) × (feeder.start ≡ start)) }
{
    match pass {
        Some(pass) => Some(Feeder { pass, start }),
        None => None,
    }
}

// The desk of a pass, with a pricer of so many workers.
fn desk_of<'r>(
    alloc: Global,
    roads: &'r Roads,
    pass: Option<ActorPass<'r>>,
    open_batch: Option<Batch>,
    lives: bool,
    waits: bool,
    workers: usize,
) -> Result<Option<Desk<'r>>, NoMemory>
    requires { 1 ≤ workers }
    ensures { IfOk result (λ made. MatchOption made (pass.entry ≡ None)
        (λ desk. (pass.entry ≡ Some desk.pass)
        × IsEquipped roads.now open_batch lives desk)) }
{
    let Some(pass) = pass else {
        return Ok(None);
    };
    let pricer = Pricer::new(alloc, roads, workers)?;
    Ok(Some(Desk {
        pass,
        pricer,
        open_batch,
        lives,
        waits,
    }))
}

/// Takes the board back from its actors.
pub(crate) fn close<'r>(board: SharedBoard<'r>, actors: Actors<'r>) -> Board<'r>
    requires { MayClose board actors }
    ensures { IsClosed actors.entry result }
{
    let Actors {
        feeds,
        desks,
        scribe,
    } = actors;
    let Feeders { riders, drivers } = feeds;
    let Desks { first, second } = desks;
    let passes = PassSet {
        feed_1: Some(riders.pass),
        feed_2: pass_of_feeder(drivers),
        desk_1: Some(first.pass),
        desk_2: pass_of(second),
        scribe,
    };
    match board.close(passes) {
        Ok(board) => board,
        Err(_) => unreachable!(),
    }
}

// The pass of a feed.
fn pass_of_feeder<'r>(feeder: Option<Feeder<'r>>) -> Option<ActorPass<'r>>
    ensures { MatchOption feeder.entry (result ≡ None) (λ f. result ≡ Some f.pass) }
{
    match feeder {
        Some(feeder) => Some(feeder.pass),
        None => None,
    }
}

// The pass of a desk.
fn pass_of<'r>(desk: Option<Desk<'r>>) -> Option<ActorPass<'r>>
    ensures { MatchOption desk.entry (result ≡ None) (λ d. result ≡ Some d.pass) }
{
    match desk {
        Some(desk) => Some(desk.pass),
        None => None,
    }
}
