//! The loop of a desk.
ghost use Rattle.std.specs.Prelude.{◌≡◌, false, IfSome, MatchOption};
ghost use Rattle.ride_model.specs.declared.entry.Ending.TheVariants.{Whole};
ghost use Rattle.ride_model.specs.declared.entry.Event.TheVariants.{Finish};
ghost use Rattle.ride_model.specs.Legal.{IsLegalEvent};
ghost use Rattle.turn_lock.specs.Passes.{knowledge};
ghost use Rattle.batch_commit.specs.inner.Table.{IsPriceable};
ghost use Rattle.fleet_board.specs.inner.Passes.{IsPoint, actor_of, root_of, seen_state};
ghost use Rattle.fleet_board.specs.Roles.{MayCommit, MayOpen};
ghost use Rattle.fleet_board.specs.Sharing.{MayUse};
ghost use Rattle.session_loops.specs.inner.Loops.{RunsDesk};
ghost use Rattle.session_loops.specs.inner.Making.{ClosesBatch, ClosesFirst, HasRunBatches};

use batch_commit::Batch;
use board_core::Opening;
use fleet_board::{ActorPass, SharedBoard};
use pricing_workers::{Pricer, seat_batch};
use ride_model::Ending;
use ride_ports::{Gate, Ran};
use std::sync::Wait;
use std::thread::Threads;

/// Closes the batch that the desk has open, where it has one; then opens, prices, seats and commits batches until no batch is to
/// come, and ends the desk whole. A batch for which memory is wanting is given up; where none can be opened for want of memory the
/// desk is cut. The pass is the desk's. It passes the gate at place 1 once a batch is open, and at 2 before it commits it. While no
/// batch is to be opened it goes on with the hierarchy of its roads, and then sleeps.
pub fn desk_loop<'r, R: Threads + Wait + Sync, G: Gate>(
    rt: &R,
    board: &SharedBoard<'r>,
    pass: &mut ActorPass<'r>,
    open_batch: Option<Batch>,
    pricer: &mut Pricer<'_>,
    gate: &G,
) -> Ran
    requires desk { MatchOption open_batch (MayOpen board.now pass.old)
        (MayCommit board.now pass.old) }
    requires priceable { IfSome open_batch (IsPriceable pricer.old) }
    requires roads { (root_of (knowledge pass.old)).start.roads ≡ pricer.old }
    ensures pass { MayUse board.now pass.new }
    ensures point { IsPoint (knowledge pass.new) }
    ensures ran { RunsDesk open_batch result (knowledge pass.old) (knowledge pass.new) }
    ensures sink { result.sink_failed ≡ false }
    ensures source { result.source_failed ≡ false }
    ensures length { result.too_long ≡ false }
{
    let committed = close_first(rt, board, pass, open_batch, pricer, gate);
    let run = run_batches(rt, board, pass, pricer, gate);
    board.end(rt, pass, run.ending);
    Ran {
        sink_failed: false,
        no_memory: run.no_memory | !committed,
        source_failed: false,
        too_long: false,
    }
}

// Closes the batch that a desk has open, where it has one; returns whether none was given up.
fn close_first<'r, R: Threads + Wait + Sync, G: Gate>(
    rt: &R,
    board: &SharedBoard<'r>,
    pass: &mut ActorPass<'r>,
    open_batch: Option<Batch>,
    pricer: &mut Pricer<'_>,
    gate: &G,
) -> bool
    requires desk { MatchOption open_batch (MayOpen board.now pass.old)
        (MayCommit board.now pass.old) }
    requires priceable { IfSome open_batch (IsPriceable pricer.old) }
    requires roads { (root_of (knowledge pass.old)).start.roads ≡ pricer.old }
    ensures desk { MayOpen board.now pass.new }
    ensures roads { (root_of (knowledge pass.new)).start.roads ≡ pricer.new }
    ensures closed { ClosesFirst result open_batch (knowledge pass.old) (knowledge pass.new) }
    ensures pricer { pricer.new ≡ pricer.old }
{
    match open_batch {
        Some(batch) => close_batch(rt, board, pass, batch, pricer, gate),
        None => true,
    }
}

// How a desk that has run its batches is to end, and whether memory was wanting for one.
#[derive(Clone, Copy)]
struct DeskRun {
    ending: Ending,
    no_memory: bool,
}

// Opens and closes batches until no batch is to come, or until none can be opened for want of memory.
fn run_batches<'r, R: Threads + Wait + Sync, G: Gate>(
    rt: &R,
    board: &SharedBoard<'r>,
    pass: &mut ActorPass<'r>,
    pricer: &mut Pricer<'_>,
    gate: &G,
) -> DeskRun
    requires desk { MayOpen board.now pass.old }
    requires roads { (root_of (knowledge pass.old)).start.roads ≡ pricer.old }
    ensures desk { MayOpen board.now pass.new }
    ensures may_end { IsLegalEvent (root_of (knowledge pass.new)).feeds
        (root_of (knowledge pass.new)).desks
        (seen_state (knowledge pass.new))
        (actor_of (knowledge pass.new).number) (Finish result.ending) }
    ensures whole { result.no_memory ≡ false → result.ending ≡ Whole }
    ensures ran { HasRunBatches result.no_memory (knowledge pass.old) (knowledge pass.new) }
{
    let mut no_memory = false;
    'batches: for _ in rt.forever() {
        match board.open_batch(rt, pass) {
            Ok(Opening::Batch(batch)) => {
                no_memory |= !close_batch(rt, board, pass, batch, pricer, gate);
            }
            Ok(Opening::Idle) => rest(rt, board, pass, pricer),
            Ok(Opening::Ended) => {
                return DeskRun {
                    ending: Ending::Whole,
                    no_memory,
                };
            }
            Err(_) => {
                return DeskRun {
                    ending: Ending::Cut,
                    no_memory: true,
                };
            }
        }
    }
    unreachable!()
}

// Goes on with the hierarchy of the roads for a moment, or sleeps until there is news where nothing of it is left to do.
fn rest<'r, R: Wait>(rt: &R, board: &SharedBoard<'r>, pass: &ActorPass<'r>, pricer: &Pricer<'_>)
    requires { MayUse board.now pass.now }
{
    if !pricer.prepare() {
        board.wait_for_news(rt, pass);
    }
}

// Prices and seats an open batch and commits it, or gives it up where memory is wanting; returns whether it was committed.
fn close_batch<'r, R: Threads + Wait + Sync, G: Gate>(
    rt: &R,
    board: &SharedBoard<'r>,
    pass: &mut ActorPass<'r>,
    batch: Batch,
    pricer: &mut Pricer<'_>,
    gate: &G,
) -> bool
    requires open_now { MayCommit board.now pass.old batch }
    requires priceable { IsPriceable pricer.old batch }
    requires roads { (root_of (knowledge pass.old)).start.roads ≡ pricer.old }
    ensures desk { MayOpen board.now pass.new }
    ensures closed { ClosesBatch result batch (knowledge pass.old) (knowledge pass.new) }
    ensures pricer { pricer.new ≡ pricer.old }
{
    gate.pass(1);
    match seat_batch(rt, batch, pricer, gate) {
        Ok(solved) => {
            gate.pass(2);
            board.commit(rt, pass, solved);
            true
        }
        Err(batch) => {
            board.abandon(rt, pass, batch);
            false
        }
    }
}
