//! Sessions that go on from a board as it stands. One that begins goes on from a board on which nothing happened.
ghost use Rattle.std.specs.Prelude.{◌≡◌, ◌≢◌, ℕ, ◌≤◌, ◌⊎◌, ◌++◌, [], false, true, drop, is_err, length, All, IfOk, List, Option};
ghost use Rattle.ride_model.specs.declared.entry.Entry.{Entry};
ghost use Rattle.ride_model.specs.Text.{HasLine, IsOneOrTwo, entry_lines};
ghost use Rattle.ride_model.specs.declared.limits.TheConstants.{MOST_WORKERS};
ghost use Rattle.ride_ports.specs.Count.{KeepsCount, most_count};
ghost use Rattle.line_text.specs.inner.text_page.Output.{HasPut, IsFresh};
ghost use Rattle.session_loops.specs.declared.scribes.Scribed.{Scribed};
ghost use Rattle.live_sessions.specs.inner.Actors.{bare};
ghost use Rattle.live_sessions.specs.Resuming.{IsResumed, is_broken_off};
ghost use Rattle.live_sessions.specs.inner.Resuming.{MayGoOn};
ghost use Rattle.live_sessions.specs.Serving.{CountsFeeds, HasNotServed};
ghost use Rattle.live_sessions.specs.inner.Serving.{feed_run};
ghost use Rattle.live_sessions.specs.inner.Stages.{IsReady, MayRunActors, board_of};

use crate::actors::run_actors;
use crate::outcomes::ran_of;
use crate::shared::Shared;
use crate::stages::{Stage, close, prepare};
use adaptive_roads::Roads;
use batch_commit::Batch;
use board_core::Board;
use line_text::text_page::Output;
use ride_model::Entry;
use ride_ports::{Failed, Gate, Ran, Sink, Source};
use session_loops::{Scribed, put_all, put_head};
use std::alloc::Global;
use std::sync::Wait;
use std::thread::Threads;

/// What a session goes on from: a board as it stands, the batches that its desks have open, and how many workers each has.
#[derive(Drop)]
pub struct Interrupted<'r> {
    pub board: Board<'r>,
    /// The open batch of desk 1.
    pub first: Option<Batch>,
    /// The open batch of desk 2.
    pub second: Option<Batch>,
    pub workers: u32,
}

/// Serves the feeds of riders and of drivers from a board as it stands, and writes the whole of its trip log, that of before first.
/// Riders are feed 1, drivers feed 2. A feed that has ended there is not read, nor is one that the board does not have. Where a feed
/// still lives a desk waits for news first, since the clock stands where it stood: what it has open it then closes.
pub fn resume<'r, R: Threads + Wait + Sync, S: Source, K: Sink, G: Gate>(
    rt: &R,
    alloc: Global,
    roads: &'r Roads,
    interrupted: Interrupted<'r>,
    riders: &mut S,
    drivers: &mut S,
    out: &mut K,
    gate: &G,
) -> Ran
    requires may_go_on { MayGoOn roads.now interrupted }
    requires workers { (1 ≤ interrupted.workers) × (interrupted.workers ≤ MOST_WORKERS) }
    requires riders_count { S.faults riders.old ≢ most_count }
    requires drivers_count { S.faults drivers.old ≢ most_count }

    // The log is the text of a history that begins with that of the board, and answers both feeds, however their commands met.
    ensures log { HasNotServed (feed_run S.left S.faults riders.old riders.new)
        (feed_run S.left S.faults drivers.old drivers.new) result
        (K.written out.old) (K.written out.new)
        ⊎ IsResumed interrupted.entry.board
        (feed_run S.left S.faults riders.old riders.new)
        (feed_run S.left S.faults drivers.old drivers.new) result
        (K.written out.old) (K.written out.new) }
    ensures source_faults { CountsFeeds
        (feed_run S.left S.faults riders.old riders.new)
        (feed_run S.left S.faults drivers.old drivers.new) result }
    ensures sink_faults { KeepsCount result.sink_failed (K.faults out.old) (K.faults out.new) }
{
    match prepare(alloc, roads, interrupted) {
        Ok(stage) => run(rt, alloc, stage, riders, drivers, out, gate),
        Err(_) => Ran {
            sink_failed: false,
            no_memory: true,
            source_failed: false,
            too_long: false,
        },
    }
}

// Runs a session to its end, and writes the whole of its log.
fn run<'r, R: Threads + Wait + Sync, S: Source, K: Sink, G: Gate>(
    rt: &R,
    alloc: Global,
    stage: Stage<'r>,
    riders: &mut S,
    drivers: &mut S,
    out: &mut K,
    gate: &G,
) -> Ran
    requires ready { IsReady stage }
    requires may_run { MayRunActors stage.board stage.log stage.actors }
    requires log { (board_of stage).start.settings.log ≡ stage.log }
    requires feeds { (board_of stage).feeds ≡ stage.feeds }
    requires desks { (board_of stage).desks ≡ stage.desks }
    requires broken_off { is_broken_off (board_of stage).history ≡ stage.broken_off }
    ensures resumed { IsResumed (board_of stage.entry)
        (feed_run S.left S.faults riders.old riders.new)
        (feed_run S.left S.faults drivers.old drivers.new)
        result (K.written out.old) (K.written out.new) }
    ensures source_faults { CountsFeeds
        (feed_run S.left S.faults riders.old riders.new)
        (feed_run S.left S.faults drivers.old drivers.new) result }
    ensures sink_faults { KeepsCount result.sink_failed (K.faults out.old) (K.faults out.new) }
{
    let Stage {
        board,
        mut actors,
        mut output,
        log,
        feeds,
        desks,
        broken_off,
    } = stage;
    put_head(&mut output, out, log, feeds, desks);
    let head_failed = output.failed();
    let shared = Shared {
        rt,
        alloc,
        board: &board,
        gate,
        log,
    };
    let answers = run_actors(&shared, &mut actors, riders, drivers, out, head_failed);
    let board = close(board, actors);
    put_rest(&mut output, out, board.entries(), &answers.scribed, log);
    ran_of(&answers, output.failed(), broken_off)
}

// Writes what a scribe has not written, unless the sink failed.
fn put_rest<K: Sink>(
    output: &mut Output,
    out: &mut K,
    entries: &[Entry],
    scribed: &Result<Scribed, Failed>,
    log: u8,
)
    requires log { IsOneOrTwo log }
    requires have_lines { All (HasLine log) entries.now }
    requires within { IfOk scribed.now (λ (s : Scribed). s.entries ≤ length entries.now) }
    requires sound { IfOk scribed.now (λ (s : Scribed). IsFresh output.old) }
    ensures logged { (before : Option (List ℕ)) (faults count : ℕ) (text : List ℕ)
        → IfOk scribed.now (λ (s : Scribed). s.entries ≡ count)
        → HasPut before (K.written out.old) faults (K.faults out.old)
        (bare (is_err scribed.now)) text
        → HasPut before (K.written out.new) faults (K.faults out.new) output.new
        (text ++ entry_lines log (drop count entries.now)) }
    ensures nothing_left { output.new.failed ≡ false → output.new.page ≡ [] }
{
    match scribed {
        Ok(scribed) => {
            put_all(output, out, &entries[scribed.entries as usize..], log);
            output.end(out);
        }
        Err(_) => output.note(Err(Failed)),
    }
}
