//! Sessions of one feed.
ghost use Rattle.std.specs.Prelude.{◌≡◌, ℕ, [], false, List, Option, Some, IfOk, IfSome};
ghost use Rattle.ride_model.specs.declared.entry.Entry.{Entry};
ghost use Rattle.ride_model.specs.History.{fed_commands};
ghost use Rattle.ride_ports.specs.Bytes.{Reads};
ghost use Rattle.ride_ports.specs.Count.{KeepsCount};
ghost use Rattle.command_lines.specs.inner.Feeds.{HasGiven};
ghost use Rattle.command_lines.specs.Limits.{new_feed};
ghost use Rattle.line_text.specs.inner.text_page.Output.{IsFresh};
ghost use Rattle.session_run.specs.Ahead.{IsWrittenBy};
ghost use Rattle.line_text.specs.inner.line_reader.FeedRuns.{is_source_failed};
ghost use Rattle.session_run.specs.inner.Reading.{HasRun, HasTold};
ghost use Rattle.line_text.specs.line_reader.FeedRuns.{IsReadWhole};
ghost use Rattle.session_run.specs.Replay.{IsReplay};
ghost use Rattle.session_run.specs.inner.Running.{IsRunning};

use crate::outset::Outset;
use crate::session::Session;
use command_lines::{FeedForm, FeedReader};
use line_text::line_reader::{Stop, is_source_failed, is_too_long};
use pricing_workers::workers_at_hand;
use ride_model::NoMemory;
use ride_ports::{Ran, Sink, Source};
use session_loops::ending_of;
use std::alloc::Global;
use std::thread::Threads;

/// Answers a feed over a fleet: after each accepted ask a batch is opened, priced, seated and committed at once. Each line of what is
/// written is written before more of the feed is waited for.
pub(crate) fn run_one_feed<R: Threads + Sync, S: Source, K: Sink>(
    rt: &R,
    alloc: Global,
    outset: Outset<'_>,
    feed: &mut S,
    out: &mut K,
) -> Ran
    ensures session { (taken : List ℕ) × (entries : List Entry)
        × Reads (S.left feed.old) (S.left feed.new) taken
        × IsReplay outset.entry.start result (S.left feed.old) taken entries
        × IsWrittenBy outset.entry.reach outset.entry.start result taken entries
        (K.written out.old) (K.written out.new) }
    ensures to_end { result.no_memory ≡ false → IsReadWhole result
        → IfSome (S.left feed.new) (λ bytes. bytes ≡ []) }
    ensures source_faults { KeepsCount result.source_failed
        (S.faults feed.old) (S.faults feed.new) }
    ensures sink_faults { KeepsCount result.sink_failed (K.faults out.old) (K.faults out.new) }
{
    // These calls tell that the map and the fleet are within their limits.
    let _nodes = outset.roads.nodes();
    let _vehicles = outset.fleet.vehicles();
    let Ok((mut session, mut reader)) = prepare(rt, alloc, outset) else {
        return Ran {
            sink_failed: false,
            no_memory: true,
            source_failed: false,
            too_long: false,
        };
    };
    session.begin(out);
    let stop = run_feed(&mut session, &mut reader, rt, feed, out);
    session.end(out, ending_of(stop));
    // This call tells that the history is legal.
    let _history = session.entries();
    Ran {
        sink_failed: session.sink_failed(),
        no_memory: session.no_memory(),
        source_failed: is_source_failed(stop),
        too_long: is_too_long(stop),
    }
}

// A session at its start, and the reader of its feed.
fn prepare<'r>(
    rt: &impl Threads,
    alloc: Global,
    outset: Outset<'r>,
) -> Result<(Session<'r>, FeedReader), NoMemory>
    ensures start { IfOk result (λ made. made.0.board.start ≡ outset.entry.start) }
    ensures history { IfOk result (λ made. made.0.board.history ≡ []) }
    ensures running { IfOk result (λ made. IsRunning made.0.board made.0.no_memory) }
    ensures output { IfOk result (λ made. IsFresh made.0.output) }
    ensures reach { IfOk result (λ made. made.0.reach ≡ outset.entry.reach) }
    ensures form { IfOk result (λ made. made.1.form ≡ new_feed outset.entry.start.settings.log) }
    ensures nothing_given { IfOk result
        (λ made. (left : Option (List ℕ)) → HasGiven made.1 left [] []) }
{
    let reader = FeedReader::new(alloc, FeedForm::new(outset.settings.log))?;
    let session = Session::new(alloc, outset, workers_at_hand(rt))?;
    Ok((session, reader))
}

// Answers a feed to its end, or until something stops it.
fn run_feed<R: Threads + Sync, S: Source, K: Sink>(
    session: &mut Session<'_>,
    reader: &mut FeedReader,
    rt: &R,
    feed: &mut S,
    out: &mut K,
) -> Option<Stop>
    requires running { IsRunning session.old.board session.old.no_memory }
    requires form { reader.old.form ≡ new_feed session.old.board.start.settings.log }
    requires nothing_given { HasGiven reader.old (S.left feed.old)
        (fed_commands 1 session.old.board.history) [] }
    ensures ran { HasRun session.old.board.start.settings.log (S.left feed.old)
        (S.left feed.new) result session.new.board
        session.new.no_memory }
    ensures faults { KeepsCount (is_source_failed result) (S.faults feed.old) (S.faults feed.new) }
    ensures start { session.new.board.start ≡ session.old.board.start }
    ensures reach { session.new.reach ≡ session.old.reach }
    ensures told { (earlier : Option (List ℕ)) (faults : ℕ)
        → HasTold earlier (K.written out.old) faults (K.faults out.old) session.old
        → HasTold earlier (K.written out.new) faults (K.faults out.new) session.new }
{
    'commands: loop {
        match reader.next_command(feed) {
            Ok(Some(command)) => match session.take_command(rt, out, &command, reader.is_ready()) {
                Ok(()) => {}
                Err(_) => return Some(Stop::NoMemory),
            },
            Ok(None) => return None,
            Err(stop) => return Some(Stop::OfFeed(stop)),
        }
    }
}
