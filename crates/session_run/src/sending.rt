//! Sessions that send idle vehicles ahead.
ghost use Rattle.std.specs.Prelude.{◌≡◌, ℕ, ◌≤◌, [], false, List, IfSome};
ghost use Rattle.ride_model.specs.Fleet.{MayStart};
ghost use Rattle.ride_model.specs.declared.entry.Entry.{Entry};
ghost use Rattle.ride_model.specs.State.{start_state};
ghost use Rattle.ride_model.specs.declared.limits.TheConstants.{LONGEST_REACH};
ghost use Rattle.ride_ports.specs.Bytes.{Reads};
ghost use Rattle.ride_ports.specs.Count.{KeepsCount};
ghost use Rattle.session_run.specs.Ahead.{TellsAhead};
ghost use Rattle.line_text.specs.line_reader.FeedRuns.{IsReadWhole};
ghost use Rattle.session_run.specs.Replay.{IsReplay};

use crate::one_feed::run_one_feed;
use crate::outset::Outset;
use crate::writes::Writes;
use adaptive_roads::Roads;
use ride_model::{Fleet, Settings};
use ride_ports::{Ran, Sink, Source};
use std::alloc::Global;
use std::thread::Threads;

/// Replays a feed over a fleet, and writes in place of its log a sheet for each commit: which idle vehicles are to be sent ahead,
/// each within a reach of seconds, towards requests that the commit's seating leaves out. The orders are advice: no plan changes
/// by them, and the history is that of a replay.
pub fn ahead<R: Threads + Sync, S: Source, K: Sink>(
    rt: &R,
    alloc: Global,
    roads: &Roads,
    settings: Settings,
    fleet: Fleet,
    feed: &mut S,
    reach: u64,
    out: &mut K,
) -> Ran
    requires start { MayStart roads.now settings fleet }
    requires reach_limit { (1 ≤ reach) × (reach ≤ LONGEST_REACH) }

    // What is written are the sheets of a history that answers the feed.
    ensures sheets { (taken : List ℕ) × (entries : List Entry)
        × Reads (S.left feed.old) (S.left feed.new) taken
        × IsReplay (start_state roads.now settings fleet) result (S.left feed.old) taken entries
        × TellsAhead (start_state roads.now settings fleet) reach result taken entries
        (K.written out.old) (K.written out.new) }
    ensures to_end { result.no_memory ≡ false → IsReadWhole result
        → IfSome (S.left feed.new) (λ bytes. bytes ≡ []) }
    ensures source_faults { KeepsCount result.source_failed
        (S.faults feed.old) (S.faults feed.new) }
    ensures sink_faults { KeepsCount result.sink_failed (K.faults out.old) (K.faults out.new) }
{
    let outset = Outset::new(roads, settings, fleet, Writes::Sheets(reach));
    run_one_feed(rt, alloc, outset, feed, out)
}
