//! Replays.
ghost use Rattle.std.specs.Prelude.{◌≡◌, ℕ, [], false, List, IfSome};
ghost use Rattle.ride_model.specs.Fleet.{MayStart};
ghost use Rattle.ride_model.specs.declared.entry.Entry.{Entry};
ghost use Rattle.ride_model.specs.State.{start_state};
ghost use Rattle.ride_model.specs.Text.{text_of};
ghost use Rattle.ride_ports.specs.Bytes.{Reads};
ghost use Rattle.ride_ports.specs.Count.{KeepsCount};
ghost use Rattle.session_run.specs.Logged.{IsLogged};
ghost use Rattle.line_text.specs.line_reader.FeedRuns.{IsReadWhole};
ghost use Rattle.session_run.specs.Replay.{IsReplay};

use crate::one_feed::run_one_feed;
use crate::outset::Outset;
use crate::writes::Writes;
use adaptive_roads::Roads;
use ride_model::{Fleet, Settings};
use ride_ports::{Ran, Sink, Source};
use std::alloc::Global;
use std::thread::Threads;

/// Replays a feed over a fleet, and writes its trip log: after each accepted ask a batch is opened, priced, seated and
/// committed at once.
pub fn replay<R: Threads + Sync, S: Source, K: Sink>(
    rt: &R,
    alloc: Global,
    roads: &Roads,
    settings: Settings,
    fleet: Fleet,
    feed: &mut S,
    out: &mut K,
) -> Ran
    requires start { MayStart roads.now settings fleet }

    // The log is the text of a history that answers the feed.
    ensures log { (taken : List ℕ) × (entries : List Entry)
        × Reads (S.left feed.old) (S.left feed.new) taken
        × IsReplay (start_state roads.now settings fleet) result (S.left feed.old) taken entries
        × IsLogged result taken (K.written out.old) (K.written out.new)
        (text_of settings.log 1 1 entries) }
    ensures to_end { result.no_memory ≡ false → IsReadWhole result
        → IfSome (S.left feed.new) (λ bytes. bytes ≡ []) }
    ensures source_faults { KeepsCount result.source_failed
        (S.faults feed.old) (S.faults feed.new) }
    ensures sink_faults { KeepsCount result.sink_failed (K.faults out.old) (K.faults out.new) }
{
    let outset = Outset::new(roads, settings, fleet, Writes::Log);
    run_one_feed(rt, alloc, outset, feed, out)
}
