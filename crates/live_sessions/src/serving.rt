//! Sessions of two feeds from their beginning.
ghost use Rattle.std.specs.Prelude.{◌≢◌, ◌≤◌, ◌⊎◌, false};
ghost use Rattle.ride_model.specs.Fleet.{MayStart};
ghost use Rattle.ride_model.specs.State.{start_state};
ghost use Rattle.ride_model.specs.Text.{IsOneOrTwo};
ghost use Rattle.ride_model.specs.declared.limits.TheConstants.{MOST_WORKERS};
ghost use Rattle.ride_ports.specs.Count.{KeepsCount, most_count};
ghost use Rattle.live_sessions.specs.Serving.{CountsFeeds, HasNotServed};
ghost use Rattle.live_sessions.specs.inner.Serving.{IsServed, feed_run};

use crate::resuming::{Interrupted, resume};
use adaptive_roads::Roads;
use board_core::Board;
use ride_model::{Fleet, Settings};
use ride_ports::{Gate, Ran, Sink, Source};
use std::alloc::Global;
use std::sync::Wait;
use std::thread::Threads;

/// What a session of two feeds starts with: the settings and the fleet, how many desks there are, and how many workers each has.
#[derive(Drop)]
pub struct Outset {
    pub settings: Settings,
    pub fleet: Fleet,
    pub workers: u32,
    pub desks: u8,
}

/// Serves the feeds of riders and of drivers over a fleet, by one or two desks with so many workers each, and writes the trip
/// log while the session runs. Riders are feed 1, drivers feed 2.
pub fn serve<R: Threads + Wait + Sync, S: Source, K: Sink, G: Gate>(
    rt: &R,
    alloc: Global,
    roads: &Roads,
    outset: Outset,
    riders: &mut S,
    drivers: &mut S,
    out: &mut K,
    gate: &G,
) -> Ran
    requires start { MayStart roads.now outset.settings outset.fleet }
    requires workers { (1 ≤ outset.workers) × (outset.workers ≤ MOST_WORKERS) }
    requires desks { IsOneOrTwo outset.desks }
    requires riders_count { S.faults riders.old ≢ most_count }
    requires drivers_count { S.faults drivers.old ≢ most_count }

    // The log is the text of a history that answers both feeds, however their commands met.
    ensures log { HasNotServed (feed_run S.left S.faults riders.old riders.new)
        (feed_run S.left S.faults drivers.old drivers.new) result
        (K.written out.old) (K.written out.new)
        ⊎ IsServed (start_state roads.now outset.settings outset.fleet) outset.desks
        (feed_run S.left S.faults riders.old riders.new)
        (feed_run S.left S.faults drivers.old drivers.new) result
        (K.written out.old) (K.written out.new) }
    ensures source_faults { CountsFeeds
        (feed_run S.left S.faults riders.old riders.new)
        (feed_run S.left S.faults drivers.old drivers.new) result }
    ensures sink_faults { KeepsCount result.sink_failed (K.faults out.old) (K.faults out.new) }
{
    let Outset {
        settings,
        fleet,
        workers,
        desks,
    } = outset;
    let Ok(board) = Board::new(alloc, roads, settings, fleet, 2, desks) else {
        return Ran {
            sink_failed: false,
            no_memory: true,
            source_failed: false,
            too_long: false,
        };
    };
    let nothing = Interrupted {
        board,
        first: None,
        second: None,
        workers,
    };
    resume(rt, alloc, roads, nothing, riders, drivers, out, gate)
}
