//! The feeds of a session that goes on, which are brought by their names and given back.
ghost use Rattle.std.specs.Prelude.{◌<◌, ◌≤◌, length, string_bytes};
ghost use Rattle.ride_model.specs.declared.limits.TheConstants.{MOST_WORKERS};
ghost use Rattle.live_sessions.specs.inner.Resuming.{MayGoOn};
ghost use Rattle.dispatcher.specs.Shelves.{shelved, sunk};
ghost use Rattle.resumption.specs.inner.Goings.{GoesOnOver};

use adaptive_roads::Roads;
use dispatcher::{Feeds, Status, bring, give_back};
use live_sessions::{Interrupted, resume};
use ride_ports::{Gate, Shelf, Sink};
use std::alloc::Global;
use std::sync::Wait;
use std::thread::Threads;

/// Brings both feeds, goes on with the session over them, and gives them back. Returns the exit status.
pub fn go_on<'r, R: Threads + Wait + Sync, H: Shelf, K: Sink, G: Gate>(
    rt: &R,
    alloc: Global,
    roads: &'r Roads,
    interrupted: Interrupted<'r>,
    feeds: Feeds,
    shelf: &mut H,
    out: &mut K,
    gate: &G,
) -> u8
    requires may_go_on { MayGoOn roads.now interrupted }
    requires workers { (1 ≤ interrupted.workers) × (interrupted.workers ≤ MOST_WORKERS) }
    requires asked_room { length (H.asked shelf.old) < 7 }
    requires back_room { length (H.back shelf.old) < 7 }
    ensures { GoesOnOver interrupted.entry.board
        (string_bytes feeds.riders) (string_bytes feeds.drivers)
        (shelved H.contents H.asked H.brought H.back H.faults shelf.old)
        (shelved H.contents H.asked H.brought H.back H.faults shelf.new)
        (sunk K.written K.faults out.old out.new) result }
{
    let Feeds { riders, drivers } = feeds;
    let Ok(mut riders) = bring(shelf, riders) else {
        return Status::SourceFailed.code();
    };
    let Ok(mut drivers) = bring(shelf, drivers) else {
        give_back(shelf, riders);
        return Status::SourceFailed.code();
    };
    let ran = resume(
        rt,
        alloc,
        roads,
        interrupted,
        &mut riders,
        &mut drivers,
        out,
        gate,
    );
    give_back(shelf, riders);
    give_back(shelf, drivers);
    ran.status()
}
