//! The log of what was before, which is brought by its name, read and given back.
ghost use Rattle.std.specs.Prelude.{◌<◌, length, string_bytes};
ghost use Rattle.ride_model.specs.Fleet.{MayStart};
ghost use Rattle.ride_model.specs.State.{start_state};
ghost use Rattle.live_sessions.specs.inner.Serving.{feed_run};
ghost use Rattle.dispatcher.specs.Shelves.{shelved};
ghost use Rattle.resumption.specs.Logs.{ReadsLog};
ghost use Rattle.resumption.specs.inner.Logs.{BringsLog};

use adaptive_roads::Roads;
use dispatcher::{bring, give_back};
use log_audit::{AuditFault, Restoration, restore};
use ride_model::{Fleet, Settings};
use ride_ports::{Shelf, Source};
use std::alloc::Global;
use std::thread::Threads;

/// Brings the log of a name, reads it over the roads, settings and a fleet, and gives it back. Returns what it gave back, and none where it
/// was not brought.
pub fn bring_log<'r, R: Threads + Sync, H: Shelf>(
    rt: &R,
    alloc: Global,
    roads: &'r Roads,
    settings: Settings,
    fleet: Fleet,
    name: String,
    shelf: &mut H,
) -> Option<Result<Restoration<'r>, AuditFault>>
    requires start { MayStart roads.now settings fleet }
    requires asked_room { length (H.asked shelf.old) < 8 }
    requires back_room { length (H.back shelf.old) < 8 }
    ensures { BringsLog (start_state roads.now settings fleet) (string_bytes name)
        (shelved H.contents H.asked H.brought H.back H.faults shelf.old)
        (shelved H.contents H.asked H.brought H.back H.faults shelf.new) result }
{
    let Ok(mut source) = bring(shelf, name) else {
        return None;
    };
    let found = log_from(rt, alloc, roads, settings, fleet, &mut source);
    give_back(shelf, source);
    Some(found)
}

// Reads a log.
fn log_from<'r, R: Threads + Sync, S: Source>(
    rt: &R,
    alloc: Global,
    roads: &'r Roads,
    settings: Settings,
    fleet: Fleet,
    source: &mut S,
) -> Result<Restoration<'r>, AuditFault>
    requires start { MayStart roads.now settings fleet }
    ensures { ReadsLog (start_state roads.now settings fleet)
        (feed_run S.left S.faults source.old source.new) result }
{
    restore(rt, alloc, roads, settings, fleet, source)
}
