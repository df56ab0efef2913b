//! Services of two feeds, which are brought by their names and given back.
ghost use Rattle.std.specs.Prelude.{◌<◌, ◌≤◌, length, string_bytes};
ghost use Rattle.ride_model.specs.declared.limits.TheConstants.{MOST_WORKERS};
ghost use Rattle.ride_model.specs.Text.{IsOneOrTwo};
ghost use Rattle.dispatcher.specs.Shelves.{shelved, sunk};
ghost use Rattle.dispatcher.specs.inner.Readings.{MayBegin, meaning_of};
ghost use Rattle.dispatcher.specs.inner.Sources.{ServesFeeds};

use crate::files::Texts;
use crate::handing::{bring, give_back};
use crate::status::Status;
use live_sessions::Outset;
use ride_ports::{Gate, Shelf, Sink};
use std::alloc::Global;
use std::sync::Wait;
use std::thread::Threads;

/// The feeds of a service, by their names.
#[derive(Drop)]
pub struct Feeds {
    pub riders: String,
    pub drivers: String,
}

/// How many desks a service has, and how many workers each.
#[derive(Clone, Copy)]
pub struct Crew {
    pub workers: u32,
    pub desks: u8,
}

/// Brings both feeds, serves them over the texts, and gives them back. Returns the exit status.
pub fn serve_feeds<R: Threads + Wait + Sync, H: Shelf, K: Sink, G: Gate>(
    rt: &R,
    alloc: Global,
    texts: Texts,
    feeds: Feeds,
    crew: Crew,
    shelf: &mut H,
    out: &mut K,
    gate: &G,
) -> u8
    requires start { MayBegin texts }
    requires workers { (1 ≤ crew.workers) × (crew.workers ≤ MOST_WORKERS) }
    requires desks { IsOneOrTwo crew.desks }
    requires asked_room { length (H.asked shelf.old) < 7 }
    requires back_room { length (H.back shelf.old) < 7 }
    ensures { ServesFeeds (meaning_of texts) crew.desks
        (string_bytes feeds.riders) (string_bytes feeds.drivers)
        (shelved H.contents H.asked H.brought H.back H.faults shelf.old)
        (shelved H.contents H.asked H.brought H.back H.faults shelf.new)
        (sunk K.written K.faults out.old out.new) result }
{
    let Texts {
        roads,
        settings,
        fleet,
        second: _,
    } = texts;
    let Feeds { riders, drivers } = feeds;
    let Ok(mut riders) = bring(shelf, riders) else {
        return Status::SourceFailed.code();
    };
    let Ok(mut drivers) = bring(shelf, drivers) else {
        give_back(shelf, riders);
        return Status::SourceFailed.code();
    };
    let outset = Outset {
        settings,
        fleet,
        workers: crew.workers,
        desks: crew.desks,
    };
    let ran = live_sessions::serve(
        rt,
        alloc,
        &roads,
        outset,
        &mut riders,
        &mut drivers,
        out,
        gate,
    );
    give_back(shelf, riders);
    give_back(shelf, drivers);
    ran.status()
}
