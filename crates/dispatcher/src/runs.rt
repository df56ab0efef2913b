//! A call for each word. None but `serve` waits.
ghost use Rattle.std.specs.Prelude.{◌≤◌, None, Some, string_bytes};
ghost use Rattle.city_maker.specs.inner.Plan.{IsPlan};
ghost use Rattle.ride_model.specs.declared.limits.TheConstants.{LONGEST_REACH, MOST_WORKERS};
ghost use Rattle.ride_model.specs.Text.{IsOneOrTwo};
ghost use Rattle.run_words.specs.Words.{a_booking, a_drill, a_league, a_replay, a_service, an_audit};
ghost use Rattle.dispatcher.specs.Runs.{IsRun};
ghost use Rattle.dispatcher.specs.Shelves.{shelved, sunk, IsFresh};

use crate::answering::answer;
use crate::files::{TextNames, bring_texts};
use crate::serving::{Crew, Feeds, serve_feeds};
use crate::sources::{Work, work_over};
use city_maker::CityPlan;
use ride_ports::{Gate, Shelf, Sink};
use std::alloc::Global;
use std::sync::Wait;
use std::thread::Threads;

/// Replays a feed over a map and a fleet file, and writes the log. Returns the exit status.
pub fn replay<R: Threads + Sync, H: Shelf, K: Sink>(
    rt: &R,
    alloc: Global,
    names: TextNames,
    feed: String,
    shelf: &mut H,
    out: &mut K,
) -> u8
    requires fresh { IsFresh (shelved H.contents H.asked H.brought H.back H.faults shelf.old) }
    ensures { IsRun (a_replay (string_bytes names.map)
        (string_bytes names.fleet) (string_bytes feed) None)
        (shelved H.contents H.asked H.brought H.back H.faults shelf.old)
        (shelved H.contents H.asked H.brought H.back H.faults shelf.new)
        (sunk K.written K.faults out.old out.new) result }
{
    match bring_texts(alloc, shelf, names, None) {
        Ok(texts) => work_over(rt, alloc, Work::Replay(texts), feed, shelf, out),
        Err(stop) => answer(alloc, stop, out),
    }
}

/// Replays a feed over a map and a fleet file, and writes where idle vehicles are best sent ahead, within a reach in seconds. Returns the
/// exit status.
pub fn ahead<R: Threads + Sync, H: Shelf, K: Sink>(
    rt: &R,
    alloc: Global,
    names: TextNames,
    feed: String,
    reach: u64,
    shelf: &mut H,
    out: &mut K,
) -> u8
    requires fresh { IsFresh (shelved H.contents H.asked H.brought H.back H.faults shelf.old) }
    requires reach { (1 ≤ reach) × (reach ≤ LONGEST_REACH) }
    ensures { IsRun (a_replay (string_bytes names.map)
        (string_bytes names.fleet) (string_bytes feed) (Some reach))
        (shelved H.contents H.asked H.brought H.back H.faults shelf.old)
        (shelved H.contents H.asked H.brought H.back H.faults shelf.new)
        (sunk K.written K.faults out.old out.new) result }
{
    match bring_texts(alloc, shelf, names, None) {
        Ok(texts) => work_over(rt, alloc, Work::Ahead(texts, reach), feed, shelf, out),
        Err(stop) => answer(alloc, stop, out),
    }
}

/// Audits a log over a map and a fleet file, and says what it found. Returns the exit status.
pub fn audit<R: Threads + Sync, H: Shelf, K: Sink>(
    rt: &R,
    alloc: Global,
    names: TextNames,
    log: String,
    shelf: &mut H,
    out: &mut K,
) -> u8
    requires fresh { IsFresh (shelved H.contents H.asked H.brought H.back H.faults shelf.old) }
    ensures { IsRun (an_audit (string_bytes names.map)
        (string_bytes names.fleet) (string_bytes log))
        (shelved H.contents H.asked H.brought H.back H.faults shelf.old)
        (shelved H.contents H.asked H.brought H.back H.faults shelf.new)
        (sunk K.written K.faults out.old out.new) result }
{
    match bring_texts(alloc, shelf, names, None) {
        Ok(texts) => work_over(rt, alloc, Work::Audit(texts), log, shelf, out),
        Err(stop) => answer(alloc, stop, out),
    }
}

/// Plays a league of the fleets of two files over a map and a feed, and writes its text. The settings are those of the first file.
/// Returns the exit status.
pub fn league<R: Threads + Sync, H: Shelf, K: Sink>(
    rt: &R,
    alloc: Global,
    names: TextNames,
    second: String,
    feed: String,
    shelf: &mut H,
    out: &mut K,
) -> u8
    requires fresh { IsFresh (shelved H.contents H.asked H.brought H.back H.faults shelf.old) }
    ensures { IsRun (a_league (string_bytes names.map) (string_bytes names.fleet)
        (string_bytes second) (string_bytes feed))
        (shelved H.contents H.asked H.brought H.back H.faults shelf.old)
        (shelved H.contents H.asked H.brought H.back H.faults shelf.new)
        (sunk K.written K.faults out.old out.new) result }
{
    match bring_texts(alloc, shelf, names, Some(second)) {
        Ok(texts) => work_over(rt, alloc, Work::League(texts), feed, shelf, out),
        Err(stop) => answer(alloc, stop, out),
    }
}

/// Writes the plain feed of a feed of bookings. Returns the exit status.
pub fn book<R: Threads + Sync, H: Shelf, K: Sink>(
    rt: &R,
    alloc: Global,
    feed: String,
    shelf: &mut H,
    out: &mut K,
) -> u8
    requires fresh { IsFresh (shelved H.contents H.asked H.brought H.back H.faults shelf.old) }
    ensures { IsRun (a_booking (string_bytes feed))
        (shelved H.contents H.asked H.brought H.back H.faults shelf.old)
        (shelved H.contents H.asked H.brought H.back H.faults shelf.new)
        (sunk K.written K.faults out.old out.new) result }
{
    work_over(rt, alloc, Work::Book, feed, shelf, out)
}

/// Drills a plan's city, and writes a line of it. The shelf is asked for nothing. Returns the exit status.
pub fn drill<R: Threads + Sync, H: Shelf, K: Sink>(
    rt: &R,
    alloc: Global,
    plan: &CityPlan,
    shelf: &H,
    out: &mut K,
) -> u8
    requires plan { IsPlan plan.now }
    requires fresh { IsFresh (shelved H.contents H.asked H.brought H.back H.faults shelf.now) }
    ensures { IsRun (a_drill plan.now)
        (shelved H.contents H.asked H.brought H.back H.faults shelf.now)
        (shelved H.contents H.asked H.brought H.back H.faults shelf.now)
        (sunk K.written K.faults out.old out.new) result }
{
    let _shelf = shelf;
    session_run::drill(rt, alloc, plan, out).status()
}

/// Serves riders and drivers at once over a map and a fleet file, and writes the log as it happens. Returns the exit status.
pub fn serve<R: Threads + Wait + Sync, H: Shelf, K: Sink, G: Gate>(
    rt: &R,
    alloc: Global,
    names: TextNames,
    feeds: Feeds,
    crew: Crew,
    shelf: &mut H,
    out: &mut K,
    gate: &G,
) -> u8
    requires workers { (1 ≤ crew.workers) × (crew.workers ≤ MOST_WORKERS) }
    requires desks { IsOneOrTwo crew.desks }
    requires fresh { IsFresh (shelved H.contents H.asked H.brought H.back H.faults shelf.old) }
    ensures { IsRun (a_service (string_bytes names.map) (string_bytes names.fleet)
        (string_bytes feeds.riders) (string_bytes feeds.drivers) crew.workers crew.desks)
        (shelved H.contents H.asked H.brought H.back H.faults shelf.old)
        (shelved H.contents H.asked H.brought H.back H.faults shelf.new)
        (sunk K.written K.faults out.old out.new) result }
{
    match bring_texts(alloc, shelf, names, None) {
        Ok(texts) => serve_feeds(rt, alloc, texts, feeds, crew, shelf, out, gate),
        Err(stop) => answer(alloc, stop, out),
    }
}
