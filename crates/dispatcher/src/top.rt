//! The top call.
ghost use Rattle.std.specs.Prelude.{◌≡◌, codes, map, None, string_bytes, IfSome};
ghost use Rattle.dispatcher.specs.Mission.{ServesWell};
ghost use Rattle.dispatcher.specs.Runs.{IsRun};
ghost use Rattle.dispatcher.specs.Shelves.{shelved, sunk, IsFresh, Says};
ghost use Rattle.run_words.specs.inner.Asks.{asked_by, IsInRange};
ghost use Rattle.run_words.specs.Words.{ask_of};

use crate::files::TextNames;
use crate::runs::{ahead, audit, book, drill, league, replay, serve};
use crate::serving::{Crew, Feeds};
use crate::status::Status;
use ride_ports::{Gate, Shelf, Sink, write_all};
use run_words::{Ask, WordsError, read_ask};
use std::alloc::Global;
use std::sync::Wait;
use std::thread::Threads;

/// What is written where the words are not in order.
pub const WORDS_REFUSED: &[u8] = b"words refused\n";

/// Runs what the words ask for, and returns the exit status.
pub fn run<R: Threads + Wait + Sync, H: Shelf, K: Sink, G: Gate>(
    rt: &R,
    alloc: Global,
    words: &[String],
    shelf: &mut H,
    out: &mut K,
    gate: &G,
) -> u8
    requires fresh { IsFresh (shelved H.contents H.asked H.brought H.back H.faults shelf.old) }

    // Words that are not in order are refused, and nothing is asked for.
    ensures refused { ask_of (map string_bytes words.now) ≡ None
        → IsFresh (shelved H.contents H.asked H.brought H.back H.faults shelf.new)
        × Says (sunk K.written K.faults out.old out.new) result 2 (codes "words refused\n") }

    // What they ask for is done: names are asked for in order, texts are read, every source is given back, and each status has its cause.
    ensures run { IfSome (ask_of (map string_bytes words.now))
        (λ ask. IsRun ask (shelved H.contents H.asked H.brought H.back H.faults shelf.old)
        (shelved H.contents H.asked H.brought H.back H.faults shelf.new)
        (sunk K.written K.faults out.old out.new) result) }

    // Of a service that ran whole one legal history is logged, in which each feed's commands stand once and in order, all of them; every
    // batch is seated at least cost over the versions that it names, as its printed prices prove; only standing pairs are committed;
    // and every confirmed ride keeps its promises until a late report names it.
    ensures served { IfSome (ask_of (map string_bytes words.now))
        (λ ask. ServesWell ask (H.contents shelf.old)
        (sunk K.written K.faults out.old out.new) result) }
{
    match read_ask(alloc, words) {
        Ok(ask) => run_ask(rt, alloc, ask, shelf, out, gate),
        Err(WordsError::Refused) => {
            let _ = write_all(out, WORDS_REFUSED);
            Status::WordsRefused.code()
        }
        Err(WordsError::NoMemory) => Status::NoMemory.code(),
    }
}

// Runs what was asked for, and returns the exit status.
fn run_ask<R: Threads + Wait + Sync, H: Shelf, K: Sink, G: Gate>(
    rt: &R,
    alloc: Global,
    ask: Ask,
    shelf: &mut H,
    out: &mut K,
    gate: &G,
) -> u8
    requires in_range { IsInRange ask }
    requires fresh { IsFresh (shelved H.contents H.asked H.brought H.back H.faults shelf.old) }
    ensures { IsRun (asked_by ask) (shelved H.contents H.asked H.brought H.back H.faults shelf.old)
        (shelved H.contents H.asked H.brought H.back H.faults shelf.new)
        (sunk K.written K.faults out.old out.new) result }
{
    match ask {
        Ask::Replay { map, fleet, feed } => {
            replay(rt, alloc, TextNames { map, fleet }, feed, shelf, out)
        }
        Ask::Ahead {
            map,
            fleet,
            feed,
            reach,
        } => ahead(rt, alloc, TextNames { map, fleet }, feed, reach, shelf, out),
        Ask::Audit { map, fleet, log } => {
            audit(rt, alloc, TextNames { map, fleet }, log, shelf, out)
        }
        Ask::Serve {
            map,
            fleet,
            riders,
            drivers,
            workers,
            desks,
        } => {
            let names = TextNames { map, fleet };
            let feeds = Feeds { riders, drivers };
            let crew = Crew { workers, desks };
            serve(rt, alloc, names, feeds, crew, shelf, out, gate)
        }
        Ask::Drill(plan) => drill(rt, alloc, &plan, shelf, out),
        Ask::Book { feed } => book(rt, alloc, feed, shelf, out),
        Ask::League {
            map,
            fleet,
            second,
            feed,
        } => {
            let names = TextNames { map, fleet };
            league(rt, alloc, names, second, feed, shelf, out)
        }
    }
}
