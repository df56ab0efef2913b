//! The top call of a session that goes on.
ghost use Rattle.std.specs.Prelude.{◌≡◌, ◌<◌, ◌≤◌, codes, map, length, None, string_bytes, IfSome};
ghost use Rattle.ride_model.specs.declared.limits.TheConstants.{MOST_WORKERS};
ghost use Rattle.run_words.specs.Resumptions.{resumption_of};
ghost use Rattle.run_words.specs.inner.Resumptions.{asked_by_resumption};
ghost use Rattle.dispatcher.specs.inner.Readings.{MayBegin, meaning_of};
ghost use Rattle.dispatcher.specs.Shelves.{shelved, sunk, IsFresh, Says};
ghost use Rattle.resumption.specs.Mission.{ResumesWell};
ghost use Rattle.resumption.specs.Resumptions.{IsResumption};
ghost use Rattle.resumption.specs.inner.Steps.{ResumesOver};

use crate::feeds::go_on;
use crate::logs::bring_log;
use dispatcher::{Feeds, Status, TextNames, Texts, WORDS_REFUSED, answer, bring_texts, say_found};
use live_sessions::{Interrupted, have_few_commands};
use log_audit::{AuditFault, Restoration, Restored, Verdict};
use ride_ports::{Gate, Shelf, Sink, write_all};
use run_words::{Resumption, WordsError, read_resumption};
use std::alloc::Global;
use std::sync::Wait;
use std::thread::Threads;

/// Goes on with the session of a log, as the words ask for, and returns the exit status. The first word is the program's name.
pub fn resume<R: Threads + Wait + Sync, H: Shelf, K: Sink, G: Gate>(
    rt: &R,
    alloc: Global,
    words: &[String],
    shelf: &mut H,
    out: &mut K,
    gate: &G,
) -> u8
    requires fresh { IsFresh (shelved H.contents H.asked H.brought H.back H.faults shelf.old) }

    // Words that are not in order are refused, and nothing is asked for.
    ensures refused { resumption_of (map string_bytes words.now) ≡ None
        → IsFresh (shelved H.contents H.asked H.brought H.back H.faults shelf.new)
        × Says (sunk K.written K.faults out.old out.new) result 2 (codes "words refused\n") }

    // What they ask for is done: names are asked for in order, the map, the fleet file and the log are read, every source is given back,
    // and each status has its cause.
    ensures run { IfSome (resumption_of (map string_bytes words.now))
        (λ asked. IsResumption asked
        (shelved H.contents H.asked H.brought H.back H.faults shelf.old)
        (shelved H.contents H.asked H.brought H.back H.faults shelf.new)
        (sunk K.written K.faults out.old out.new) result) }

    // Of a session that ran whole one finished legal history is logged, which begins with the entries that the log's whole lines tell, and
    // in which each feed's commands stand once and in order, those that these lines answer and then all of its bytes; every batch is seated
    // at least cost, as its printed prices prove; only standing pairs are committed; and every confirmed ride keeps its promises.
    ensures resumed { IfSome (resumption_of (map string_bytes words.now))
        (λ asked. ResumesWell asked (H.contents shelf.old)
        (sunk K.written K.faults out.old out.new) result) }
{
    match read_resumption(alloc, words) {
        Ok(asked) => resume_asked(rt, alloc, asked, shelf, out, gate),
        Err(WordsError::Refused) => {
            let _ = write_all(out, WORDS_REFUSED);
            Status::WordsRefused.code()
        }
        Err(WordsError::NoMemory) => Status::NoMemory.code(),
    }
}

// What a session goes on with over its texts.
#[derive(Drop)]
struct Rest {
    log: String,
    feeds: Feeds,
    workers: u32,
}

// Goes on as was asked for, and returns the exit status.
fn resume_asked<R: Threads + Wait + Sync, H: Shelf, K: Sink, G: Gate>(
    rt: &R,
    alloc: Global,
    asked: Resumption,
    shelf: &mut H,
    out: &mut K,
    gate: &G,
) -> u8
    requires workers { (1 ≤ asked.workers) × (asked.workers ≤ MOST_WORKERS) }
    requires fresh { IsFresh (shelved H.contents H.asked H.brought H.back H.faults shelf.old) }
    ensures { IsResumption (asked_by_resumption asked)
        (shelved H.contents H.asked H.brought H.back H.faults shelf.old)
        (shelved H.contents H.asked H.brought H.back H.faults shelf.new)
        (sunk K.written K.faults out.old out.new) result }
{
    let Resumption {
        map,
        fleet,
        log,
        riders,
        drivers,
        workers,
    } = asked;
    let feeds = Feeds { riders, drivers };
    let rest = Rest {
        log,
        feeds,
        workers,
    };
    match bring_texts(alloc, shelf, TextNames { map, fleet }, None) {
        Ok(texts) => resume_over(rt, alloc, texts, rest, shelf, out, gate),
        Err(stop) => answer(alloc, stop, out),
    }
}

// Goes on over texts that were read, and returns the exit status.
fn resume_over<R: Threads + Wait + Sync, H: Shelf, K: Sink, G: Gate>(
    rt: &R,
    alloc: Global,
    texts: Texts,
    rest: Rest,
    shelf: &mut H,
    out: &mut K,
    gate: &G,
) -> u8
    requires start { MayBegin texts }
    requires workers { (1 ≤ rest.workers) × (rest.workers ≤ MOST_WORKERS) }
    requires asked_room { length (H.asked shelf.old) < 6 }
    requires back_room { length (H.back shelf.old) < 6 }
    ensures { ResumesOver (meaning_of texts) (string_bytes rest.log)
        (string_bytes rest.feeds.riders) (string_bytes rest.feeds.drivers)
        (shelved H.contents H.asked H.brought H.back H.faults shelf.old)
        (shelved H.contents H.asked H.brought H.back H.faults shelf.new)
        (sunk K.written K.faults out.old out.new) result }
{
    let Texts {
        roads,
        settings,
        fleet,
        second: _,
    } = texts;
    let Rest {
        log,
        feeds,
        workers,
    } = rest;
    let Some(found) = bring_log(rt, alloc, &roads, settings, fleet, log, shelf) else {
        return Status::SourceFailed.code();
    };
    match found {
        Ok(Restoration::Standing(restored)) => {
            if !have_few_commands(&restored.board) {
                return say_found(alloc, Err(AuditFault::TooLong), out);
            }
            let interrupted = interrupted_by(restored, workers);
            go_on(rt, alloc, &roads, interrupted, feeds, shelf, out, gate)
        }
        Ok(Restoration::No { line, why }) => say_found(alloc, Ok(Verdict::No { line, why }), out),
        Err(fault) => say_found(alloc, Err(fault), out),
    }
}

// What a session goes on from: what its log gave back, by so many workers a desk.
fn interrupted_by(restored: Restored<'_>, workers: u32) -> Interrupted<'_>
    ensures { result ≡ record {
      board = restored.entry.board;
      first = restored.entry.first;
      second = restored.entry.second;
      workers = workers;
    } }
{
    let (board, first, second) = restored.into_parts();
    Interrupted {
        board,
        first,
        second,
        workers,
    }
}
