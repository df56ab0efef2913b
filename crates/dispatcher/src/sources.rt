//! What is done over one source, which is brought by its name and given back.
ghost use Rattle.std.specs.Prelude.{◌<◌, length, string_bytes};
ghost use Rattle.live_sessions.specs.inner.Serving.{feed_run};
ghost use Rattle.dispatcher.specs.Shelves.{shelved, sunk};
ghost use Rattle.dispatcher.specs.inner.Sources.{DoesWork, MayWork, WorksOver};

use crate::files::Texts;
use crate::handing::{bring, give_back};
use crate::status::Status;
use crate::verdicts::say_found;
use fleet_league::league_session;
use ride_ports::{Shelf, Sink, Source};
use std::alloc::Global;
use std::thread::Threads;

/// What is done over one source.
#[derive(Drop)]
pub enum Work {
    /// Its log is written.
    Replay(Texts),
    /// In place of a log where idle vehicles are best sent ahead, within a reach in seconds.
    Ahead(Texts, u64),
    Audit(Texts),
    League(Texts),
    Book,
}

/// Brings the source of a name, does the work over it and gives it back. Returns the exit status.
pub fn work_over<R: Threads + Sync, H: Shelf, K: Sink>(
    rt: &R,
    alloc: Global,
    work: Work,
    name: String,
    shelf: &mut H,
    out: &mut K,
) -> u8
    requires asked_room { length (H.asked shelf.old) < 8 }
    requires back_room { length (H.back shelf.old) < 8 }
    requires may_work { MayWork work }
    ensures { DoesWork work (string_bytes name)
        (shelved H.contents H.asked H.brought H.back H.faults shelf.old)
        (shelved H.contents H.asked H.brought H.back H.faults shelf.new)
        (sunk K.written K.faults out.old out.new) result }
{
    let Ok(mut source) = bring(shelf, name) else {
        return Status::SourceFailed.code();
    };
    let status = do_work(rt, alloc, work, &mut source, out);
    give_back(shelf, source);
    status
}

// Does the work over a source. Returns the exit status.
fn do_work<R: Threads + Sync, S: Source, K: Sink>(
    rt: &R,
    alloc: Global,
    work: Work,
    source: &mut S,
    out: &mut K,
) -> u8
    requires { MayWork work }
    ensures { WorksOver work (feed_run S.left S.faults source.old source.new)
        (sunk K.written K.faults out.old out.new) result }
{
    match work {
        Work::Replay(texts) => {
            let Texts {
                roads,
                settings,
                fleet,
                second: _,
            } = texts;
            session_run::replay(rt, alloc, &roads, settings, fleet, source, out).status()
        }
        Work::Ahead(texts, reach) => {
            let Texts {
                roads,
                settings,
                fleet,
                second: _,
            } = texts;
            session_run::ahead(rt, alloc, &roads, settings, fleet, source, reach, out).status()
        }
        Work::Audit(texts) => {
            let Texts {
                roads,
                settings,
                fleet,
                second: _,
            } = texts;
            let found = log_audit::audit(rt, alloc, &roads, settings, fleet, source);
            say_found(alloc, found, out)
        }
        Work::League(texts) => {
            let Texts {
                roads,
                settings,
                fleet,
                second,
            } = texts;
            league_session::league(rt, alloc, &roads, settings, fleet, second, source, out).status()
        }
        Work::Book => booking_desk::book_feed(alloc, source, out).status(),
    }
}
