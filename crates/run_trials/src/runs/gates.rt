//! Gates at which a thread waits for another one, or for a line of the log.
ghost use Rattle.std.specs.Prelude.{Some};

use ride_ports::{Failed, Gate, MemSink, Sink};
use std::sync::atomic::{AtomicU64, Ordering};
use std::thread;

/// A thread that comes to a place waits there until another place was passed so many times.
pub(super) struct Meeting {
    pub(super) waits: u32,
    pub(super) until: u32,
    pub(super) times: u64,
}

/// The place that is passed once the log has the line of the first opening. No loop passes it.
pub(super) const LOGGED: u32 = 8;

/// How the line of the first opening begins.
const FIRST_OPENING: &str = "d1 open 1 at 0 requests 7 plans 1@0\n";

/// How often a thread looks whether another one has come.
const MOST_TURNS: u64 = 10_000_000;

/// A gate that counts who passes each of its places, at some of which threads wait.
#[derive(Drop)]
pub(super) struct Gated<'a> {
    meetings: &'a [Meeting],
    one: AtomicU64,
    six: AtomicU64,
    seven: AtomicU64,
    logged: AtomicU64,
    missed: AtomicU64,
}

impl<'a> Gated<'a> {
    pub(super) fn new(meetings: &'a [Meeting]) -> Gated<'a> {
        Gated {
            meetings,
            one: AtomicU64::new(0),
            six: AtomicU64::new(0),
            seven: AtomicU64::new(0),
            logged: AtomicU64::new(0),
            missed: AtomicU64::new(0),
        }
    }

    /// Whether no thread waited in vain.
    pub(super) fn all_met(&self) -> bool {
        self.missed.load(Ordering::SeqCst) == 0
    }

    // The count of those who passed a place that threads wait for.
    fn passes_of(&self, place: u32) -> Option<&AtomicU64> {
        match place {
            1 => Some(&self.one),
            6 => Some(&self.six),
            7 => Some(&self.seven),
            LOGGED => Some(&self.logged),
            _ => None,
        }
    }

    fn reached(&self, place: u32) -> u64 {
        match self.passes_of(place) {
            Some(passes) => passes.load(Ordering::SeqCst),
            None => 0,
        }
    }

    fn wait_for(&self, meeting: &Meeting) {
        for _ in 0..MOST_TURNS {
            if self.reached(meeting.until) >= meeting.times {
                return;
            }
            thread::yield_now();
        }
        let _ = self.missed.fetch_add(1, Ordering::SeqCst);
    }
}

impl<'a> Gate for Gated<'a> {
    fn pass(&self, place: u32) {
        if let Some(passes) = self.passes_of(place) {
            let _ = passes.fetch_add(1, Ordering::SeqCst);
        }
        for meeting in self.meetings {
            if meeting.waits == place {
                self.wait_for(meeting);
            }
        }
    }
}

/// A sink that passes a gate once it has taken the line of the first opening.
#[derive(Drop)]
pub(super) struct Watched<'s, 'g> {
    pub(super) sink: MemSink<'s>,
    pub(super) gate: &'g Gated<'g>,
}

impl<'s, 'g> Sink for Watched<'s, 'g> {
    ghost written = { λ w. Some w.sink.written };

    ghost faults = { λ w. w.sink.calls.faults };

    fn write(&mut self, piece: &[u8]) -> Result<usize, Failed> {
        let count = self.sink.write(piece)?;
        if !self.gate.meetings.is_empty() && is_opened(self.sink.written()) {
            self.gate.pass(LOGGED);
        }
        Ok(count)
    }
}

// Whether a log has the line of the first opening.
fn is_opened(log: &[u8]) -> bool {
    str::from_utf8(log).unwrap_or("").contains(FIRST_OPENING)
}
