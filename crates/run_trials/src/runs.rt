//! The top call over memory: tables of cases, each given to one driver.
ghost use Rattle.std.specs.Prelude.{◌≡◌};
ghost use Rattle.ride_ports.specs.inner.Calls.{ArePieces};
ghost use Rattle.ride_ports.specs.inner.MemFile.{HaveDistinctNames, HavePieces};

/// A file that one read gives whole, or of which each read gives so many bytes, or of which a read fails.
macro_rules! text {
    ($text:expr) => {
        $crate::runs::File {
            text: $text,
            by: None,
            fails: None,
        }
    };
    ($text:expr, by: $bytes:expr) => {
        $crate::runs::File {
            text: $text,
            by: Some($bytes),
            fails: None,
        }
    };
    ($text:expr, fails: $read:expr) => {
        $crate::runs::File {
            text: $text,
            by: None,
            fails: Some($read),
        }
    };
    ($text:expr, by: $bytes:expr, fails: $read:expr) => {
        $crate::runs::File {
            text: $text,
            by: Some($bytes),
            fails: Some($read),
        }
    };
}

mod audits;
mod bookings;
mod cases;
mod drawn;
mod drills;
mod edges;
mod faults;
mod gates;
mod leagues;
mod limits;
mod refusals;
mod resumed;
mod seatings;
mod serving;
mod sheets;
mod stops;
mod texts;
mod turns;

use dispatcher::run;
use gates::{Gated, Meeting, Watched};
use resumption::resume;
use ride_ports::{Gate, MemFile, MemShelf, MemSink, Sink};
use std::process::Abort;
use std::slice;
use std::sync::Wait;
use std::thread::Threads;
use texts::is_like;

/// Four nodes in a line, a minute between neighbors.
const LINE: &str = "p sp 4 6\n\
a 1 2 60\n\
a 2 1 60\n\
a 2 3 60\n\
a 3 2 60\n\
a 3 4 60\n\
a 4 3 60\n";

/// The defaults, and one vehicle of two seats at node 1.
const DEFAULTS: &str = "vehicle 1 2 1 0\n";

/// The same with batches of one request.
const ONE_BY_ONE: &str = "set batch 1\nvehicle 1 2 1 0\n";

/// One request, and a batch of it.
const FEED: &str = "request 7 2 4 1 600 300\nbatch\n";

/// The log of this feed, with batches of one request.
const LOG: &str = "log 1 feeds 1 desks 1\n\
f1 request 7 2 4 1 600 300 = waiting\n\
f1 batch = asked 1\n\
d1 open 1 at 0 requests 7 plans 1@0\n\
d1 commit 1 cost 180 seats 7:1:0:0 prices 7:180 pays outcomes 7:confirmed\n\
f1 end\n\
d1 end\n";

const REPLAY: &str = "replay --map m --fleet f --feed r";

const AUDIT: &str = "audit --map m --fleet f --log l";

/// How files are read: by one, two or seven bytes, or all at once.
const WAYS: [Option<usize>; 4] = [Some(1), Some(2), Some(7), None];

/// More bytes than each log here has.
const ROOM: usize = 6_000_000;

/// A file: its text, how many bytes each read gives, if that is not all at once, and the number of the read that fails, if one does.
#[derive(Clone, Copy)]
struct File<'a> {
    text: &'a str,
    by: Option<usize>,
    fails: Option<u64>,
}

/// The files of a run under the names `m`, `f`, `r`, `d` and `l`, how many bytes its sink takes before it fails, the lengths of the
/// pieces in which it takes them, of which the last one holds on, the numbers of the writes that fail, and where threads wait for
/// one another.
#[derive(Clone, Copy)]
struct Setup<'a> {
    map: File<'a>,
    fleet: File<'a>,
    feed: File<'a>,
    drivers: File<'a>,
    log: File<'a>,
    room: usize,
    takes: &'a [usize],
    refuses: &'a [u64],
    meetings: &'a [Meeting],
}

/// The files of the worked request, and its log.
const WORKED: Setup<'static> = Setup {
    map: text!(LINE),
    fleet: text!(ONE_BY_ONE),
    feed: text!(FEED),
    drivers: text!(""),
    log: text!(LOG),
    room: ROOM,
    takes: &[],
    refuses: &[],
    meetings: &[],
};

// These files, where each read of the map, the fleet file and the feed gives so many bytes.
fn read_by<'a>(files: Setup<'a>, by: Option<usize>) -> Setup<'a> {
    Setup {
        map: File { by, ..files.map },
        fleet: File { by, ..files.fleet },
        feed: File { by, ..files.feed },
        ..files
    }
}

/// How a run ends: its status, how many faults its shelf counts, and what it writes, in which each `*` is any part of a line.
#[derive(Clone, Copy)]
struct End<'a> {
    status: u8,
    faults: u64,
    written: &'a str,
}

/// The status of a run, what it wrote, the faults that its shelf counted, and whether no thread waited for another one in vain.
#[derive(Drop)]
struct Answer<'a> {
    status: u8,
    out: MemSink<'a>,
    faults: u64,
    met: bool,
}

impl<'a> Answer<'a> {
    fn written(&self) -> &[u8] {
        self.out.written()
    }

    fn text(&self) -> &str {
        str::from_utf8(self.written()).unwrap_or("(no text)")
    }

    /// Whether its run ended so, whatever it wrote.
    fn ends(&self, status: u8, faults: u64) -> bool {
        self.met && self.status == status && self.faults == faults
    }

    /// Whether its run ended so.
    fn is(&self, end: End<'_>) -> bool {
        self.ends(end.status, end.faults)
            && (self.text() == end.written || is_like(self.text(), end.written))
    }
}

// Asserts how a run over these files ends.
fn expect<R: Abort + Threads + Wait + Sync + AllocGlobal>(
    rt: &R,
    shows: &str,
    words: &str,
    files: Setup<'_>,
    end: End<'_>,
) {
    let answer = answer_to(rt, words, files);
    expect_end(rt, shows, words, &answer, end);
}

// Asserts how a run over these files ends, however the map, the fleet file and the feed are read.
fn expect_however_read<R: Abort + Threads + Wait + Sync + AllocGlobal>(
    rt: &R,
    shows: &str,
    words: &str,
    files: Setup<'_>,
    end: End<'_>,
) {
    for by in WAYS {
        expect(rt, shows, words, read_by(files, by), end);
    }
}

fn expect_end(rt: &impl Abort, shows: &str, words: &str, answer: &Answer<'_>, end: End<'_>) {
    assert!(rt; answer.is(end), "{shows}: {words}: {}", answer.text());
}

// Asserts what an audit says of a log over a map and a fleet.
fn expect_audit<R: Abort + Threads + Wait + Sync + AllocGlobal>(
    rt: &R,
    shows: &str,
    files: Setup<'_>,
    log: &str,
    line: &str,
) {
    let files = Setup {
        log: text!(log),
        ..files
    };
    let end = End {
        status: 0,
        faults: 0,
        written: line,
    };
    expect(rt, shows, AUDIT, files, end);
}

// What a run answers to these words.
fn answer_to<'a, R: Abort + Threads + Wait + Sync + AllocGlobal>(
    rt: &R,
    words: &str,
    setup: Setup<'a>,
) -> Answer<'a> {
    let gate = Gated::new(setup.meetings);
    expect_pieces(rt, setup.takes);
    let sink = MemSink::new(rt.alloc(), setup.room, setup.takes, setup.refuses);
    let sink = sink.expect(rt, "there is memory");
    let mut out = Watched { sink, gate: &gate };
    let (status, faults) = run_over(rt, words, setup, &mut out, &gate);
    Answer {
        status,
        out: out.sink,
        faults,
        met: gate.all_met(),
    }
}

// The lengths of the pieces of a file of which each read gives so many bytes.
fn pieces_of(by: &Option<usize>) -> &[usize] {
    match by {
        Some(bytes) => slice::from_ref(bytes),
        None => &[],
    }
}

// The numbers of the reads of a file that fail.
fn failing_of(fails: &Option<u64>) -> &[u64] {
    match fails {
        Some(read) => slice::from_ref(read),
        None => &[],
    }
}

// No piece is empty.
fn expect_pieces(rt: &impl Abort, pieces: &[usize])
    ensures { ArePieces pieces.now }
{
    assert!(rt; pieces.iter().all(|count| *count > 0));
}

// The files of a run.
fn files_of<'a>(rt: &impl Abort, setup: &'a Setup<'a>) -> [MemFile<'a>; 5]
    ensures names { HaveDistinctNames result }
    ensures pieces { HavePieces result }
{
    [
        file_of(rt, "m", &setup.map),
        file_of(rt, "f", &setup.fleet),
        file_of(rt, "r", &setup.feed),
        file_of(rt, "d", &setup.drivers),
        file_of(rt, "l", &setup.log),
    ]
}

fn file_of<'a>(rt: &impl Abort, name: &'a str, file: &'a File<'a>) -> MemFile<'a>
    ensures name { result.name.now ≡ name.now }
    ensures pieces { ArePieces result.pieces.now }
{
    let pieces = pieces_of(&file.by);
    expect_pieces(rt, pieces);
    MemFile {
        name,
        bytes: file.text.as_bytes(),
        pieces,
        failing: failing_of(&file.fails),
    }
}

// The status of a run over these files, and the faults that its shelf counted.
fn run_over<R: Abort + Threads + Wait + Sync + AllocGlobal, K: Sink, G: Gate>(
    rt: &R,
    words: &str,
    setup: Setup<'_>,
    out: &mut K,
    gate: &G,
) -> (u8, u64) {
    let words = words_of(rt, words);
    let files = files_of(rt, &setup);
    let mut shelf = MemShelf::new(rt.alloc(), &files, &[]);
    let status = if words
        .first()
        .is_some_and(|word| word.as_str() == "ride_resume")
    {
        resume(rt, rt.alloc(), words.as_slice(), &mut shelf, out, gate)
    } else {
        run(rt, rt.alloc(), words.as_slice(), &mut shelf, out, gate)
    };
    (status, shelf.faults())
}

fn words_of(rt: &(impl Abort + AllocGlobal), line: &str) -> Vec<String> {
    let mut words = Vec::new(rt.alloc());
    for word in line.split_whitespace() {
        let word = String::from_str(rt.alloc(), word).expect(rt, "there is memory");
        words.push(word).expect(rt, "there is memory");
    }
    words
}
