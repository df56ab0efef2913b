// Entries of the log, worked by hand: their lines say them, and are what is printed of them.
ghost use Rattle.ride_model.specs.Text.{HasLine, IsOneOrTwo};
ghost use Rattle.ride_ports.specs.inner.Calls.{ArePieces};

use ride_model::{Actor, Command, Ending, Entry, Event, Outcome, Reply, Seat};
use ride_ports::MemSink;
use std::alloc::Global;
use std::process::Abort;
use trip_log::{print_entry, print_head, read_entry};

/// A line with its LF, whether it is one of version 2 of the log, and the entry that it says.
struct Row {
    line: &'static [u8],
    in_2: bool,
    actor: Actor,
    event: What,
}

/// What happened.
enum What {
    Fed(Command, Said),
    Finish(Ending),
    Opened(Opened),
    Committed(Commit),
    Abandoned(u64),
}

struct Opened {
    batch: u64,
    time: u64,
    requests: &'static [u64],
    plans: &'static [(u64, u64)],
}

struct Commit {
    batch: u64,
    cost: u64,
    seats: &'static [Seat],
    prices: &'static [(u64, u64)],
    pays: &'static [(u64, u64)],
    outcomes: &'static [(u64, Outcome)],
}

/// A reply's word, its number or 0, and the rides that it breaks.
struct Said {
    word: &'static [u8],
    number: u64,
    broken: &'static [u64],
}

/// A row of a command that was answered.
macro_rules! fed {
    ($line:expr, in_2: $in_2:expr, feed: $feed:expr, $command:expr => $word:expr, $number:expr, $broken:expr) => {
        Row {
            line: $line,
            in_2: $in_2,
            actor: Actor::Feed($feed),
            event: What::Fed(
                $command,
                Said {
                    word: $word,
                    number: $number,
                    broken: &$broken,
                },
            ),
        }
    };
}

macro_rules! row {
    ($line:expr, in_2: $in_2:expr, $actor:expr, $event:expr) => {
        Row {
            line: $line,
            in_2: $in_2,
            actor: $actor,
            event: $event,
        }
    };
}

macro_rules! request {
    ($chairs:expr) => {
        Command::Request {
            id: 7,
            from: 2,
            to: 4,
            seats: 1,
            latest: 600,
            longest: 300,
            chairs: $chairs,
        }
    };
}

macro_rules! seat {
    ($request:expr, $vehicle:expr, $i:expr, $j:expr) => {
        Seat {
            request: $request,
            vehicle: $vehicle,
            i: $i,
            j: $j,
        }
    };
}

macro_rules! moved {
    ($named:expr, $stands:expr) => {
        Outcome::Moved {
            named: $named,
            stands: $stands,
        }
    };
}

const CANCEL: Command = Command::Cancel { id: 7 };

const REPORT: Command = Command::At {
    vehicle: 3,
    node: 2,
    time: 60,
};

const DONE: Command = Command::Done { vehicle: 3 };

const ON: Command = Command::On { vehicle: 3 };

const OFF: Command = Command::Off { vehicle: 3 };

const CLOCK: Command = Command::Clock { time: 20 };

const GREATEST: u64 = 999_999_999_999_999_999;

/// The log of the plain path, after its head.
static PLAIN_PATH: [Row; 6] = [
    fed!(b"f1 request 7 2 4 1 600 300 = waiting\n", in_2: false, feed: 1, request!(0) => b"waiting", 0, []),
    fed!(b"f1 batch = asked 1\n", in_2: false, feed: 1, Command::Ask => b"asked", 1, []),
    row!(
        b"d1 open 1 at 0 requests 7 plans 1@0\n",
        in_2: false,
        Actor::Desk(1),
        What::Opened(Opened {
            batch: 1,
            time: 0,
            requests: &[7],
            plans: &[(1, 0)],
        })
    ),
    row!(
        b"d1 commit 1 cost 180 seats 7:1:0:0 prices 7:180 pays outcomes 7:confirmed\n",
        in_2: false,
        Actor::Desk(1),
        What::Committed(Commit {
            batch: 1,
            cost: 180,
            seats: &[seat!(7, 1, 0, 0)],
            prices: &[(7, 180)],
            pays: &[],
            outcomes: &[(7, Outcome::Confirmed)],
        })
    ),
    row!(
        b"f1 end\n",
        in_2: false,
        Actor::Feed(1),
        What::Finish(Ending::Whole)
    ),
    row!(
        b"d1 end\n",
        in_2: false,
        Actor::Desk(1),
        What::Finish(Ending::Whole)
    ),
];

/// Replies that say a word, and a bad line, which has no reply.
static WORDS: [Row; 5] = [
    fed!(b"f2 request 7 2 4 1 600 300 1 = waiting\n", in_2: true, feed: 2, request!(1) => b"waiting", 0, []),
    fed!(b"f2 cancel 7 = cancelled\n", in_2: true, feed: 2, CANCEL => b"cancelled", 0, []),
    fed!(b"f2 at 3 2 60 = onmap\n", in_2: true, feed: 2, REPORT => b"onmap", 0, []),
    fed!(b"f2 off 3 = duty\n", in_2: true, feed: 2, OFF => b"duty", 0, []),
    fed!(b"f1 bad 4\n", in_2: true, feed: 1, Command::Bad { line: 4 } => b"", 0, []),
];

/// Replies that say a number.
static NUMBERS: [Row; 5] = [
    fed!(b"f1 cancel 7 = freed 3\n", in_2: false, feed: 1, CANCEL => b"freed", 3, []),
    fed!(b"f1 done 3 = picked 7\n", in_2: false, feed: 1, DONE => b"picked", 7, []),
    fed!(b"f1 done 3 = dropped 8\n", in_2: false, feed: 1, DONE => b"dropped", 8, []),
    fed!(b"f1 clock 20 = now 20\n", in_2: false, feed: 1, CLOCK => b"now", 20, []),
    fed!(b"f1 on 3 = refused 10\n", in_2: false, feed: 1, ON => b"refused", 10, []),
];

/// Late reports name the rides that they break.
static LATE: [Row; 3] = [
    fed!(b"f2 at 3 2 60 = late 5\n", in_2: false, feed: 2, REPORT => b"late", 5, []),
    fed!(b"f2 at 3 2 60 = late 5 broken 7 8\n", in_2: false, feed: 2, REPORT => b"late", 5, [7, 8]),
    fed!(b"f2 at 3 2 60 = late 5 broken 7 999999999999999999\n", in_2: false, feed: 2, REPORT => b"late", 5, [7, GREATEST]),
];

/// Lines of desks.
static COMMITS: [Row; 2] = [
    row!(
        b"d2 commit 12 cost 3780 seats 5:2:1:3 6:1:0:2 prices 5:180 6:120 pays 1:60 2:30 outcomes 5:moved:3:4 6:behind:50:60 7:away 8:gone\n",
        in_2: true,
        Actor::Desk(2),
        What::Committed(Commit {
            batch: 12,
            cost: 3780,
            seats: &[seat!(5, 2, 1, 3), seat!(6, 1, 0, 2)],
            prices: &[(5, 180), (6, 120)],
            pays: &[(1, 60), (2, 30)],
            outcomes: &[
                (5, moved!(3, 4)),
                (6, Outcome::Behind { start: 50, now: 60 }),
                (7, Outcome::Away),
                (8, Outcome::Gone),
            ],
        })
    ),
    row!(
        b"d1 commit 4 cost 180 seats 7:2:1:3 prices 7:180 pays 2:60 outcomes 7:moved:5:6 8:gone\n",
        in_2: false,
        Actor::Desk(1),
        What::Committed(Commit {
            batch: 4,
            cost: 180,
            seats: &[seat!(7, 2, 1, 3)],
            prices: &[(7, 180)],
            pays: &[(2, 60)],
            outcomes: &[(7, moved!(5, 6)), (8, Outcome::Gone)],
        })
    ),
];

/// A batch that is given up, and ends that are cut.
static ENDS: [Row; 3] = [
    row!(b"d1 abandon 3\n", in_2: true, Actor::Desk(1), What::Abandoned(3)),
    row!(b"d2 cut\n", in_2: true, Actor::Desk(2), What::Finish(Ending::Cut)),
    row!(
        b"f2 cut\n",
        in_2: false,
        Actor::Feed(2),
        What::Finish(Ending::Cut)
    ),
];

/// A reply's word, its number or 0, and the rides that it breaks.
fn said_by(reply: &Reply) -> (&'static [u8], u64, &[u64]) {
    match reply {
        Reply::Waiting => (b"waiting", 0, &[]),
        Reply::Cancelled => (b"cancelled", 0, &[]),
        Reply::Freed { vehicle } => (b"freed", *vehicle, &[]),
        Reply::OnMap => (b"onmap", 0, &[]),
        Reply::Late { seconds, broken } => (b"late", *seconds, broken.items()),
        Reply::Picked { ride } => (b"picked", *ride, &[]),
        Reply::Dropped { ride } => (b"dropped", *ride, &[]),
        Reply::Duty => (b"duty", 0, &[]),
        Reply::Now { time } => (b"now", *time, &[]),
        Reply::Asked { count } => (b"asked", *count, &[]),
        Reply::Noted => (b"", 0, &[]),
        Reply::Refused { code } => (b"refused", u64::from(*code), &[]),
    }
}

fn is_fed(event: &Event, asked: &Command, said: &Said) -> bool {
    let Event::Fed { command, reply } = event else {
        return false;
    };
    let (word, number, broken) = said_by(reply);
    command == asked && word == said.word && number == said.number && broken == said.broken
}

fn is_opened(event: &Event, opened: &Opened) -> bool {
    let Event::Opened {
        batch,
        time,
        requests,
        plans,
    } = event
    else {
        return false;
    };
    (*batch, *time) == (opened.batch, opened.time)
        && requests.items() == opened.requests
        && plans.items() == opened.plans
}

fn is_commit(event: &Event, commit: &Commit) -> bool {
    let Event::Committed {
        batch,
        cost,
        seats,
        prices,
        pays,
        outcomes,
    } = event
    else {
        return false;
    };
    (*batch, *cost) == (commit.batch, commit.cost)
        && seats.items() == commit.seats
        && prices.items() == commit.prices
        && pays.items() == commit.pays
        && outcomes.items() == commit.outcomes
}

fn is_event(event: &Event, what: &What) -> bool {
    match what {
        What::Fed(command, said) => is_fed(event, command, said),
        What::Finish(wanted) => matches!(event, Event::Finish { ending } if ending == wanted),
        What::Opened(opened) => is_opened(event, opened),
        What::Committed(commit) => is_commit(event, commit),
        What::Abandoned(wanted) => matches!(event, Event::Abandoned { batch } if batch == wanted),
    }
}

/// Whether all of what is printed of an entry goes into a sink; nothing where it is not a row's.
fn prints_entry(entry: &Entry, row: &Row, log: u8, sink: &mut MemSink<'_>) -> Option<bool>
    requires log { IsOneOrTwo log }
    requires has_line { HasLine log entry.now }
{
    if entry.actor == row.actor && is_event(&entry.event, &row.event) {
        Some(print_entry(entry, log, sink).is_ok())
    } else {
        None
    }
}

/// The same of the entry that a row's line says.
fn prints(rt: &impl Abort, alloc: Global, row: &Row, sink: &mut MemSink<'_>) -> Option<bool> {
    let log = if row.in_2 { 2 } else { 1 };
    let line = row.line.strip_suffix(b"\n").expect(rt, "an LF");
    match read_entry(alloc, line, log).expect(rt, "there is memory") {
        Some(entry) => prints_entry(&entry, row, log, sink),
        None => None,
    }
}

/// What a sink of this room makes of a row: whether it took all, whether it has what it has room for, and its count of faults.
fn taken_by(
    rt: &impl Abort,
    alloc: Global,
    row: &Row,
    room: usize,
    pieces: &[usize],
) -> (Option<bool>, bool, u64)
    requires { ArePieces pieces.now }
{
    let mut sink = MemSink::new(alloc, room, pieces, &[]).expect(rt, "there is memory");
    let printed = prints(rt, alloc, row, &mut sink);
    let as_far = Some(sink.written()) == row.line.get(..room);
    (printed, as_far, sink.faults())
}

/// Each row is printed as its line by a sink that takes a byte at a time, and a sink that fails has a prefix.
fn expect_rows(rt: &impl Abort, alloc: Global, rows: &[Row]) {
    for (place, row) in rows.iter().enumerate() {
        let whole = taken_by(rt, alloc, row, row.line.len(), &[1]);
        let mut as_said = whole == (Some(true), true, 0);
        for room in 0..row.line.len() {
            as_said &= taken_by(rt, alloc, row, room, &[]) == (Some(false), true, 1);
        }
        assert!(rt; as_said, "row {place}");
    }
}

const LOG: &[u8] =
    b"log 1 feeds 1 desks 1\nf1 request 7 2 4 1 600 300 = waiting\nf1 batch = asked 1\nd1 open 1 at 0 requests 7 plans 1@0\nd1 commit 1 cost 180 seats 7:1:0:0 prices 7:180 pays outcomes 7:confirmed\nf1 end\nd1 end\n";

/// Whether the log of the plain path is printed, by a sink that takes a byte at a time.
fn prints_plain_path(rt: &impl Abort, alloc: Global) -> bool {
    let mut sink = MemSink::new(alloc, 300, &[1], &[]).expect(rt, "there is memory");
    let mut printed = print_head(1, 1, 1, &mut sink).is_ok();
    for row in PLAIN_PATH.iter() {
        printed &= prints(rt, alloc, row, &mut sink) == Some(true);
    }
    printed & (sink.faults() == 0) & (sink.written() == LOG)
}

#[test]
fn entries_are_printed_as_the_lines_that_say_them_and_a_sink_that_fails_has_a_prefix(
    rt: HostRuntime,
) {
    expect_rows(&rt, rt.alloc(), &PLAIN_PATH);
    expect_rows(&rt, rt.alloc(), &WORDS);
    expect_rows(&rt, rt.alloc(), &NUMBERS);
    expect_rows(&rt, rt.alloc(), &LATE);
    expect_rows(&rt, rt.alloc(), &COMMITS);
    expect_rows(&rt, rt.alloc(), &ENDS);
    assert!(rt; prints_plain_path(&rt, rt.alloc()));
}
