//! Feeds of bookings, and the plain feeds that they give.
use super::cases::{Case, REPLAYED, expect_all};
use super::{DEFAULTS, REPLAY, Setup, WORKED, answer_to, expect_audit};
use std::process::Abort;
use std::sync::Wait;
use std::thread::Threads;

pub(super) const BOOK: &str = "book --feed r";

/// Three bookings, of which one is given up, twice.
const EVENING: &str = "book 60 7 2 4 1 600 300\n\
book 60 5 3 4 1 600 300\n\
book 30 9 1 4 1 600 300\n\
unbook 9\n\
unbook 9\n\
clock 59\n\
clock 60\n\
batch\n";

const RELEASED: &str = "# refused 21 line 5\n\
clock 59\n\
clock 60\n\
request 5 3 4 1 600 300\n\
request 7 2 4 1 600 300\n\
batch\n\
# held 0\n";

/// Bookings without a map and a fleet.
const BOOKED: Case = Case {
    words: BOOK,
    map: text!(""),
    fleet: text!(""),
    ..REPLAYED
};

static RELEASES: [Case; 4] = [
    Case {
        shows: "bookings of one moment come in order of their ids",
        feed: text!(EVENING),
        written: RELEASED,
        ..BOOKED
    },
    Case {
        shows: "the same in pieces",
        feed: text!(EVENING, by: 7),
        written: RELEASED,
        ..BOOKED
    },
    Case {
        shows: "a release that has come, one that is too late, and an id that was booked before",
        feed: text!(
            "book 0 7 2 4 1 600 300\n\
book 5 7 2 4 1 600 300\n\
book 1000000001 8 2 4 1 600 300\n\
book 9 8 2 4 1 600 300\n"
        ),
        written: "request 7 2 4 1 600 300\n\
# refused 19 line 2\n\
# refused 20 line 3\n\
# held 1\n",
        ..BOOKED
    },
    Case {
        shows: "chairs are spelled, and lines of other commands stand as they are",
        feed: text!(
            "book 0 7 2 4 0 600 300 1\n\
\tat 1 2\t3\r\n\
# a comment\n\
book 1 2\n\
clock 1000000001"
        ),
        written: "request 7 2 4 0 600 300 1\n\
\tat 1 2\t3\r\n\
# a comment\n\
book 1 2\n\
clock 1000000001\n\
# held 0\n",
        ..BOOKED
    },
];

static FAULTS: [Case; 3] = [
    Case {
        shows: "a feed that is missing",
        words: "book --feed x",
        feed: text!(EVENING),
        status: 5,
        faults: 1,
        ..BOOKED
    },
    Case {
        shows: "a feed whose second read fails in the middle of a line",
        feed: text!("clock 1\nclock 2\n", by: 10, fails: 2),
        status: 5,
        faults: 1,
        written: "clock 1\n",
        ..BOOKED
    },
    Case {
        shows: "a sink that takes four bytes",
        feed: text!("clock 1\nclock 2\n"),
        room: 4,
        status: 6,
        written: "cloc",
        ..BOOKED
    },
];

/// Words that are not in order, and a feed beyond its limit.
static REFUSED: [Case; 2] = [
    Case {
        shows: "bookings have one option",
        words: "book --feed r --map m",
        feed: text!(EVENING),
        status: 2,
        written: "words refused\n",
        ..BOOKED
    },
    Case {
        shows: "bookings of too many lines are cut",
        feed: text!("<1000001|\n>"),
        status: 8,
        written: "<1000000|\n>",
        ..BOOKED
    },
];

#[test]
fn bookings_have_their_feeds_which_are_replayed(rt: HostRuntime) {
    expect_all(&rt, RELEASES.as_slice());
    expect_all(&rt, FAULTS.as_slice());
    expect_all(&rt, REFUSED.as_slice());
    let evening = Setup {
        feed: text!(EVENING),
        ..WORKED
    };
    let booked = answer_to(&rt, BOOK, evening);
    expect_replayed(&rt, booked.text());
}

// The feed that the bookings give is replayed: one request is seated, and one is turned away.
fn expect_replayed<R: Abort + Threads + Wait + Sync + AllocGlobal>(rt: &R, booked: &str) {
    let files = Setup {
        fleet: text!(DEFAULTS),
        feed: text!(booked),
        ..WORKED
    };
    let log = answer_to(rt, REPLAY, files);
    assert!(rt; log.status == 0);
    let line = "yes entries 9 confirmed 1 away 1 picked 0 dropped 0 finished yes\n";
    expect_audit(rt, "the feed of bookings", files, log.text(), line);
}
