//! Words that are not in order, files that are missing, faults with the text before them, and files beyond their limits.
use super::cases::{Case, REPLAYED, expect_all};
use super::{End, FEED, LOG, ONE_BY_ONE, ROOM, Setup, WORKED, expect, expect_however_read};
use std::process::Abort;
use std::sync::Wait;
use std::thread::Threads;

/// A replay of one request, whose files, reads or sink may be other ones.
const OF_ONE: Case = Case {
    fleet: text!(ONE_BY_ONE),
    feed: text!(FEED),
    ..REPLAYED
};

static MISSING: [Case; 3] = [
    Case {
        shows: "a file that is missing",
        words: "replay --map x --fleet f --feed r",
        status: 5,
        faults: 1,
        ..OF_ONE
    },
    Case {
        shows: "a file that is missing",
        words: "replay --map m --fleet x --feed r",
        status: 5,
        faults: 1,
        ..OF_ONE
    },
    Case {
        shows: "a file that is missing",
        words: "replay --map m --fleet f --feed x",
        status: 5,
        faults: 1,
        ..OF_ONE
    },
];

/// Refusals that stand beside a fault.
static REFUSALS: [Case; 4] = [
    Case {
        shows: "a faulty line of a map that was read whole comes before a fault",
        map: text!(
            "p sp 4 6\n\
a 1 2 60\n\
a 2 1 60\n\
a 2 3 60\n\
a 3 2 60\n\
a 3 4 60\n\
a 4 5 60\n",
            fails: 2
        ),
        status: 3,
        written: "map refused 4 line 7\n",
        ..OF_ONE
    },
    Case {
        shows: "a faulty line of a map in pieces comes before a fault",
        map: text!(
            "p sp 4 6\n\
a 1 2 60\n\
a 2 1 60\n\
a 2 3 60\n\
a 3 2 60\n\
a 3 4 60\n\
a 4 5 60\n",
            by: 7,
            fails: 10
        ),
        status: 3,
        written: "map refused 4 line 7\n",
        ..OF_ONE
    },
    Case {
        shows: "a refusal of a map stands where the sink fails at its line",
        map: text!(""),
        room: 5,
        status: 3,
        written: "map r",
        ..OF_ONE
    },
    Case {
        shows: "a refusal of a fleet file stands where the sink fails at its line",
        fleet: text!("vehicles"),
        room: 5,
        status: 4,
        written: "fleet",
        ..OF_ONE
    },
];

static CUT: [Case; 3] = [
    Case {
        shows: "a feed whose first read fails is cut",
        feed: text!(FEED, by: 24, fails: 1),
        status: 5,
        faults: 1,
        written: "log 1 feeds 1 desks 1\n\
f1 cut\n\
d1 end\n",
        ..OF_ONE
    },
    Case {
        shows: "a feed whose second read fails is cut behind its first line",
        feed: text!(FEED, by: 24, fails: 2),
        status: 5,
        faults: 1,
        written: "log 1 feeds 1 desks 1\n\
f1 request 7 2 4 1 600 300 = waiting\n\
f1 cut\n\
d1 end\n",
        ..OF_ONE
    },
    Case {
        shows: "a fault of the sink comes before one of the feed",
        feed: text!(FEED, by: 24, fails: 2),
        room: 10,
        status: 6,
        faults: 1,
        written: "log 1 feed",
        ..OF_ONE
    },
];

static TOO_LONG: [Case; 3] = [
    Case {
        shows: "a feed of too many lines is cut",
        feed: text!("<1000001|\n>"),
        status: 8,
        written: "log 1 feeds 1 desks 1\n\
f1 cut\n\
d1 end\n",
        ..OF_ONE
    },
    Case {
        shows: "a feed of too many bytes is cut",
        feed: text!(
            "<671089|#--------------------------------------------------------------------------------------------------\n>"
        ),
        status: 8,
        written: "log 1 feeds 1 desks 1\n\
f1 cut\n\
d1 end\n",
        ..OF_ONE
    },
    Case {
        shows: "a fleet file of more than a mebibyte",
        fleet: text!("<1048577|\n>"),
        status: 8,
        ..OF_ONE
    },
];

/// Words that are not in order, line by line.
const REFUSED: &str = "\n\
plan\n\
--help\n\
replay --help\n\
replay --version\n\
replay help\n\
replay --map m --fleet f\n\
replay --map m --fleet f --feed\n\
replay --map m --map m --fleet f --feed r\n\
replay --map m --fleet f --feed r more\n\
replay --map m --fleet f --log l\n\
audit --map m --fleet f --feed r\n\
serve --map m --fleet f --riders r --drivers d --workers 0 --desks 1\n\
serve --map m --fleet f --riders r --drivers d --workers 17 --desks 1\n\
serve --map m --fleet f --riders r --drivers d --workers 1 --desks 0\n\
serve --map m --fleet f --riders r --drivers d --workers 1 --desks 3\n\
serve --map m --fleet f --riders r --drivers d --workers one --desks 1\n\
ahead --map m --fleet f --feed r --reach 0\n\
ahead --map m --fleet f --feed r --reach 1000001\n\
ahead --map m --fleet f --feed r --reach x\n\
ahead --map m --fleet f --feed r\n";

/// Words that are in order, whatever the order of their options.
static IN_ORDER: [&str; 4] = [
    "replay --map m --fleet f --feed r",
    "replay --feed r --map m --fleet f",
    "replay --fleet f --feed r --map m",
    "replay --feed=r --map=m --fleet f",
];

#[test]
fn words_are_in_order_or_refused(rt: HostRuntime) {
    expect_each_refused(&rt, REFUSED);
    for words in IN_ORDER.as_slice() {
        expect_replayed(&rt, words);
    }
}

/// Asserts that the words of each of these lines are refused.
pub(super) fn expect_each_refused<R: Abort + Threads + Wait + Sync + AllocGlobal>(
    rt: &R,
    lines: &str,
) {
    for words in lines.lines() {
        expect_refused(rt, words);
    }
}

// Asserts that words are refused, by a line of which a sink takes what it has room for.
fn expect_refused<R: Abort + Threads + Wait + Sync + AllocGlobal>(rt: &R, words: &str) {
    expect_refusal(rt, words, ROOM, "words refused\n");
    expect_refusal(rt, words, 7, "words r");
}

fn expect_refusal<R: Abort + Threads + Wait + Sync + AllocGlobal>(
    rt: &R,
    words: &str,
    room: usize,
    written: &str,
) {
    let files = Setup { room, ..WORKED };
    let end = End {
        status: 2,
        faults: 0,
        written,
    };
    expect(rt, "words that are not in order", words, files, end);
}

// Asserts that words give the worked request's log, whatever the pieces in which the files are read.
fn expect_replayed<R: Abort + Threads + Wait + Sync + AllocGlobal>(rt: &R, words: &str) {
    let end = End {
        status: 0,
        faults: 0,
        written: LOG,
    };
    expect_however_read(rt, "words that are in order", words, WORKED, end);
}

#[test]
fn faults_have_their_status_and_text(rt: HostRuntime) {
    expect_all(&rt, MISSING.as_slice());
    expect_all(&rt, REFUSALS.as_slice());
    expect_all(&rt, CUT.as_slice());
    expect_all(&rt, TOO_LONG.as_slice());
}
