//! Maps and fleet files that are refused, in pieces of any length: which line says so.
use super::texts::text_of;
use super::{End, LINE, ONE_BY_ONE, REPLAY, Setup, WORKED, expect_however_read};
use std::process::Abort;
use std::sync::Wait;
use std::thread::Threads;

/// Texts of a map or a fleet file, and the line with which each is refused. A table has few of them, as one of `Case`.
struct Refused {
    shows: &'static str,
    texts: &'static [&'static str],
    line: &'static str,
}

#[test]
fn maps_and_fleet_files_are_refused_by_their_first_faulty_line(rt: HostRuntime) {
    for &(bytes, line) in CUT.iter() {
        let map = LINE.get(..bytes).expect(&rt, "the map is longer");
        expect_refused(&rt, "a map cut short", map, ONE_BY_ONE, 3, line);
    }
    expect_maps_refused(&rt, PROBLEM_LINES.as_slice());
    expect_maps_refused(&rt, ARC_LINES.as_slice());
    expect_maps_refused(&rt, LONG_LINES.as_slice());
    expect_maps_refused(&rt, SIZES.as_slice());
    expect_fleets_refused(&rt, FLEET_LINES.as_slice());
    expect_fleets_refused(&rt, FLEET_VALUES.as_slice());
    expect_fleets_refused(&rt, VEHICLES.as_slice());
}

fn expect_maps_refused<R: Abort + Threads + Wait + Sync + AllocGlobal>(rt: &R, cases: &[Refused]) {
    for case in cases {
        for map in case.texts {
            expect_refused(rt, case.shows, map, ONE_BY_ONE, 3, case.line);
        }
    }
}

fn expect_fleets_refused<R: Abort + Threads + Wait + Sync + AllocGlobal>(
    rt: &R,
    cases: &[Refused],
) {
    for case in cases {
        for fleet in case.texts {
            expect_refused(rt, case.shows, LINE, fleet, 4, case.line);
        }
    }
}

// Asserts that a replay of a map and a fleet file ends so, whatever the pieces in which they are read.
fn expect_refused<R: Abort + Threads + Wait + Sync + AllocGlobal>(
    rt: &R,
    shows: &str,
    map: &str,
    fleet: &str,
    status: u8,
    written: &str,
) {
    let map = text_of(rt, map);
    let fleet = text_of(rt, fleet);
    let files = Setup {
        map: text!(map.as_str()),
        fleet: text!(fleet.as_str()),
        feed: text!(""),
        ..WORKED
    };
    let end = End {
        status,
        faults: 0,
        written,
    };
    expect_however_read(rt, shows, REPLAY, files, end);
}

/// To how many bytes a map is cut, and the line with which it is refused.
static CUT: [(usize, &str); 10] = [
    (0, "map refused 1\n"),
    (1, "map refused 3 line 1\n"),
    (5, "map refused 3 line 1\n"),
    (6, "map refused 3 line 1\n"),
    (7, "map refused 3 line 1\n"),
    (8, "map refused 6 said 6 found 0\n"),
    (54, "map refused 6 said 6 found 5\n"),
    (55, "map refused 3 line 7\n"),
    (59, "map refused 3 line 7\n"),
    (60, "map refused 3 line 7\n"),
];

static PROBLEM_LINES: [Refused; 3] = [
    Refused {
        shows: "no problem line before the arcs",
        texts: &[
            "c p sp 4 0\n\
\n",
            "a 1 2 60\n\
p sp 4 1\n",
            "a none\n",
        ],
        line: "map refused 1\n",
    },
    Refused {
        shows: "a second problem line",
        texts: &[
            "p sp 4 0\n\
p sp 4 0\n",
            "p sp 4 0\n\
p\n",
        ],
        line: "map refused 2 line 2\n",
    },
    Refused {
        shows: "a problem line of another form",
        texts: &[
            "roads\n",
            "p sp 4\n",
            "p sp 4 0 0\n",
            "p max 4 0\n",
            "p sp 4 x\n",
            "p sp 0 0\n",
            "p sp 0 2000001\n",
        ],
        line: "map refused 3 line 1\n",
    },
];

static ARC_LINES: [Refused; 4] = [
    Refused {
        shows: "an arc line of another form",
        texts: &[
            "p sp 4 1\n\
a 1 2\n",
            "p sp 4 1\n\
a 1 2 60 0\n",
            "p sp 4 1\n\
a 1 2 -60\n",
            "p sp 4 1\n\
a 5 2 1000000000000000000\n",
        ],
        line: "map refused 3 line 2\n",
    },
    Refused {
        shows: "an arc to a node that is not on the map",
        texts: &[
            "p sp 4 6\n\
a 1 2 60\n\
a 2 1 60\n\
a 2 3 60\n\
a 3 2 60\n\
a 3 4 60\n\
a 4 5 60\n",
        ],
        line: "map refused 4 line 7\n",
    },
    Refused {
        shows: "an arc's node out of range",
        texts: &[
            "p sp 4 1\n\
a 0 1 60\n",
            "p sp 4 1\n\
a 5 1 60\n",
            "p sp 4 1\n\
a 1 0 60\n",
            "p sp 4 1\n\
a 1 5 1000000001\n",
        ],
        line: "map refused 4 line 2\n",
    },
    Refused {
        shows: "a weight out of range",
        texts: &[
            "p sp 4 1\n\
a 1 2 1000000001\n",
        ],
        line: "map refused 5 line 2\n",
    },
];

static LONG_LINES: [Refused; 2] = [
    Refused {
        shows: "an over-long line of a map",
        texts: &[
            " <200|c>\n\
p sp 2 0",
        ],
        line: "map refused 3 line 1\n",
    },
    Refused {
        shows: "an over-long line of a map with a problem line's first field",
        texts: &[
            "  p<198|c>\n\
p sp 2 0",
        ],
        line: "map refused 3 line 1\n",
    },
];

static SIZES: [Refused; 3] = [
    Refused {
        shows: "an arc more than said",
        texts: &[
            "p sp 4 0\n\
a 1 2 60\n",
        ],
        line: "map refused 6 said 0 found 1\n",
    },
    Refused {
        shows: "a map that is too large",
        texts: &["p sp 500001 0\n", "p sp 4 2000001\n"],
        line: "map refused 7 line 1\n",
    },
    Refused {
        shows: "the largest map that may be said",
        texts: &["p sp 500000 2000000\n"],
        line: "map refused 6 said 2000000 found 0\n",
    },
];

static FLEET_LINES: [Refused; 2] = [
    Refused {
        shows: "a line of a fleet file of another form",
        texts: &[
            "vehicles\n",
            "vehicle 1 2 1\n",
            "vehicle 1 2 1 0 0 0\n",
            "vehicle 1 2 one 0\n",
            "vehicle 1000000000000000000 2 1 0\n",
            "set batch\n",
            "set batch 1 1\n",
            "set batch one\n",
            "set size 1\n",
            "Set batch 1\n",
        ],
        line: "fleet refused 1 line 1\n",
    },
    Refused {
        shows: "an over-long line of a fleet file",
        texts: &[" <200|#>"],
        line: "fleet refused 1 line 1\n",
    },
];

static FLEET_VALUES: [Refused; 2] = [
    Refused {
        shows: "a vehicle at no node of the map",
        texts: &[
            "vehicle 1 2 0 0\n",
            "vehicle 1 2 5 0\n",
            "vehicle 1 0 5 0\n",
        ],
        line: "fleet refused 3 line 1\n",
    },
    Refused {
        shows: "a value of a fleet file out of range",
        texts: &[
            "set batch 0\n",
            "set batch 129\n",
            "set penalty 1000000000001\n",
            "set drive 1001\n",
            "set wait 1001\n",
            "set lead 3601\n",
            "set dwell 3601\n",
            "set log 0\n",
            "set log 3\n",
            "vehicle 1 0 1 0\n",
            "vehicle 1 17 1 0\n",
            "vehicle 1 2 1 1000000001\n",
            "vehicle 1 2 1 0 5\n",
        ],
        line: "fleet refused 4 line 1\n",
    },
];

/// Vehicles and settings that are given again, and one more than there may be.
static VEHICLES: [Refused; 3] = [
    Refused {
        shows: "a setting or a vehicle that is given again",
        texts: &[
            "\n\
set log 1\n\
set log 1\n",
            "# one\n\
set log 1\n\
set log 3\n",
            "vehicle 1 2 1 0\n\
set log 1\n\
vehicle 1 0 5 0\n",
        ],
        line: "fleet refused 2 line 3\n",
    },
    Refused {
        shows: "the first of 1000 vehicles again",
        texts: &[
            "<1000|vehicle % 2 1 0\n>\
vehicle 1 2 1 0\n",
        ],
        line: "fleet refused 2 line 1001\n",
    },
    Refused {
        shows: "the 1001st vehicle",
        texts: &["<1001|vehicle % 2 1 0\n>"],
        line: "fleet refused 5 line 1001\n",
    },
];
