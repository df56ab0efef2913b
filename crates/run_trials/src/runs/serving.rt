//! Sessions of two feeds: what happens while a batch is open, and what an audit says of each log.
use super::gates::{LOGGED, Meeting};
use super::texts::has_lines;
use super::{DEFAULTS, File, Setup, WORKED, answer_to, expect_audit};
use std::process::Abort;
use std::sync::Wait;
use std::thread::Threads;

/// A session of one worker and one desk, one of two workers, and one of two desks as well.
pub(super) const SERVE: &str =
    "serve --map m --fleet f --riders r --drivers d --workers 1 --desks 1";

const BY_TWO_WORKERS: &str = "serve --map m --fleet f --riders r --drivers d --workers 2 --desks 1";

const BY_TWO_DESKS: &str = "serve --map m --fleet f --riders r --drivers d --workers 2 --desks 2";

const RIDERS: &str = "request 7 2 4 1 600 300\nbatch\nbatch\n";

/// A session of two feeds, where one thread waits at places of the gate until another has come to one.
struct Session {
    shows: &'static str,
    fleet: &'static str,
    riders: &'static str,
    drivers: &'static str,
    words: &'static str,
    meetings: &'static [Meeting],
    /// The lines of the desk, and of the drivers' reports and clocks, in order, in which `*` is any part of a line.
    lines: &'static str,
    audit: &'static str,
}

static SESSIONS: [Session; 6] = [
    Session {
        shows: "a plan moves while its batch is open",
        fleet: DEFAULTS,
        riders: RIDERS,
        drivers: "at 1 1 5\n",
        words: SERVE,
        meetings: &[
            Meeting {
                waits: 5,
                until: 1,
                times: 1,
            },
            Meeting {
                waits: 1,
                until: 6,
                times: 1,
            },
        ],
        lines: "d1 open 1 at 0 requests 7 plans 1@0\n\
f2 at 1 1 5 = onmap\n\
d1 commit 1 cost 180 seats 7:1:0:0 prices* outcomes 7:moved:0:1\n\
d1 open 2 at 0 requests 7 plans 1@1\n\
d1 commit 2 cost 180 seats 7:1:0:0 prices* outcomes 7:confirmed\n\
d1 end\n",
        audit: "yes entries 11 confirmed 1 away 0 picked 0 dropped 0 finished yes\n",
    },
    Session {
        shows: "the clock passes the start",
        fleet: "set lead 10\nvehicle 1 2 1 0\n",
        riders: RIDERS,
        drivers: "clock 20\n",
        words: SERVE,
        meetings: &[
            Meeting {
                waits: 5,
                until: 1,
                times: 1,
            },
            Meeting {
                waits: 1,
                until: 6,
                times: 1,
            },
        ],
        lines: "d1 open 1 at 0 requests 7 plans 1@0\n\
f2 clock 20 = now 20\n\
d1 commit 1 cost 180 seats 7:1:0:0 prices* outcomes 7:behind:10:20\n\
d1 open 2 at 20 requests 7 plans 1@0\n\
d1 commit 2 cost 180 seats 7:1:0:0 prices* outcomes 7:confirmed\n\
d1 end\n",
        audit: "yes entries 11 confirmed 1 away 0 picked 0 dropped 0 finished yes\n",
    },
    Session {
        shows: "the log is written while the session runs",
        fleet: DEFAULTS,
        riders: RIDERS,
        drivers: "at 1 1 5\n",
        words: SERVE,
        meetings: &[
            Meeting {
                waits: 5,
                until: LOGGED,
                times: 1,
            },
            Meeting {
                waits: 1,
                until: 6,
                times: 1,
            },
        ],
        lines: "d1 open 1 at 0 requests 7 plans 1@0\n\
f2 at 1 1 5 = onmap\n\
d1 commit 1 cost 180 seats 7:1:0:0 prices* outcomes 7:moved:0:1\n\
d1 open 2 at 0 requests 7 plans 1@1\n\
d1 commit 2 cost 180 seats 7:1:0:0 prices* outcomes 7:confirmed\n\
d1 end\n",
        audit: "yes entries 11 confirmed 1 away 0 picked 0 dropped 0 finished yes\n",
    },
    Session {
        shows: "two workers compute the rows of a batch",
        fleet: DEFAULTS,
        riders: "request 7 2 4 1 600 300\nrequest 8 4 3 1 600 300\nbatch\n",
        drivers: "",
        words: BY_TWO_WORKERS,
        meetings: &[Meeting {
            waits: 7,
            until: 7,
            times: 2,
        }],
        lines: "d1 open 1 at 0 requests 7 8 plans 1@0\n\
d1 commit 1 cost 3780 seats 7:1:0:0 prices* outcomes 7:confirmed 8:away\n\
d1 end\n",
        audit: "yes entries 8 confirmed 1 away 1 picked 0 dropped 0 finished yes\n",
    },
    Session {
        shows: "a short session of one desk",
        fleet: DEFAULTS,
        riders: "request 7 2 4 1 600 300\nbatch\n",
        drivers: "",
        words: SERVE,
        meetings: &[],
        lines: "d1 open 1 at 0 requests 7 plans 1@0\n\
d1 commit 1 cost 180 seats 7:1:0:0 prices* outcomes 7:confirmed\n\
d1 end\n",
        audit: "yes entries 7 confirmed 1 away 0 picked 0 dropped 0 finished yes\n",
    },
    Session {
        shows: "two feeds that say nothing",
        fleet: DEFAULTS,
        riders: "",
        drivers: "# nothing\n",
        words: SERVE,
        meetings: &[],
        lines: "d1 end\n",
        audit: "yes entries 3 confirmed 0 away 0 picked 0 dropped 0 finished yes\n",
    },
];

/// How the lines of the desks begin, and of the drivers' reports and clocks.
const DESKS_AND_DRIVERS: [&str; 3] = ["d1", "f2 at", "f2 clock"];

#[test]
fn sessions_of_two_feeds_have_their_lines_and_two_desks_seat_one_request_once(rt: HostRuntime) {
    for case in SESSIONS.as_slice() {
        expect_session(&rt, case);
    }
    for _ in 0..20 {
        seat_once(&rt);
    }
    for case in FAILING.as_slice() {
        expect_cut_alone(&rt, case);
    }
}

// Asserts the lines of the desks and of the drivers but for their end, and what an audit says of the log.
fn expect_session<R: Abort + Threads + Wait + Sync + AllocGlobal>(rt: &R, case: &Session) {
    let files = Setup {
        fleet: text!(case.fleet),
        feed: text!(case.riders),
        drivers: text!(case.drivers),
        meetings: case.meetings,
        ..WORKED
    };
    let log = answer_to(rt, case.words, files);
    let is_so = log.ends(0, 0) && has_lines(log.text(), &DESKS_AND_DRIVERS, case.lines);
    assert!(rt; is_so, "{}: {}", case.shows, log.text());
    expect_audit(rt, case.shows, files, log.text(), case.audit);
}

fn seat_once<R: Abort + Threads + Wait + Sync + AllocGlobal>(rt: &R) {
    let files = Setup {
        fleet: text!(DEFAULTS),
        ..WORKED
    };
    let log = answer_to(rt, BY_TWO_DESKS, files);
    assert!(rt; log.status == 0);
    let line = "yes entries 8 confirmed 1 away 0 picked 0 dropped 0 finished yes\n";
    expect_audit(rt, "two desks", files, log.text(), line);
}

/// A drivers' feed that fails, and its lines in the log.
struct Failing {
    drivers: File<'static>,
    lines: &'static str,
}

static FAILING: [Failing; 2] = [
    Failing {
        drivers: text!("", fails: 1),
        lines: "f2 cut\n",
    },
    // In the middle of its second line, which is dropped.
    Failing {
        drivers: text!("clock 0\nclock 0\n", by: 11, fails: 2),
        lines: "f2 clock 0 = now 0\nf2 cut\n",
    },
];

// Asserts that riders and desk end whole where the drivers' feed fails, and the lines of the drivers.
fn expect_cut_alone<R: Abort + Threads + Wait + Sync + AllocGlobal>(rt: &R, case: &Failing) {
    let files = Setup {
        fleet: text!(DEFAULTS),
        drivers: case.drivers,
        ..WORKED
    };
    let log = answer_to(rt, SERVE, files);
    let is_so = log.ends(5, 1) && is_cut_alone(log.text(), case.lines);
    assert!(rt; is_so, "{}", log.text());
}

// Whether a log has the lines of riders and desk whole, and these of the drivers.
fn is_cut_alone(log: &str, drivers: &str) -> bool {
    let riders = "f1 request 7 2 4 1 600 300 = waiting\nf1 batch = asked 1\nf1 end\n";
    let desk = "d1 open 1 at 0 requests 7 plans 1@0\n\
d1 commit 1 cost 180 seats 7:1:0:0 prices* outcomes 7:confirmed\n\
d1 end\n";
    has_lines(log, &["f1"], riders)
        && has_lines(log, &["f2"], drivers)
        && has_lines(log, &["d1"], desk)
}
