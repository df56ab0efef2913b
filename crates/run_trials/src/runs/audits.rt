//! Audits of logs: each change of a legal log is found at its line.
use super::cases::{Case, REPLAYED, expect_all};
use super::{AUDIT, End, LOG, ONE_BY_ONE, Setup, WORKED, expect};
use std::process::Abort;
use std::sync::Wait;
use std::thread::Threads;

/// A change of a log, and what an audit says of the changed one.
struct Change {
    from: &'static str,
    to: &'static str,
    answer: &'static str,
}

/// Changes of the log of one request.
static PLAIN: [Change; 7] = [
    Change {
        from: "batch = asked 1",
        to: "batch = asked 2",
        answer: "no 3 reply\n",
    },
    Change {
        from: "plans 1@0",
        to: "plans 1@1",
        answer: "no 4 batch\n",
    },
    Change {
        from: "cost 180",
        to: "cost 181",
        answer: "no 5 seating\n",
    },
    Change {
        from: "prices 7:180",
        to: "prices 7:181",
        answer: "no 5 prices\n",
    },
    Change {
        from: "cost 180 seats 7:1:0:0 prices 7:180 pays outcomes 7:confirmed",
        to: "cost 3600 seats prices 7:3600 pays outcomes 7:away",
        answer: "no 5 prices\n",
    },
    Change {
        from: "7:confirmed",
        to: "7:away",
        answer: "no 5 outcomes\n",
    },
    Change {
        from: "d1 end",
        to: "d2 end",
        answer: "no 7 actor\n",
    },
];

/// Changes of how the same log is spelled, and its beginning.
static SPELLINGS: [Change; 6] = [
    Change {
        from: "300 = waiting",
        to: "300  = waiting",
        answer: "no 2 spelling\n",
    },
    Change {
        from: "log 1 feeds",
        to: "log 2 feeds",
        answer: "no 1 spelling\n",
    },
    Change {
        from: "log 1 feeds 1",
        to: "log 1 feeds 3",
        answer: "no 1 spelling\n",
    },
    Change {
        from: "f1 end\nd1 end\n",
        to: "f1 end\nd1 end",
        answer: "no 7 spelling\n",
    },
    Change {
        from: "7:180 pays outcomes 7:confirmed\nf1 end\nd1 end\n",
        to: "",
        answer: "no 5 spelling\n",
    },
    Change {
        from: "d1 commit 1 cost 180 seats 7:1:0:0 prices 7:180 pays outcomes 7:confirmed\nf1 end\nd1 end\n",
        to: "",
        answer: "yes entries 3 confirmed 0 away 0 picked 0 dropped 0 finished no\n",
    },
];

/// Batches of one request, which start ten seconds after they are opened at the earliest, and two vehicles.
const TWO_VEHICLES: &str = "set batch 1\nset lead 10\nvehicle 1 2 1 0\nvehicle 2 2 4 0\n";

/// A day of two feeds and two desks over these vehicles: one pair moves, one falls behind, one is cancelled, two are confirmed, and
/// one batch is given up.
const DAY: &str = "log 1 feeds 2 desks 2\n\
f1 request 7 2 4 1 600 300 = waiting\n\
f1 request 8 3 1 1 600 300 = waiting\n\
f1 request 9 2 4 1 600 300 = waiting\n\
f1 batch = asked 1\n\
f1 batch = asked 2\n\
f1 batch = asked 3\n\
d1 open 1 at 0 requests 7 plans 1@0 2@0\n\
d2 open 2 at 0 requests 8 plans 1@0 2@0\n\
f2 at 1 1 5 = onmap\n\
d1 commit 1 cost 180 seats 7:1:0:0 prices 7:180 pays outcomes 7:moved:0:1\n\
f1 clock 20 = now 20\n\
d2 commit 2 cost 180 seats 8:2:0:0 prices 8:180 pays outcomes 8:behind:10:20\n\
d1 open 3 at 20 requests 7 plans 1@1 2@0\n\
f2 cancel 7 = cancelled\n\
d1 commit 3 cost 180 seats 7:1:0:0 prices 7:180 pays outcomes 7:gone\n\
f2 batch = asked 4\n\
d2 open 4 at 20 requests 8 plans 1@1 2@0\n\
d2 commit 4 cost 180 seats 8:2:0:0 prices 8:180 pays outcomes 8:confirmed\n\
f1 batch = asked 5\n\
d1 open 5 at 20 requests 9 plans 1@1 2@1\n\
d1 commit 5 cost 180 seats 9:1:0:0 prices 9:180 pays outcomes 9:confirmed\n\
f1 batch = asked 6\n\
d2 open 6 at 20 requests plans 1@2 2@1\n\
d2 abandon 6\n\
f1 end\n\
f2 cut\n\
d1 end\n\
d2 end\n";

/// Changes of who does what on this day.
static OF_ACTORS: [Change; 6] = [
    Change {
        from: "d1 open 3",
        to: "d2 open 3",
        answer: "no 16 actor\n",
    },
    Change {
        from: "d2 commit 2",
        to: "d1 commit 2",
        answer: "no 13 actor\n",
    },
    Change {
        from: "f2 cut\nd1 end",
        to: "d1 end\nf2 cut",
        answer: "no 27 actor\n",
    },
    Change {
        from: "d2 abandon 6",
        to: "d1 abandon 6",
        answer: "no 25 actor\n",
    },
    Change {
        from: "feeds 2",
        to: "feeds 1",
        answer: "no 10 actor\n",
    },
    Change {
        from: "f2 cut",
        to: "f1 cut",
        answer: "no 27 actor\n",
    },
];

/// Changes of its batches and replies.
static OF_REPLIES: [Change; 5] = [
    Change {
        from: "plans 1@1 2@1",
        to: "plans 1@1 2@0",
        answer: "no 21 batch\n",
    },
    Change {
        from: "f2 at 1 1 5 = onmap",
        to: "f2 at 1 1 5 = late 5",
        answer: "no 10 reply\n",
    },
    Change {
        from: "open 6 at 20 requests plans",
        to: "open 6 at 20 requests 7 plans",
        answer: "no 24 batch\n",
    },
    Change {
        from: "f1 clock 20 = now 20",
        to: "f1 clock 20 = now 19",
        answer: "no 12 reply\n",
    },
    Change {
        from: "open 3 at 20",
        to: "open 3 at 0",
        answer: "no 14 batch\n",
    },
];

/// Changes of its seats and their prices.
static OF_SEATS: [Change; 3] = [
    Change {
        from: "seats 9:1:0:0",
        to: "seats 9:2:0:0",
        answer: "no 22 seating\n",
    },
    Change {
        from: "cost 180 seats 8:2:0:0 prices 8:180 pays outcomes 8:confirmed",
        to: "cost 240 seats 8:1:0:0 prices 8:240 pays outcomes 8:confirmed",
        answer: "no 19 prices\n",
    },
    Change {
        from: "prices 9:180 pays",
        to: "prices 9:190 pays 1:10",
        answer: "no 22 prices\n",
    },
];

/// The day as it is, and changes of its outcomes.
static OF_OUTCOMES: [Change; 4] = [
    Change {
        from: "2\nf1 request 7",
        to: "2\nf1 request 7",
        answer: "yes entries 28 confirmed 2 away 0 picked 0 dropped 0 finished no\n",
    },
    Change {
        from: "7:moved:0:1",
        to: "7:moved:0:2",
        answer: "no 11 outcomes\n",
    },
    Change {
        from: "8:behind:10:20",
        to: "8:confirmed",
        answer: "no 13 outcomes\n",
    },
    Change {
        from: "7:gone",
        to: "7:confirmed",
        answer: "no 16 outcomes\n",
    },
];

/// An audit of a log over one vehicle and batches of one request.
const AUDITED: Case = Case {
    words: AUDIT,
    fleet: text!(ONE_BY_ONE),
    ..REPLAYED
};

static LOGS: [Case; 4] = [
    Case {
        shows: "a log of the other version is no log",
        fleet: text!("set batch 1\nset log 2\nvehicle 1 2 1 0\n"),
        log: text!(LOG),
        status: 7,
        written: "no 1 spelling\n",
        ..AUDITED
    },
    Case {
        shows: "a line that is too long is no entry",
        log: text!(
            "log 1 feeds 1 desks 1\n\
<131073|x>\n"
        ),
        status: 7,
        written: "no 2 spelling\n",
        ..AUDITED
    },
    // The first read gives five lines, of which the last is wrong.
    Case {
        shows: "a wrong line that was read whole comes before a fault",
        log: text!(
            "log 1 feeds 1 desks 1\n\
f1 request 7 2 4 1 600 300 = waiting\n\
f1 batch = asked 1\n\
d1 open 1 at 0 requests 7 plans 1@0\n\
d1 commit 1 cost 180 seats 7:1:0:0 prices 7:181 pays outcomes 7:confirmed\n\
f1 end\n\
d1 end\n",
            by: 188,
            fails: 2
        ),
        status: 7,
        written: "no 5 prices\n",
        ..AUDITED
    },
    // The first read gives four lines, which are right.
    Case {
        shows: "a fault behind right lines",
        log: text!(LOG, by: 114, fails: 2),
        status: 5,
        faults: 1,
        ..AUDITED
    },
];

#[test]
fn an_audit_names_the_first_wrong_line(rt: HostRuntime) {
    expect_changes(&rt, ONE_BY_ONE, LOG, PLAIN.as_slice());
    expect_changes(&rt, ONE_BY_ONE, LOG, SPELLINGS.as_slice());
    expect_changes(&rt, TWO_VEHICLES, DAY, OF_ACTORS.as_slice());
    expect_changes(&rt, TWO_VEHICLES, DAY, OF_REPLIES.as_slice());
    expect_changes(&rt, TWO_VEHICLES, DAY, OF_SEATS.as_slice());
    expect_changes(&rt, TWO_VEHICLES, DAY, OF_OUTCOMES.as_slice());
    expect_all(&rt, LOGS.as_slice());
}

// Asserts what an audit says of a log with each of these changes: its line, and status 0 for a yes and 7 for a no.
fn expect_changes<R: Abort + Threads + Wait + Sync + AllocGlobal>(
    rt: &R,
    fleet: &str,
    log: &str,
    changes: &[Change],
) {
    for change in changes {
        let changed = log.replacen(rt.alloc(), change.from, change.to, 1);
        let changed = changed.expect(rt, "there is memory");
        expect_change(rt, fleet, changed.as_str(), change.answer);
    }
}

fn expect_change<'a, R: Abort + Threads + Wait + Sync + AllocGlobal>(
    rt: &R,
    fleet: &'a str,
    log: &'a str,
    line: &str,
) {
    let files = Setup {
        fleet: text!(fleet),
        feed: text!(""),
        log: text!(log),
        ..WORKED
    };
    let end = End {
        status: if line.starts_with("yes") { 0 } else { 7 },
        faults: 0,
        written: line,
    };
    expect(rt, line, AUDIT, files, end);
}
