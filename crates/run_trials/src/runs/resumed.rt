//! Sessions that go on from a log. Where a feed or a desk has nothing left to do beside another, the order of entries is one.
use super::cases::{Case, REPLAYED, expect_all};
use super::faults::expect_each_refused;
use super::{File, LOG, ONE_BY_ONE};

/// A session that goes on from its log.
pub(super) const RESUME: &str =
    "ride_resume --map m --fleet f --log l --riders r --drivers d --workers 1";

/// A file that is not read: its first read fails.
const UNREAD: File<'static> = text!("none of this is read\n", fails: 1);

/// A session over four nodes in a line and one vehicle, with batches of one request.
const RESUMED: Case = Case {
    words: RESUME,
    fleet: text!(ONE_BY_ONE),
    ..REPLAYED
};

/// A log of a head alone, and one that is finished.
static HEADS: [Case; 2] = [
    Case {
        shows: "a finished log gives itself back, and no feed is read",
        log: text!(LOG),
        feed: UNREAD,
        drivers: UNREAD,
        written: LOG,
        audit: Some("yes entries 6 confirmed 1 away 0 picked 0 dropped 0 finished yes\n"),
        ..RESUMED
    },
    Case {
        shows: "a log of a head alone, and options in another order",
        log: text!("log 1 feeds 2 desks 1\n"),
        words: "ride_resume --workers 16 --log l --map m --drivers d --riders r --fleet f",
        written: "log 1 feeds 2 desks 1\n\
f* end\n\
f* end\n\
d1 end\n",
        audit: Some("yes entries 3 confirmed 0 away 0 picked 0 dropped 0 finished yes\n"),
        ..RESUMED
    },
];

/// Batches that were asked for or opened before.
static OPENED: [Case; 4] = [
    Case {
        shows: "a batch that was open is committed by its copies, once there is news of the feed",
        log: text!(
            "log 1 feeds 1 desks 1\n\
f1 request 7 2 4 1 600 300 = waiting\n\
f1 batch = asked 1\n\
d1 open 1 at 0 requests 7 plans 1@0\n"
        ),
        drivers: UNREAD,
        written: "log 1 feeds 1 desks 1\n\
f1 request 7 2 4 1 600 300 = waiting\n\
f1 batch = asked 1\n\
d1 open 1 at 0 requests 7 plans 1@0\n\
f1 end\n\
d1 commit 1 cost 180 seats 7:1:0:0 prices 7:180 pays outcomes 7:confirmed\n\
d1 end\n",
        audit: Some("yes entries 6 confirmed 1 away 0 picked 0 dropped 0 finished yes\n"),
        ..RESUMED
    },
    Case {
        shows: "a torn last line is dropped",
        log: text!(
            "log 1 feeds 1 desks 1\n\
f1 request 7 2 4 1 600 300 = waiting\n\
f1 batch = asked 1\n\
d1 open 1 at 0 requests 7 plans 1@0\n\
d1 commit 1 cost 180 seats 7:1:0:0 prices 7:180 pays outcomes 7:confirmed",
            by: 7
        ),
        written: "log 1 feeds 1 desks 1\n\
f1 request 7 2 4 1 600 300 = waiting\n\
f1 batch = asked 1\n\
d1 open 1 at 0 requests 7 plans 1@0\n\
f1 end\n\
d1 commit 1 cost 180 seats 7:1:0:0 prices 7:180 pays outcomes 7:confirmed\n\
d1 end\n",
        audit: Some("yes entries 6 confirmed 1 away 0 picked 0 dropped 0 finished yes\n"),
        ..RESUMED
    },
    Case {
        shows: "a desk with an open batch waits for no feed that has ended",
        log: text!(
            "log 1 feeds 1 desks 1\n\
f1 request 7 2 4 1 600 300 = waiting\n\
f1 batch = asked 1\n\
d1 open 1 at 0 requests 7 plans 1@0\n\
f1 end\n"
        ),
        feed: UNREAD,
        drivers: UNREAD,
        written: "log 1 feeds 1 desks 1\n\
f1 request 7 2 4 1 600 300 = waiting\n\
f1 batch = asked 1\n\
d1 open 1 at 0 requests 7 plans 1@0\n\
f1 end\n\
d1 commit 1 cost 180 seats 7:1:0:0 prices 7:180 pays outcomes 7:confirmed\n\
d1 end\n",
        audit: Some("yes entries 6 confirmed 1 away 0 picked 0 dropped 0 finished yes\n"),
        ..RESUMED
    },
    Case {
        shows: "a batch that was asked for before is opened as its requests stand then",
        log: text!(
            "log 1 feeds 1 desks 1\n\
f1 request 7 2 4 1 600 300 = waiting\n\
f1 batch = asked 1\n\
f1 cancel 7 = cancelled\n\
f1 end\n"
        ),
        feed: UNREAD,
        written: "log 1 feeds 1 desks 1\n\
f1 request 7 2 4 1 600 300 = waiting\n\
f1 batch = asked 1\n\
f1 cancel 7 = cancelled\n\
f1 end\n\
d1 open 1 at 0 requests plans 1@0\n\
d1 commit 1 cost 0 seats prices pays outcomes\n\
d1 end\n",
        audit: Some("yes entries 7 confirmed 0 away 0 picked 0 dropped 0 finished yes\n"),
        ..RESUMED
    },
];

/// What stands behind the lines, and over what they promise.
static PROMISED: [Case; 2] = [
    Case {
        shows: "what a feed gives comes behind what the lines answer",
        log: text!(
            "log 1 feeds 1 desks 1\n\
f1 request 7 2 4 1 600 300 = waiting\n"
        ),
        feed: text!("clock 5\ncancel 7\nrequest 7 2 4 1 600 300\n", by: 2),
        drivers: UNREAD,
        written: "log 1 feeds 1 desks 1\n\
f1 request 7 2 4 1 600 300 = waiting\n\
f1 clock 5 = now 5\n\
f1 cancel 7 = cancelled\n\
f1 request 7 2 4 1 600 300 = refused 1\n\
f1 end\n\
d1 end\n",
        audit: Some("yes entries 6 confirmed 0 away 0 picked 0 dropped 0 finished yes\n"),
        ..RESUMED
    },
    Case {
        shows: "a promise that was made before is kept after, and its ride is served",
        log: text!(
            "log 1 feeds 2 desks 1\n\
f1 request 7 2 4 1 600 300 = waiting\n\
f1 batch = asked 1\n\
d1 open 1 at 0 requests 7 plans 1@0\n\
d1 commit 1 cost 180 seats 7:1:0:0 prices 7:180 pays outcomes 7:confirmed\n\
f1 end\n"
        ),
        feed: UNREAD,
        drivers: text!("at 1 2 60\ndone 1\nat 1 4 180\ndone 1\n"),
        written: "log 1 feeds 2 desks 1\n\
f1 request 7 2 4 1 600 300 = waiting\n\
f1 batch = asked 1\n\
d1 open 1 at 0 requests 7 plans 1@0\n\
d1 commit 1 cost 180 seats 7:1:0:0 prices 7:180 pays outcomes 7:confirmed\n\
f1 end\n\
f2 at 1 2 60 = onmap\n\
f2 done 1 = picked 7\n\
f2 at 1 4 180 = onmap\n\
f2 done 1 = dropped 7\n\
f2 end\n\
d1 end\n",
        audit: Some("yes entries 11 confirmed 1 away 0 picked 1 dropped 1 finished yes\n"),
        ..RESUMED
    },
];

/// Logs of sessions that do not get whole any more.
static NOT_WHOLE: [Case; 2] = [
    Case {
        shows: "a feed that was cut stays cut, so that the session is not whole",
        log: text!("log 1 feeds 1 desks 1\nf1 cut\n"),
        feed: UNREAD,
        status: 1,
        written: "log 1 feeds 1 desks 1\n\
f1 cut\n\
d1 end\n",
        audit: Some("yes entries 2 confirmed 0 away 0 picked 0 dropped 0 finished no\n"),
        ..RESUMED
    },
    Case {
        shows: "a batch that was given up stays given up, and its request waits again",
        log: text!(
            "log 1 feeds 1 desks 1\n\
f1 request 7 2 4 1 600 300 = waiting\n\
f1 batch = asked 1\n\
d1 open 1 at 0 requests 7 plans 1@0\n\
d1 abandon 1\n"
        ),
        feed: text!("cancel 7\n"),
        status: 1,
        written: "log 1 feeds 1 desks 1\n\
f1 request 7 2 4 1 600 300 = waiting\n\
f1 batch = asked 1\n\
d1 open 1 at 0 requests 7 plans 1@0\n\
d1 abandon 1\n\
f1 cancel 7 = cancelled\n\
f1 end\n\
d1 end\n",
        audit: Some("yes entries 7 confirmed 0 away 0 picked 0 dropped 0 finished no\n"),
        ..RESUMED
    },
];

static HEADLESS: [Case; 2] = [
    Case {
        shows: "an empty log has no head",
        status: 7,
        written: "no 1 spelling\n",
        ..RESUMED
    },
    Case {
        shows: "a head without its LF is none",
        log: text!("log 1 feeds 1 desks 1"),
        status: 7,
        written: "no 1 spelling\n",
        ..RESUMED
    },
];

static WRONG: [Case; 4] = [
    Case {
        shows: "a wrong line is named, and no feed is asked for",
        words: "ride_resume --map m --fleet f --log l --riders x --drivers x --workers 1",
        log: text!(
            "log 1 feeds 1 desks 1\n\
f1 request 7 2 4 1 600 300 = waiting\n\
f1 batch = asked 2\n\
f1 end\n"
        ),
        status: 7,
        written: "no 3 reply\n",
        ..RESUMED
    },
    Case {
        shows: "a wrong line stands where the sink fails at it",
        log: text!("log 1 feeds 1 desks 1\nf1 batch = asked 2\n"),
        room: 4,
        status: 7,
        written: "no 2",
        ..RESUMED
    },
    Case {
        shows: "a line that is wrong over this fleet, which has no vehicle 2",
        log: text!("log 1 feeds 1 desks 1\nf1 on 2 = duty\n"),
        status: 7,
        written: "no 2 reply\n",
        ..RESUMED
    },
    Case {
        shows: "a wrong line comes before a fault",
        log: text!("log 1 feeds 1 desks 1\nf1 batch = asked 2\n", by: 42, fails: 2),
        status: 7,
        written: "no 2 reply\n",
        ..RESUMED
    },
];

static MISSING: [Case; 3] = [
    Case {
        shows: "a log that is missing",
        words: "ride_resume --map m --fleet f --log x --riders r --drivers d --workers 1",
        status: 5,
        faults: 1,
        ..RESUMED
    },
    Case {
        shows: "riders that are missing",
        words: "ride_resume --map m --fleet f --log l --riders x --drivers d --workers 1",
        log: text!(LOG),
        status: 5,
        faults: 1,
        ..RESUMED
    },
    Case {
        shows: "drivers that are missing",
        words: "ride_resume --map m --fleet f --log l --riders r --drivers x --workers 1",
        log: text!(LOG),
        status: 5,
        faults: 1,
        ..RESUMED
    },
];

static FAULTS: [Case; 3] = [
    Case {
        shows: "a log whose second read fails",
        log: text!(LOG, by: 24, fails: 2),
        status: 5,
        faults: 1,
        ..RESUMED
    },
    Case {
        shows: "a feed that fails is cut behind what the lines answer",
        log: text!(
            "log 1 feeds 1 desks 1\n\
f1 request 7 2 4 1 600 300 = waiting\n"
        ),
        feed: text!("cancel 7\nclock 5\n", by: 9, fails: 2),
        status: 5,
        faults: 1,
        written: "log 1 feeds 1 desks 1\n\
f1 request 7 2 4 1 600 300 = waiting\n\
f1 cancel 7 = cancelled\n\
f1 cut\n\
d1 end\n",
        audit: Some("yes entries 4 confirmed 0 away 0 picked 0 dropped 0 finished no\n"),
        ..RESUMED
    },
    Case {
        shows: "a sink that fails has a prefix of the log",
        log: text!(LOG),
        room: 30,
        status: 6,
        faults: 0,
        written: "log 1 feeds 1 desks 1\nf1 reque",
        ..RESUMED
    },
];

/// Maps and fleet files that are refused.
static TEXTS: [Case; 2] = [
    Case {
        shows: "a map that is refused",
        map: text!(""),
        log: text!(LOG),
        status: 3,
        written: "map refused 1\n",
        ..RESUMED
    },
    Case {
        shows: "a fleet file that is refused",
        fleet: text!("vehicles\n"),
        log: text!(LOG),
        status: 4,
        written: "fleet refused 1 line 1\n",
        ..RESUMED
    },
];

/// Words that are not in order, line by line.
const REFUSED: &str = "ride_resume\n\
ride_resume --help\n\
ride_resume resume --map m --fleet f --log l --riders r --drivers d --workers 1\n\
ride_resume --map m --fleet f --log l --riders r --drivers d\n\
ride_resume --map m --fleet f --log l --riders r --workers 1\n\
ride_resume --map m --fleet f --riders r --drivers d --workers 1\n\
ride_resume --map m --map m --fleet f --log l --riders r --drivers d --workers 1\n\
ride_resume --map m --fleet f --log l --riders r --drivers d --workers 0\n\
ride_resume --map m --fleet f --log l --riders r --drivers d --workers 17\n\
ride_resume --map m --fleet f --log l --riders r --drivers d --workers 1 --desks 1\n";

#[test]
fn sessions_go_on_from_logs(rt: HostRuntime) {
    expect_all(&rt, HEADS.as_slice());
    expect_all(&rt, OPENED.as_slice());
    expect_all(&rt, PROMISED.as_slice());
    expect_all(&rt, NOT_WHOLE.as_slice());
    expect_all(&rt, HEADLESS.as_slice());
    expect_all(&rt, WRONG.as_slice());
    expect_all(&rt, MISSING.as_slice());
    expect_all(&rt, FAULTS.as_slice());
    expect_all(&rt, TEXTS.as_slice());
    expect_each_refused(&rt, REFUSED);
}
