//! Days of a board: what it shows of its state, batches, stale pairs, a batch that is given up, what it takes after it has made room,
//! and how it ends.
ghost use Rattle.std.specs.Prelude.{◌≡◌};

use super::days::{Day, Look, Step};
use super::{CANCEL, EIGHT, SEVEN, roads};
use adaptive_roads::Roads;
use ride_model::{Actor, Command, Ending, RequestState};
use std::process::Abort;
use std::thread::Threads;

/// A day of feeds and desks: its steps, and the lines of its history. A table has a few of them: the time that a check takes for a table
/// grows with the square of its length.
struct Case {
    shows: &'static str,
    feeds: u8,
    desks: u8,
    steps: &'static [Step],
    lines: &'static str,
}

const TELL_SEVEN: Step = Step::Tell(1, SEVEN);

const TELL_EIGHT: Step = Step::Tell(1, EIGHT);

const TELL_CANCEL: Step = Step::Tell(1, CANCEL);

const ASK: Step = Step::Tell(1, Command::Ask);

const DONE: Step = Step::Tell(1, Command::Done { vehicle: 1 });

/// Vehicle 1 reports that it is at node 2, later than was promised.
const LATE: Step = Step::Tell(
    1,
    Command::At {
        vehicle: 1,
        node: 2,
        time: 100,
    },
);

/// Room for eight entries is made.
const MAKE_ROOM: Step = Step::Reserve(8);

/// Of a board to which nothing happened.
const NEW: Look = Look {
    asked: 0,
    opened: 0,
    now: 0,
    entries: 0,
    open: None,
    request: None,
    feed_ended: false,
    desks_ended: (false, false),
    finished: false,
};

/// Of a board of two feeds whose clock stands at 20.
const BEFORE_ENDS: Look = Look {
    now: 20,
    entries: 2,
    feed_ended: true,
    ..NEW
};

const CANCELLED: &str = "f1 request 7 2 4 1 600 300 = waiting\n\
f1 batch = asked 1\n\
d1 open 1 at 0 requests 7 plans 1@0\n\
f1 cancel 7 = cancelled\n\
d1 commit 1 cost 180 seats 7:1:0:0 prices 7:180 pays outcomes 7:gone\n\
f1 batch = asked 2\n\
d1 open 2 at 0 requests plans 1@0\n";

/// A new board, and a request that is cancelled in an open batch.
static CANCELLATIONS: [Case; 3] = [
    Case {
        shows: "a new board is empty",
        feeds: 1,
        desks: 2,
        steps: &[Step::Show(NEW)],
        lines: "",
    },
    Case {
        shows: "a request that is cancelled in an open batch is gone, and the vehicle is as it was",
        feeds: 1,
        desks: 1,
        steps: &[
            TELL_SEVEN,
            ASK,
            Step::Open(1),
            TELL_CANCEL,
            Step::Commit(1),
            ASK,
            Step::Open(1),
            MAKE_ROOM,
        ],
        lines: CANCELLED,
    },
    Case {
        shows: "the same in the room that was made",
        feeds: 1,
        desks: 1,
        steps: &[
            MAKE_ROOM,
            TELL_SEVEN,
            ASK,
            Step::Open(1),
            TELL_CANCEL,
            Step::Commit(1),
            ASK,
            Step::Open(1),
        ],
        lines: CANCELLED,
    },
];

/// Two desks.
static STALE: [Case; 1] = [Case {
    shows: "the second of two desks finds the vehicle moved, and its request waits again",
    feeds: 1,
    desks: 2,
    steps: &[
        TELL_SEVEN,
        TELL_EIGHT,
        ASK,
        ASK,
        Step::Open(1),
        Step::Open(2),
        Step::Commit(1),
        Step::Commit(2),
        ASK,
        Step::Open(2),
        MAKE_ROOM,
    ],
    lines: "f1 request 7 2 4 1 600 300 = waiting\n\
f1 request 8 4 3 1 600 300 = waiting\n\
f1 batch = asked 1\n\
f1 batch = asked 2\n\
d1 open 1 at 0 requests 7 plans 1@0\n\
d2 open 2 at 0 requests 8 plans 1@0\n\
d1 commit 1 cost 180 seats 7:1:0:0 prices 7:180 pays outcomes 7:confirmed\n\
d2 commit 2 cost 240 seats 8:1:0:0 prices 8:240 pays outcomes 8:moved:0:1\n\
f1 batch = asked 3\n\
d2 open 3 at 0 requests 8 plans 1@1\n",
}];

/// A ride is served or cancelled in the room that was made.
static SERVED: [Case; 2] = [
    Case {
        shows: "a ride is served in the room that was made",
        feeds: 1,
        desks: 1,
        steps: &[
            TELL_SEVEN,
            ASK,
            Step::Open(1),
            Step::Commit(1),
            MAKE_ROOM,
            Step::Tell(
                1,
                Command::At {
                    vehicle: 1,
                    node: 2,
                    time: 60,
                },
            ),
            DONE,
            TELL_CANCEL,
            Step::Tell(1, Command::On { vehicle: 1 }),
            Step::Tell(1, Command::Off { vehicle: 1 }),
            Step::Tell(1, Command::Clock { time: 20 }),
            Step::Tell(
                1,
                Command::At {
                    vehicle: 1,
                    node: 4,
                    time: 180,
                },
            ),
            DONE,
        ],
        lines: "f1 request 7 2 4 1 600 300 = waiting\n\
f1 batch = asked 1\n\
d1 open 1 at 0 requests 7 plans 1@0\n\
d1 commit 1 cost 180 seats 7:1:0:0 prices 7:180 pays outcomes 7:confirmed\n\
f1 at 1 2 60 = onmap\n\
f1 done 1 = picked 7\n\
f1 cancel 7 = refused 8\n\
f1 on 1 = duty\n\
f1 off 1 = duty\n\
f1 clock 20 = now 20\n\
f1 at 1 4 180 = onmap\n\
f1 done 1 = dropped 7\n",
    },
    Case {
        shows: "a ride is cancelled in the room that was made",
        feeds: 1,
        desks: 1,
        steps: &[
            TELL_SEVEN,
            ASK,
            Step::Open(1),
            Step::Commit(1),
            MAKE_ROOM,
            DONE,
            LATE,
            Step::Tell(
                1,
                Command::At {
                    vehicle: 1,
                    node: 2,
                    time: 99,
                },
            ),
            Step::Tell(1, Command::Cancel { id: 5 }),
            TELL_CANCEL,
            TELL_CANCEL,
            DONE,
            Step::Tell(1, Command::Done { vehicle: 2 }),
        ],
        lines: "f1 request 7 2 4 1 600 300 = waiting\n\
f1 batch = asked 1\n\
d1 open 1 at 0 requests 7 plans 1@0\n\
d1 commit 1 cost 180 seats 7:1:0:0 prices 7:180 pays outcomes 7:confirmed\n\
f1 done 1 = refused 15\n\
f1 at 1 2 100 = late 40\n\
f1 at 1 2 99 = refused 12\n\
f1 cancel 5 = refused 7\n\
f1 cancel 7 = freed 1\n\
f1 cancel 7 = refused 9\n\
f1 done 1 = refused 14\n\
f1 done 2 = refused 10\n",
    },
];

/// A ride is broken.
static LATE_REPORT: [Case; 1] = [Case {
    shows: "a late report names the broken ride in the room that was made",
    feeds: 1,
    desks: 1,
    steps: &[
        Step::Tell(
            1,
            Command::Request {
                id: 7,
                from: 2,
                to: 4,
                seats: 1,
                latest: 90,
                longest: 300,
                chairs: 0,
            },
        ),
        ASK,
        Step::Open(1),
        Step::Commit(1),
        MAKE_ROOM,
        LATE,
    ],
    lines: "f1 request 7 2 4 1 90 300 = waiting\n\
f1 batch = asked 1\n\
d1 open 1 at 0 requests 7 plans 1@0\n\
d1 commit 1 cost 180 seats 7:1:0:0 prices 7:180 pays outcomes 7:confirmed\n\
f1 at 1 2 100 = late 40 broken 7\n",
}];

/// A batch is given up.
static GIVEN_UP: [Case; 2] = [
    Case {
        shows: "requests of a batch that is given up wait again",
        feeds: 1,
        desks: 1,
        steps: &[
            TELL_SEVEN,
            ASK,
            Step::Open(1),
            Step::GiveUp(1),
            ASK,
            Step::Open(1),
            MAKE_ROOM,
        ],
        lines: "f1 request 7 2 4 1 600 300 = waiting\n\
f1 batch = asked 1\n\
d1 open 1 at 0 requests 7 plans 1@0\n\
d1 abandon 1\n\
f1 batch = asked 2\n\
d1 open 2 at 0 requests 7 plans 1@0\n",
    },
    Case {
        shows: "a request waits, is in a batch, and waits again",
        feeds: 1,
        desks: 1,
        steps: &[
            TELL_SEVEN,
            Step::Show(Look {
                entries: 1,
                request: Some(RequestState::Waiting),
                ..NEW
            }),
            ASK,
            Step::Open(1),
            Step::Show(Look {
                asked: 1,
                opened: 1,
                entries: 3,
                open: Some(1),
                request: Some(RequestState::InBatch(1)),
                ..NEW
            }),
            Step::GiveUp(1),
            Step::Show(Look {
                asked: 1,
                opened: 1,
                entries: 4,
                request: Some(RequestState::Waiting),
                ..NEW
            }),
        ],
        lines: "f1 request 7 2 4 1 600 300 = waiting\n\
f1 batch = asked 1\n\
d1 open 1 at 0 requests 7 plans 1@0\n\
d1 abandon 1\n",
    },
];

/// Feeds and desks end.
static ENDS: [Case; 2] = [
    Case {
        shows: "a board is finished once all have ended whole",
        feeds: 2,
        desks: 2,
        steps: &[
            Step::Tell(2, Command::Clock { time: 20 }),
            Step::End(Actor::Feed(1), Ending::Whole),
            Step::Show(BEFORE_ENDS),
            Step::FindNone(1),
            Step::End(Actor::Feed(2), Ending::Whole),
            Step::FindEnd(1),
            Step::End(Actor::Desk(1), Ending::Whole),
            Step::Show(Look {
                entries: 4,
                desks_ended: (true, false),
                ..BEFORE_ENDS
            }),
            Step::End(Actor::Desk(2), Ending::Whole),
            Step::Show(Look {
                entries: 5,
                desks_ended: (true, true),
                finished: true,
                ..BEFORE_ENDS
            }),
        ],
        lines: "f2 clock 20 = now 20\n\
f1 end\n\
f2 end\n\
d1 end\n\
d2 end\n",
    },
    Case {
        shows: "all ends",
        feeds: 1,
        desks: 2,
        steps: &[
            Step::End(Actor::Feed(1), Ending::Cut),
            Step::End(Actor::Desk(2), Ending::Whole),
            Step::End(Actor::Desk(1), Ending::Whole),
            MAKE_ROOM,
        ],
        lines: "f1 cut\n\
d2 end\n\
d1 end\n",
    },
];

#[test]
fn days_go_as_they_should(rt: HostRuntime) {
    let roads = roads(&rt, rt.alloc());
    expect_all(&rt, &roads, CANCELLATIONS.as_slice());
    expect_all(&rt, &roads, STALE.as_slice());
    expect_all(&rt, &roads, SERVED.as_slice());
    expect_all(&rt, &roads, LATE_REPORT.as_slice());
    expect_all(&rt, &roads, GIVEN_UP.as_slice());
    expect_all(&rt, &roads, ENDS.as_slice());
}

fn expect_all<R: Abort + Threads + Sync + AllocGlobal>(rt: &R, roads: &Roads, cases: &[Case])
    requires { roads.now.nodes ≡ 4 }
{
    for case in cases {
        expect(rt, roads, case);
    }
}

fn expect<R: Abort + Threads + Sync + AllocGlobal>(rt: &R, roads: &Roads, case: &Case)
    requires { roads.now.nodes ≡ 4 }
{
    assert!(rt; 1 <= case.feeds && case.feeds <= 2);
    assert!(rt; 1 <= case.desks && case.desks <= 2);
    let mut day = Day::new(rt, rt.alloc(), roads, case.feeds, case.desks);
    expect_lines(rt, &mut day, case);
}

// The steps of a case, and its lines.
fn expect_lines<R: Abort + Threads + Sync + AllocGlobal>(rt: &R, day: &mut Day<'_>, case: &Case) {
    assert!(rt; day.is_of(case.feeds, case.desks));
    for step in case.steps {
        day.take(rt, step);
    }
    let lines = day.lines(rt, rt.alloc());
    assert!(rt; lines.written() == case.lines.as_bytes(), "{}", case.shows);
}
