//! Leagues of two companies: rounds over both, reports to each, and files that stop a league.
use super::cases::{Case, REPLAYED, expect_all, expect_told};
use std::process::Abort;
use std::sync::Wait;
use std::thread::Threads;

pub(super) const LEAGUE: &str = "league --map m --fleet f --second d --feed r";

/// One vehicle of two seats at node 1, and one at node 4.
pub(super) const FIRST: &str = "vehicle 1 2 1 0\n";

pub(super) const SECOND: &str = "vehicle 1 2 4 0\n";

/// Two requests that both companies can serve, and a round of them.
pub(super) const FEED: &str = "request 5 2 1 1 600 300\nrequest 6 1 2 1 600 300\nbatch\n";

/// Two lines, of which a read may fail in the second.
const CLOCKS: &str = "clock 1\nclock 2\n";

/// A league of both companies. In what is written a `*` stands for any part of a line: which of several prices are printed is free.
const PLAYED: Case = Case {
    words: LEAGUE,
    fleet: text!(FIRST),
    drivers: text!(SECOND),
    ..REPLAYED
};

const ROUNDS: &str = "
[case] a round seats over both companies
[feed]
request 5 2 1 1 600 300
request 6 1 2 1 600 300
batch
[written]
league 1 companies 2
request 5 2 1 1 600 300 = waiting
request 6 1 2 1 600 300 = waiting
round 1 cost 240 awards 5:2:1:0 6:1:1:0 prices 5:180 6:120 pays 1:1:60 outcomes 5:confirmed 6:confirmed
end

[case] a company whose vehicle is off duty takes no part, and there is no third company
[feed]
company 1 off 1
company 3 off 1
request 5 2 1 1 600 300
request 6 1 2 1 600 300
batch
[written]
league 1 companies 2
company 1 off 1 = duty
company 3 off 1 = refused 18
request 5 2 1 1 600 300 = waiting
request 6 1 2 1 600 300 = waiting
round 1 cost 3780 awards 5:2:1:0 prices 5:3540 6:3600 pays 2:1:3360 outcomes 5:confirmed 6:away
end
";

const CANCELLED: &str = "
[case] a ride is cancelled by the company that it is with, once, and its id is not taken again
[feed]
request 5 2 1 1 600 300
batch
cancel 5
cancel 5
cancel 6
request 5 2 1 1 600 300
[written]
league 1 companies 2
request 5 2 1 1 600 300 = waiting
round 1 cost 120 awards 5:1:1:0 prices 5:* pays* outcomes 5:confirmed
cancel 5 = freed 1
cancel 5 = refused 9
cancel 6 = refused 7
request 5 2 1 1 600 300 = refused 1
end

[case] a request that waits is cancelled at the desk, and none is left for the round
[feed]
request 5 2 1 1 600 300
cancel 5
batch
[written]
league 1 companies 2
request 5 2 1 1 600 300 = waiting
cancel 5 = cancelled
round 1 cost 0 awards prices pays outcomes
end

[case] what a round left out is closed, and a ride that was won is not
[feed]
company 2 off 1
request 5 2 1 1 600 300
request 6 1 2 1 600 300
batch
cancel 6
cancel 5
[written]
league 1 companies 2
company 2 off 1 = duty
request 5 2 1 1 600 300 = waiting
request 6 1 2 1 600 300 = waiting
round 1 cost 3660 awards 6:1:1:0 prices 5:* 6:* pays 1:1:* outcomes 5:away 6:confirmed
cancel 6 = freed 1
cancel 5 = refused 9
end
";

const CLOCK_OF_BOTH: &str = "
[case] the clock is both companies', a report is one's, and other lines are bad
[feed]
clock 60
company 1 at 1 2 60
# nothing is said of this line
company 2 done 1
company 1 clock 70
at 1 2 60
company 2 at 1 4 30
clock 1000000001
[written]
league 1 companies 2
clock 60 = now 60
company 1 at 1 2 60 = onmap
company 2 done 1 = refused 14
bad 5
bad 6
company 2 at 1 4 30 = onmap
clock 1000000001 = refused 5
end

[case] the clock of both companies does not fall
[feed]
clock 60
clock 50
[written]
league 1 companies 2
clock 60 = now 60
clock 50 = now 60
end
";

const SETTINGS: &str = "
[case] the settings are the first file's: rounds of one request, of which the second costs nothing more
[fleet]
set batch 1
set log 2
vehicle 1 2 1 0
[feed]
request 5 2 1 1 600 300 0
request 6 1 2 1 600 300 0
batch
batch
[drivers]
set penalty 7
vehicle 1 2 4 0
[written]
league 1 companies 2
request 5 2 1 1 600 300 0 = waiting
request 6 1 2 1 600 300 0 = waiting
round 1 cost 120 awards 5:1:1:0 prices 5:* pays* outcomes 5:confirmed
round 2 cost 0 awards 6:1:1:1 prices 6:* pays* outcomes 6:confirmed
end

[case] a request that costs more than the penalty is away, and closed
[fleet]
set penalty 100
vehicle 1 2 1 0
[feed]
request 5 2 1 1 600 300
batch
cancel 5
[written]
league 1 companies 2
request 5 2 1 1 600 300 = waiting
round 1 cost 100 awards prices 5:* pays* outcomes 5:away
cancel 5 = refused 9
end
";

const LINES: &str = "
[case] an award names the version of its vehicle, which both reports raised
[feed]
company 1 off 1
company 1 on 1
request 6 1 2 1 600 300
batch
[written]
league 1 companies 2
company 1 off 1 = duty
company 1 on 1 = duty
request 6 1 2 1 600 300 = waiting
round 1 cost 60 awards 6:1:1:2 prices 6:* pays* outcomes 6:confirmed
end

[case] a bad line is told by its number, and a blank line or a comment is not told
[feed]
# note

request 5
off 1
company 1 batch
company x off 1
company
 \t\r
batches[written]
league 1 companies 2
bad 3
bad 4
bad 5
bad 6
bad 7
bad 9
end

[case] a feed of nothing
[feed]
[written]
league 1 companies 2
end
";

static FAULTS: [Case; 4] = [
    Case {
        shows: "a feed of which nothing can be read",
        feed: text!(FEED, by: 10, fails: 1),
        status: 5,
        faults: 1,
        written: "league 1 companies 2\ncut\n",
        ..PLAYED
    },
    Case {
        shows: "a failure of the sink comes before one of the source",
        feed: text!(FEED, by: 10, fails: 1),
        room: 23,
        status: 6,
        faults: 1,
        written: "league 1 companies 2\ncu",
        ..PLAYED
    },
    Case {
        shows: "a feed whose second read fails in the middle of a line is cut",
        feed: text!(CLOCKS, by: 10, fails: 2),
        status: 5,
        faults: 1,
        written: "league 1 companies 2\nclock 1 = now 1\ncut\n",
        ..PLAYED
    },
    Case {
        shows: "a sink that takes thirty bytes",
        feed: text!(CLOCKS, by: 10),
        room: 30,
        status: 6,
        written: "league 1 companies 2\nclock 1 =",
        ..PLAYED
    },
];

static REFUSED: [Case; 4] = [
    Case {
        shows: "a vehicle of the first company that is not on the map",
        fleet: text!("vehicle 1 2 9 0\n"),
        drivers: text!("vehicle 1 2 8 0 0 0\n"),
        feed: text!(FEED, by: 10),
        status: 4,
        written: "fleet refused 3 line 1\n",
        ..PLAYED
    },
    Case {
        shows: "a vehicle of the second company that is not on the map",
        drivers: text!("\nvehicle 1 2 9 0\n"),
        feed: text!(FEED, by: 10),
        status: 4,
        written: "fleet refused 3 line 2\n",
        ..PLAYED
    },
    Case {
        shows: "a second fleet file that is missing",
        words: "league --map m --fleet f --second x --feed r",
        feed: text!(FEED, by: 10),
        status: 5,
        faults: 1,
        ..PLAYED
    },
    Case {
        shows: "a league has two fleet files",
        words: "league --map m --fleet f --feed r",
        feed: text!(FEED, by: 10),
        status: 2,
        written: "words refused\n",
        ..PLAYED
    },
];

/// Feeds that are long.
static LONG: [Case; 2] = [
    Case {
        shows: "a league has two thousand rounds",
        feed: text!("<2001|batch\n>"),
        written: "league 1 companies 2\n\
<2000|round % cost 0 awards prices pays outcomes\n>\
batch = refused 16\nend\n",
        ..PLAYED
    },
    Case {
        shows: "a league of too many lines is cut",
        feed: text!("<1000001|\n>"),
        status: 8,
        written: "league 1 companies 2\ncut\n",
        ..PLAYED
    },
];

#[test]
fn leagues_play_their_rounds(rt: HostRuntime) {
    expect_by_sevens(&rt, ROUNDS);
    expect_by_sevens(&rt, CANCELLED);
    expect_by_sevens(&rt, CLOCK_OF_BOTH);
    expect_by_sevens(&rt, SETTINGS);
    expect_by_sevens(&rt, LINES);
    expect_all(&rt, FAULTS.as_slice());
    expect_all(&rt, REFUSED.as_slice());
    expect_all(&rt, LONG.as_slice());
}

// Asserts how leagues end whose feeds are read by sevens.
fn expect_by_sevens<R: Abort + Threads + Wait + Sync + AllocGlobal>(rt: &R, told: &'static str) {
    let usual = Case {
        feed: text!("", by: 7),
        ..PLAYED
    };
    expect_told(rt, &usual, told);
}
