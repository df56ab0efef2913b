//! Sheets of idle vehicles sent ahead. Costs and orders were found by hand, over all pairings.
use super::cases::{Case, REPLAYED, expect_all, expect_told};

pub(super) const AHEAD: &str = "ahead --map m --fleet f --feed r --reach 600";

/// A request that no vehicle reaches in time, and a batch of it.
pub(super) const LEFT_OUT: &str = "request 7 3 4 1 100 300\nbatch\n";

/// A request that is left out, over one vehicle at node 1 of four in a line.
const SENT: Case = Case {
    words: AHEAD,
    feed: text!(LEFT_OUT),
    ..REPLAYED
};

static REACHED: [Case; 2] = [
    Case {
        shows: "an idle vehicle is sent two minutes ahead",
        written: "ahead 1 reach 600\nmoves 1 cost 120 goes 7:1@0:3:120 prices 7:120 pays\nend\n",
        ..SENT
    },
    Case {
        shows: "it is beyond reach, with the options in another order",
        words: "ahead --reach 119 --feed r --fleet f --map m",
        feed: text!(LEFT_OUT, by: 7),
        written: "ahead 1 reach 119\nmoves 1 cost 119 goes prices 7:119 pays\nend\n",
        ..SENT
    },
];

const SHEETS: &str = "
[case] fewer vehicles than requests
[feed]
request 7 3 4 1 100 300
request 8 4 3 1 100 300
batch
[written]
ahead 1 reach 600
moves 1 cost 720 goes 7:1@0:3:120 prices 7:540 8:600 pays 1:420
end

[case] more vehicles than requests
[fleet]
vehicle 1 2 1 0
vehicle 2 2 4 0
vehicle 3 2 3 0
[feed]
off 3
request 7 2 1 1 30 300
batch
[written]
ahead 1 reach 600
moves 1 cost 60 goes 7:1@0:2:60 prices 7:* pays*
end

[case] orders name the versions of the copies, and each batch has its sheet
[feed]
off 1
on 1
request 7 3 4 1 100 300
batch
request 8 2 4 1 600 300
batch
request 9 3 4 1 10 300
batch
[written]
ahead 1 reach 600
moves 1 cost 120 goes 7:1@2:3:120 prices 7:120 pays
moves 2 cost 0 goes prices pays
moves 3 cost 600 goes prices 9:600 pays
end
";

static FAULTS: [Case; 4] = [
    Case {
        shows: "a feed whose second read fails is cut",
        feed: text!("request 7 3 4 1 100 300\nbatch\nbatch\n", by: 30, fails: 2),
        status: 5,
        faults: 1,
        written: "ahead 1 reach 600\nmoves 1 cost 120 goes 7:1@0:3:120 prices 7:120 pays\ncut\n",
        ..SENT
    },
    Case {
        shows: "a feed that is missing",
        words: "ahead --map m --fleet f --feed x --reach 600",
        status: 5,
        faults: 1,
        ..SENT
    },
    Case {
        shows: "a sink that takes thirty bytes",
        room: 30,
        status: 6,
        written: "ahead 1 reach 600\nmoves 1 cost",
        ..SENT
    },
    Case {
        shows: "a fleet file that is refused",
        fleet: text!("vehicle 1 2 5 0\n"),
        status: 4,
        written: "fleet refused 3 line 1\n",
        ..SENT
    },
];

#[test]
fn vehicles_are_sent_ahead(rt: HostRuntime) {
    expect_all(&rt, REACHED.as_slice());
    expect_told(&rt, &SENT, SHEETS);
    expect_all(&rt, FAULTS.as_slice());
}
