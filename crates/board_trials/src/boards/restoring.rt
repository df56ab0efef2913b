//! Logs of one vehicle that are read back: the board that their whole lines give, and the line that was due in place of a wrong one.
ghost use Rattle.std.specs.Prelude.{◌≡◌};

use super::{Town, roads, small_town};
use adaptive_roads::Roads;
use batch_commit::Batch;
use log_audit::{Restoration, Restored, due_line, restore};
use ride_ports::SureSource;
use std::alloc::Global;
use std::process::Abort;
use std::thread::Threads;

/// What a log gives back: a board of so many entries with the numbers of its open batches, 0 where a desk has none; or its first wrong
/// line.
#[derive(Clone, Copy)]
enum Given {
    Board(usize, u64, u64),
    Wrong(u64),
}

/// A log, what it gives back, and the line that was due in place of a wrong one, nothing where there is none.
#[derive(Clone, Copy)]
struct Case {
    log: &'static str,
    given: Given,
    due: &'static str,
}

static CASES: [Case; 8] = [
    Case {
        log: "",
        given: Given::Wrong(1),
        due: "",
    },
    Case {
        log: "log 1 feeds 1 desks 2",
        given: Given::Wrong(1),
        due: "",
    },
    Case {
        log: "log 1 feeds 1 desks 2\nf1 requ",
        given: Given::Board(0, 0, 0),
        due: "",
    },
    Case {
        log: "log 1 feeds 1 desks 2\nf1 request 7 2 4 1 600 300 = waiting\nno line",
        given: Given::Board(1, 0, 0),
        due: "",
    },
    Case {
        log: "log 1 feeds 1 desks 2\nf1 request 7 2 4 1 600 300 = waiting\nno line\n",
        given: Given::Wrong(3),
        due: "",
    },
    Case {
        log: "log 1 feeds 1 desks 2\nf1 request 7 2 4 1 600 300 = refused 2\nf1 batch = asked 1\n",
        given: Given::Wrong(2),
        due: "f1 request 7 2 4 1 600 300 = waiting\n",
    },
    Case {
        log: "log 1 feeds 1 desks 2\n\
            f1 request 7 2 4 1 600 300 = waiting\n\
            f1 batch = asked 1\n\
            d2 open 1 at 0 requests 7 plans 1@0\n\
            d2 commit 1 cost 180",
        given: Given::Board(3, 0, 1),
        due: "",
    },
    Case {
        log: "log 1 feeds 1 desks 2\n\
            f1 request 7 2 4 1 600 300 = waiting\n\
            f1 batch = asked 1\n\
            d1 open 1 at 0 requests 7 plans 1@1\n",
        given: Given::Wrong(4),
        due: "d1 open 1 at 0 requests 7 plans 1@0\n",
    },
];

/// The log gives this back.
fn expect_given<R: Threads + Sync + Abort>(rt: &R, alloc: Global, town: Town<'_>, case: Case) {
    let Town {
        roads,
        settings,
        fleet,
    } = town;
    let mut log = SureSource::new(case.log.as_bytes());
    match restore(rt, alloc, roads, settings, fleet, &mut log) {
        Ok(given) => expect_same(rt, given, case.given),
        Err(_) => panic!(rt; "there is memory"),
    }
}

fn expect_same(rt: &impl Abort, given: Restoration<'_>, wanted: Given) {
    match (given, wanted) {
        (Restoration::Standing(restored), Given::Board(entries, first, second)) => {
            expect_board(rt, restored, entries, first, second);
        }
        (Restoration::No { line, why: _ }, Given::Wrong(number)) => assert!(rt; line == number),
        _ => panic!(rt; "another thing was given back"),
    }
}

fn expect_board(rt: &impl Abort, restored: Restored<'_>, entries: usize, first: u64, second: u64) {
    assert!(rt; restored.board.entries().len() == entries);
    assert!(rt; number_of(&restored.first) == first);
    assert!(rt; number_of(&restored.second) == second);
}

// The number of a batch, 0 of none.
fn number_of(batch: &Option<Batch>) -> u64 {
    match batch {
        Some(batch) => batch.number(),
        None => 0,
    }
}

/// This line was due.
fn expect_due<R: Threads + Sync + Abort>(rt: &R, alloc: Global, town: Town<'_>, case: Case) {
    let Town {
        roads,
        settings,
        fleet,
    } = town;
    let mut log = SureSource::new(case.log.as_bytes());
    match due_line(rt, alloc, roads, settings, fleet, &mut log) {
        Ok(Some(line)) => assert!(rt; line.as_slice() == case.due.as_bytes()),
        Ok(None) => assert!(rt; case.due.is_empty()),
        Err(_) => panic!(rt; "there is memory"),
    }
}

// A log, and a town that it is over, for each of both calls.
fn expect_case<R: Threads + Sync + Abort + AllocGlobal>(rt: &R, roads: &Roads, case: &Case)
    requires { roads.now.nodes ≡ 4 }
{
    let alloc = rt.alloc();
    let town = small_town(rt, alloc, roads);
    expect_given(rt, alloc, town, *case);
    let town = small_town(rt, alloc, roads);
    expect_due(rt, alloc, town, *case);
}

#[test]
fn whole_lines_give_a_board_back(rt: HostRuntime) {
    let roads = roads(&rt, rt.alloc());
    for case in CASES.as_slice() {
        expect_case(&rt, &roads, case);
    }
}
