// Lines of the log and others, read.
ghost use Rattle.ride_model.specs.Text.{HasLine, IsOneOrTwo};

use ride_model::Entry;
use ride_ports::MemSink;
use std::alloc::Global;
use std::process::Abort;
use trip_log::{Head, print_entry, read_entry, read_head};

/// Lines of feeds, in either version of the log.
const OF_FEEDS: [&[u8]; 9] = [
    b"f2 cancel 7 = cancelled",
    b"f2 cancel 7 = freed 3",
    b"f1 at 3 2 60 = onmap",
    b"f1 at 3 2 60 = late 5",
    b"f1 at 3 2 60 = late 5 broken 7",
    b"f1 at 3 2 60 = late 5 broken 1 2 3 4 5 6 7 8 9 10 11 12 13 14 15 16",
    b"f1 done 3 = picked 7",
    b"f1 done 3 = dropped 7",
    b"f1 on 3 = duty",
];

/// More of them, and their ends.
const MORE_OF_FEEDS: [&[u8]; 8] = [
    b"f1 on 0 = refused 0",
    b"f1 off 3 = refused 255",
    b"f1 off 999999999999999999 = duty",
    b"f1 clock 20 = now 20",
    b"f1 batch = asked 1",
    b"f1 bad 4",
    b"f1 end",
    b"f2 cut",
];

/// Lines of desks.
const OF_DESKS: [&[u8]; 8] = [
    b"d1 open 1 at 0 requests plans",
    b"d2 open 3 at 60 requests 7 8 9 plans 1@0 2@5",
    b"d1 commit 1 cost 0 seats prices pays outcomes",
    b"d1 commit 1 cost 180 seats 7:1:0:0 prices 7:180 pays 1:0 outcomes 7:confirmed",
    b"d2 commit 12 cost 3780 seats 5:2:1:3 6:1:0:4294967295 prices 5:180 6:120 pays 1:60 2:30 outcomes 5:moved:3:4 6:behind:50:60 7:away 8:gone",
    b"d1 abandon 3",
    b"d1 end",
    b"d2 cut",
];

// Requests have chairs just in version 2.
const WITHOUT_CHAIRS: &[u8] = b"f1 request 7 2 4 1 600 300 = waiting";

const WITH_CHAIRS: &[u8] = b"f1 request 7 2 4 1 600 300 0 = waiting";

/// Lines of no version: blanks in other places.
const BLANKS: [&[u8]; 10] = [
    b"f1 on 1  = duty",
    b"f1 on 01 = duty",
    b"f1 on 1 = duty ",
    b" f1 on 1 = duty",
    b"f1\ton 1 = duty",
    b"f1 on\t1 = duty",
    b"f1 on 1 = duty\r",
    b"f1 on 1 = duty\n",
    b"f1 on 1 =  duty",
    b"f1 on 1= duty",
];

/// Other spellings of numbers, letters and lists.
const SPELLINGS: [&[u8]; 8] = [
    b"f01 on 1 = duty",
    b"F1 on 1 = duty",
    b"f1 on 1000000000000000000 = duty",
    b"f1 on 0999999999999999999 = duty",
    b"f1 at 3 2 60 = late 5 broken",
    b"d1 open 1 at 0 requests 07 plans",
    b"d1 commit 1 cost 00 seats prices pays outcomes",
    b"d1 commit 1 cost 0 seats 7:1:00:0 prices pays outcomes",
];

/// Other actors, and what an actor does not say.
const ACTORS: [&[u8]; 13] = [
    b"",
    b"f1",
    b"f1 ",
    b"f3 end",
    b"f0 end",
    b"x1 end",
    b"f1 stop",
    b"f1 end 1",
    b"f1 end\nf1 end",
    b"d1 on 1 = duty",
    b"d1 bad 3",
    b"f1 open 1 at 0 requests plans",
    b"f1 abandon 1",
];

/// Replies that are none, or not to their commands.
const REPLIES: [&[u8]; 11] = [
    b"f1 bad 3 = noted",
    b"f1 bad",
    b"f1 on 1",
    b"f1 on 1 =",
    b"f1 on 1 = noted",
    b"f1 on 1 = gone",
    b"f1 on 1 = duty duty",
    b"f1 clock 5 = now",
    b"f1 clock 5 = now 5 6",
    b"f1 on 1 = refused 256",
    b"f1 at 3 2 60 = late 5 broken 1 2 3 4 5 6 7 8 9 10 11 12 13 14 15 16 17",
];

/// Batches of other forms.
const BATCHES: [&[u8]; 9] = [
    b"d1 open 1 at 0 plans requests",
    b"d1 open 1 at 0 requests plans 1:0",
    b"d1 open 1 at 0 requests x plans",
    b"d1 commit 1 cost 0 seats prices pays",
    b"d1 commit 1 cost 0 seats 7:1:0 prices pays outcomes",
    b"d1 commit 1 cost 0 seats 7:1:0:4294967296 prices pays outcomes",
    b"d1 commit 1 cost 0 seats prices 7@1 pays outcomes",
    b"d1 commit 1 cost 0 seats prices pays outcomes 7:moved:1",
    b"d1 commit 1 cost 0 seats prices pays outcomes 7:confirmed:1:2",
];

/// Whether an entry is printed as this line and an LF, as a sink takes it a byte at a time.
fn is_printed_as(rt: &impl Abort, alloc: Global, entry: &Entry, log: u8, line: &[u8]) -> bool
    requires log { IsOneOrTwo log }
    requires has_line { HasLine log entry.now }
{
    let room = line.len() + 1;
    let mut sink = MemSink::new(alloc, room, &[1], &[]).expect(rt, "there is memory");
    let printed = print_entry(entry, log, &mut sink).is_ok();
    printed & (sink.written().strip_suffix(b"\n") == Some(line))
}

/// Whether the entry of a line is printed as this line; nothing where it is no entry's.
fn told_of(rt: &impl Abort, alloc: Global, line: &[u8], log: u8) -> Option<bool>
    requires { IsOneOrTwo log }
{
    match read_entry(alloc, line, log).expect(rt, "there is memory") {
        Some(entry) => Some(is_printed_as(rt, alloc, &entry, log, line)),
        None => None,
    }
}

/// Expects what is told of lines in version 1 of the log, and in version 2.
fn expect_told(
    rt: &impl Abort,
    alloc: Global,
    lines: &[&[u8]],
    told: (Option<bool>, Option<bool>),
) {
    for (place, line) in lines.iter().enumerate() {
        let found = (told_of(rt, alloc, line, 1), told_of(rt, alloc, line, 2));
        assert!(rt; found == told, "line {place}");
    }
}

/// What is told of the line of a batch of a thousand plans.
fn told_of_thousand_plans(rt: &impl Abort, alloc: Global) -> Option<bool> {
    let mut line = Vec::new(alloc);
    line.extend_from_slice(b"d1 open 1 at 0 requests plans")
        .expect(rt, "there is memory");
    for _ in 0..1000 {
        line.extend_from_slice(b" 123456@789")
            .expect(rt, "there is memory");
    }
    told_of(rt, alloc, line.as_slice(), 1)
}

#[test]
fn each_line_reads_back_and_others_are_refused(rt: HostRuntime) {
    let alloc = rt.alloc();
    expect_told(&rt, alloc, &OF_FEEDS, (Some(true), Some(true)));
    expect_told(&rt, alloc, &MORE_OF_FEEDS, (Some(true), Some(true)));
    expect_told(&rt, alloc, &OF_DESKS, (Some(true), Some(true)));
    expect_told(&rt, alloc, &[WITHOUT_CHAIRS], (Some(true), None));
    expect_told(&rt, alloc, &[WITH_CHAIRS], (None, Some(true)));
    expect_told(&rt, alloc, &BLANKS, (None, None));
    expect_told(&rt, alloc, &SPELLINGS, (None, None));
    expect_told(&rt, alloc, &ACTORS, (None, None));
    expect_told(&rt, alloc, &REPLIES, (None, None));
    expect_told(&rt, alloc, &BATCHES, (None, None));
    assert!(rt; told_of_thousand_plans(&rt, alloc) == Some(true));
}

/// Lines that are no heads.
static NO_HEADS: [&[u8]; 10] = [
    b"",
    b"log 1 feeds 1 desks",
    b"log 3 feeds 1 desks 1",
    b"log 1 feeds 0 desks 1",
    b"log 1 feeds 1 desks 1 ",
    b"log 1 feeds 1 desks 1\n",
    b"log 01 feeds 1 desks 1",
    b" log 1 feeds 1 desks 1",
    b"log 1 feeds 1 desks 12",
    b"log 1 feeds 1 tasks 1",
];

#[test]
fn heads_are_read(rt: HostRuntime) {
    let head = Head {
        log: 2,
        feeds: 1,
        desks: 2,
    };
    assert!(rt; read_head(b"log 2 feeds 1 desks 2") == Some(head));
    for (place, line) in NO_HEADS.iter().enumerate() {
        assert!(rt; read_head(line) == None, "line {place}");
    }
}
