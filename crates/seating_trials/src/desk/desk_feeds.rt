//! Feeds with bookings, and the plain feeds that they give.
ghost use Rattle.std.specs.Prelude.{◌<◌};

use super::desks::Action::{self, Book, Clock, Unbook};
use super::desks::{HELD, NOW, PlainDesk, after};
use booking_desk::book_feed;
use ride_ports::{MemSink, MemSource};
use std::alloc::Global;
use std::process::Abort;
use trip_log::pieces::Piece::{Bytes, Number};
use trip_log::pieces::print;

/// A feed, how its source gives it and which of its calls fail, and how many bytes the sink takes; the status, and what is written.
struct Feed {
    bytes: &'static [u8],
    pieces: &'static [usize],
    failing: &'static [u64],
    room: usize,
    status: u8,
    written: &'static [u8],
}

/// Bookings, and when they are released.
static BOOKINGS: [Feed; 2] = [
    // Of one release the lesser id comes first, an unbooked booking is not released, and is no longer held.
    Feed {
        bytes: b"book 60 7 2 4 1 600 300\nbook 60 5 3 4 1 600 300\nbook 30 9 1 4 1 600 300\nunbook 9\nunbook 9\nclock 59\nclock 60\nbatch\n",
        pieces: &[],
        failing: &[],
        room: 999,
        status: 0,
        written: b"# refused 21 line 5\nclock 59\nclock 60\nrequest 5 3 4 1 600 300\nrequest 7 2 4 1 600 300\nbatch\n# held 0\n",
    },
    // A release that has come, an id that was booked before, and a release above 10^9, in pieces of three bytes.
    Feed {
        bytes: b"book 0 7 2 4 1 600 300\nbook 5 7 2 4 1 600 300\nbook 1000000001 8 2 4 1 600 300\nbook 9 8 2 4 1 600 300",
        pieces: &[3],
        failing: &[],
        room: 999,
        status: 0,
        written: b"request 7 2 4 1 600 300\n# refused 19 line 2\n# refused 20 line 3\n# held 1\n",
    },
];

/// Lines as they stand and as they are spelled, and a clock.
static LINES: [Feed; 3] = [
    // Comments, blank lines, words of other commands and lines that are no booking stand as they are.
    Feed {
        bytes: b"# note\n\n \tat 1 5 9\t\r\nbook 5 7\nunbook\nunbook x\nbooked 5\nclock\nclock 5 6\nclock 1000000001\nbook 1 2 3 4 1 600 300 0 0\n",
        pieces: &[],
        failing: &[],
        room: 999,
        status: 0,
        written: b"# note\n\n \tat 1 5 9\t\r\nbook 5 7\nunbook\nunbook x\nbooked 5\nclock\nclock 5 6\nclock 1000000001\nbook 1 2 3 4 1 600 300 0 0\n# held 0\n",
    },
    // Requests are released in their canonical spelling, with a seventh number only where it is not 0; a clock stands as it is.
    Feed {
        bytes: b" book 007 08 2 4 01 600 300 \r\nbook 7 9 2 4 0 600 300 2\nbook 7 3 2 4 1 600 300 0\nclock  0007\r\n",
        pieces: &[],
        failing: &[],
        room: 999,
        status: 0,
        written: b"clock  0007\r\nrequest 3 2 4 1 600 300\nrequest 8 2 4 1 600 300\nrequest 9 2 4 0 600 300 2\n# held 0\n",
    },
    // The clock does not fall, and what was released is no longer held.
    Feed {
        bytes: b"clock 50\nclock 40\nbook 45 1 2 4 1 600 300\nbook 51 2 2 4 1 600 300\nunbook 1\nclock 51\nunbook 2\nbook 60 2 2 4 1 600 300\n",
        pieces: &[],
        failing: &[],
        room: 999,
        status: 0,
        written: b"clock 50\nclock 40\nrequest 1 2 4 1 600 300\n# refused 21 line 5\nclock 51\nrequest 2 2 4 1 600 300\n# refused 21 line 7\n# refused 19 line 8\n# held 0\n",
    },
];

/// Feeds of nothing, and feeds that are cut.
static CUT: [Feed; 3] = [
    // A feed of nothing.
    Feed {
        bytes: b"",
        pieces: &[],
        failing: &[],
        room: 999,
        status: 0,
        written: b"# held 0\n",
    },
    // A feed that is cut gives the lines before the cut, without the last line.
    Feed {
        bytes: b"book 0 7 2 4 1 600 300\nbatch\ncancel 7\n",
        pieces: &[31],
        failing: &[2],
        room: 999,
        status: 5,
        written: b"request 7 2 4 1 600 300\nbatch\n",
    },
    Feed {
        bytes: b"batch\n",
        pieces: &[],
        failing: &[1],
        room: 999,
        status: 5,
        written: b"",
    },
];

/// Sinks that fail or have just the room.
static SINKS: [Feed; 4] = [
    // A sink that fails has the first bytes.
    Feed {
        bytes: b"book 0 7 2 4 1 600 300\nbatch\n",
        pieces: &[],
        failing: &[],
        room: 20,
        status: 6,
        written: b"request 7 2 4 1 600 ",
    },
    Feed {
        bytes: b"batch\n",
        pieces: &[],
        failing: &[],
        room: 0,
        status: 6,
        written: b"",
    },
    // Just the room is enough.
    Feed {
        bytes: b"batch",
        pieces: &[],
        failing: &[],
        room: 15,
        status: 0,
        written: b"batch\n# held 0\n",
    },
    // A failure of the sink comes before one of the source.
    Feed {
        bytes: b"batch\n",
        pieces: &[],
        failing: &[2],
        room: 3,
        status: 6,
        written: b"bat",
    },
];

/// Over-long lines are cut short.
static LONG_LINES: [Feed; 1] = [Feed {
    bytes: b"#                                                                                                    \
\x20                                                                                                   \n\
\x20                                                                                                    \
\x20                                                                                                   \n\
x                                                                                                    \
\x20                                                                                                  \n",
    pieces: &[],
    failing: &[],
    room: 999,
    status: 0,
    written: b"#\nbad\n\
x                                                                                                    \
\x20                                                                                                  \n\
# held 0\n",
}];

/// Whether a feed gives what it should.
fn gives(rt: &impl Abort, alloc: Global, feed: &Feed) -> bool {
    assert!(rt; feed.pieces.iter().all(|count| *count > 0));
    let mut source = MemSource::new(feed.bytes, feed.pieces, feed.failing);
    let out = MemSink::new(alloc, feed.room, &[], &[]);
    let mut out = out.expect(rt, "there is memory");
    let ran = book_feed(alloc, &mut source, &mut out);
    ran.status() == feed.status && out.written() == feed.written
}

/// Each feed gives what it should.
fn expect_given(rt: &impl Abort, alloc: Global, feeds: &[Feed]) {
    for feed in feeds {
        assert!(rt; gives(rt, alloc, feed));
    }
}

/// An action that a seed draws after so many others: most book one of 800 ids for some time of an hour or for too late a time.
fn drawn(seed: u64, before: u64) -> Action
    requires { before < 100000 }
{
    let number = seed / 65_536;
    match number % 8 {
        0 => Clock(before + number / 64 % 60),
        1 => Unbook(number / 64 % 800),
        2 => Book(999_999_990 + number / 8_192 % 20, number / 64 % 800),
        _ => Book(number / 8_192 % 3_600, number / 64 % 800),
    }
}

/// What ends the line of each request.
const RIDE: &[u8] = b" 2 4 1 600 300\n";

/// Adds the line of an action.
fn add_line(rt: &impl Abort, text: &mut MemSink<'_>, action: Action) {
    let added = match action {
        Book(release, id) => print(
            &[
                Bytes(b"book "),
                Number(release),
                Bytes(b" "),
                Number(id),
                Bytes(RIDE),
            ],
            text,
        ),
        Unbook(id) => print(&[Bytes(b"unbook "), Number(id), Bytes(b"\n")], text),
        Clock(time) => print(&[Bytes(b"clock "), Number(time), Bytes(b"\n")], text),
    };
    assert!(rt; added.is_ok());
}

fn add_request(rt: &impl Abort, text: &mut MemSink<'_>, id: u64) {
    assert!(rt; print(&[Bytes(b"request "), Number(id), Bytes(RIDE)], text).is_ok());
}

fn add_refusal(rt: &impl Abort, text: &mut MemSink<'_>, code: u64, line: u64) {
    let refusal = [
        Bytes(b"# refused "),
        Number(code),
        Bytes(b" line "),
        Number(line),
        Bytes(b"\n"),
    ];
    assert!(rt; print(&refusal, text).is_ok());
}

/// Adds what an action gives of which a desk tells this.
fn add_told(rt: &impl Abort, text: &mut MemSink<'_>, line: u64, action: Action, told: &[u64]) {
    match (action, told) {
        (Book(_, _), [HELD]) => {}
        (Book(_, id), [NOW]) => add_request(rt, text, id),
        (Book(_, _), [code]) => add_refusal(rt, text, *code, line),
        (Unbook(_), [0]) => add_refusal(rt, text, 21, line),
        (Unbook(_), _) => {}
        (Clock(_), ids) => {
            add_line(rt, text, action);
            for id in ids {
                add_request(rt, text, *id);
            }
        }
        (Book(_, _), _) => panic!(rt; "a booking is answered once"),
    }
}

/// Adds the lines of drawn actions to a feed, and what a plain desk makes of them to a plain feed.
fn draw_feeds(rt: &impl Abort, alloc: Global, feed: &mut MemSink<'_>, plain: &mut MemSink<'_>) {
    let mut desk = PlainDesk::new(rt, alloc);
    let mut told = Vec::new(alloc);
    let mut seed = 11;
    for before in 0..2_000u64 {
        seed = after(seed);
        let action = drawn(seed, before);
        add_line(rt, feed, action);
        desk.act(rt, action, &mut told);
        add_told(rt, plain, before + 1, action, told.as_slice());
        told.clear();
    }
    let held = [Bytes(b"# held "), Number(desk.held()), Bytes(b"\n")];
    assert!(rt; print(&held, plain).is_ok());
}

fn sink(rt: &impl Abort, alloc: Global) -> MemSink<'static> {
    MemSink::new(alloc, 1 << 20, &[], &[]).expect(rt, "there is memory")
}

/// Drawn feeds give what a plain desk gives.
fn expect_drawn(rt: &impl Abort, alloc: Global) {
    let mut feed = sink(rt, alloc);
    let mut plain = sink(rt, alloc);
    draw_feeds(rt, alloc, &mut feed, &mut plain);
    let mut source = MemSource::new(feed.written(), &[], &[]);
    let mut out = sink(rt, alloc);
    assert!(rt; book_feed(alloc, &mut source, &mut out).status() == 0);
    assert!(rt; out.written() == plain.written());
}

#[test]
fn feeds_give_plain_feeds(rt: HostRuntime) {
    expect_given(&rt, rt.alloc(), &BOOKINGS);
    expect_given(&rt, rt.alloc(), &LINES);
    expect_given(&rt, rt.alloc(), &CUT);
    expect_given(&rt, rt.alloc(), &SINKS);
    expect_given(&rt, rt.alloc(), &LONG_LINES);
    expect_drawn(&rt, rt.alloc());
}
