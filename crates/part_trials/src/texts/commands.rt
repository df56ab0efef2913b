// Spellings of commands in both versions of the log.
ghost use Rattle.std.specs.Prelude.{◌≢◌, ℕ};
ghost use Rattle.ride_model.specs.declared.command.Command.TheVariants.{Bad};
ghost use Rattle.ride_model.specs.Text.{IsOneOrTwo, IsSpelledCommand};

use command_lines::{print_command, read_command, read_feed_line};
use ride_model::Command;
use ride_ports::MemSink;
use std::alloc::Global;
use std::process::Abort;

/// Without chairs.
const REQUEST: Command = Command::Request {
    id: 7,
    from: 2,
    to: 4,
    seats: 1,
    latest: 600,
    longest: 300,
    chairs: 0,
};

const WITH_CHAIR: Command = Command::Request {
    id: 7,
    from: 2,
    to: 4,
    seats: 1,
    latest: 600,
    longest: 300,
    chairs: 1,
};

/// It asks for neither a seat nor a chair.
const NO_LOAD: Command = Command::Request {
    id: 11,
    from: 2,
    to: 4,
    seats: 0,
    latest: 600,
    longest: 300,
    chairs: 0,
};

const REPORT: Command = Command::At {
    vehicle: 1,
    node: 2,
    time: 60,
};

/// A line, and what a version of the log reads in it.
struct Line {
    line: &'static [u8],
    in_1: Option<Command>,
    in_2: Option<Command>,
}

/// A line in which both versions read the same.
macro_rules! line {
    ($line:expr, $command:expr) => {
        Line {
            line: $line,
            in_1: $command,
            in_2: $command,
        }
    };
}

/// Each form, also in odd spellings.
static FORMS: [Line; 8] = [
    line!(b"request 7 2 4 1 600 300", Some(REQUEST)),
    line!(b"cancel 7", Some(Command::Cancel { id: 7 })),
    line!(b"at 1 2 60", Some(REPORT)),
    line!(b"done 1", Some(Command::Done { vehicle: 1 })),
    line!(b"on 1", Some(Command::On { vehicle: 1 })),
    line!(b" \toff\t 1 \r", Some(Command::Off { vehicle: 1 })),
    line!(b"clock 0020", Some(Command::Clock { time: 20 })),
    line!(b"batch", Some(Command::Ask)),
];

/// Only version 2 has chairs, and there they may be left out.
static CHAIRS: [Line; 3] = [
    Line {
        line: b"request 7 2 4 1 600 300 1",
        in_1: None,
        in_2: Some(WITH_CHAIR),
    },
    line!(b"request 7 2 4 1 600 300 1 1", None),
    line!(b"request 11 2 4 0 600 300", Some(NO_LOAD)),
];

/// Other lines are no commands.
static OTHERS: [Line; 9] = [
    line!(b"", None),
    line!(b"# cancel 7", None),
    line!(b"Cancel 7", None),
    line!(b"cancel", None),
    line!(b"cancel 7 8", None),
    line!(b"cancel x", None),
    line!(b"cancel 1000000000000000000", None),
    line!(b"batch 1", None),
    line!(b"done\r1", None),
];

/// The greatest number and the least one.
static NUMBERS: [Line; 2] = [
    line!(
        b"cancel 999999999999999999",
        Some(Command::Cancel {
            id: 999_999_999_999_999_999,
        })
    ),
    line!(b"clock 0", Some(Command::Clock { time: 0 })),
];

/// A line of a feed, whether it has more bytes than these, its number, and what it says.
struct FeedLine {
    line: &'static [u8],
    over: bool,
    number: u64,
    said: Option<Command>,
}

static FEED_LINES: [FeedLine; 6] = [
    FeedLine {
        line: b" \t\r",
        over: false,
        number: 1,
        said: None,
    },
    FeedLine {
        line: b" #x",
        over: false,
        number: 2,
        said: None,
    },
    FeedLine {
        line: b"#x",
        over: true,
        number: 3,
        said: None,
    },
    FeedLine {
        line: b" #x",
        over: true,
        number: 4,
        said: Some(Command::Bad { line: 4 }),
    },
    FeedLine {
        line: b"x",
        over: false,
        number: 5,
        said: Some(Command::Bad { line: 5 }),
    },
    FeedLine {
        line: b"batch",
        over: false,
        number: 6,
        said: Some(Command::Ask),
    },
];

fn expect_lines(rt: &impl Abort, lines: &[Line]) {
    for (place, case) in lines.iter().enumerate() {
        let read = (read_command(case.line, 1), read_command(case.line, 2));
        assert!(rt; read == (case.in_1, case.in_2), "case {place}");
    }
}

#[test]
fn each_line_is_a_command_or_none_and_a_feed_says_nothing_by_blank_ones(rt: HostRuntime) {
    expect_lines(&rt, &FORMS);
    expect_lines(&rt, &CHAIRS);
    expect_lines(&rt, &OTHERS);
    expect_lines(&rt, &NUMBERS);
    for case in FEED_LINES.iter() {
        let said = read_feed_line(case.line, case.over, case.number, 1);
        assert!(rt; said == case.said, "line {}", case.number);
    }
}

/// A command, and its canonical spelling in version 1 of the log or in version 2.
struct Spelling {
    command: Command,
    in_2: bool,
    spelling: &'static [u8],
}

macro_rules! spelling {
    ($command:expr, $in_2:expr, $spelling:expr) => {
        Spelling {
            command: $command,
            in_2: $in_2,
            spelling: $spelling,
        }
    };
}

static SPELLINGS: [Spelling; 11] = [
    spelling!(REQUEST, false, b"request 7 2 4 1 600 300"),
    spelling!(WITH_CHAIR, true, b"request 7 2 4 1 600 300 1"),
    spelling!(REQUEST, true, b"request 7 2 4 1 600 300 0"),
    spelling!(
        Command::Cancel {
            id: 999_999_999_999_999_999,
        },
        false,
        b"cancel 999999999999999999"
    ),
    spelling!(REPORT, false, b"at 1 2 60"),
    spelling!(Command::Done { vehicle: 1 }, false, b"done 1"),
    spelling!(Command::On { vehicle: 1 }, false, b"on 1"),
    spelling!(Command::Off { vehicle: 1 }, false, b"off 1"),
    spelling!(Command::Clock { time: 0 }, false, b"clock 0"),
    spelling!(Command::Ask, true, b"batch"),
    // Six numbers are read in version 2, and seven are printed.
    spelling!(NO_LOAD, true, b"request 11 2 4 0 600 300 0"),
];

/// Whether this is printed of a command, by a sink that takes a byte at a time.
fn is_spelled(rt: &impl Abort, alloc: Global, command: &Command, log: u8, spelling: &[u8]) -> bool
    requires log { IsOneOrTwo log }
    requires not_bad { (number : ℕ) → command.now ≢ Bad number }
    requires spelled { IsSpelledCommand log command.now }
{
    let mut sink = MemSink::new(alloc, 40, &[1], &[]).expect(rt, "there is memory");
    let printed = print_command(command, log, &mut sink).is_ok();
    printed & (sink.written() == spelling)
}

/// Whether a spelling is read as its command, and printed of it.
fn is_canonical(rt: &impl Abort, alloc: Global, case: &Spelling) -> bool {
    let log = if case.in_2 { 2 } else { 1 };
    match read_command(case.spelling, log) {
        Some(command) if command == case.command => {
            is_spelled(rt, alloc, &command, log, case.spelling)
        }
        _ => false,
    }
}

/// Whether a sink that fails at its second call has what it took at the first.
fn keeps_a_prefix(rt: &impl Abort, alloc: Global) -> bool {
    let mut sink = MemSink::new(alloc, 40, &[4], &[2]).expect(rt, "there is memory");
    let failed = print_command(&Command::Cancel { id: 7 }, 1, &mut sink).is_err();
    failed & (sink.written() == b"canc".as_slice())
}

#[test]
fn spellings_are_canonical_and_a_failing_sink_has_a_prefix(rt: HostRuntime) {
    for (place, case) in SPELLINGS.iter().enumerate() {
        assert!(rt; is_canonical(&rt, rt.alloc(), case), "spelling {place}");
    }
    assert!(rt; keeps_a_prefix(&rt, rt.alloc()));
}
