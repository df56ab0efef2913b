//! Lines of texts that come in pieces, and of texts at their limits.
ghost use Rattle.std.specs.Prelude.{[]};
ghost use Rattle.line_text.specs.inner.line_reader.Reader.{HasGiven};
ghost use Rattle.ride_ports.specs.inner.Calls.{ArePieces};

use super::pieces::expect_pieces;
use arrayvec::ArrayVec;
use line_text::line_reader::{Limits, LineReader, NextLine, ReadStop};
use ride_ports::MemSource;
use std::alloc::Global;
use std::process::Abort;

/// A text, its limits, how it is read, and what a reader tells of it: each line before `/`, or before `|` where no LF ends it; a line
/// that is cut has `+` at its end; `.` is the end, `!` a text that is too long, and `?` a fault.
struct Text {
    bytes: &'static [u8],
    /// The most bytes of a line that are kept, of the text, and the most lines.
    limits: (usize, usize, u32),
    pieces: &'static [usize],
    failing: &'static [u64],
    told: &'static [u8],
}

/// What is told of a text.
type Told = ArrayVec<u8, 40>;

/// Whatever the pieces, the lines are those of all the bytes; a CR is a byte of its line.
static PIECES: [Text; 4] = [
    Text {
        bytes: b"ab\r\n\nc",
        limits: (9, 99, 9),
        pieces: &[],
        failing: &[],
        told: b"ab\r//c|.",
    },
    Text {
        bytes: b"ab\r\n\nc",
        limits: (9, 99, 9),
        pieces: &[1],
        failing: &[],
        told: b"ab\r//c|.",
    },
    Text {
        bytes: b"ab\r\n\nc\n",
        limits: (9, 99, 9),
        pieces: &[2, 3],
        failing: &[],
        told: b"ab\r//c/.",
    },
    Text {
        bytes: b"",
        limits: (9, 99, 9),
        pieces: &[],
        failing: &[],
        told: b".",
    },
];

/// A line of just the room is whole, and of a longer one the first bytes are kept.
static LONG_LINES: [Text; 1] = [Text {
    bytes: b"abc\nabcd\nabcde",
    limits: (3, 99, 9),
    pieces: &[2],
    failing: &[],
    told: b"abc/abc+/abc+|.",
}];

/// As many bytes as the limit, and one more.
static BYTES: [Text; 4] = [
    Text {
        bytes: b"ab\ncd\n",
        limits: (9, 6, 9),
        pieces: &[],
        failing: &[],
        told: b"ab/cd/.",
    },
    Text {
        bytes: b"ab\ncd\ne",
        limits: (9, 6, 9),
        pieces: &[],
        failing: &[],
        told: b"ab/cd/!",
    },
    Text {
        bytes: b"ab\ncd",
        limits: (9, 4, 9),
        pieces: &[3, 1],
        failing: &[],
        told: b"ab/!",
    },
    Text {
        bytes: b"a",
        limits: (9, 0, 9),
        pieces: &[],
        failing: &[],
        told: b"!",
    },
];

/// As many lines as the limit, and one more, also where no LF ends it.
static LINES: [Text; 3] = [
    Text {
        bytes: b"a\nb",
        limits: (9, 99, 2),
        pieces: &[],
        failing: &[],
        told: b"a/b|.",
    },
    Text {
        bytes: b"a\nb\n\n",
        limits: (9, 99, 2),
        pieces: &[],
        failing: &[],
        told: b"a/b/!",
    },
    Text {
        bytes: b"a\nb\nc",
        limits: (9, 99, 2),
        pieces: &[2],
        failing: &[],
        told: b"a/b/!",
    },
];

/// A fault at once, and one after whole lines, also where the limit of bytes is reached.
static FAULTS: [Text; 2] = [
    Text {
        bytes: b"a\n",
        limits: (9, 99, 9),
        pieces: &[],
        failing: &[1],
        told: b"?",
    },
    Text {
        bytes: b"a\nb\ncd",
        limits: (9, 4, 9),
        pieces: &[4],
        failing: &[2],
        told: b"a/b/?",
    },
];

/// Tells the line that a reader shows, and then a mark.
fn tell_line(reader: &LineReader, mark: u8, told: &mut Told) {
    let _ = told.try_extend_from_slice(reader.line());
    if reader.over() {
        let _ = told.try_push(b'+');
    }
    let _ = told.try_push(mark);
}

/// Tells what a reader reads of a source, from its start.
fn tell_text(reader: &mut LineReader, source: &mut MemSource<'_>, told: &mut Told)
    requires { HasGiven reader.old [] }
{
    'lines: loop {
        match reader.next(source) {
            Ok(NextLine::Line) => tell_line(reader, b'/', told),
            Ok(NextLine::Unfinished) => {
                tell_line(reader, b'|', told);
                let _ = told.try_push(b'.');
                return;
            }
            Ok(NextLine::End) => {
                let _ = told.try_push(b'.');
                return;
            }
            Err(ReadStop::TooLong) => {
                let _ = told.try_push(b'!');
                return;
            }
            Err(ReadStop::SourceFailed) => {
                let _ = told.try_push(b'?');
                return;
            }
        }
    }
}

/// Whether a reader of a text that comes in these pieces tells what is wanted.
fn is_told(rt: &impl Abort, alloc: Global, text: &Text, pieces: &[usize]) -> bool
    requires { ArePieces pieces.now }
{
    let (line, bytes, lines) = text.limits;
    let limits = Limits { line, bytes, lines };
    let mut reader = LineReader::new(alloc, limits).expect(rt, "there is memory");
    let mut source = MemSource::new(text.bytes, pieces, text.failing);
    let mut told = Told::new();
    tell_text(&mut reader, &mut source, &mut told);
    told.as_slice() == text.told
}

fn expect_told(rt: &impl Abort, alloc: Global, texts: &[Text]) {
    for (place, text) in texts.iter().enumerate() {
        expect_pieces(rt, text.pieces);
        assert!(rt; is_told(rt, alloc, text, text.pieces), "text {place}");
    }
}

#[test]
fn texts_are_told(rt: HostRuntime) {
    expect_told(&rt, rt.alloc(), &PIECES);
    expect_told(&rt, rt.alloc(), &LONG_LINES);
    expect_told(&rt, rt.alloc(), &BYTES);
    expect_told(&rt, rt.alloc(), &LINES);
    expect_told(&rt, rt.alloc(), &FAULTS);
}
