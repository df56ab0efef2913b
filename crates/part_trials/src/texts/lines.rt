//! Odd spellings of lines, fields and numbers.
ghost use Rattle.std.specs.Prelude.{◌≡◌, length};
ghost use Rattle.ride_ports.specs.inner.Calls.{ArePieces};

use super::pieces::expect_pieces;
use arrayvec::ArrayVec;
use line_text::{
    Cut, Fields, LineCutter, LineParser, MOST_LINE, ReadError, put_number, read_lines, read_number,
    words_of,
};
use ride_ports::MemSource;
use std::alloc::Global;
use std::process::Abort;

/// Numbers have 1 to 18 digits.
static NUMBERS: [(&[u8], Option<u64>); 6] = [
    (b"", None),
    (b"007", Some(7)),
    (b"999999999999999999", Some(999_999_999_999_999_999)),
    (b"0000000000000000001", None),
    (b"+7", None),
    (b"7\r", None),
];

/// Printed numbers have no leading zero.
static PRINTED: [(u64, &[u8]); 2] = [(0, b"0"), (u64::MAX, b"18446744073709551615")];

/// Whether these are the fields, in order, and there are no more.
fn are_fields(mut fields: Fields<'_>, wanted: &[&[u8]]) -> bool {
    for field in wanted {
        if fields.next_field() != Some(*field) {
            return false;
        }
    }
    fields.next_field().is_none()
}

/// A line of a text with comments, whether it has more bytes than these, and its words, or none where it is unlawful.
struct Words {
    line: &'static [u8],
    over: bool,
    words: Option<&'static [&'static [u8]]>,
}

static WORDS: [Words; 4] = [
    Words {
        line: b" #x y",
        over: false,
        words: Some(&[]),
    },
    Words {
        line: b"#x",
        over: true,
        words: Some(&[]),
    },
    Words {
        line: b" #x",
        over: true,
        words: None,
    },
    Words {
        line: b"x#",
        over: false,
        words: Some(&[b"x#"]),
    },
];

fn has_words(case: &Words) -> bool {
    match (words_of(b'#', case.line, case.over), case.words) {
        (Some(fields), Some(words)) => are_fields(fields, words),
        (None, None) => true,
        _ => false,
    }
}

/// Lines, and their numbers where they are at most two.
static PAIRS: [(&[u8], Option<[u64; 2]>); 3] = [
    (b"1 02", Some([1, 2])),
    (b"1 2 3", None),
    (b"1 x", None),
];

fn has_pair(line: &[u8], pair: Option<[u64; 2]>) -> bool {
    match (Fields::of(line).numbers::<2>(), pair) {
        (Some(numbers), Some(pair)) => numbers.as_slice() == pair.as_slice(),
        (None, None) => true,
        _ => false,
    }
}

#[test]
fn numbers_are_read_and_printed_and_fields_stand_between_spaces_and_tabs(rt: HostRuntime) {
    for &(text, number) in NUMBERS.iter() {
        assert!(rt; read_number(text) == number);
    }
    for &(number, text) in PRINTED.iter() {
        assert!(rt; put_number(number).as_slice() == text);
    }
    let fields = Fields::of(b" \ta\t b\rc \r\t ");
    assert!(rt; are_fields(fields, &[b"a".as_slice(), b"b\rc"]));
    for case in WORDS.iter() {
        assert!(rt; has_words(case));
    }
    for &(line, pair) in PAIRS.iter() {
        assert!(rt; has_pair(line, pair));
    }
}

/// A piece of a text, how it is cut, and then what is shown of a line.
struct Piece {
    bytes: &'static [u8],
    cut: Cut,
    shown: Option<Line>,
}

struct Line {
    bytes: &'static [u8],
    over: bool,
    number: u64,
    /// Whether it is a last line that no LF ends.
    is_last: bool,
}

static PIECES: [Piece; 4] = [
    Piece {
        bytes: b"ab",
        cut: Cut {
            used: 2,
            whole: false,
        },
        shown: None,
    },
    Piece {
        bytes: b"cd\nx",
        cut: Cut {
            used: 3,
            whole: true,
        },
        shown: Some(Line {
            bytes: b"abc",
            over: true,
            number: 1,
            is_last: false,
        }),
    },
    Piece {
        bytes: b"\n",
        cut: Cut {
            used: 1,
            whole: true,
        },
        shown: Some(Line {
            bytes: b"",
            over: false,
            number: 2,
            is_last: false,
        }),
    },
    Piece {
        bytes: b"xyz",
        cut: Cut {
            used: 3,
            whole: false,
        },
        shown: Some(Line {
            bytes: b"xyz",
            over: false,
            number: 3,
            is_last: true,
        }),
    },
];

fn shows(cutter: &LineCutter, line: &Line) -> bool {
    (cutter.over(), cutter.number()) == (line.over, line.number) && cutter.line() == line.bytes
}

fn cuts(cutter: &mut LineCutter, piece: &Piece) -> bool {
    let cut = cutter.take(piece.bytes);
    let is_last = cutter.finish();
    cut == piece.cut
        && match &piece.shown {
            Some(line) => is_last == line.is_last && shows(cutter, line),
            None => true,
        }
}

/// Whether the pieces are cut as they say, by a cutter that keeps three bytes of a line.
fn are_cut(rt: &impl Abort, alloc: Global) -> bool {
    let mut cutter = LineCutter::new(alloc, 3).expect(rt, "there is memory");
    let mut as_said = !cutter.finish();
    for piece in PIECES.iter() {
        as_said &= cuts(&mut cutter, piece);
    }
    as_said
}

// Keeps what it is shown of each line, with a bar after it, and refuses the line `bad`.
#[derive(Drop)]
struct Shown {
    lines: u64,
    text: ArrayVec<u8, 40>,
}

impl LineParser for Shown {
    // The line's number.
    type Refusal = u64;

    ghost takes = { λ _ lines now. now.lines ≡ length lines };

    ghost refuses = { λ _ lines e. e ≡ length lines };

    fn line(&mut self, number: u64, line: &[u8], over: bool) -> Result<(), u64> {
        if line == b"bad".as_slice() {
            return Err(number);
        }
        self.lines = number;
        let _ = self.text.try_extend_from_slice(line);
        let _ = self.text.try_push(if over { b'+' } else { b'|' });
        Ok(())
    }
}

/// A text, the most bytes that it may have, the ways in which it comes in pieces, the calls of its source that fail, and what is told
/// of it.
struct Text {
    bytes: &'static [u8],
    most: u32,
    ways: &'static [&'static [usize]],
    failing: &'static [u64],
    told: Told,
}

/// What is read, each line that is shown with a bar after it, their number, and the source's count of faults.
struct Told {
    read: Result<(), ReadError<u64>>,
    shown: &'static [u8],
    lines: u64,
    faults: u64,
}

static TEXTS: [Text; 9] = [
    // Each line is handed on once, in any pieces.
    Text {
        bytes: b"ab\n\nc d\r\nlast",
        most: 14,
        ways: &[&[1], &[2], &[7], &[]],
        failing: &[],
        told: Told {
            read: Ok(()),
            shown: b"ab||c d\r|last|",
            lines: 4,
            faults: 0,
        },
    },
    // A faulty line comes before a later fault of the source.
    Text {
        bytes: b"ab\nbad\ncd\n",
        most: 100,
        ways: &[&[7, 1]],
        failing: &[2],
        told: Told {
            read: Err(ReadError::Refused(2)),
            shown: b"ab|",
            lines: 1,
            faults: 0,
        },
    },
    Text {
        bytes: b"ab\nbad\ncd\n",
        most: 100,
        ways: &[&[6, 1]],
        failing: &[2],
        told: Told {
            read: Err(ReadError::ReadFault),
            shown: b"ab|",
            lines: 1,
            faults: 1,
        },
    },
    // The last line needs no LF.
    Text {
        bytes: b"ab\nbad",
        most: 6,
        ways: &[&[2]],
        failing: &[],
        told: Told {
            read: Err(ReadError::Refused(2)),
            shown: b"ab|",
            lines: 1,
            faults: 0,
        },
    },
    Text {
        bytes: b"",
        most: 0,
        ways: &[&[]],
        failing: &[],
        told: Told {
            read: Ok(()),
            shown: b"",
            lines: 0,
            faults: 0,
        },
    },
    // A faulty line within the limit comes before it.
    Text {
        bytes: b"ab\ncd",
        most: 5,
        ways: &[&[1], &[2], &[7]],
        failing: &[],
        told: Told {
            read: Ok(()),
            shown: b"ab|cd|",
            lines: 2,
            faults: 0,
        },
    },
    Text {
        bytes: b"ab\ncd\n",
        most: 5,
        ways: &[&[1], &[2], &[7]],
        failing: &[],
        told: Told {
            read: Err(ReadError::TooLong),
            shown: b"ab|",
            lines: 1,
            faults: 0,
        },
    },
    Text {
        bytes: b"ab\nbad\n",
        most: 5,
        ways: &[&[1], &[2], &[7]],
        failing: &[],
        told: Told {
            read: Err(ReadError::TooLong),
            shown: b"ab|",
            lines: 1,
            faults: 0,
        },
    },
    Text {
        bytes: b"bad\ncd\n",
        most: 5,
        ways: &[&[1], &[2], &[7]],
        failing: &[],
        told: Told {
            read: Err(ReadError::Refused(1)),
            shown: b"",
            lines: 0,
            faults: 0,
        },
    },
];

/// Whether a text that comes in these pieces is told as it says.
fn is_told(alloc: Global, text: &Text, pieces: &[usize]) -> bool
    requires { ArePieces pieces.now }
{
    let mut shown = Shown {
        lines: 0,
        text: ArrayVec::new(),
    };
    let mut source = MemSource::new(text.bytes, pieces, text.failing);
    let read = read_lines(alloc, &mut source, text.most, &mut shown);
    let told = &text.told;
    ((read, shown.lines, source.faults()) == (told.read, told.lines, told.faults))
        & (shown.text.as_slice() == told.shown)
}

#[test]
fn lines_are_those_of_all_pieces_and_each_is_handed_on_once_until_a_fault(rt: HostRuntime) {
    assert!(rt; are_cut(&rt, rt.alloc()) && MOST_LINE == 200);
    for (place, text) in TEXTS.iter().enumerate() {
        for pieces in text.ways {
            expect_pieces(&rt, pieces);
            assert!(rt; is_told(rt.alloc(), text, pieces), "text {place}");
        }
    }
}
