//! Texts with pieces that repeat, and patterns of texts.
use std::process::Abort;

/// The text in which `<3|a piece>` stands for the piece three times, with the numbers from 1 to 3 in place of each `%` in it.
pub(super) fn text_of(rt: &(impl Abort + AllocGlobal), short: &str) -> String {
    let mut text = String::new(rt.alloc());
    for part in short.split('<') {
        let (repeated, behind) = part.split_once('>').unwrap_or(("", part));
        push_repeated(rt, &mut text, repeated);
        text.push_str(behind).expect(rt, "there is memory");
    }
    text
}

// Adds a piece as often as it says.
fn push_repeated(rt: &(impl Abort + AllocGlobal), text: &mut String, repeated: &str) {
    let (count, piece) = repeated.split_once('|').unwrap_or(("0", repeated));
    let count = count.parse::<u32>().unwrap_or(0);
    if piece.contains('%') {
        return push_each(rt, text, count, piece);
    }
    let pieces = piece.repeat(rt.alloc(), count as usize);
    let pieces = pieces.expect(rt, "there is memory");
    text.push_str(pieces.as_str()).expect(rt, "there is memory");
}

fn push_each(rt: &(impl Abort + AllocGlobal), text: &mut String, last: u32, piece: &str) {
    for number in 1..=last {
        push_numbered(rt, text, number, piece);
    }
}

// Adds a piece with this number in place of each `%`.
fn push_numbered(rt: &impl Abort, text: &mut String, number: u32, piece: &str) {
    let mut parts = piece.split('%');
    if let Some(first) = parts.next() {
        text.push_str(first).expect(rt, "there is memory");
    }
    for part in parts {
        write!(text, "{number}{part}").expect(rt, "there is memory");
    }
}

/// Whether a text is like a pattern, in which each `*` stands for any part of a line.
pub(super) fn is_like(text: &str, pattern: &str) -> bool {
    has_lines(text, &[""], pattern)
}

/// Whether those lines of a text that begin so, and blank ones, are like the lines of a pattern.
pub(super) fn has_lines(text: &str, starts: &[&str], pattern: &str) -> bool {
    let mut wanted = pattern.split('\n');
    for line in text.split('\n') {
        if !begins(line, starts) {
            continue;
        }
        let Some(pattern) = wanted.next() else {
            return false;
        };
        if !is_line_like(line, pattern) {
            return false;
        }
    }
    wanted.next().is_none()
}

/// Whether a text begins by one of these, or is empty.
pub(super) fn begins(text: &str, starts: &[&str]) -> bool {
    for start in starts {
        if text.starts_with(*start) {
            return true;
        }
    }
    text.is_empty()
}

fn is_line_like(line: &str, pattern: &str) -> bool {
    let Some((start, tail)) = pattern.split_once('*') else {
        return line == pattern;
    };
    let mut rest = line.strip_prefix(start);
    for part in tail.split('*') {
        rest = behind(rest, part);
    }
    rest.is_some_and(|rest| rest.is_empty() || pattern.ends_with('*'))
}

// What is behind the first such part of a text.
fn behind<'a>(text: Option<&'a str>, part: &str) -> Option<&'a str> {
    let (_, behind) = text?.split_once(part)?;
    Some(behind)
}

/// A text, a pattern, and whether the text is like it.
static LIKE: [(&str, &str, bool); 8] = [
    ("a 7:180 b\n", "a 7:* b\n", true),
    ("a 7:180 b\n", "a* b\n", true),
    ("a 7:180 b\n", "a 7:*\n", true),
    ("a 7:180 b\n", "a 7:180 b\n", true),
    ("a 7:180 b\n", "a 7:180\n", false),
    ("a 7:180 b\n", "a 8:* b\n", false),
    ("a 7:180 b\nc\n", "a* b\n", false),
    ("a 7:180 b\n", "a* b\nc\n", false),
];

#[test]
fn a_pattern_has_any_part_of_a_line(rt: HostRuntime) {
    for (text, pattern, is) in LIKE.as_slice() {
        assert!(&rt; is_like(text, pattern) == *is, "{pattern}");
    }
}
