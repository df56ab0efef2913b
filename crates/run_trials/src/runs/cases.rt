//! Runs over files that tables or texts tell, how they end, and what an audit says of a log that they write.
use super::texts::{begins, text_of};
use super::{DEFAULTS, End, File, LINE, REPLAY, ROOM, Setup, answer_to, expect_audit, expect_end};
use std::process::Abort;
use std::sync::Wait;
use std::thread::Threads;

/// A run by its words, its files, how many bytes its sink takes, and how it ends. Each text is a short one, as of `text_of`, and in what
/// is written `*` is any part of a line. A table has two to four of them: the time that a check takes for a table grows with the square of
/// its length. Cases that differ in their texts alone are told by a text instead (`expect_told`), which a check does not look into.
#[derive(Drop)]
pub(super) struct Case {
    pub(super) shows: &'static str,
    pub(super) words: &'static str,
    pub(super) map: File<'static>,
    pub(super) fleet: File<'static>,
    pub(super) feed: File<'static>,
    pub(super) drivers: File<'static>,
    pub(super) log: File<'static>,
    pub(super) room: usize,
    pub(super) status: u8,
    pub(super) faults: u64,
    pub(super) written: &'static str,
    /// What an audit says of what is written, where that is a log. What `*` leaves free in the log is which of several least seatings,
    /// places and prices is taken; the audit shows that it is lawful.
    pub(super) audit: Option<&'static str>,
}

/// A replay of an empty feed over four nodes in a line and one vehicle.
pub(super) const REPLAYED: Case = Case {
    shows: "",
    words: REPLAY,
    map: text!(LINE),
    fleet: text!(DEFAULTS),
    feed: text!(""),
    drivers: text!(""),
    log: text!(""),
    room: ROOM,
    status: 0,
    faults: 0,
    written: "",
    audit: None,
};

/// What a told case may have behind its name: files with other texts than usual, what is written, and what an audit says of it.
const PARTS: [&str; 7] = [
    "map]\n",
    "fleet]\n",
    "feed]\n",
    "drivers]\n",
    "log]\n",
    "written]\n",
    "audit]\n",
];

/// Asserts how replays end that a text tells.
pub(super) fn expect_replays<R: Abort + Threads + Wait + Sync + AllocGlobal>(
    rt: &R,
    told: &'static str,
) {
    let usual = REPLAYED;
    expect_told(rt, &usual, told);
}

/// Asserts how the runs end that a text tells. Behind an empty line and `[case]` stands what a case shows, and each of its parts stands
/// behind its name, as `[feed]`, up to the next name: where that does not begin a line, the part has no end of its last line.
pub(super) fn expect_told<R: Abort + Threads + Wait + Sync + AllocGlobal>(
    rt: &R,
    usual: &Case,
    told: &'static str,
) {
    assert!(rt; told.starts_with("\n[case] "), "{told}");
    let mut cases = told.split("\n[case] ");
    // Nothing stands before the first one.
    let _ = cases.next();
    for case in cases {
        expect_known(rt, case);
        expect_case(rt, &case_of(usual, case));
    }
}

// Asserts that a told case has no part of another name, which would be passed over.
fn expect_known(rt: &impl Abort, told: &str) {
    let mut parts = told.split('[');
    let _ = parts.next();
    for part in parts {
        assert!(rt; begins(part, &PARTS), "{part}");
    }
}

// The case that a text tells.
fn case_of(usual: &Case, told: &'static str) -> Case {
    Case {
        shows: told.lines().next().unwrap_or(""),
        words: usual.words,
        map: file_of(usual.map, told, "[map]\n"),
        fleet: file_of(usual.fleet, told, "[fleet]\n"),
        feed: file_of(usual.feed, told, "[feed]\n"),
        drivers: file_of(usual.drivers, told, "[drivers]\n"),
        log: file_of(usual.log, told, "[log]\n"),
        room: usual.room,
        status: usual.status,
        faults: usual.faults,
        written: part_of(told, "[written]\n").unwrap_or(usual.written),
        audit: part_of(told, "[audit]\n").or(usual.audit),
    }
}

// The usual file, with the text that a told case has for it.
fn file_of(usual: File<'static>, told: &'static str, name: &str) -> File<'static> {
    let text = part_of(told, name).unwrap_or(usual.text);
    with_text(usual, text)
}

// The part of a told case that stands behind this name.
fn part_of(told: &'static str, name: &str) -> Option<&'static str> {
    let (_, behind) = told.split_once(name)?;
    behind.split('[').next()
}

/// Asserts how runs end, and what audits say of their logs.
pub(super) fn expect_all<R: Abort + Threads + Wait + Sync + AllocGlobal>(rt: &R, cases: &[Case]) {
    for case in cases {
        expect_case(rt, case);
    }
}

fn expect_case<R: Abort + Threads + Wait + Sync + AllocGlobal>(rt: &R, case: &Case) {
    let map = text_of(rt, case.map.text);
    let fleet = text_of(rt, case.fleet.text);
    let feed = text_of(rt, case.feed.text);
    let log = text_of(rt, case.log.text);
    let written = text_of(rt, case.written);
    let files = files_of(
        case,
        map.as_str(),
        fleet.as_str(),
        feed.as_str(),
        log.as_str(),
    );
    let end = End {
        status: case.status,
        faults: case.faults,
        written: written.as_str(),
    };
    expect_answer(rt, case, files, end);
}

// The files of a case, with these texts in place of short ones.
fn files_of<'a>(
    case: &Case,
    map: &'a str,
    fleet: &'a str,
    feed: &'a str,
    log: &'a str,
) -> Setup<'a> {
    Setup {
        map: with_text(case.map, map),
        fleet: with_text(case.fleet, fleet),
        feed: with_text(case.feed, feed),
        drivers: case.drivers,
        log: with_text(case.log, log),
        room: case.room,
        takes: &[],
        refuses: &[],
        meetings: &[],
    }
}

// The file with another text.
fn with_text<'a>(file: File<'_>, text: &'a str) -> File<'a> {
    File {
        text,
        by: file.by,
        fails: file.fails,
    }
}

fn expect_answer<R: Abort + Threads + Wait + Sync + AllocGlobal>(
    rt: &R,
    case: &Case,
    files: Setup<'_>,
    end: End<'_>,
) {
    let answer = answer_to(rt, case.words, files);
    expect_end(rt, case.shows, case.words, &answer, end);
    if let Some(line) = case.audit {
        expect_audit(rt, case.shows, files, answer.text(), line);
    }
}
