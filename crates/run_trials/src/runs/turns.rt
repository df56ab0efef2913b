//! Each read fails in turn, each write fails in turn, and each byte that is written is the last that a sink takes.
use super::bookings::BOOK;
use super::leagues::{FEED as RIDES, FIRST, LEAGUE, SECOND};
use super::resumed::RESUME;
use super::serving::SERVE;
use super::sheets::{AHEAD, LEFT_OUT};
use super::{AUDIT, Answer, File, LOG, REPLAY, Setup, WORKED, answer_to};
use std::process::Abort;
use std::sync::Wait;
use std::thread::Threads;

/// What an audit writes of the worked request's log, and what is written of it as a feed of bookings.
const AUDITED: &str = "yes entries 6 confirmed 1 away 0 picked 0 dropped 0 finished yes\n";

const BOOKED: &str = "request 7 2 4 1 600 300\nbatch\n# held 0\n";

/// What is written of two rides that two companies share.
const ROUND: &str = "league 1 companies 2\n\
request 5 2 1 1 600 300 = waiting\n\
request 6 1 2 1 600 300 = waiting\n\
round 1 cost 240 awards 5:2:1:0 6:1:1:0 prices 5:180 6:120 pays 1:1:60 outcomes 5:confirmed 6:confirmed\n\
end\n";

/// What is written of a request that no vehicle reaches in time.
const SHEET: &str = "ahead 1 reach 600\nmoves 1 cost 120 goes 7:1@0:3:120 prices 7:120 pays\nend\n";

/// What drivers feed.
const CLOCK: &str = "clock 0\n";

/// Which file's read fails. The file of drivers is the second fleet file of a league.
#[derive(Clone, Copy)]
enum Failing {
    Map,
    Fleet,
    Feed,
    Drivers,
    Log,
}

// Files of which one is read by sevens, and one read of it fails.
fn one_failing<'a>(files: &Setup<'a>, which: Failing, read: u64) -> Setup<'a> {
    Setup {
        map: failing_if(matches!(which, Failing::Map), files.map, read),
        fleet: failing_if(matches!(which, Failing::Fleet), files.fleet, read),
        feed: failing_if(matches!(which, Failing::Feed), files.feed, read),
        drivers: failing_if(matches!(which, Failing::Drivers), files.drivers, read),
        log: failing_if(matches!(which, Failing::Log), files.log, read),
        ..*files
    }
}

// The file as it is, or read by sevens, of which one read fails.
fn failing_if<'a>(fails: bool, file: File<'a>, read: u64) -> File<'a> {
    if !fails {
        return file;
    }
    File {
        text: file.text,
        by: Some(7),
        fails: Some(read),
    }
}

// Files with a sink that takes seven bytes a write, of which these fail.
fn refusing<'a>(files: Setup<'a>, refuses: &'a [u64]) -> Setup<'a> {
    Setup {
        takes: &[7],
        refuses,
        ..files
    }
}

// A run ends by status 5 whichever of so many reads of these files fails. A file of n bytes is read n / 7 times, and once more at its
// end.
fn fail_reads<R: Abort + Threads + Wait + Sync + AllocGlobal>(
    rt: &R,
    words: &str,
    files: &Setup<'_>,
    reads: &[(Failing, u64)],
) {
    for (which, count) in reads {
        fail_each_read(rt, words, files, *which, *count);
    }
}

// A run ends by status 5 whichever of so many reads of a file fails, and well where the next one would.
fn fail_each_read<R: Abort + Threads + Wait + Sync + AllocGlobal>(
    rt: &R,
    words: &str,
    files: &Setup<'_>,
    which: Failing,
    reads: u64,
) {
    for read in 1..=reads.saturating_add(1) {
        let answer = answer_to(rt, words, one_failing(files, which, read));
        let (status, faults) = if read <= reads { (5, 1) } else { (0, 0) };
        assert!(rt; answer.ends(status, faults), "{words}: read {read}");
    }
}

// A run ends by status 6 whichever write fails, with a part of its text. A text is written by sevens or less.
fn fail_each_write<R: Abort + Threads + Wait + Sync + AllocGlobal>(
    rt: &R,
    words: &str,
    files: Setup<'_>,
    text: &str,
) {
    for write in 1..=text.len() as u64 / 7 {
        let refuses = [write];
        let answer = answer_to(rt, words, refusing(files, &refuses));
        assert!(rt; is_cut(&answer, text), "{words}: write {write}");
    }
}

// Whether a run ended by status 6 with a part of its text.
fn is_cut(answer: &Answer<'_>, text: &str) -> bool {
    answer.ends(6, 0) && answer.written().len() < text.len() && is_begun(answer, text)
}

// A run ends by status 6 whichever byte is the last that its sink takes, and has written all bytes before.
fn fill_each_sink<R: Abort + Threads + Wait + Sync + AllocGlobal>(
    rt: &R,
    words: &str,
    files: Setup<'_>,
    text: &str,
) {
    for room in 0..=text.len() {
        let files = Setup { room, ..files };
        let answer = answer_to(rt, words, files);
        assert!(rt; is_filled(&answer, text, room), "{words}: room {room}");
    }
}

// Whether a run wrote as much of its text as there was room for, and ended by status 6 where that was not all.
fn is_filled(answer: &Answer<'_>, text: &str, room: usize) -> bool {
    let status = if room < text.len() { 6 } else { 0 };
    answer.ends(status, 0) && answer.written().len() == room && is_begun(answer, text)
}

// Whether what a run wrote begins this text.
fn is_begun(answer: &Answer<'_>, text: &str) -> bool {
    text.as_bytes().starts_with(answer.written())
}

#[test]
fn each_read_fails_in_turn(rt: HostRuntime) {
    let (map, fleet) = ((Failing::Map, 10), (Failing::Fleet, 5));
    let (feed, log) = ((Failing::Feed, 6), (Failing::Log, 30));
    let files = Setup {
        drivers: text!(CLOCK),
        ..WORKED
    };
    fail_reads(&rt, REPLAY, &files, &[map, fleet, feed]);
    fail_reads(&rt, AUDIT, &files, &[map, fleet, log]);
    fail_reads(&rt, RESUME, &files, &[map, fleet, log]);
    fail_reads(
        &rt,
        SERVE,
        &files,
        &[map, fleet, feed, (Failing::Drivers, 3)],
    );
    fail_reads(&rt, AHEAD, &files, &[map, fleet, feed]);
    fail_reads(&rt, BOOK, &files, &[feed]);
}

#[test]
fn each_read_of_a_league_and_of_a_log_with_feeds_fails_in_turn(rt: HostRuntime) {
    let (feed, fleet) = ((Failing::Feed, 6), (Failing::Fleet, 5));
    let league = Setup {
        drivers: text!(SECOND),
        ..WORKED
    };
    let reads = [(Failing::Map, 10), fleet, feed, (Failing::Drivers, 4)];
    fail_reads(&rt, LEAGUE, &league, &reads);
    // A session of two feeds that goes on from a head alone.
    let begun = Setup {
        drivers: text!(CLOCK),
        log: text!("log 1 feeds 2 desks 1\n"),
        ..WORKED
    };
    fail_reads(&rt, RESUME, &begun, &[feed, (Failing::Drivers, 3)]);
}

#[test]
fn each_write_and_each_byte_fails_in_turn(rt: HostRuntime) {
    let worked = WORKED;
    fail_writes(&rt, REPLAY, worked, LOG);
    fail_writes(&rt, AUDIT, worked, AUDITED);
    fail_writes(&rt, RESUME, worked, LOG);
    fail_writes(&rt, BOOK, worked, BOOKED);
    // A request that is left out, and two companies.
    let left_out = Setup {
        feed: text!(LEFT_OUT),
        ..worked
    };
    fail_writes(&rt, AHEAD, left_out, SHEET);
    let league = Setup {
        fleet: text!(FIRST),
        feed: text!(RIDES),
        drivers: text!(SECOND),
        ..worked
    };
    fail_writes(&rt, LEAGUE, league, ROUND);
}

// A run that writes this text ends by status 6 whichever write fails, and whichever byte is the last that its sink takes.
fn fail_writes<R: Abort + Threads + Wait + Sync + AllocGlobal>(
    rt: &R,
    words: &str,
    files: Setup<'_>,
    text: &str,
) {
    fail_each_write(rt, words, files, text);
    fill_each_sink(rt, words, files, text);
}

// The lines of a session have no one order, but one length together.
#[test]
fn a_session_ends_whichever_write_fails(rt: HostRuntime) {
    let all = LOG.len() + "f2 end\n".len();
    let worked = WORKED;
    for room in 0..=all {
        let answer = answer_to(&rt, SERVE, Setup { room, ..worked });
        let status = if room < all { 6 } else { 0 };
        assert!(rt; told(&answer) == (status, room), "room {room}");
    }
    for write in 1..=all as u64 / 7 {
        let refuses = [write];
        let answer = answer_to(&rt, SERVE, refusing(worked, &refuses));
        let (status, count) = told(&answer);
        assert!(rt; status == 6 && count < all, "write {write}");
    }
}

// The status of a run, and how many bytes it wrote.
fn told(answer: &Answer<'_>) -> (u8, usize) {
    (answer.status, answer.written().len())
}
