//! What is said on standard error of a log that an audit finds wrong: its first wrong line as it stands, which part of it is not what was
//! due, and the line that was. No clause speaks of it. The log, its map and its fleet file are read once more, where they can be.
use crate::run_messages::shown::Shown;
use crate::run_messages::texts::{line_of, network_of, text_of};
use adaptive_roads::Roads;
use fleet_file::read_fleet;
use log_audit::due_line;
use ride_model::Network;
use ride_ports::SureSource;
use std::io;
use std::rt::Files;
use std::str::from_utf8;
use std::thread::Threads;

/// The most bytes that are shown of a line that was due.
const MOST_SHOWN: usize = 400;

/// The names of a log, and of the map and the fleet file that it is over.
#[derive(Clone, Copy)]
pub struct LogNames<'a> {
    pub map: &'a str,
    pub fleet: &'a str,
    pub log: &'a str,
}

/// Says which line of a log is wrong, by what was to be said of it on standard output.
pub fn tell_wrong<R: Files + Eprint + Threads + Sync + AllocGlobal>(
    rt: &R,
    names: LogNames<'_>,
    said: &[u8],
) -> io::Result<()> {
    let name = names.log;
    let Some((number, why)) = verdict_in(said) else {
        return eprintln!(rt; "{name}: a line is wrong; standard output says which");
    };
    let due = due_of(why);
    match text_of(rt, name) {
        Some(log) => tell_line(rt, names, log.as_slice(), number, due),
        None => eprintln!(rt; "{name}:{number}: {due}"),
    }
}

// Says what stands in a line of a log of these bytes, and what was due there.
fn tell_line<R: Files + Eprint + Threads + Sync + AllocGlobal>(
    rt: &R,
    names: LogNames<'_>,
    log: &[u8],
    number: u64,
    due: &str,
) -> io::Result<()> {
    let name = names.log;
    let line = Shown(line_of(log, number));
    match line_due(rt, names, log) {
        Some(other) => {
            let other = other.as_str();
            eprintln!(rt; "{name}:{number}: {due}: {line}; due: {other}")
        }
        None => eprintln!(rt; "{name}:{number}: {due}: {line}"),
    }
}

// The line that was due in a log of these bytes, without its LF and as far as it is shown.
fn line_due<R: Files + Threads + Sync + AllocGlobal>(
    rt: &R,
    names: LogNames<'_>,
    log: &[u8],
) -> Option<String> {
    let map = network_of(rt, names.map)?;
    let fleet = text_of(rt, names.fleet)?;
    shown(line_over(rt, &map, fleet.as_slice(), log)?)
}

// The line that was due in a log over a map and a fleet file.
fn line_over<R: Threads + Sync + AllocGlobal>(
    rt: &R,
    map: &Network,
    fleet: &[u8],
    log: &[u8],
) -> Option<Vec<u8>> {
    let Ok((settings, fleet)) = read_fleet(rt.alloc(), &mut SureSource::new(fleet), map) else {
        return None;
    };
    let Ok(roads) = Roads::new(rt.alloc(), map) else {
        return None;
    };
    let mut log = SureSource::new(log);
    due_line(rt, rt.alloc(), &roads, settings, fleet, &mut log).ok()?
}

// A line without its LF, cut where it is long.
fn shown(line: Vec<u8>) -> Option<String> {
    let mut line = line;
    let _lf = line.pop();
    if line.len() > MOST_SHOWN {
        line.truncate(MOST_SHOWN);
        line.extend_from_slice(b"..").ok()?;
    }
    String::from_utf8(line).ok()
}

// The number of the line and the word, of `no LINE WORD`.
fn verdict_in(said: &[u8]) -> Option<(u64, &str)> {
    let mut words = from_utf8(said).ok()?.split_whitespace().skip(1);
    let number = words.next()?.parse::<u64>().ok()?;
    Some((number, words.next()?))
}

// What is not as it was due.
fn due_of(why: &str) -> &'static str {
    match why {
        "spelling" => "this is no line of a log, to the byte",
        "actor" => "who speaks here may not do so now",
        "reply" => "another reply is due",
        "batch" => "another number, time, request or version is due",
        "seating" => "these seats are no seating of the batch's copies, or cost something else",
        "prices" => "the prices and pays do not prove that no seating costs less",
        "outcomes" => "another outcome is due",
        _ => "the line is wrong",
    }
}
