//! What is said on standard error of a map or a fleet file that is refused: its line, what stands there, and what would be right. No
//! clause speaks of it. The file is read once more, where it is one that can be.
use crate::run_messages::programs::Program;
use crate::run_messages::shown::Shown;
use fleet_file::{FleetError, read_fleet};
use gr_reader::{MapError, read_map};
use line_text::read_number;
use ride_model::Network;
use ride_ports::SureSource;
use std::fmt::Display;
use std::rt::Files;
use std::{fs, io};

// The settings of a fleet file with their ranges, one a line.
const RANGES: &str = "\
batch: 1 to 128
penalty: 0 to 1000000000000
drive: 0 to 1000
wait: 0 to 1000
lead: 0 to 3600
dwell: 0 to 3600
log: 1 to 2
";

/// Says what is wrong with a map.
pub fn tell_map<R: Files + Eprint + AllocGlobal>(
    rt: &R,
    program: Program,
    name: &str,
) -> io::Result<()> {
    let Some(text) = text_of(rt, name) else {
        return tell_refused(rt, program, name, "is no road map");
    };
    match fault_of_map(rt, text.as_slice()) {
        Some(error) => tell_map_error(rt, name, text.as_slice(), error),
        None => tell_refused(rt, program, name, "was no road map"),
    }
}

/// Says what is wrong with a fleet file over a map.
pub fn tell_fleet<R: Files + Eprint + AllocGlobal>(
    rt: &R,
    program: Program,
    map: &str,
    name: &str,
) -> io::Result<()> {
    match network_of(rt, map) {
        Some(network) => tell_fleet_over(rt, program, &network, name),
        None => tell_refused(rt, program, name, "is no fleet file"),
    }
}

fn tell_fleet_over<R: Files + Eprint + AllocGlobal>(
    rt: &R,
    program: Program,
    network: &Network,
    name: &str,
) -> io::Result<()> {
    let Some(text) = text_of(rt, name) else {
        return tell_refused(rt, program, name, "is no fleet file");
    };
    match fault_of_fleet(rt, text.as_slice(), network) {
        Some(error) => tell_fleet_error(rt, name, text.as_slice(), network.nodes(), error),
        None => tell_refused(rt, program, name, "was no fleet file"),
    }
}

// Says that a file was refused whose fault is not found again.
fn tell_refused<R: Eprint>(rt: &R, program: Program, name: &str, what: &str) -> io::Result<()> {
    let program = program.name();
    eprintln!(rt; "{program}: {name} {what}; standard output says why")
}

// Why bytes are no map.
fn fault_of_map<R: AllocGlobal>(rt: &R, text: &[u8]) -> Option<MapError> {
    read_map(rt.alloc(), &mut SureSource::new(text)).err()
}

// Why bytes are no fleet file over a map.
fn fault_of_fleet<R: AllocGlobal>(rt: &R, text: &[u8], map: &Network) -> Option<FleetError> {
    read_fleet(rt.alloc(), &mut SureSource::new(text), map).err()
}

/// Returns the bytes of a file, where it is no pipe.
pub fn text_of<R: Files + AllocGlobal>(rt: &R, name: &str) -> Option<Vec<u8>> {
    let about = fs::metadata(rt, name).ok()?;
    if !about.is_file() {
        return None;
    }
    fs::read(rt, name).ok()
}

/// Returns the map of a file, where it is no pipe.
pub fn network_of<R: Files + AllocGlobal>(rt: &R, map: &str) -> Option<Network> {
    let text = text_of(rt, map)?;
    read_map(rt.alloc(), &mut SureSource::new(text.as_slice())).ok()
}

// Says what is wrong with a line.
fn tell_line<R: Eprint>(rt: &R, name: &str, line: u64, what: &str) -> io::Result<()> {
    eprintln!(rt; "{name}:{line}: {what}")
}

// Says what is wrong with a line in which these bytes stand.
fn tell_said<R: Eprint>(rt: &R, name: &str, line: u64, what: &str, said: &[u8]) -> io::Result<()> {
    let said = Shown(said);
    eprintln!(rt; "{name}:{line}: {what}: {said}")
}

// Says that a line names a node that is not on a map of so many.
fn tell_node<R: Eprint>(
    rt: &R,
    name: &str,
    line: u64,
    node: &[u8],
    nodes: &impl Display,
) -> io::Result<()> {
    let node = Shown(node);
    eprintln!(rt; "{name}:{line}: node {node} is not on the map (1 to {nodes})")
}

fn tell_map_error<R: Eprint>(rt: &R, name: &str, text: &[u8], error: MapError) -> io::Result<()> {
    match error {
        MapError::NoProblem => eprintln!(rt;
            "{name}: no line 'p sp NODES ARCS' before the first arc"
        ),
        MapError::SecondProblem(line) => tell_line(rt, name, line, "a second problem line"),
        MapError::BadLine(line) => {
            let what = "neither a problem, nor an arc, nor a comment";
            tell_said(rt, name, line, what, bare(line_of(text, line)))
        }
        MapError::NodeOut(line) => {
            let nodes = field(problem_of(text), 2);
            let node = node_out(line_of(text, line), nodes);
            tell_node(rt, name, line, node, &Shown(nodes))
        }
        MapError::WeightOut(line) => {
            let weight = Shown(field(line_of(text, line), 3));
            eprintln!(rt; "{name}:{line}: {weight} seconds are out of range (0 to 1000000000)")
        }
        MapError::ArcCount { said, found } => {
            eprintln!(rt; "{name}: the problem line says {said} arcs, {found} stand there")
        }
        MapError::TooLarge(line) => {
            let what = "more than 500000 nodes or 2000000 arcs";
            tell_said(rt, name, line, what, bare(line_of(text, line)))
        }
        error => eprintln!(rt; "{name}: {error}"),
    }
}

fn tell_fleet_error<R: Eprint>(
    rt: &R,
    name: &str,
    text: &[u8],
    nodes: u32,
    error: FleetError,
) -> io::Result<()> {
    match error {
        FleetError::BadLine(line) => tell_bad_line(rt, name, line, line_of(text, line)),
        FleetError::Repeat(line) => tell_repeat(rt, name, line, line_of(text, line)),
        FleetError::NodeOut(line) => {
            tell_node(rt, name, line, field(line_of(text, line), 3), &nodes)
        }
        FleetError::ValueOut(line) => tell_value(rt, name, line, line_of(text, line)),
        FleetError::TooMany(line) => tell_line(rt, name, line, "more than 1000 vehicles"),
        error => eprintln!(rt; "{name}: {error}"),
    }
}

// A setting or a vehicle that stands twice.
fn tell_repeat<R: Eprint>(rt: &R, name: &str, line: u64, text: &[u8]) -> io::Result<()> {
    let which = Shown(field(text, 1));
    match word(text, 0) {
        "set" => eprintln!(rt; "{name}:{line}: {which} is set twice"),
        _ => eprintln!(rt; "{name}:{line}: vehicle {which} stands twice"),
    }
}

// A line that is no line of a fleet file.
fn tell_bad_line<R: Eprint>(rt: &R, name: &str, line: u64, text: &[u8]) -> io::Result<()> {
    let (what, said) = match word(text, 0) {
        "set" if range_of(word(text, 1)).is_none() => ("no such setting", field(text, 1)),
        "set" => ("a setting has one number", bare(text)),
        "vehicle" => (
            "a vehicle has four numbers or five (ID SEATS NODE READY CHAIRS)",
            bare(text),
        ),
        _ => (
            "neither a setting, nor a vehicle, nor a comment",
            bare(text),
        ),
    };
    tell_said(rt, name, line, what, said)
}

// A value that is out of its range.
fn tell_value<R: Eprint>(rt: &R, name: &str, line: u64, text: &[u8]) -> io::Result<()> {
    let setting = word(text, 1);
    match range_of(setting) {
        Some(range) if word(text, 0) == "set" => {
            let value = Shown(field(text, 2));
            eprintln!(rt; "{name}:{line}: {setting} {value} is out of range ({range})")
        }
        _ => {
            let what =
                "a vehicle has 1 to 16 seats and 0 to 4 chairs, and is ready by second 1000000000";
            tell_said(rt, name, line, what, bare(text))
        }
    }
}

// The range of a setting.
fn range_of(setting: &str) -> Option<&'static str> {
    for line in RANGES.lines() {
        if let Some((name, range)) = line.split_once(": ")
            && name == setting
        {
            return Some(range);
        }
    }
    None
}

// The first of an arc's nodes that is not on the map.
fn node_out<'a>(arc: &'a [u8], nodes: &[u8]) -> &'a [u8] {
    let from = field(arc, 1);
    match (read_number(from), read_number(nodes)) {
        (Some(node), Some(nodes)) if 1 <= node && node <= nodes => field(arc, 2),
        _ => from,
    }
}

// The problem line.
fn problem_of(text: &[u8]) -> &[u8] {
    for line in text.split(|byte| *byte == b'\n') {
        if word(line, 0) == "p" {
            return line;
        }
    }
    b""
}

/// Returns a line by its number from 1, without its LF.
pub fn line_of(text: &[u8], number: u64) -> &[u8] {
    let place = (number as usize).saturating_sub(1);
    match text.split(|byte| *byte == b'\n').nth(place) {
        Some(line) => line,
        None => b"",
    }
}

// A line without the carriage returns, blanks and tabs at its end, which are no part of it.
fn bare(line: &[u8]) -> &[u8] {
    match line.iter().rposition(|byte| !b"\r \t".contains(byte)) {
        Some(last) => line.get(..=last).unwrap_or(b""),
        None => b"",
    }
}

// A field of a line by its place from 0.
fn field(line: &[u8], place: usize) -> &[u8] {
    let parts = bare(line).split(|byte| *byte == b' ' || *byte == b'\t');
    match parts.filter(|part| !part.is_empty()).nth(place) {
        Some(field) => field,
        None => b"",
    }
}

// A field that is a word.
fn word(line: &[u8], place: usize) -> &str {
    str::from_utf8(field(line, place)).unwrap_or("")
}
