//! Fleet files and what is none.
ghost use Rattle.ride_ports.specs.inner.Calls.{ArePieces};

use fleet_file::{FleetError, a_text_has_one_answer, read_fleet};
use ride_model::{Fleet, Network, Settings, Vehicle};
use ride_ports::MemSource;
use std::alloc::Global;
use std::process::Abort;

/// What is told of a source's fleet on a map of four nodes: how many vehicles were read, or why there is no fleet.
fn vehicles_of(alloc: Global, source: &mut MemSource<'_>) -> Result<usize, FleetError> {
    let map = Network::new(4, Vec::new(alloc));
    match read_fleet(alloc, source, &map) {
        Ok((_, fleet)) => Ok(fleet.vehicles().len()),
        Err(error) => Err(error),
    }
}

/// What is told of a text.
fn told_of(alloc: Global, bytes: &[u8]) -> Result<usize, FleetError> {
    vehicles_of(alloc, &mut MemSource::new(bytes, &[], &[]))
}

fn are_two(settings: Settings, vehicles: &[Vehicle]) -> bool {
    let expected = Settings {
        batch: 32,
        penalty: 179,
        drive: 1,
        wait: 0,
        lead: 0,
        dwell: 0,
        log: 1,
    };
    match vehicles {
        [first, second] => {
            settings == expected
                && (first.id, first.seats, first.chairs) == (7, 16, 0)
                && (second.id, second.at, second.chairs) == (8, 1, 4)
        }
        _ => false,
    }
}

/// Whether the fleet of two vehicles is read whose text comes in these pieces.
fn reads_two(alloc: Global, pieces: &[usize]) -> bool
    requires { ArePieces pieces.now }
{
    let bytes = b"# fleet\r\nvehicle 7 16\t4 1000000000\r\n\nset  penalty 0179 \nvehicle 8 1 1 0 4";
    let map = Network::new(4, Vec::new(alloc));
    match read_fleet(alloc, &mut MemSource::new(bytes, pieces, &[]), &map) {
        Ok((settings, fleet)) => are_two(settings, fleet.vehicles()),
        Err(_) => false,
    }
}

#[test]
fn odd_spellings_give_the_same_fleet_in_any_pieces(rt: HostRuntime) {
    for pieces in [&[1], &[2], &[7]] {
        assert!(rt; reads_two(rt.alloc(), pieces));
    }
}

static REFUSED: [(&[u8], FleetError); 20] = [
    // Each refusal has its line.
    (b"set speed 1", FleetError::BadLine(1)),
    (b"\n# roads\nset lead x", FleetError::BadLine(3)),
    (b"vehicle 1 1 1", FleetError::BadLine(1)),
    (b"set lead 1\nset lead 9999", FleetError::Repeat(2)),
    (b"vehicle 1 1 1 0\nvehicle 1 0 9 0", FleetError::Repeat(2)),
    (b"vehicle 1 0 5 0", FleetError::NodeOut(1)),
    (b"vehicle 1 0 0 0", FleetError::NodeOut(1)),
    // A value out of its range is refused.
    (b"set batch 0", FleetError::ValueOut(1)),
    (b"set batch 129", FleetError::ValueOut(1)),
    (b"set penalty 1000000000001", FleetError::ValueOut(1)),
    (b"set drive 1001", FleetError::ValueOut(1)),
    (b"set wait 1001", FleetError::ValueOut(1)),
    (b"set lead 3601", FleetError::ValueOut(1)),
    (b"set dwell 3601", FleetError::ValueOut(1)),
    (b"set log 0", FleetError::ValueOut(1)),
    (b"set log 3", FleetError::ValueOut(1)),
    (b"vehicle 1 0 1 0", FleetError::ValueOut(1)),
    (b"vehicle 1 17 1 0", FleetError::ValueOut(1)),
    (b"vehicle 1 1 1 0 5", FleetError::ValueOut(1)),
    (b"vehicle 1 1 1 1000000001", FleetError::ValueOut(1)),
];

/// What is told of a source that fails at its first call, and its count of faults.
fn told_of_a_fault(alloc: Global) -> (Result<usize, FleetError>, u64) {
    let mut source = MemSource::new(b"set log 2", &[], &[1]);
    let told = vehicles_of(alloc, &mut source);
    (told, source.faults())
}

#[test]
fn each_refusal_has_its_line_and_a_fault_of_reading_is_told(rt: HostRuntime) {
    a_text_has_one_answer();
    for (place, &(bytes, error)) in REFUSED.iter().enumerate() {
        assert!(rt; told_of(rt.alloc(), bytes) == Err(error), "text {place}");
    }
    assert!(rt; told_of_a_fault(rt.alloc()) == (Err(FleetError::ReadFault), 1));
}

/// A text of one line: its first byte, how many bytes it has, all others `#`, and what is told of it.
static LONG_LINES: [(u8, usize, Result<usize, FleetError>); 4] = [
    // An over-long line is bad or a comment.
    (b'#', 201, Ok(0)),
    (b' ', 201, Err(FleetError::BadLine(1))),
    // As many bytes as the limit, and one more.
    (b'#', 1 << 20, Ok(0)),
    (b'#', (1 << 20) + 1, Err(FleetError::TooLong)),
];

fn told_of_line(
    rt: &impl Abort,
    alloc: Global,
    first: u8,
    length: usize,
) -> Result<usize, FleetError> {
    let mut line = Vec::new(alloc);
    line.push(first).expect(rt, "there is memory");
    line.resize(length, b'#').expect(rt, "there is memory");
    told_of(alloc, line.as_slice())
}

/// What is told of the lines of so many vehicles.
fn told_of_vehicles(rt: &impl Abort, alloc: Global, many: u32) -> Result<usize, FleetError> {
    let mut lines = String::new(alloc);
    for id in 0..many {
        write!(lines, "vehicle {id} 1 1 0\n").expect(rt, "there is memory");
    }
    told_of(alloc, lines.as_bytes())
}

#[test]
fn limits_of_lines_bytes_and_vehicles_are_exact(rt: HostRuntime) {
    let alloc = rt.alloc();
    for &(first, length, told) in LONG_LINES.iter() {
        assert!(rt; told_of_line(&rt, alloc, first, length) == told);
    }
    let (most, more) = (
        told_of_vehicles(&rt, alloc, 1_000),
        told_of_vehicles(&rt, alloc, 1_001),
    );
    assert!(rt; most == Ok(1_000) && more == Err(FleetError::TooMany(1_001)));
}
