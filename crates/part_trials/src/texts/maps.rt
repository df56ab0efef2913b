//! Maps and what is no map.
use gr_reader::{MapError, a_text_has_one_answer, read_map};
use ride_model::{Network, RoadArc};
use ride_ports::MemSource;
use std::alloc::Global;
use std::process::Abort;

/// How many nodes a map has, how many arcs, and the second of these; or why it is no map.
fn roads_of(read: Result<Network, MapError>) -> Result<(u32, usize, Option<RoadArc>), MapError> {
    match read {
        Ok(network) => {
            let arcs = network.arcs();
            Ok((network.nodes(), arcs.len(), arcs.get(1).copied()))
        }
        Err(error) => Err(error),
    }
}

#[test]
fn odd_spellings_give_the_same_map_in_any_pieces(rt: HostRuntime) {
    let bytes = b"c roads\r\np sp 2 4\r\na 1 2 60\r\na\t1 2  50 \r\na 2 1 60\r\na 1 1 7";
    let second = RoadArc {
        tail: 1,
        head: 2,
        seconds: 50,
    };
    for pieces in [&[1], &[2], &[7]] {
        let roads = roads_of(read_map(rt.alloc(), &mut MemSource::new(bytes, pieces, &[])));
        assert!(rt; roads == Ok((2, 4, Some(second))));
    }
}

/// How many arcs the map of a text has, or why it is no map, and the count of faults of its source, which fails at these calls.
fn told_of(alloc: Global, bytes: &[u8], failing: &[u64]) -> (Result<usize, MapError>, u64) {
    let mut source = MemSource::new(bytes, &[], failing);
    let told = match read_map(alloc, &mut source) {
        Ok(network) => Ok(network.arcs().len()),
        Err(error) => Err(error),
    };
    (told, source.faults())
}

/// Texts that are no maps, the calls of their sources that fail, why each is no map, and the count of faults.
static REFUSED: [(&[u8], &[u64], MapError, u64); 12] = [
    (b"", &[], MapError::NoProblem, 0),
    (b"a 1 1 x\n", &[], MapError::NoProblem, 0),
    (b"p sp 1 0\np", &[], MapError::SecondProblem(2), 0),
    (b"\nq\n", &[], MapError::BadLine(2), 0),
    (b"p sp 0 2000001", &[], MapError::BadLine(1), 0),
    (b"p sp 500001 0", &[], MapError::TooLarge(1), 0),
    (b"p sp 1 2000001", &[], MapError::TooLarge(1), 0),
    (b"p sp 4 1\na 4 5 1000000001", &[], MapError::NodeOut(2), 0),
    (
        b"p sp 4 1\na 4 4 1000000001",
        &[],
        MapError::WeightOut(2),
        0,
    ),
    (b"p sp 4 1\na 4 4 1 1", &[], MapError::BadLine(2), 0),
    // A faulty line comes before a later fault, where an LF ends it.
    (b"p sp 4 1\na 4 5 60\n", &[2], MapError::NodeOut(2), 0),
    (b"p sp 4 1\na 4 5 60", &[2], MapError::ReadFault, 1),
];

const MAP: &[u8] = b"p sp 4 6\na 1 2 60\na 2 1 60\na 2 3 60\na 3 2 60\na 3 4 60\na 4 3 60\n";

/// How many bytes of the map are there, and what is told of them.
static ENDS: [(usize, Result<usize, MapError>); 5] = [
    (5, Err(MapError::BadLine(1))),
    (8, Err(MapError::ArcCount { said: 6, found: 0 })),
    (54, Err(MapError::ArcCount { said: 6, found: 5 })),
    (60, Err(MapError::BadLine(7))),
    (61, Ok(6)),
];

#[test]
fn each_refusal_has_its_line_and_a_map_without_its_end_is_short_of_arcs(rt: HostRuntime) {
    a_text_has_one_answer();
    for (place, &(bytes, failing, error, faults)) in REFUSED.iter().enumerate() {
        let told = told_of(rt.alloc(), bytes, failing);
        assert!(rt; told == (Err(error), faults), "text {place}");
    }
    for &(end, told) in ENDS.iter() {
        let bytes = MAP.get(..end).expect(&rt, "a beginning of the map");
        assert!(rt; told_of(rt.alloc(), bytes, &[]) == (told, 0));
    }
}

/// What is told of a map of one node and no arc, and then a line of 201 bytes that begins with this one.
fn told_of_long_line(rt: &impl Abort, alloc: Global, first: u8) -> Result<usize, MapError> {
    let mut bytes = Vec::from_array(alloc, *b"p sp 1 0\n").expect(rt, "there is memory");
    bytes.push(first).expect(rt, "there is memory");
    bytes.resize(9 + 201, b' ').expect(rt, "there is memory");
    told_of(alloc, bytes.as_slice(), &[]).0
}

#[test]
fn an_over_long_line_is_bad_or_a_comment_and_more_bytes_than_the_limit_are_too_long(
    rt: HostRuntime,
) {
    let comment = told_of_long_line(&rt, rt.alloc(), b'c');
    let bad = told_of_long_line(&rt, rt.alloc(), b' ');
    assert!(rt; comment == Ok(0) && bad == Err(MapError::BadLine(2)));
    let bytes = vec![in rt.alloc(); b'c'; (1 << 27) + 1].expect(&rt, "there is memory");
    let told = told_of(rt.alloc(), bytes.as_slice(), &[]).0;
    assert!(rt; told == Err(MapError::TooLong));
}
