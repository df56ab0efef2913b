//! What no clause says: each form once with values from outside, and the adapters over a real
//! file and the real standard output.
use super::pieces::expect_pieces;
use ride_ports::*;
use std::alloc::Global;
use std::fs;
use std::process::Abort;
use std::rt::Files;

const MAP: &[u8] = b"p sp 2 1\na 1 2 60\n";

fn name(rt: &impl Abort, alloc: Global, text: &str) -> String {
    String::from_str(alloc, text).expect(rt, "there is memory")
}

/// Whether a read of at most so many bytes, and of at most 16, gives these.
fn gives<S: Source>(source: &mut S, room: usize, wanted: Result<&[u8], Failed>) -> bool {
    let mut buffer = [0; 16];
    match (source.read(&mut buffer[..room.min(16)]), wanted) {
        (Ok(count), Ok(bytes)) => buffer.get(..count) == Some(bytes),
        (Err(Failed), Err(Failed)) => true,
        _ => false,
    }
}

/// Whether a source gives these bytes up to its end.
fn gives_all<S: Source>(source: &mut S, bytes: &[u8]) -> bool {
    let mut buffer = [0; 16];
    let mut left = bytes;
    for _ in 0..u64::MAX {
        let Ok(count) = source.read(&mut buffer) else {
            return false;
        };
        if count == 0 {
            return left.is_empty();
        }
        let Some((front, rest)) = left.split_at_checked(count) else {
            return false;
        };
        if front != &buffer[..count] {
            return false;
        }
        left = rest;
    }
    false
}

/// For the most bytes of a read, what it gives.
static READS: [(usize, Result<&[u8], Failed>); 5] = [
    (8, Ok(b"a")),
    (8, Err(Failed)),
    (5, Ok(b"bcdef")),
    (8, Ok(b"ghijk")),
    (8, Ok(b"")),
];

static WAYS: [&[usize]; 4] = [&[1], &[2], &[7], &[]];

/// Whether a source gives its pieces, and fails where it is told to.
fn gives_its_pieces() -> bool {
    let mut source = MemSource::new(b"abcdefghijk", &[1, 2, 7], &[2]);
    let mut as_said = true;
    for &(room, read) in READS.iter() {
        as_said &= gives(&mut source, room, read);
    }
    as_said & (source.faults() == 1)
}

/// For each piece that is written, how many of its bytes are taken.
static WRITES: [(&[u8], Result<usize, Failed>); 5] = [
    (b"abc", Ok(2)),
    (b"cde", Err(Failed)),
    (b"c", Ok(1)),
    (b"defg", Ok(2)),
    (b"fg", Err(Failed)),
];

/// Whether a sink takes its pieces, and fails where it is told to and where it is full.
fn takes_its_pieces(rt: &impl Abort, alloc: Global) -> bool {
    let mut sink = MemSink::new(alloc, 5, &[2], &[2]).expect(rt, "there is memory");
    let mut as_said = true;
    for &(piece, taken) in WRITES.iter() {
        as_said &= sink.write(piece) == taken;
    }
    as_said & (sink.written() == b"abcde".as_slice()) & (sink.faults() == 2)
}

/// Whether a write of all goes on after short writes, and stops at a fault.
fn writes_all(rt: &impl Abort, alloc: Global) -> bool {
    let mut sink = MemSink::new(alloc, 40, &[1, 2, 7], &[7]).expect(rt, "there is memory");
    let first = write_all(&mut sink, MAP);
    let second = write_all(&mut sink, MAP);
    let told = (first, second, sink.faults());
    (told == (Ok(()), Err(Failed), 1))
        & (sink.written() == b"p sp 2 1\na 1 2 60\np sp 2 ".as_slice())
}

#[test]
fn sources_give_their_pieces_sinks_take_theirs_and_both_fail_where_listed(rt: HostRuntime) {
    assert!(rt; gives_its_pieces() && takes_its_pieces(&rt, rt.alloc()));
    for pieces in WAYS.iter() {
        expect_pieces(&rt, pieces);
        assert!(rt; gives_all(&mut MemSource::new(MAP, pieces, &[]), MAP));
    }
    let sure = write_all(&mut SureSink::new(), MAP);
    assert!(rt; writes_all(&rt, rt.alloc()) && sure == Ok(()));
}

/// Whether a shelf brings two files, and counts its faults: a name that is missing, a call that fails, and a source that failed.
fn mem_shelf_counts(rt: &impl Abort, alloc: Global) -> bool {
    let files = [
        MemFile {
            name: "map",
            bytes: MAP,
            pieces: &[],
            failing: &[],
        },
        MemFile {
            name: "feed",
            bytes: b"batch",
            pieces: &[2],
            failing: &[2],
        },
    ];
    let mut shelf = MemShelf::new(alloc, &files, &[4]);
    let mut feed = shelf.bring(name(rt, alloc, "feed")).expect(rt, "the feed");
    let fed = gives(&mut feed, 8, Ok(b"ba")) & gives(&mut feed, 8, Err(Failed));
    let mut map = shelf.bring(name(rt, alloc, "map")).expect(rt, "the map");
    let read = gives(&mut map, 8, Ok(b"p sp 2 1"));
    let missing = shelf.bring(name(rt, alloc, "fleet")).is_err();
    let failed = shelf.bring(name(rt, alloc, "map")).is_err();
    let brought = shelf.faults();
    shelf.give_back(map);
    let sound = shelf.faults();
    shelf.give_back(feed);
    let faults = (brought, sound, shelf.faults());
    fed & read & missing & failed & (faults == (2, 2, 3))
}

/// Whether a shelf that never fails brings its file, and an empty one by another name.
fn sure_shelf_brings(rt: &impl Abort, alloc: Global) -> bool {
    let files = [SureFile {
        name: "map",
        bytes: MAP,
    }];
    let mut shelf = SureShelf::new(alloc, &files);
    let mut map = shelf.bring(name(rt, alloc, "map")).expect(rt, "the map");
    let whole = gives_all(&mut map, MAP);
    shelf.give_back(map);
    let mut feed = shelf.bring(name(rt, alloc, "feed")).expect(rt, "the feed");
    let empty = gives(&mut feed, 8, Ok(b""));
    shelf.give_back(feed);
    whole & empty
}

#[test]
fn a_shelf_brings_files_and_counts_its_faults_and_a_sure_one_brings_every_name(rt: HostRuntime) {
    assert!(rt; mem_shelf_counts(&rt, rt.alloc()) && sure_shelf_brings(&rt, rt.alloc()));
}

// The number of the file that failed last.
fn failed_last<R>(shelf: &FileShelf<'_, R>) -> Option<usize> {
    let fault = shelf.last_fault()?;
    Some(fault.number)
}

/// Whether a shelf opens the file of the test and a folder, whose reads fail, and counts its faults.
fn file_shelf_counts<R: Abort + AllocGlobal + Files>(rt: &R) -> bool
where
    R::File: Send,
{
    let alloc = rt.alloc();
    let mut shelf = FileShelf::new(rt);
    let mut map = shelf
        .bring(name(rt, alloc, "a_file_of_the_test"))
        .expect(rt, "the file");
    let whole = gives_all(&mut map, MAP);
    let missing = shelf.bring(name(rt, alloc, "no_file_of_the_test")).is_err();
    let opened = (shelf.faults(), failed_last(&shelf));
    let mut folder = shelf.bring(name(rt, alloc, ".")).expect(rt, "the folder");
    let failed = gives(&mut folder, 8, Err(Failed)) & gives(&mut folder, 8, Err(Failed));
    let faults = folder.faults();
    shelf.give_back(map);
    let sound = shelf.faults();
    shelf.give_back(folder);
    let closed = (shelf.faults(), failed_last(&shelf));
    let told = (opened, faults, sound, closed);
    whole & missing & failed & (told == ((1, Some(2)), 2, 1, (2, Some(3))))
}

#[test]
fn a_file_shelf_opens_files_and_counts_its_faults_and_a_stdout_sink_writes(rt: HostRuntime) {
    let made = fs::write(&rt, "a_file_of_the_test", MAP).is_ok();
    let counted = file_shelf_counts(&rt);
    let removed = fs::remove_file(&rt, "a_file_of_the_test").is_ok();
    let mut sink = StdoutSink::new(&rt);
    let written = write_all(&mut sink, MAP);
    assert!(rt; made && counted && removed && (written, sink.faults()) == (Ok(()), 0));
}

/// How a session ran, and its status, which is that of the first cause.
static RANS: [(Ran, u8); 5] = [
    (
        Ran {
            sink_failed: false,
            no_memory: false,
            source_failed: false,
            too_long: false,
        },
        0,
    ),
    (
        Ran {
            sink_failed: false,
            no_memory: false,
            source_failed: false,
            too_long: true,
        },
        8,
    ),
    (
        Ran {
            sink_failed: false,
            no_memory: false,
            source_failed: true,
            too_long: true,
        },
        5,
    ),
    (
        Ran {
            sink_failed: false,
            no_memory: true,
            source_failed: true,
            too_long: true,
        },
        1,
    ),
    (
        Ran {
            sink_failed: true,
            no_memory: true,
            source_failed: true,
            too_long: true,
        },
        6,
    ),
];

fn pass_twice<G: Gate>(gate: &G) {
    gate.pass(1);
    gate.pass(2);
}

#[test]
fn a_status_is_that_of_the_first_cause_and_an_open_gate_lets_pass(rt: HostRuntime) {
    for &(ran, status) in RANS.iter() {
        assert!(rt; ran.status() == status, "status {status}");
    }
    pass_twice(&OpenGate);
    assert!(rt; Ran::default().status() == 0 && OpenGate == OpenGate);
}
