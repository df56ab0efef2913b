//! Drills: their lines, and the ranges of their options.
use super::faults::expect_each_refused;
use super::{Answer, End, Setup, WORKED, answer_to, expect};
use std::process::Abort;

/// A drill needs no files.
const NO_FILES: Setup<'static> = Setup {
    map: text!(""),
    fleet: text!(""),
    feed: text!(""),
    log: text!(""),
    ..WORKED
};

/// Drills, and the line that each writes. In the second nobody serves the two groups of nine requests.
static DRILLS: [(&str, &str); 5] = [
    (
        "drill --seed 1 --side 2 --vehicles 1 --requests 1",
        "drill nodes 4 arcs 8 vehicles 1 requests 1 batches 1 confirmed 1 away 0 dropped 1\n",
    ),
    (
        "drill --seed 0 --side 2 --vehicles 0 --requests 9",
        "drill nodes 4 arcs 8 vehicles 0 requests 9 batches 2 confirmed 0 away 9 dropped 0\n",
    ),
    (
        "drill --seed 2147483647 --side 100 --vehicles 0 --requests 0",
        "drill nodes 10000 arcs 39600 vehicles 0 requests 0 batches 0 confirmed 0 away 0 dropped 0\n",
    ),
    (
        "drill --seed 1 --side 2 --vehicles 1000 --requests 0",
        "drill nodes 4 arcs 8 vehicles 1000 requests 0 batches 0 confirmed 0 away 0 dropped 0\n",
    ),
    (
        "drill --seed 1 --side 2 --vehicles 0 --requests 16000",
        "drill nodes 4 arcs 8 vehicles 0 requests 16000 batches 2000 confirmed 0 away 16000 dropped 0\n",
    ),
];

/// Words of drills that are not in order, line by line.
const REFUSED: &str = "drill --seed 1 --side 1 --vehicles 1 --requests 1\n\
drill --seed 1 --side 101 --vehicles 1 --requests 1\n\
drill --seed 1 --side 2 --vehicles 1001 --requests 1\n\
drill --seed 1 --side 2 --vehicles 1 --requests 16001\n\
drill --seed 2147483648 --side 2 --vehicles 1 --requests 1\n\
drill --seed 1 --side two --vehicles 1 --requests 1\n";

/// A drill of a city.
const CITY: &str = "drill --side 40 --vehicles 50 --requests 400 --seed 1";

/// How its line begins.
const CITY_LINE: &str = "drill nodes 1600 arcs 6240 vehicles 50 requests 400 batches 50 ";

#[test]
fn drills_have_their_lines(rt: HostRuntime) {
    for &(words, written) in DRILLS.iter() {
        let end = End {
            status: 0,
            faults: 0,
            written,
        };
        expect(&rt, "a drill", words, NO_FILES, end);
    }
    expect_each_refused(&rt, REFUSED);
}

#[test]
fn a_drill_of_a_city_is_the_same_each_time(rt: HostRuntime) {
    let first = answer_to(&rt, CITY, WORKED);
    let second = answer_to(&rt, CITY, WORKED);
    assert!(rt; are_same(&rt, &first, &second));
}

// Whether two drills of the city ended well, with one line, whose numbers add up.
fn are_same(rt: &(impl Abort + AllocGlobal), first: &Answer<'_>, second: &Answer<'_>) -> bool {
    first.status == 0 && first.text() == second.text() && adds_up(rt, first.text())
}

// Whether a line says that all requests of the city were confirmed or turned away, and that all that were confirmed were dropped.
fn adds_up(rt: &(impl Abort + AllocGlobal), line: &str) -> bool {
    // More than all are not these, and make another line.
    let confirmed = confirmed_in(line).unwrap_or(0).min(400);
    let away = 400u32.saturating_sub(confirmed);
    let wanted = format!(in rt.alloc();
        "{CITY_LINE}confirmed {confirmed} away {away} dropped {confirmed}\n"
    );
    let wanted = wanted.expect(rt, "there is memory");
    line == wanted.as_str()
}

// How many requests a drill's line says that were confirmed.
fn confirmed_in(line: &str) -> Option<u32> {
    let (_, rest) = line.split_once(" confirmed ")?;
    let (confirmed, _) = rest.split_once(' ')?;
    confirmed.parse::<u32>().ok()
}
