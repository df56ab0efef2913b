//! Compares what is printed with a line.
ghost use Rattle.std.specs.Prelude.{◌≡◌, ◌≢◌, ◌<◌, ◌≤◌, ◌++◌, ℕ, List, [], IsTrue, Some, None, length, take, drop, slice_index};
ghost use Rattle.trip_log.specs.inner.Compares.{seen_bytes, taken_bytes, whole_line};

use ride_ports::{Failed, Sink};
use std::marker::Model;

/// Takes the bytes of a line and an LF, and the first other byte. After that it fails.
#[derive(Drop)]
pub(crate) struct LineSink<'a> {
    line: &'a [u8],
    place: usize,
    other: Option<u8>,
    faults: u64,
}

impl<'a> Model for LineSink<'a> {
    ghost use Rattle.trip_log.specs.inner.Compares.{Compared, IsComparison};

    ghost Value = { Compared };

    ghost view = { λ s. record { line = s.line.now; place = s.place; other = s.other; faults = s.faults } };

    ghost invariant = { λ s. IsComparison (record { line = s.line.now; place = s.place; other = s.other; faults = s.faults }) };
}

impl<'a> LineSink<'a> {
    pub(crate) fn new(line: &'a [u8]) -> LineSink<'a>
        ensures { result ≡ record { line = line.now; place = 0; other = None; faults = 0 } }
    {
        LineSink {
            line,
            place: 0,
            other: None,
            faults: 0,
        }
    }

    /// Whether the line and the LF were taken, and nothing else.
    pub(crate) fn is_whole(&self) -> bool
        ensures whole { IsTrue result → taken_bytes self.now ≡ whole_line self.now.line }
        ensures other { taken_bytes self.now ≡ whole_line self.now.line → IsTrue result }
        ensures faulty { 0 < self.now.faults → (rest : List ℕ)
            → whole_line self.now.line ≢ taken_bytes self.now ++ rest }
    {
        self.other.is_none() && self.place == self.line.len() + 1
    }
}

impl<'a> Sink for LineSink<'a> {
    ghost written = { λ s. Some (seen_bytes s) };

    ghost faults = { λ s. s.faults };

    fn write(&mut self, piece: &[u8]) -> Result<usize, Failed> {
        if self.other.is_some() {
            self.faults = self.faults.saturating_add(1);
            return Err(Failed);
        }
        let same = same_length(piece, awaited(self.line, self.place));
        self.place += same;
        if same > 0 {
            return Ok(same);
        }
        match piece.first() {
            None => Ok(0),
            Some(byte) => {
                self.other = Some(*byte);
                Ok(1)
            }
        }
    }
}

// The bytes of the line from a place on, or the LF where the line ends there.
fn awaited(line: &[u8], place: usize) -> &[u8]
    ensures front { take (length result.now) (drop place (whole_line line.now)) ≡ result.now }
    ensures none { result.now ≡ [] → drop place (whole_line line.now) ≡ [] }
{
    if place < line.len() {
        &line[place..]
    } else if place == line.len() {
        b"\n"
    } else {
        &[]
    }
}

// How many bytes at the front of both are the same.
fn same_length(piece: &[u8], line: &[u8]) -> usize
    ensures in_piece { result ≤ length piece.now }
    ensures in_line { result ≤ length line.now }
    ensures same { take result piece.now ≡ take result line.now }
    ensures another { result < length piece.now → result < length line.now
        → slice_index piece.now result ≢ slice_index line.now result }
{
    let mut same = 0;
    while same < piece.len() && same < line.len() && piece[same] == line[same] {
        same += 1;
    }
    same
}
