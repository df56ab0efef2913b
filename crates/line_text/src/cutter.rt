//! The cutter of lines.
ghost use Rattle.std.specs.Prelude.{◌≡◌, ◌≢◌, ◌==◌, ◌≤◌, ◌<◌, ◌+◌, ◌++◌, ◌||◌, ◌∷◌, ℕ, List, [], length, take, nat_lt, min, false, true, if◌then◌else◌, IfOk, IsTrue, MatchBool};
ghost use Rattle.std.specs.List.{list_any};
ghost use Rattle.line_text.specs.inner.Cutter.{begun, kept, taken, taken_len, Continues, EndsLine, HasTaken, ShowsRest};
ghost use Rattle.line_text.specs.Lines.{ended_lines, rest_of};
ghost use Rattle.line_text.specs.inner.Lines.{first_line};

use crate::NoMemory;
use memchr::memchr;
use std::alloc::Global;
use std::marker::Model;

/// What `LineCutter::take` took of a piece.
#[derive(Clone, Copy, PartialEq, Eq)]
pub struct Cut {
    /// How many bytes.
    pub used: usize,
    /// Whether the last of them is an LF, so that the line is whole.
    pub whole: bool,
}

/// Cuts a text that comes in any pieces into its lines, of each of which it keeps the first bytes.
#[derive(Drop)]
pub struct LineCutter {
    buffer: Vec<u8>,
    /// How many bytes of the buffer are the line's.
    len: usize,
    over: bool,
    ended: bool,
    number: u64,
}

impl Model for LineCutter {
    ghost use Rattle.std.specs.Prelude.{◌≤◌, take, vec_len};
    ghost use Rattle.line_text.specs.inner.Cutter.{CutterState};

    ghost Value = { CutterState };

    ghost view = { λ c. record { most = vec_len c.buffer; number = c.number; shown = take c.len c.buffer.items; over = c.over; ended = c.ended } };

    ghost invariant = { λ c. c.len ≤ vec_len c.buffer };
}

impl LineCutter {
    /// A cutter that keeps at most the first `most` bytes of a line.
    pub fn new(alloc: Global, most: usize) -> Result<LineCutter, NoMemory>
        ensures most { IfOk result (λ cutter. cutter.most ≡ most) }
        ensures nothing_taken { IfOk result (λ cutter. HasTaken cutter []) }
    {
        let buffer = vec![in alloc; 0; most]?;
        Ok(LineCutter {
            buffer,
            len: 0,
            over: false,
            ended: false,
            number: 1,
        })
    }

    /// Takes the piece up to and with its first LF, or all of it. The line before is forgotten
    /// where it was whole.
    pub fn take(&mut self, piece: &[u8]) -> Cut
        ensures whole { result.whole ≡ list_any (λ b. b == 10) piece.now }
        ensures used { result.used ≡ taken_len piece.now }
        ensures within { result.used ≤ length piece.now }
        ensures some { 0 < length piece.now → 0 < result.used }
        ensures most { self.new.most ≡ self.old.most }
        ensures ended { self.new.ended ≡ result.whole }

        // The lines are those of all the bytes so far, whatever the pieces.
        ensures taken { (bytes : List ℕ) → HasTaken self.old bytes →
            HasTaken self.new (bytes ++ take result.used piece.now) }
        ensures lines { (bytes : List ℕ) → HasTaken self.old bytes → MatchBool result.whole
            (EndsLine self.new bytes (take result.used piece.now))
            (Continues bytes (take result.used piece.now)) }
    {
        self.take_line(piece)
    }

    /// Whether bytes stand after the last LF. They are then the last line, which is shown.
    pub fn finish(&mut self) -> bool
        ensures unchanged { self.new ≡ self.old }
        ensures last { (bytes : List ℕ) → HasTaken self.old bytes → MatchBool result
            ((rest_of bytes ≢ []) × ShowsRest self.old bytes)
            (rest_of bytes ≡ []) }
    {
        (self.over | !self.line().is_empty()) & !self.ended
    }

    /// The line without its LF, cut to its first bytes.
    #[inline]
    pub fn line(&self) -> &[u8]
        ensures { result.now ≡ self.now.shown }
    {
        &self.buffer[..self.len]
    }

    /// Whether the line has more bytes than `line` gives.
    #[inline]
    pub fn over(&self) -> bool
        ensures { result ≡ self.now.over }
    {
        self.over
    }

    /// The line's number, from 1.
    #[inline]
    pub fn number(&self) -> u64
        ensures { result ≡ self.now.number }
    {
        self.number
    }

    /// Takes the piece up to and with its first LF, or all of it.
    #[inline]
    fn take_line(&mut self, piece: &[u8]) -> Cut
        ensures taken { self.new ≡ taken self.old piece.now }
        ensures used { result.used ≡ taken_len piece.now }
        ensures whole { result.whole ≡ list_any (λ b. b == 10) piece.now }
    {
        let (line, whole) = first_line(piece);
        self.begin_line();
        self.keep(line);
        self.ended = whole;
        let used = if whole { line.len() + 1 } else { piece.len() };
        Cut { used, whole }
    }

    /// Forgets a whole line.
    #[inline]
    fn begin_line(&mut self)
        ensures begun { self.new ≡ begun self.old }
    {
        if self.ended {
            self.len = 0;
            self.over = false;
            self.ended = false;
            self.number = self.number.saturating_add(1);
        }
    }

    /// Keeps what there is room for of more bytes of the line.
    #[inline]
    fn keep(&mut self, more: &[u8])
        ensures kept { self.new ≡ kept self.old more.now }
    {
        let count = more.len().min(self.buffer.len() - self.len);
        put_at(self.buffer.as_mut_slice(), self.len, &more[..count]);
        self.len += count;
        self.over |= count < more.len();
    }
}

/// The bytes before the first LF, or all where there is none, and whether there is one.
#[inline]
fn first_line(piece: &[u8]) -> (&[u8], bool)
    ensures line { result.0.now ≡ first_line piece.now }
    ensures whole { result.1 ≡ list_any (λ b. b == 10) piece.now }
    ensures room { IsTrue result.1 → length result.0.now < length piece.now }
{
    match memchr(b'\n', piece) {
        Some(end) => (&piece[..end], true),
        None => (piece, false),
    }
}

/// Writes bytes into a buffer at a place.
#[inline]
fn put_at(buffer: &mut [u8], place: usize, bytes: &[u8])
    requires { place + length bytes.now ≤ length buffer.old }
    ensures same_length { length buffer.new ≡ length buffer.old }
    ensures written { take (place + length bytes.now) buffer.new
        ≡ take place buffer.old ++ bytes.now }
{
    buffer[place..place + bytes.len()].copy_from_slice(bytes);
}
