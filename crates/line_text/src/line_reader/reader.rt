//! The reader of lines.
ghost use Rattle.std.specs.List.{list_any};
ghost use Rattle.std.specs.Prelude.{◌≡◌, ◌≢◌, ◌==◌, ℕ, ◌+◌, ◌<◌, ◌++◌, ◌∷◌, ◌≤◌, [], List, Ok, Err, false, length, IfOk, IfSome, MatchBool, MatchResult};
ghost use Rattle.ride_ports.specs.Bytes.{Reads};
ghost use Rattle.ride_ports.specs.Count.{KeepsCount};
ghost use Rattle.line_text.specs.inner.Cutter.{Continues, EndsLine};
ghost use Rattle.line_text.specs.declared.line_reader.answers.NextLine.TheVariants.{Line};
ghost use Rattle.line_text.specs.declared.line_reader.answers.ReadStop.TheVariants.{SourceFailed, TooLong};
ghost use Rattle.line_text.specs.inner.line_reader.Reader.{HasGiven, HasRead, IsCutOff, IsFilled, IsLast, IsNext, IsStopped, is_fault};

use crate::LineCutter;
use crate::line_reader::piece::Piece;
use crate::line_reader::{Limits, NextLine, NoMemory, ReadStop};
use ride_ports::Source;
use std::alloc::Global;
use std::marker::Model;

/// Reads the lines of a source, each as soon as its bytes have come.
#[derive(Drop)]
pub struct LineReader {
    limits: Limits,
    cutter: LineCutter,
    /// What was read and is not cut yet.
    piece: Piece,
    /// How many more bytes may be read.
    bytes_left: usize,
    /// How many more lines may begin.
    lines_left: u32,
}

impl Model for LineReader {
    ghost use Rattle.line_text.specs.inner.line_reader.Reader.{ReaderState};

    ghost Value = { ReaderState };

    ghost view = { λ r. record { limits = r.limits; cutter = r.cutter; pending = r.piece; bytes_left = r.bytes_left; lines_left = r.lines_left } };
}

impl LineReader {
    /// A reader of a text within these limits.
    pub fn new(alloc: Global, limits: Limits) -> Result<LineReader, NoMemory>
        ensures limits { IfOk result (λ reader. reader.limits ≡ limits) }
        ensures nothing_given { IfOk result (λ reader. HasGiven reader []) }
        ensures nothing_pending { IfOk result (λ reader. reader.pending ≡ []) }
    {
        let cutter = LineCutter::new(alloc, limits.line)?;
        let piece = Piece::new(alloc)?;
        Ok(LineReader {
            limits,
            cutter,
            piece,
            bytes_left: limits.bytes,
            lines_left: limits.lines,
        })
    }

    /// The line that was read last without its LF, cut to its first bytes.
    pub fn line(&self) -> &[u8]
        ensures { result.now ≡ self.now.cutter.shown }
    {
        self.cutter.line()
    }

    /// Whether that line has more bytes than `line` gives.
    pub fn over(&self) -> bool
        ensures { result ≡ self.now.cutter.over }
    {
        self.cutter.over()
    }

    /// The number of that line, from 1.
    pub fn number(&self) -> u64
        ensures { result ≡ self.now.cutter.number }
    {
        self.cutter.number()
    }

    /// What was read and is not cut into lines yet.
    pub fn pending(&self) -> &[u8]
        ensures { result.now ≡ self.now.pending }
    {
        self.piece.bytes()
    }

    /// Whether a line stands whole in what was read, so that `next` waits for nothing.
    pub fn has_line(&self) -> bool
        ensures { result ≡ list_any (λ byte. byte == 10) self.now.pending }
    {
        self.pending().contains(&b'\n')
    }

    /// Whether all that was read is cut into lines.
    fn is_drained(&self) -> bool
        ensures { MatchBool result (self.now.pending ≡ []) (self.now.pending ≢ []) }
    {
        self.piece.bytes().is_empty()
    }

    /// Reads the next line. After the last line, the end or an error no more is read.
    pub fn next<S: Source>(&mut self, source: &mut S) -> Result<NextLine, ReadStop>
        requires given { (bytes : List ℕ) × HasGiven self.old bytes }

        // The lines are those of the source's bytes, each once and in order.
        ensures next { (more : List ℕ) × Reads (S.left source.old) (S.left source.new) more
            × ((bytes : List ℕ) → HasGiven self.old bytes → MatchResult result
            (IsNext (S.left source.new) self.new bytes (self.old.pending ++ more))
            (IsStopped self.old.limits bytes (self.old.pending ++ more))) }
        ensures limits { self.new.limits ≡ self.old.limits }
        ensures fewer { result ≡ Ok Line → self.new.lines_left < self.old.lines_left }
        ensures faults { KeepsCount (is_fault result) (S.faults source.old) (S.faults source.new) }
    {
        'parts: loop {
            if !self.has_pending(source)? {
                return Ok(self.last());
            }
            if self.is_full() {
                return Err(ReadStop::TooLong);
            }
            if self.take_part() {
                return Ok(NextLine::Line);
            }
        }
    }

    /// Whether no more line may begin.
    fn is_full(&self) -> bool
        ensures { MatchBool result (self.now.lines_left ≡ 0) (self.now.lines_left ≢ 0) }
    {
        self.lines_left == 0
    }

    /// What is left at the end of the source.
    fn last(&mut self) -> NextLine
        ensures last { (bytes : List ℕ) → HasRead self.old bytes → IsLast self.old bytes result }
        ensures no_line { result ≢ Line }
        ensures unchanged { self.new ≡ self.old }
    {
        if self.cutter.finish() {
            NextLine::Unfinished
        } else {
            NextLine::End
        }
    }

    /// Whether bytes are pending; where none are, the next piece is read.
    fn has_pending<S: Source>(&mut self, source: &mut S) -> Result<bool, ReadStop>
        ensures read { (more : List ℕ) × Reads (S.left source.old) (S.left source.new) more
            × MatchResult result
            (IsFilled (S.left source.new) self.old self.new more)
            (IsCutOff self.old more) }
        ensures faults { KeepsCount (is_fault result) (S.faults source.old) (S.faults source.new) }
        ensures limits { self.new.limits ≡ self.old.limits }
    {
        if !self.is_drained() {
            return Ok(true);
        }
        self.refill(source)
    }

    /// Reads the next piece, where none is pending; answers whether there is one.
    fn refill<S: Source>(&mut self, source: &mut S) -> Result<bool, ReadStop>
        requires none_pending { self.old.pending ≡ [] }
        ensures read { (more : List ℕ) × Reads (S.left source.old) (S.left source.new) more
            × MatchResult result
            (IsFilled (S.left source.new) self.old self.new more)
            (IsCutOff self.old more) }
        ensures faults { KeepsCount (is_fault result) (S.faults source.old) (S.faults source.new) }
        ensures limits { self.new.limits ≡ self.old.limits }
    {
        if self.bytes_left == 0 {
            return ends(source);
        }
        let count = self.piece.refill(source, self.bytes_left)?;
        self.bytes_left -= count;
        Ok(count > 0)
    }

    /// Cuts what is pending up to and with its first LF, or all of it; answers whether it ends a line.
    fn take_part(&mut self) -> bool
        requires read { (bytes : List ℕ) × HasRead self.old bytes }
        requires some { self.old.pending ≢ [] }
        requires line { self.old.lines_left ≢ 0 }
        ensures read { (bytes : List ℕ) → HasRead self.old bytes
            → (part : List ℕ) × (self.old.pending ≡ part ++ self.new.pending)
            × HasRead self.new (bytes ++ part)
            × MatchBool result (EndsLine self.new.cutter bytes part) (Continues bytes part) }
        ensures work { length self.new.pending < length self.old.pending }
        ensures limits { self.new.limits ≡ self.old.limits }
        ensures bytes_left { self.new.bytes_left ≡ self.old.bytes_left }
        ensures lines_left { MatchBool result (self.new.lines_left + 1 ≡ self.old.lines_left)
            (self.new.lines_left ≡ self.old.lines_left) }
    {
        let cut = self.cutter.take(self.piece.bytes());
        self.piece.use_up(cut.used);
        if cut.whole {
            self.lines_left -= 1;
        }
        cut.whole
    }
}

/// Whether a source has no more bytes after as many as a text may have.
fn ends<S: Source>(source: &mut S) -> Result<bool, ReadStop>
    ensures end { IfOk result (λ more. (more ≡ false)
        × IfSome (S.left source.new) (λ bytes. bytes ≡ [])) }
    ensures same { IfOk result (λ _. S.left source.new ≡ S.left source.old) }
    ensures too_long { result ≡ Err TooLong
        → (byte : ℕ) × Reads (S.left source.old) (S.left source.new) (byte ∷ []) }
    ensures failed_stays { result ≡ Err SourceFailed → S.left source.new ≡ S.left source.old }
    ensures faults { KeepsCount (is_fault result) (S.faults source.old) (S.faults source.new) }
{
    let mut byte = [0];
    match source.read(&mut byte) {
        Ok(0) => Ok(false),
        Ok(_) => Err(ReadStop::TooLong),
        Err(_) => Err(ReadStop::SourceFailed),
    }
}
