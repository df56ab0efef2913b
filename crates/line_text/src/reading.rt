//! The reading of a source line by line.
ghost use Rattle.std.specs.Prelude.{◌≡◌, ◌≢◌, ◌≤◌, ◌<◌, ◌+◌, ◌^◌, ◌++◌, ◌∷◌, ℕ, List, [], length, take, Err, IfOk, IfSome, OnOk, MatchResult};
ghost use Rattle.ride_ports.specs.Bytes.{Reads};
ghost use Rattle.ride_ports.specs.Count.{KeepsCount};
ghost use Rattle.line_text.specs.declared.reading.ReadError.TheVariants.{NoMemory, Refused, TooLong, ReadFault};
ghost use Rattle.line_text.specs.Fields.{is_over_long};
ghost use Rattle.line_text.specs.Lines.{ended_lines, lines_of};
ghost use Rattle.line_text.specs.inner.Reading.{AreFirst, GoesOn, HasRead, IsRefused, counted_lines, is_read_fault};

use crate::{LineCutter, MOST_LINE};
use ride_ports::Source;
use std::alloc::Global;

/// The bytes of one read.
const PIECE: usize = 1 << 14;

/// Parses the lines of a text, one after the other.
pub trait LineParser {
    /// What is wrong with a line.
    type Refusal;

    // From the first state it takes these lines of a text, and is in the last state then.
    ghost takes: { Self → List (List ℕ) → Self → Type 0 };

    // From the first state it takes these lines of a text up to the last one, which it refuses.
    ghost refuses: { Self → List (List ℕ) → Self.Refusal → Type 0 };

    /// Takes the line of this number: its first 200 bytes, and whether it has more.
    fn line(&mut self, number: u64, line: &[u8], over: bool) -> Result<(), Self::Refusal>
        requires { (first : Self) × (lines : List (List ℕ)) × takes first lines self.old }
        ensures { (first : Self) (lines : List (List ℕ)) (whole : List ℕ)
            → takes first lines self.old → number ≡ length lines + 1
            → line.now ≡ take 200 whole → over ≡ is_over_long whole
            → MatchResult result
            (λ _. takes first (lines ++ whole ∷ []) self.new)
            (λ e. refuses first (lines ++ whole ∷ []) e) };
}

/// Why the lines of a source were not all taken.
#[derive(Debug, Drop, Clone, Copy, PartialEq, Eq)]
pub enum ReadError<E> {
    Refused(E),
    TooLong,
    ReadFault,
    NoMemory,
}

/// Hands each line of a source of at most so many bytes to a parser, to the source's end. The
/// first line that it refuses decides, and comes before a later fault of the source or the limit.
pub fn read_lines<S: Source, L: LineParser>(
    alloc: Global,
    src: &mut S,
    most: u32,
    parser: &mut L,
) -> Result<(), ReadError<L::Refusal>>
    requires { L.takes parser.old [] parser.old }

    // Whatever it answers, the bytes that are no more left are those that were taken.
    ensures taken { (taken : List ℕ) × Reads (S.left src.old) (S.left src.new) taken }

    // All lines of all bytes were taken, in order.
    ensures read { OnOk result ((bytes : List ℕ) × Reads (S.left src.old) (S.left src.new) bytes
        × (length bytes ≤ most) × L.takes parser.old (lines_of bytes) parser.new) }
    ensures to_end { OnOk result (IfSome (S.left src.new) (λ bytes. bytes ≡ [])) }

    // The lines up to the one that was refused are the first ones of those that count.
    ensures refused { (e : L.Refusal) → result ≡ Err (Refused e) → (lines : List (List ℕ))
        × L.refuses parser.old lines e
        × IfSome (S.left src.old) (λ bytes. AreFirst lines (counted_lines most bytes)) }

    // There are more bytes than the limit, and no line was refused that ends within it.
    ensures too_long { result ≡ Err TooLong → (bytes : List ℕ) × (length bytes ≡ most)
        × L.takes parser.old (ended_lines bytes) parser.new
        × IfSome (S.left src.old) (GoesOn bytes) }

    // A fault of reading is the source's, and no line was refused that was read whole.
    ensures faults { KeepsCount (is_read_fault result) (S.faults src.old) (S.faults src.new) }
    ensures before_fault { result ≡ Err ReadFault → (bytes : List ℕ)
        × Reads (S.left src.old) (S.left src.new) bytes
        × (length bytes ≤ most) × L.takes parser.old (ended_lines bytes) parser.new }

    // Memory is taken before the first read.
    ensures no_memory { result ≡ Err NoMemory → (src.new ≡ src.old) × (parser.new ≡ parser.old) }
{
    let Ok(mut cutter) = LineCutter::new(alloc, MOST_LINE) else {
        return Err(ReadError::NoMemory);
    };
    read_pieces(src, most, &mut cutter, parser)?;
    match take_last(&mut cutter, parser) {
        Ok(()) => Ok(()),
        Err(refusal) => Err(ReadError::Refused(refusal)),
    }
}

/// Reads a source to its end, and hands on each line that an LF ends.
fn read_pieces<S: Source, L: LineParser>(
    src: &mut S,
    most: u32,
    cutter: &mut LineCutter,
    parser: &mut L,
) -> Result<(), ReadError<L::Refusal>>
    requires { HasRead L.takes parser.old cutter.old parser.old [] }
    ensures taken { (taken : List ℕ) × Reads (S.left src.old) (S.left src.new) taken }
    ensures read { OnOk result ((bytes : List ℕ) × Reads (S.left src.old) (S.left src.new) bytes
        × (length bytes ≤ most) × HasRead L.takes parser.old cutter.new parser.new bytes) }
    ensures to_end { OnOk result (IfSome (S.left src.new) (λ bytes. bytes ≡ [])) }
    ensures refused { (e : L.Refusal) → result ≡ Err (Refused e) → (lines : List (List ℕ))
        × L.refuses parser.old lines e
        × IfSome (S.left src.old) (λ bytes. AreFirst lines (counted_lines most bytes)) }
    ensures too_long { result ≡ Err TooLong → (bytes : List ℕ) × (length bytes ≡ most)
        × L.takes parser.old (ended_lines bytes) parser.new
        × IfSome (S.left src.old) (GoesOn bytes) }
    ensures faults { KeepsCount (is_read_fault result) (S.faults src.old) (S.faults src.new) }
    ensures before_fault { result ≡ Err ReadFault → (bytes : List ℕ)
        × Reads (S.left src.old) (S.left src.new) bytes
        × (length bytes ≤ most) × L.takes parser.old (ended_lines bytes) parser.new }
    ensures takes_no_memory { result ≢ Err NoMemory }
{
    let mut buffer = [0; PIECE];
    let mut room = most as usize;
    'pieces: loop {
        let Ok(count) = src.read(&mut buffer) else {
            return Err(ReadError::ReadFault);
        };
        if count == 0 {
            return Ok(());
        }
        let within = count.min(room);
        if let Err(refusal) = take_piece(cutter, parser, &buffer[..within]) {
            return Err(ReadError::Refused(refusal));
        }
        if count > room {
            return Err(ReadError::TooLong);
        }
        room -= count;
    }
}

/// Takes a piece, and hands on each line that it ends.
fn take_piece<L: LineParser>(
    cutter: &mut LineCutter,
    parser: &mut L,
    piece: &[u8],
) -> Result<(), L::Refusal>
    requires { (first : L) × (bytes : List ℕ) × HasRead L.takes first cutter.old parser.old bytes
        × (length bytes + length piece.now < 2 ^ 32) }
    ensures { (first : L) (bytes : List ℕ) → HasRead L.takes first cutter.old parser.old bytes
        → length bytes + length piece.now < 2 ^ 32
        → MatchResult result (λ _. HasRead L.takes first cutter.new parser.new (bytes ++ piece.now))
        (IsRefused L.refuses first (bytes ++ piece.now)) }
{
    let mut done = 0;
    while done < piece.len() {
        done += take_line(cutter, parser, &piece[done..])?;
    }
    Ok(())
}

/// Takes a piece up to the end of its first line, and hands on that line.
fn take_line<L: LineParser>(
    cutter: &mut LineCutter,
    parser: &mut L,
    piece: &[u8],
) -> Result<usize, L::Refusal>
    requires { (first : L) × (bytes : List ℕ) × HasRead L.takes first cutter.old parser.old bytes }
    ensures within { IfOk result (λ used. used ≤ length piece.now) }
    ensures some { IfOk result (λ used. 0 < length piece.now → 0 < used) }
    ensures read { (first : L) (bytes : List ℕ) → HasRead L.takes first cutter.old parser.old bytes
        → length bytes + length piece.now < 2 ^ 32
        → MatchResult result
        (λ used. HasRead L.takes first cutter.new parser.new (bytes ++ take used piece.now))
        (IsRefused L.refuses first (bytes ++ piece.now)) }
{
    let cut = cutter.take(piece);
    if !cut.whole {
        return Ok(cut.used);
    }
    parser.line(cutter.number(), cutter.line(), cutter.over())?;
    Ok(cut.used)
}

/// Hands on the last line, where no LF ends it.
fn take_last<L: LineParser>(cutter: &mut LineCutter, parser: &mut L) -> Result<(), L::Refusal>
    requires { (first : L) × (bytes : List ℕ) × HasRead L.takes first cutter.old parser.old bytes }
    ensures { (first : L) (bytes : List ℕ) → HasRead L.takes first cutter.old parser.old bytes
        → length bytes < 2 ^ 32
        → MatchResult result (λ _. L.takes first (lines_of bytes) parser.new)
        (L.refuses first (lines_of bytes)) }
{
    if !cutter.finish() {
        return Ok(());
    }
    parser.line(cutter.number(), cutter.line(), cutter.over())
}
