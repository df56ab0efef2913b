//! The taking of a feed line by line, and of the text that its lines give.
ghost use Rattle.std.specs.List.{list_any};
ghost use Rattle.std.specs.Prelude.{◌≡◌, ◌==◌, ◌≤◌, ◌<◌, ◌+◌, ◌^◌, ℕ, List, [], false, length, take, Option, OnErr, OnOk};
ghost use mathlib.Core.List.{IsPrefix};
ghost use Rattle.ride_ports.specs.Count.{KeepsCount};
ghost use Rattle.line_text.specs.Fields.{is_over_long};
ghost use Rattle.line_text.specs.inner.Taking.{TakesOneMore, TakesUntil};
ghost use Rattle.line_text.specs.inner.line_reader.FeedRuns.{HasRun, is_source_failed};
ghost use Rattle.line_text.specs.inner.line_reader.Reader.{HasGiven};
ghost use Rattle.line_text.specs.inner.text_page.Output.{HasPut, Puts};

use crate::NoMemory;
use crate::line_reader::{LineReader, NextLine, Stop};
use crate::text_page::{Output, Page};
use ride_ports::{Sink, Source};

/// Takes the lines of a feed, one after the other, and puts the text that they give on a page.
pub trait LineTaker {
    // The most lines that it takes.
    ghost most: { ℕ };

    // From the first state it has taken these lines, which gave this text, and is in the last state then.
    ghost takes: { Self → List (List ℕ) → List ℕ → Self → Type 0 };

    /// Takes the line of this number: its first 200 bytes, and whether it has more. Where memory is wanting, the line is not taken.
    fn take_line(
        &mut self,
        page: &mut Page,
        number: u64,
        line: &[u8],
        over: bool,
    ) -> Result<(), NoMemory>
        requires few { number ≤ most }
        requires so_far { (first : Self) × (lines : List (List ℕ)) × (text : List ℕ)
            × takes first lines text self.old × (number ≡ length lines + 1) }
        ensures taken { (first : Self) (lines : List (List ℕ)) (text whole : List ℕ)
            → takes first lines text self.old → number ≡ length lines + 1
            → line.now ≡ take 200 whole → over ≡ is_over_long whole
            → OnOk result (TakesOneMore takes first lines text whole
            page.old.text page.new.text self.new) }
        ensures kept { OnErr result (IsPrefix page.old.text page.new.text) };
}

/// Hands the lines of a feed to who takes them, to the feed's end or until something stops it or the sink fails, and writes the
/// text that they give: before it waits for a line, and where more than 2^16 bytes stand on the page.
pub fn take_lines<S: Source, K: Sink, L: LineTaker>(
    reader: &mut LineReader,
    taker: &mut L,
    output: &mut Output,
    feed: &mut S,
    out: &mut K,
) -> Option<Stop>
    requires most { reader.old.limits.lines ≤ L.most }
    requires few { L.most < 2 ^ 64 }
    requires cut { reader.old.limits.line ≡ 200 }
    requires nothing_given { HasGiven reader.old [] }
    requires nothing_pending { reader.old.pending ≡ [] }
    requires nothing_taken { (first : L) × L.takes first [] [] taker.old }

    // What was put is the text of the lines that were taken, which are the first of the feed.
    ensures ran { (first : L) → L.takes first [] [] taker.old
        → (taken : List ℕ) × (lines : List (List ℕ)) × (text : List ℕ)
        × HasRun reader.old.limits (S.left feed.old) (S.left feed.new) result
        output.new.failed taken lines
        × TakesUntil L.takes first lines text result taker.new
        × Puts (K.written out.old) (K.faults out.old) output.old
        (K.written out.new) (K.faults out.new) output.new text }
    ensures faults { KeepsCount (is_source_failed result) (S.faults feed.old) (S.faults feed.new) }
{
    'lines: loop {
        write_before_wait(reader, output, out);
        if output.failed() {
            return None;
        }
        match reader.next(feed) {
            Ok(NextLine::Line) => match take_line(reader, taker, output) {
                Ok(()) => {}
                Err(_) => return Some(Stop::NoMemory),
            },
            Ok(NextLine::Unfinished) => {
                return match take_line(reader, taker, output) {
                    Ok(()) => None,
                    Err(_) => Some(Stop::NoMemory),
                };
            }
            Ok(NextLine::End) => return None,
            Err(stop) => return Some(Stop::OfFeed(stop)),
        }
    }
}

/// Writes all that is not written yet, where the feed's next line may have to be waited for, or where much is not.
fn write_before_wait<K: Sink>(reader: &LineReader, output: &mut Output, out: &mut K)
    ensures written { list_any (λ byte. byte == 10) reader.now.pending ≡ false
        → output.new.failed ≡ false → output.new.page ≡ [] }
    ensures put { (before : Option (List ℕ)) (faults : ℕ) (text : List ℕ)
        → HasPut before (K.written out.old) faults (K.faults out.old) output.old text
        → HasPut before (K.written out.new) faults (K.faults out.new) output.new text }
{
    if output.is_above_page() || !reader.has_line() {
        output.end(out);
    }
}

/// Hands on the line that was read last.
fn take_line<L: LineTaker>(
    reader: &LineReader,
    taker: &mut L,
    output: &mut Output,
) -> Result<(), NoMemory>
    requires few { reader.now.cutter.number ≤ L.most }
    requires so_far { (first : L) × (lines : List (List ℕ)) × (text : List ℕ)
        × L.takes first lines text taker.old
        × (reader.now.cutter.number ≡ length lines + 1) }
    ensures taken { (first : L) (lines : List (List ℕ)) (text whole : List ℕ)
        → L.takes first lines text taker.old
        → reader.now.cutter.number ≡ length lines + 1
        → reader.now.cutter.shown ≡ take 200 whole
        → reader.now.cutter.over ≡ is_over_long whole
        → OnOk result (TakesOneMore L.takes first lines text whole
        output.old.page output.new.page taker.new) }
    ensures kept { OnErr result (output.new.page ≡ output.old.page) }
    ensures failed { output.new.failed ≡ output.old.failed }
{
    output.take_line(taker, reader.number(), reader.line(), reader.over())
}
