//! Feeds with bookings, and the plain feeds that they give.
ghost use Rattle.std.specs.Prelude.{◌≡◌, ℕ, [], false, List, IfOk, IfSome};
ghost use Rattle.ride_ports.specs.Bytes.{Reads};
ghost use Rattle.ride_ports.specs.Count.{KeepsCount};
ghost use Rattle.line_text.specs.inner.line_reader.FeedRuns.{HasRun, is_source_failed};
ghost use Rattle.line_text.specs.line_reader.FeedRuns.{IsReadWhole, IsUnhindered};
ghost use Rattle.line_text.specs.line_reader.Limits.{IsWithinLimits};
ghost use Rattle.line_text.specs.inner.line_reader.Reader.{HasGiven};
ghost use Rattle.command_lines.specs.Limits.{feed_limits};
ghost use Rattle.line_text.specs.inner.text_page.Output.{HasPut, IsFresh};
ghost use Rattle.ride_model.specs.declared.limits.TheConstants.{MOST_REQUESTS};
ghost use Rattle.booking_desk.specs.Booked.{IsBooked};
ghost use Rattle.booking_desk.specs.inner.Desk.{new_desk};
ghost use Rattle.booking_desk.specs.inner.FeedDesk.{run_text};

use crate::plain_lines::put_held;
use crate::{BookingDesk, NoMemory};
use command_lines::FEED_LIMITS;
use line_text::line_reader::{LineReader, Stop, ran_of};
use line_text::take_lines;
use line_text::text_page::Output;
use ride_model::limits::MOST_REQUESTS;
use ride_ports::{Ran, Sink, Source};
use std::alloc::Global;

/// Books a feed at a desk of 100,000 bookings, and writes the plain feed that it gives: each request at the moment at which it
/// is released, a line for each refusal, every other line as it is, and at the end how many bookings are held.
///
/// A line `book RELEASE` with the six or seven numbers of a request books it, `unbook ID` gives a booking up, and `clock TIME` sets the
/// clock. A feed has at most 2^26 bytes and 1,000,000 lines; of a longer one the lines within these limits are booked.
pub fn book_feed<S: Source, K: Sink>(alloc: Global, feed: &mut S, out: &mut K) -> Ran
    // What was written is the plain feed of what was taken.
    ensures text { (taken : List ℕ) × Reads (S.left feed.old) (S.left feed.new) taken
        × IsBooked result (S.left feed.old) taken (K.written out.old) (K.written out.new) }
    ensures to_end { IsUnhindered result → IsReadWhole result
        → IfSome (S.left feed.new) (λ bytes. bytes ≡ []) }
    ensures short_enough { IfSome (S.left feed.old)
        (λ bytes. IsWithinLimits feed_limits bytes → result.too_long ≡ false) }
    ensures source_faults { KeepsCount result.source_failed
        (S.faults feed.old) (S.faults feed.new) }
    ensures sink_faults { KeepsCount result.sink_failed (K.faults out.old) (K.faults out.new) }
{
    let Ok((mut reader, mut desk, mut output)) = begin(alloc) else {
        return ran_of(Some(Stop::NoMemory), false);
    };
    let stop = run_feed(&mut reader, &mut desk, &mut output, feed, out);
    output.end(out);
    ran_of(stop, output.failed())
}

/// A reader of a feed, a desk, and the plain feed on its way out, at their start.
fn begin(alloc: Global) -> Result<(LineReader, BookingDesk, Output), NoMemory>
    ensures limits { IfOk result (λ made. made.0.limits ≡ feed_limits) }
    ensures nothing_given { IfOk result (λ made. HasGiven made.0 []) }
    ensures nothing_pending { IfOk result (λ made. made.0.pending ≡ []) }
    ensures bare { IfOk result (λ made. made.1 ≡ new_desk MOST_REQUESTS) }
    ensures fresh { IfOk result (λ made. IsFresh made.2) }
{
    let reader = LineReader::new(alloc, FEED_LIMITS)?;
    let desk = BookingDesk::new(alloc, MOST_REQUESTS)?;
    let output = Output::new(alloc)?;
    Ok((reader, desk, output))
}

/// Books a feed to its end, with the last line, or until something stops it or the sink fails.
fn run_feed<S: Source, K: Sink>(
    reader: &mut LineReader,
    desk: &mut BookingDesk,
    output: &mut Output,
    feed: &mut S,
    out: &mut K,
) -> Option<Stop>
    requires limits { reader.old.limits ≡ feed_limits }
    requires nothing_given { HasGiven reader.old [] }
    requires nothing_pending { reader.old.pending ≡ [] }
    requires bare { desk.old ≡ new_desk MOST_REQUESTS }
    requires fresh { IsFresh output.old }
    ensures ran { (taken : List ℕ) × (lines : List (List ℕ))
        × HasRun feed_limits (S.left feed.old) (S.left feed.new) result
        output.new.failed taken lines
        × HasPut (K.written out.old) (K.written out.new) (K.faults out.old) (K.faults out.new)
        output.new (run_text result lines) }
    ensures faults { KeepsCount (is_source_failed result) (S.faults feed.old) (S.faults feed.new) }
{
    match take_lines(reader, desk, output, feed, out) {
        None => {
            put_held(output, out, desk.held());
            None
        }
        Some(stop) => Some(stop),
    }
}
