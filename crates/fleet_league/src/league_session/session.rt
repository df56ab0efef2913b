//! The session of a league.
ghost use Rattle.std.specs.Prelude.{◌≡◌, ℕ, [], false, true, List, Option, IfOk, IfSome};
ghost use Rattle.ride_model.specs.Fleet.{MayStart};
ghost use Rattle.ride_ports.specs.Bytes.{Reads};
ghost use Rattle.ride_ports.specs.Count.{KeepsCount};
ghost use Rattle.line_text.specs.inner.line_reader.FeedRuns.{HasRun, is_source_failed};
ghost use Rattle.line_text.specs.line_reader.FeedRuns.{IsReadWhole, IsUnhindered};
ghost use Rattle.line_text.specs.line_reader.Limits.{IsWithinLimits};
ghost use Rattle.line_text.specs.inner.line_reader.Reader.{HasGiven};
ghost use Rattle.command_lines.specs.Limits.{feed_limits};
ghost use Rattle.line_text.specs.inner.text_page.Output.{HasPut, IsFresh};
ghost use Rattle.fleet_league.specs.inner.league_session.LeagueBoards.{league_of};
ghost use Rattle.fleet_league.specs.inner.league_session.LeagueRuns.{HasTold, ended_text};
ghost use Rattle.fleet_league.specs.league_session.Leagued.{IsLeagueText, IsLeagued};

use crate::league_session::outset::Outset;
use crate::league_session::printing::{head_line, last_line};
use crate::league_session::scribe::Scribe;
use crate::league_session::stops::ending_of;
use adaptive_roads::Roads;
use command_lines::FEED_LIMITS;
use line_text::line_reader::{LineReader, Stop, ran_of};
use line_text::take_lines;
use line_text::text_page::Output;
use ride_model::{Fleet, NoMemory, Settings};
use ride_ports::{Ran, Sink, Source};
use std::alloc::Global;
use std::thread::Threads;

/// Runs a league of two companies, whose fleets share a map and settings: takes its feed line by line, and writes a first line, a line
/// for each that is neither blank nor a comment, and at last `end`, or `cut` where the feed was not read whole.
///
/// A request, a cancellation, `clock TIME` and `batch` are the league's; `company NUMBER` and then a driver's report are a company's.
/// What was told is written before the next line is waited for. A feed has at most 2^26 bytes and 1,000,000 lines; of a longer one
/// the lines within these limits are taken.
pub fn league<R: Threads + Sync, S: Source, K: Sink>(
    rt: &R,
    alloc: Global,
    roads: &Roads,
    settings: Settings,
    first: Fleet,
    second: Fleet,
    feed: &mut S,
    out: &mut K,
) -> Ran
    requires first { MayStart roads.now settings first }
    requires second { MayStart roads.now settings second }

    // What was written is the text of a legal league that took what was taken.
    ensures session { (taken : List ℕ) × Reads (S.left feed.old) (S.left feed.new) taken
        × IsLeagued roads.now settings first second result (S.left feed.old) taken
        (K.written out.old) (K.written out.new) }
    ensures to_end { IsUnhindered result → IsReadWhole result
        → IfSome (S.left feed.new) (λ bytes. bytes ≡ []) }
    ensures short_enough { IfSome (S.left feed.old)
        (λ bytes. IsWithinLimits feed_limits bytes → result.too_long ≡ false) }
    ensures source_faults { KeepsCount result.source_failed
        (S.faults feed.old) (S.faults feed.new) }
    ensures sink_faults { KeepsCount result.sink_failed (K.faults out.old) (K.faults out.new) }
{
    let outset = Outset::new(roads, settings, first, second);
    let Ok((mut reader, mut scribe, mut output)) = begin(rt, alloc, outset) else {
        return ran_of(Some(Stop::NoMemory), false);
    };
    let stop = run_feed(&mut reader, &mut scribe, &mut output, feed, out);
    output.end(out);
    ran_of(stop, output.failed())
}

// A reader of a feed, a scribe, and the text on its way out, at their start.
fn begin<'t, 'r, R>(
    rt: &'t R,
    alloc: Global,
    outset: Outset<'r>,
) -> Result<(LineReader, Scribe<'t, 'r, R>, Output), NoMemory>
    ensures limits { IfOk result (λ made. made.0.limits ≡ feed_limits) }
    ensures nothing_given { IfOk result (λ made. HasGiven made.0 []) }
    ensures nothing_pending { IfOk result (λ made. made.0.pending ≡ []) }
    ensures start { IfOk result (λ made. league_of made.1.league ≡ outset.entry) }
    ensures nothing_told { IfOk result (λ made.
        HasTold (league_of made.1.league) [] [] made.1.log made.1.league) }
    ensures fresh { IfOk result (λ made. IsFresh made.2) }
{
    let reader = LineReader::new(alloc, FEED_LIMITS)?;
    let output = Output::new(alloc)?;
    let scribe = Scribe::new(rt, alloc, outset)?;
    Ok((reader, scribe, output))
}

// Puts the text of a feed: the first line, what becomes of its lines until the end or a stop, and the last line, if it has one.
fn run_feed<R: Threads + Sync, S: Source, K: Sink>(
    reader: &mut LineReader,
    scribe: &mut Scribe<'_, '_, R>,
    output: &mut Output,
    feed: &mut S,
    out: &mut K,
) -> Option<Stop>
    requires limits { reader.old.limits ≡ feed_limits }
    requires nothing_given { HasGiven reader.old [] }
    requires nothing_pending { reader.old.pending ≡ [] }
    requires nothing_told { HasTold (league_of scribe.old.league) []
        [] scribe.old.log scribe.old.league }
    requires fresh { IsFresh output.old }
    ensures ran { (taken : List ℕ) × (lines : List (List ℕ)) × (text : List ℕ)
        × HasRun feed_limits (S.left feed.old) (S.left feed.new) result
        output.new.failed taken lines
        × IsLeagueText (league_of scribe.old.league) lines text
        × HasPut (K.written out.old) (K.written out.new) (K.faults out.old) (K.faults out.new)
        output.new (ended_text result text) }
    ensures faults { KeepsCount (is_source_failed result) (S.faults feed.old) (S.faults feed.new) }
{
    output.put(out, head_line());
    let stop = take_lines(reader, scribe, output, feed, out);
    put_end(output, out, stop);
    stop
}

// Puts the last line, where the text of a feed that was stopped, or was not, has one.
fn put_end<K: Sink>(output: &mut Output, out: &mut K, stop: Option<Stop>)
    ensures put { (before : Option (List ℕ)) (faults : ℕ) (text : List ℕ)
        → HasPut before (K.written out.old) faults (K.faults out.old) output.old text
        → HasPut before (K.written out.new) faults (K.faults out.new)
        output.new (ended_text stop text) }
    ensures still_failed { output.old.failed ≡ true → output.new.failed ≡ true }
{
    if let Some(ending) = ending_of(stop) {
        output.put(out, last_line(ending));
    }
}
