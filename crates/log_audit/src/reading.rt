//! Logs, read up to their end or their first wrong line.
ghost use Rattle.std.specs.Prelude.{◌≡◌, ◌≢◌, ℕ, ◌<◌, ◌++◌, ◌∷◌, [], nat_lt, length, take, List, Option, IfOk, IfNone, IfSome, MatchOption, MatchResult};
ghost use Rattle.line_text.specs.line_reader.Reader.{HasNoLf};
ghost use Rattle.ride_model.specs.Text.{IsOneOrTwo, head_line};
ghost use Rattle.ride_ports.specs.Count.{KeepsCount};
ghost use Rattle.log_audit.specs.Audit.{is_read_fault};
ghost use Rattle.log_audit.specs.inner.Audited.{HasReadHead, HasReadNoHead, IsWrongLineAfter, text_so_far};
ghost use Rattle.log_audit.specs.inner.Auditing.{IsAuditing, LeavesDue};
ghost use Rattle.log_audit.specs.declared.limits.TheConstants.{LOG_LIMITS};
ghost use Rattle.log_audit.specs.LogLines.{TakesSome};
ghost use Rattle.log_audit.specs.inner.LogLines.{HasRead, IsStop};
ghost use Rattle.log_audit.specs.inner.Reading.{HasEnded, HasReadLog, StopsReading};

use crate::auditor::Auditor;
use crate::fault::Fault;
use crate::lines::{log_reader, next_line};
use crate::outset::Outset;
use crate::{AuditFault, Why};
use line_text::line_reader::{LineReader, NextLine};
use pricing_workers::Search;
use ride_model::NoMemory;
use ride_ports::Source;
use std::alloc::Global;
use std::thread::Threads;
use trip_log::{Head, read_entry, read_head};

/// How the lines after a head end. A line has its number, from 1.
#[derive(Drop)]
pub(crate) enum Ended {
    /// They are all right, and nothing follows.
    Whole,
    /// They are all right, and a last line follows that no LF ends.
    Torn { line: u64 },
    /// A line is wrong, which is the first.
    Wrong { line: u64, fault: Fault },
}

/// How a log was read.
#[derive(Drop)]
pub(crate) enum Reading<'r> {
    /// Its first line is no head.
    NoHead,
    /// Its lines ended so, and this is what an audit kept of them.
    Lines(Auditor<'r>, Ended),
}

/// Reads a log up to its end or its first wrong line, and searches the places of each commit so.
pub(crate) fn read_log<'r, R: Threads + Sync, S: Source>(
    rt: &R,
    alloc: Global,
    outset: Outset<'r>,
    log: &mut S,
    search: Search,
) -> Result<Reading<'r>, AuditFault>
    ensures read { MatchResult result
        (HasReadLog (S.left log.old) (S.left log.new) outset.entry)
        (StopsReading (S.left log.old) (S.left log.new) outset.entry) }
    ensures taken { TakesSome (S.left log.old) (S.left log.new) }
    ensures faults { KeepsCount (is_read_fault result) (S.faults log.old) (S.faults log.new) }
{
    let mut lines = log_reader(alloc)?;
    let Some(head) = first_line(&mut lines, log, outset.settings.log)? else {
        return Ok(Reading::NoHead);
    };
    let mut auditor = Auditor::new(rt, alloc, outset, head, search)?;
    let ended = further_lines(&mut auditor, &mut lines, rt, alloc, log)?;
    Ok(Reading::Lines(auditor, ended))
}

// The head of a log of this version, if its first line is one.
fn first_line<S: Source>(
    lines: &mut LineReader,
    log: &mut S,
    version: u8,
) -> Result<Option<Head>, AuditFault>
    requires version { IsOneOrTwo version }
    requires nothing_read { (before : Option (List ℕ))
        × HasRead before (S.left log.old) lines.old [] }
    ensures head { (before : Option (List ℕ)) → HasRead before (S.left log.old) lines.old []
        → MatchResult result
        (λ head. MatchOption head (HasReadNoHead before version)
        (HasReadHead before (S.left log.new) lines.new version))
        (IsStop before (S.left log.new) []) }
    ensures taken { TakesSome (S.left log.old) (S.left log.new) }
    ensures faults { KeepsCount (is_read_fault result) (S.faults log.old) (S.faults log.new) }
{
    match next_line(lines, log)? {
        NextLine::Line => {
            if lines.over() {
                return Ok(None);
            }
            Ok(head_of(lines.line(), version))
        }
        NextLine::Unfinished => Ok(None),
        NextLine::End => Ok(None),
    }
}

// The head of this version that a line spells, if any.
fn head_of(line: &[u8], version: u8) -> Option<Head>
    ensures head { IfSome result (λ head. (head.log ≡ version) × IsOneOrTwo head.feeds
        × IsOneOrTwo head.desks
        × (head_line version head.feeds head.desks ≡ line.now ++ 10 ∷ [])) }
    ensures none { IfNone result ((feeds desks : ℕ) → IsOneOrTwo version → IsOneOrTwo feeds
        → IsOneOrTwo desks
        → head_line version feeds desks ≢ line.now ++ 10 ∷ []) }
{
    let head = read_head(line)?;
    if head.log == version {
        Some(head)
    } else {
        None
    }
}

// Judges the lines after the head.
fn further_lines<R: Threads + Sync, S: Source>(
    auditor: &mut Auditor<'_>,
    lines: &mut LineReader,
    rt: &R,
    alloc: Global,
    log: &mut S,
) -> Result<Ended, AuditFault>
    requires auditing { IsAuditing auditor.old }
    requires read { (before : Option (List ℕ))
        × HasRead before (S.left log.old) lines.old (text_so_far auditor.old.board) }
    ensures ended { (before : Option (List ℕ))
        → HasRead before (S.left log.old) lines.old (text_so_far auditor.old.board)
        → MatchResult result
        (HasEnded before (S.left log.new) auditor.old.board.start auditor.new)
        (StopsReading before (S.left log.new) auditor.old.board.start) }
    ensures taken { TakesSome (S.left log.old) (S.left log.new) }
    ensures faults { KeepsCount (is_read_fault result) (S.faults log.old) (S.faults log.new) }
{
    'lines: loop {
        // This call also tells that the history is legal and has a text.
        let line = auditor.board.entries().len() as u64 + 2;
        match next_line(lines, log)? {
            NextLine::Line => {
                if let Some(fault) = judge_line(auditor, rt, alloc, lines)? {
                    return Ok(Ended::Wrong { line, fault });
                }
            }
            NextLine::Unfinished => return Ok(Ended::Torn { line }),
            NextLine::End => return Ok(Ended::Whole),
        }
    }
}

// Judges the line that was read last.
fn judge_line<R: Threads + Sync>(
    auditor: &mut Auditor<'_>,
    rt: &R,
    alloc: Global,
    lines: &LineReader,
) -> Result<Option<Fault>, NoMemory>
    requires auditing { IsAuditing auditor.old }
    requires few { length auditor.old.board.history < LOG_LIMITS.lines }
    ensures { (line : List ℕ) → HasNoLf line → lines.now.cutter.shown ≡ take LOG_LIMITS.line line
        → lines.now.cutter.over ≡ nat_lt LOG_LIMITS.line (length line)
        → IfOk result (λ fault. MatchOption fault
        (IsAuditing auditor.new × (auditor.new.board.start ≡ auditor.old.board.start)
        × (text_so_far auditor.new.board ≡ text_so_far auditor.old.board ++ line ++ 10 ∷ []))
        (λ f. IsWrongLineAfter auditor.old.board line f.why
        × LeavesDue auditor.old auditor.new f.why f.batch)) }
{
    if lines.over() {
        return Ok(Some(Fault::of(Why::Spelling)));
    }
    // This call tells that the version is 1 or 2.
    let _history = auditor.board.entries();
    let Some(entry) = read_entry(alloc, lines.line(), auditor.log)? else {
        return Ok(Some(Fault::of(Why::Spelling)));
    };
    auditor.judge(rt, entry, lines.line())
}
