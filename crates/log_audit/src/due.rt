//! The line that was due where a log's first wrong line stands.
ghost use Rattle.std.specs.Prelude.{◌≡◌, ◌≢◌, ℕ, ◌++◌, ◌∷◌, [], List, Option, Ok, Err, IfOk, IfSome, IsSomeAnd, IsTrue};
ghost use Rattle.model_laws.specs.history_laws.Start.{IsStart};
ghost use Rattle.ride_model.specs.declared.entry.Entry.{Entry};
ghost use Rattle.ride_model.specs.Fleet.{MayStart};
ghost use Rattle.ride_model.specs.State.{State, start_state};
ghost use Rattle.ride_model.specs.Text.{entry_line};
ghost use Rattle.ride_ports.specs.Count.{KeepsCount};
ghost use Rattle.log_audit.specs.declared.auditor.Auditor.{Auditor};
ghost use Rattle.log_audit.specs.declared.verdict.AuditFault.TheVariants.{NoMemory, ReadFault};
ghost use Rattle.log_audit.specs.Audit.{is_read_fault};
ghost use Rattle.log_audit.specs.Audited.{FailsAfter};
ghost use Rattle.log_audit.specs.inner.Auditing.{HasGrown, IsAuditing, LeavesDue};
ghost use Rattle.log_audit.specs.inner.Due.{IsDueOf, has_due};
ghost use Rattle.log_audit.specs.LogLines.{TakesSome};
ghost use Rattle.log_audit.specs.inner.Reading.{HasReadLog, HasReadWrong};

use crate::auditor::Auditor;
use crate::fault::Fault;
use crate::outset::Outset;
use crate::reading::{Ended, Reading, read_log};
use crate::{AuditFault, LOG_LIMITS, Why};
use adaptive_roads::Roads;
use pricing_workers::Search;
use ride_model::{Fleet, NoMemory, Settings};
use ride_ports::{MemSink, Source};
use std::alloc::{AllocError, Global};
use std::thread::Threads;
use trip_log::print_entry;

/// The line, with its LF, of an entry that would be legal in place of a log's first wrong line, over a map, settings and a fleet; none
/// where no line is wrong, where it spells no entry, or where its actor may not act. Of commits that would be legal it is one.
pub fn due_line<R: Threads + Sync, S: Source>(
    rt: &R,
    alloc: Global,
    roads: &Roads,
    settings: Settings,
    fleet: Fleet,
    log: &mut S,
) -> Result<Option<Vec<u8>>, AuditFault>
    requires start { MayStart roads.now settings fleet }
    ensures due { result ≢ Err NoMemory → result ≢ Err ReadFault
        → IfSome (S.left log.old) (λ bytes.
        IsDueOf (start_state roads.now settings fleet) bytes result) }
    ensures before_fault { result ≡ Err ReadFault
        → FailsAfter (start_state roads.now settings fleet) (S.left log.old) (S.left log.new) }
    ensures taken { TakesSome (S.left log.old) (S.left log.new) }
    ensures faults { KeepsCount (is_read_fault result) (S.faults log.old) (S.faults log.new) }
{
    let outset = Outset::new(roads, settings, fleet);
    let reading = read_log(rt, alloc, outset, log, Search::ByWholePlans)?;
    let line = line_due(rt, alloc, reading)?;
    Ok(line)
}

// The line that was due by the reading of a log.
fn line_due<R: Threads + Sync>(
    rt: &R,
    alloc: Global,
    reading: Reading<'_>,
) -> Result<Option<Vec<u8>>, NoMemory>
    requires read { (before : Option (List ℕ)) × (left : Option (List ℕ)) × (start : State)
        × HasReadLog before left start reading }
    ensures { (before left : Option (List ℕ)) (start : State) → IsStart start
        → HasReadLog before left start reading.entry
        → IfOk result (λ line. IfSome before (λ bytes. IsDueOf start bytes (Ok line))) }
{
    match reading {
        Reading::NoHead => Ok(None),
        Reading::Lines(auditor, ended) => match ended {
            Ended::Whole => Ok(None),
            Ended::Torn { line: _ } => Ok(None),
            Ended::Wrong { line: _, fault } => due_for(rt, alloc, auditor, fault),
        },
    }
}

// The line that was due in place of a wrong one.
fn due_for<R: Threads + Sync>(
    rt: &R,
    alloc: Global,
    auditor: Auditor<'_>,
    fault: Fault,
) -> Result<Option<Vec<u8>>, NoMemory>
    requires wrong { (before : Option (List ℕ)) × (left : Option (List ℕ)) × (start : State)
        × (number : ℕ) × HasReadWrong before left start auditor number fault }
    ensures { (before left : Option (List ℕ)) (start : State) (number : ℕ) → IsStart start
        → HasReadWrong before left start auditor.entry number fault
        → IfOk result (λ line. IfSome before (λ bytes. IsDueOf start bytes (Ok line))) }
{
    if !has_due(fault.why) {
        return Ok(None);
    }
    let auditor = with_due(rt, auditor, fault)?;
    // This call tells that the history is legal and has a text.
    let _history = auditor.board.entries();
    last_line(alloc, &auditor)
}

// Whether a line was due in place of a wrong one.
fn has_due(why: Why) -> bool
    ensures { result ≡ has_due why }
{
    match why {
        Why::Spelling | Why::Actor => false,
        Why::Reply | Why::Batch | Why::Seating | Why::Prices | Why::Outcomes => true,
    }
}

// An audit with the entry that was due.
fn with_due<'r, R: Threads + Sync>(
    rt: &R,
    auditor: Auditor<'r>,
    fault: Fault,
) -> Result<Auditor<'r>, NoMemory>
    requires due { (old : Auditor) × IsAuditing old × IsTrue (has_due fault.why)
        × LeavesDue old auditor fault.why fault.batch }
    ensures { (old : Auditor) → IsAuditing old → IsTrue (has_due fault.why)
        → LeavesDue old auditor.entry fault.why fault.batch
        → IfOk result (HasGrown old.board) }
{
    let mut auditor = auditor;
    let Fault { why: _, batch } = fault;
    let Some(batch) = batch else {
        return Ok(auditor);
    };
    auditor.commit_least(rt, batch)?;
    Ok(auditor)
}

// The line of the last entry.
fn last_line(alloc: Global, auditor: &Auditor<'_>) -> Result<Option<Vec<u8>>, NoMemory>
    requires log { auditor.now.log ≡ auditor.now.board.start.settings.log }
    ensures { (entries : List Entry) (last : Entry)
        → auditor.now.board.history ≡ entries ++ last ∷ []
        → IfOk result (λ line. IsSomeAnd line (λ l. l.items ≡ entry_line auditor.now.log last)) }
{
    let Some(entry) = auditor.board.entries().last() else {
        return Ok(None);
    };
    let mut sink = MemSink::new(alloc, LOG_LIMITS.line + 1, &[], &[])?;
    match print_entry(entry, auditor.log, &mut sink) {
        Ok(()) => Ok(Some(sink.written().to_vec(alloc)?)),
        Err(_) => Err(AllocError),
    }
}
