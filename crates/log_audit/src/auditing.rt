//! Audits.
ghost use Rattle.std.specs.Prelude.{◌≡◌, ◌≢◌, ℕ, [], List, Option, Result, Ok, Err, IfSome};
ghost use Rattle.model_laws.specs.history_laws.Start.{IsStart};
ghost use Rattle.ride_model.specs.Fleet.{MayStart};
ghost use Rattle.ride_model.specs.State.{State, start_state};
ghost use Rattle.ride_ports.specs.Count.{KeepsCount};
ghost use Rattle.board_core.specs.declared.board.totals.Totals.{Totals};
ghost use Rattle.log_audit.specs.declared.verdict.AuditFault.{AuditFault};
ghost use Rattle.log_audit.specs.declared.verdict.AuditFault.TheVariants.{NoMemory, ReadFault};
ghost use Rattle.log_audit.specs.declared.verdict.Verdict.{Verdict};
ghost use Rattle.log_audit.specs.declared.verdict.Verdict.TheVariants.{Yes};
ghost use Rattle.log_audit.specs.Audit.{IsAnswer, is_read_fault};
ghost use Rattle.log_audit.specs.Audited.{FailsAfter};
ghost use Rattle.log_audit.specs.LogLines.{TakesSome};
ghost use Rattle.log_audit.specs.inner.Reading.{HasReadLog};

use crate::outset::Outset;
use crate::reading::{Ended, Reading, read_log};
use crate::{AuditFault, Verdict, Why};
use adaptive_roads::Roads;
use pricing_workers::Search;
use ride_model::{Fleet, NoMemory, Settings};
use ride_ports::Source;
use std::alloc::Global;
use std::thread::Threads;

/// Whether a log is the text of a legal history over a map, settings and a fleet, and its totals; or its first wrong line and why it
/// is wrong. The first wrong line decides, and comes before a later fault of the source or the limits of bytes and lines.
pub fn audit<R: Threads + Sync, S: Source>(
    rt: &R,
    alloc: Global,
    roads: &Roads,
    settings: Settings,
    fleet: Fleet,
    log: &mut S,
) -> Result<Verdict, AuditFault>
    requires start { MayStart roads.now settings fleet }

    // What the log's bytes are decides, and they are nothing else.
    ensures answer { result ≢ Err NoMemory → result ≢ Err ReadFault
        → IfSome (S.left log.old) (λ bytes.
        IsAnswer (start_state roads.now settings fleet) bytes result) }
    ensures no_other { result ≢ Err NoMemory → result ≢ Err ReadFault
        → IfSome (S.left log.old) (λ bytes.
        (other : Result Verdict AuditFault)
        → IsAnswer (start_state roads.now settings fleet) bytes other → other ≡ result) }
    ensures to_end { (totals : Totals) → result ≡ Ok (Yes totals)
        → IfSome (S.left log.new) (λ bytes. bytes ≡ []) }

    // A fault of reading is the source's, and no line was wrong that was read whole.
    ensures before_fault { result ≡ Err ReadFault
        → FailsAfter (start_state roads.now settings fleet) (S.left log.old) (S.left log.new) }
    ensures taken { TakesSome (S.left log.old) (S.left log.new) }
    ensures faults { KeepsCount (is_read_fault result) (S.faults log.old) (S.faults log.new) }
{
    let outset = Outset::new(roads, settings, fleet);
    let reading = read_log(rt, alloc, outset, log, Search::ByWholePlans)?;
    Ok(verdict_of(reading))
}

// What the reading of a log says of it.
fn verdict_of(reading: Reading<'_>) -> Verdict
    requires read { (before : Option (List ℕ)) × (left : Option (List ℕ)) × (start : State)
        × HasReadLog before left start reading }
    ensures answer { (before left : Option (List ℕ)) (start : State) → IsStart start
        → HasReadLog before left start reading.entry
        → IfSome before (λ bytes. IsAnswer start bytes (Ok result)) }
    ensures to_end { (before left : Option (List ℕ)) (start : State)
        → HasReadLog before left start reading.entry → (totals : Totals) → result ≡ Yes totals
        → IfSome left (λ bytes. bytes ≡ []) }
{
    match reading {
        Reading::NoHead => Verdict::No {
            line: 1,
            why: Why::Spelling,
        },
        Reading::Lines(auditor, ended) => match ended {
            Ended::Whole => Verdict::Yes(auditor.board.totals()),
            Ended::Torn { line } => Verdict::No {
                line,
                why: Why::Spelling,
            },
            Ended::Wrong { line, fault } => Verdict::No {
                line,
                why: fault.why,
            },
        },
    }
}

impl From<NoMemory> for AuditFault {
    ghost from_gives = { λ _ e. e ≡ AuditFault.NoMemory };

    fn from(_error: NoMemory) -> AuditFault {
        AuditFault::NoMemory
    }
}
