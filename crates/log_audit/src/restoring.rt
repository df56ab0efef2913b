//! Boards that are restored from logs which may end anywhere.
ghost use Rattle.std.specs.Prelude.{◌≡◌, ◌≢◌, ℕ, [], List, Option, Result, Ok, Err, IfSome};
ghost use Rattle.model_laws.specs.history_laws.Start.{IsStart};
ghost use Rattle.ride_model.specs.Fleet.{MayStart};
ghost use Rattle.ride_model.specs.State.{State, start_state};
ghost use Rattle.ride_ports.specs.Count.{KeepsCount};
ghost use Rattle.log_audit.specs.declared.restoring.Restored.{Restored};
ghost use Rattle.log_audit.specs.declared.restoring.Restoration.{Restoration};
ghost use Rattle.log_audit.specs.declared.restoring.Restoration.TheVariants.{Standing};
ghost use Rattle.log_audit.specs.declared.verdict.AuditFault.{AuditFault};
ghost use Rattle.log_audit.specs.declared.verdict.AuditFault.TheVariants.{NoMemory, ReadFault};
ghost use Rattle.log_audit.specs.Audit.{is_read_fault};
ghost use Rattle.log_audit.specs.Audited.{FailsAfter};
ghost use Rattle.log_audit.specs.LogLines.{TakesSome};
ghost use Rattle.log_audit.specs.inner.Reading.{HasReadLog};
ghost use Rattle.log_audit.specs.Restored.{IsBoardOf, IsRestoration, IsSameButRoom};

use crate::auditor::Auditor;
use crate::open_batches::OpenBatches;
use crate::outset::Outset;
use crate::reading::{Ended, Reading, read_log};
use crate::{AuditFault, Why};
use adaptive_roads::Roads;
use batch_commit::Batch;
use board_core::Board;
use pricing_workers::Search;
use ride_model::{Fleet, Settings};
use ride_ports::Source;
use std::alloc::Global;
use std::thread::Threads;

/// A board with a log's history, and the batches that its desks have open.
pub struct Restored<'r> {
    pub board: Board<'r>,
    /// The open batch of desk 1.
    pub first: Option<Batch>,
    /// The open batch of desk 2.
    pub second: Option<Batch>,
}

impl<'r> Restored<'r> {
    /// The board, the open batch of desk 1, and that of desk 2.
    pub fn into_parts(self) -> (Board<'r>, Option<Batch>, Option<Batch>)
        ensures board { result.0 ≡ self.entry.board }
        ensures first { result.1 ≡ self.entry.first }
        ensures second { result.2 ≡ self.entry.second }
    {
        let Restored {
            board,
            first,
            second,
        } = self;
        (board, first, second)
    }
}

impl Drop for Restored<'_> {
    fn drop(self) {
        let Restored {
            board,
            first,
            second,
        } = self;
        drop(board);
        drop(first);
        drop(second);
    }
}

/// What a log gives back.
#[derive(Drop)]
pub enum Restoration<'r> {
    Standing(Restored<'r>),
    /// The number of the first wrong line, from 1, and the first of its faults.
    No { line: u64, why: Why },
}

/// The board of a log that may end anywhere, over a map, settings and a fleet: a last line without its LF is dropped, whatever it is.
/// Or its first wrong line and why it is wrong, which comes before a later fault of the source or the limits of bytes and lines.
///
/// Pairs are priced by the tables of plans, as sessions price them, and not by whole plans as in an audit: a session that goes on trusts
/// those tables anyway, and it waits for this.
pub fn restore<'r, R: Threads + Sync, S: Source>(
    rt: &R,
    alloc: Global,
    roads: &'r Roads,
    settings: Settings,
    fleet: Fleet,
    log: &mut S,
) -> Result<Restoration<'r>, AuditFault>
    requires start { MayStart roads.now settings fleet }

    // What the log's bytes are decides, and they are nothing else.
    ensures answer { result ≢ Err NoMemory → result ≢ Err ReadFault
        → IfSome (S.left log.old) (λ bytes.
        IsRestoration (start_state roads.now settings fleet) bytes result) }
    ensures no_other { result ≢ Err NoMemory → result ≢ Err ReadFault
        → IfSome (S.left log.old) (λ bytes. (other : Result Restoration AuditFault)
        → IsRestoration (start_state roads.now settings fleet) bytes other
        → IsSameButRoom other result) }
    ensures to_end { (restored : Restored) → result ≡ Ok (Standing restored)
        → IfSome (S.left log.new) (λ bytes. bytes ≡ []) }

    // A fault of reading is the source's, and no line was wrong that was read whole.
    ensures before_fault { result ≡ Err ReadFault
        → FailsAfter (start_state roads.now settings fleet) (S.left log.old) (S.left log.new) }
    ensures taken { TakesSome (S.left log.old) (S.left log.new) }

    // Whatever the bytes are, a board stands at the start, and its batches are those that are open on it.
    ensures stands { (restored : Restored) → result ≡ Ok (Standing restored)
        → IsBoardOf (start_state roads.now settings fleet) restored }
    ensures faults { KeepsCount (is_read_fault result) (S.faults log.old) (S.faults log.new) }
{
    let outset = Outset::new(roads, settings, fleet);
    let reading = read_log(rt, alloc, outset, log, Search::BySlack)?;
    Ok(restoration_of(reading))
}

// What the reading of a log gives back.
fn restoration_of(reading: Reading<'_>) -> Restoration<'_>
    ensures answer { (before left : Option (List ℕ)) (start : State) → IsStart start
        → HasReadLog before left start reading.entry
        → IfSome before (λ bytes. IsRestoration start bytes (Ok result)) }
    ensures to_end { (before left : Option (List ℕ)) (start : State)
        → HasReadLog before left start reading.entry → (restored : Restored)
        → result ≡ Standing restored → IfSome left (λ bytes. bytes ≡ []) }
    ensures stands { (before left : Option (List ℕ)) (start : State)
        → HasReadLog before left start reading.entry → (restored : Restored)
        → result ≡ Standing restored → IsBoardOf start restored }
{
    match reading {
        Reading::NoHead => Restoration::No {
            line: 1,
            why: Why::Spelling,
        },
        Reading::Lines(auditor, ended) => match ended {
            Ended::Whole => Restoration::Standing(restored_of(auditor)),
            Ended::Torn { line: _ } => Restoration::Standing(restored_of(auditor)),
            Ended::Wrong { line, fault } => Restoration::No {
                line,
                why: fault.why,
            },
        },
    }
}

// The board of an audit, and its open batches.
fn restored_of(auditor: Auditor<'_>) -> Restored<'_>
    ensures { result ≡ record {
      board = auditor.entry.board;
      first = auditor.entry.batches.first;
      second = auditor.entry.batches.second;
    } }
{
    let (board, batches) = auditor.into_parts();
    let OpenBatches { first, second } = batches;
    Restored {
        board,
        first,
        second,
    }
}
