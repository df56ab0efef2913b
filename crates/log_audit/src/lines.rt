//! The lines of a log, one after the other.
ghost use Rattle.std.specs.Prelude.{ℕ, [], List, Option, IfOk, MatchResult};
ghost use Rattle.ride_ports.specs.Count.{KeepsCount};
ghost use Rattle.log_audit.specs.Audit.{is_read_fault};
ghost use Rattle.log_audit.specs.LogLines.{TakesSome};
ghost use Rattle.log_audit.specs.inner.LogLines.{HasRead, IsNext, IsStop};

use crate::{AuditFault, LOG_LIMITS};
use line_text::line_reader::{LineReader, NextLine, ReadStop};
use ride_model::NoMemory;
use ride_ports::Source;
use std::alloc::Global;

/// A reader of a log.
pub(crate) fn log_reader(alloc: Global) -> Result<LineReader, NoMemory>
    ensures { (left : Option (List ℕ)) → IfOk result (λ lines. HasRead left left lines []) }
{
    LineReader::new(alloc, LOG_LIMITS)
}

/// Reads the next line of a log.
pub(crate) fn next_line<S: Source>(
    lines: &mut LineReader,
    log: &mut S,
) -> Result<NextLine, AuditFault>
    requires read { (before : Option (List ℕ)) × (bytes : List ℕ)
        × HasRead before (S.left log.old) lines.old bytes }
    ensures next { (before : Option (List ℕ)) (bytes : List ℕ)
        → HasRead before (S.left log.old) lines.old bytes → MatchResult result
        (IsNext before (S.left log.new) lines.new bytes)
        (IsStop before (S.left log.new) bytes) }
    ensures taken { TakesSome (S.left log.old) (S.left log.new) }
    ensures faults { KeepsCount (is_read_fault result) (S.faults log.old) (S.faults log.new) }
{
    match lines.next(log) {
        Ok(next) => Ok(next),
        Err(ReadStop::SourceFailed) => Err(AuditFault::ReadFault),
        Err(ReadStop::TooLong) => Err(AuditFault::TooLong),
    }
}
