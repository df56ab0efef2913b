//! What an audit found, as it is said.
ghost use Rattle.std.specs.Prelude.{◌≡◌, ◌⊎◌, if◌then◌else◌, codes, IfOk, Ok};
ghost use Rattle.ride_ports.specs.Count.{Rose};
ghost use Rattle.dispatcher.specs.Shelves.{sunk};
ghost use Rattle.dispatcher.specs.Verdicts.{EndsBy, no_line, word_of, yes_line};

use crate::status::Status;
use board_core::Totals;
use line_text::put_number;
use log_audit::{AuditFault, Verdict, Why};
use ride_ports::{NoMemory, Sink, write_all};
use std::alloc::Global;

/// Says what an audit found, and returns its status.
pub fn say_found<K: Sink>(alloc: Global, found: Result<Verdict, AuditFault>, out: &mut K) -> u8
    ensures said { EndsBy found result (sunk K.written K.faults out.old out.new) }
    ensures sink_fault { result ≡ 6 → Rose (K.faults out.old) (K.faults out.new) }
    ensures counts_none { result ≡ 0 → K.faults out.new ≡ K.faults out.old }
{
    match found {
        Ok(Verdict::Yes(totals)) => say_yes(alloc, totals, out),
        Ok(Verdict::No { line, why }) => say_no(alloc, line, why, out),
        Err(AuditFault::NoMemory) => Status::NoMemory.code(),
        Err(AuditFault::ReadFault) => Status::SourceFailed.code(),
        Err(AuditFault::TooLong) => Status::LimitPassed.code(),
    }
}

// Says that a log is right.
fn say_yes<K: Sink>(alloc: Global, totals: Totals, out: &mut K) -> u8
    ensures said { EndsBy (Ok (Verdict.Yes totals)) result
        (sunk K.written K.faults out.old out.new) }
    ensures sink_fault { result ≡ 6 → Rose (K.faults out.old) (K.faults out.new) }
    ensures counts_none { result ≡ 0 → K.faults out.new ≡ K.faults out.old }
{
    let Ok(line) = yes_line(alloc, totals) else {
        return Status::NoMemory.code();
    };
    match write_all(out, line.as_slice()) {
        Ok(()) => Status::Whole.code(),
        Err(_) => Status::SinkFailed.code(),
    }
}

// Says which line of a log is wrong first.
fn say_no<K: Sink>(alloc: Global, line: u64, why: Why, out: &mut K) -> u8
    ensures said { EndsBy (Ok (Verdict.No line why)) result
        (sunk K.written K.faults out.old out.new) }
    ensures one_or_seven { (result ≡ 1) ⊎ (result ≡ 7) }
{
    let Ok(line) = no_line(alloc, line, why) else {
        return Status::NoMemory.code();
    };
    let _ = write_all(out, line.as_slice());
    Status::LogWrong.code()
}

// The line of a log that is right.
fn yes_line(alloc: Global, totals: Totals) -> Result<Vec<u8>, NoMemory>
    ensures { IfOk result (λ line. line.items ≡ yes_line totals) }
{
    let mut line = Vec::new(alloc);
    line.extend_from_slice(b"yes entries ")?;
    line.extend_from_slice(put_number(totals.entries).as_slice())?;
    line.extend_from_slice(b" confirmed ")?;
    line.extend_from_slice(put_number(totals.confirmed).as_slice())?;
    line.extend_from_slice(b" away ")?;
    line.extend_from_slice(put_number(totals.away).as_slice())?;
    line.extend_from_slice(b" picked ")?;
    line.extend_from_slice(put_number(totals.picked).as_slice())?;
    line.extend_from_slice(b" dropped ")?;
    line.extend_from_slice(put_number(totals.dropped).as_slice())?;
    line.extend_from_slice(b" finished ")?;
    line.extend_from_slice(yes_or_no(totals.finished))?;
    line.push(b'\n')?;
    Ok(line)
}

fn yes_or_no(finished: bool) -> &'static [u8]
    ensures { result.now ≡ (if finished then codes "yes" else codes "no") }
{
    if finished { b"yes" } else { b"no" }
}

// The line of a log that is wrong.
fn no_line(alloc: Global, line: u64, why: Why) -> Result<Vec<u8>, NoMemory>
    ensures { IfOk result (λ said. said.items ≡ no_line line why) }
{
    let mut said = Vec::new(alloc);
    said.extend_from_slice(b"no ")?;
    said.extend_from_slice(put_number(line).as_slice())?;
    said.push(b' ')?;
    said.extend_from_slice(word_of(why))?;
    said.push(b'\n')?;
    Ok(said)
}

fn word_of(why: Why) -> &'static [u8]
    ensures { result.now ≡ word_of why }
{
    match why {
        Why::Spelling => b"spelling",
        Why::Actor => b"actor",
        Why::Reply => b"reply",
        Why::Batch => b"batch",
        Why::Seating => b"seating",
        Why::Prices => b"prices",
        Why::Outcomes => b"outcomes",
    }
}
