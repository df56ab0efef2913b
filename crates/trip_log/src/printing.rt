//! Prints the lines of the log.
ghost use Rattle.std.specs.Prelude.{OnOk, OnErr, is_err};
ghost use Rattle.ride_ports.specs.Bytes.{Writes, WritesPrefix};
ghost use Rattle.ride_ports.specs.Count.{KeepsCount};
ghost use Rattle.ride_model.specs.Text.{HasLine, IsOneOrTwo, entry_line, head_line};
ghost use Rattle.trip_log.specs.inner.Prints.{Prints};

use crate::events::print_event;
use crate::pieces::{Piece, print};
use ride_model::Entry;
use ride_ports::{Failed, Sink};

/// Prints the head line of a log.
pub fn print_head<K: Sink>(log: u8, feeds: u8, desks: u8, sink: &mut K) -> Result<(), Failed>
    requires log { IsOneOrTwo log }
    requires feeds { IsOneOrTwo feeds }
    requires desks { IsOneOrTwo desks }
    ensures whole { OnOk result (Writes (K.written sink.old) (K.written sink.new)
        (head_line log feeds desks)) }
    ensures prefix { OnErr result
        (WritesPrefix (K.written sink.old) (K.written sink.new) (head_line log feeds desks)) }
    ensures faults { KeepsCount (is_err result) (K.faults sink.old) (K.faults sink.new) }
{
    print_numbers(log, feeds, desks, sink)
}

/// Prints the line of an entry.
pub fn print_entry<K: Sink>(entry: &Entry, log: u8, sink: &mut K) -> Result<(), Failed>
    requires log { IsOneOrTwo log }
    requires has_line { HasLine log entry.now }
    ensures whole { OnOk result (Writes (K.written sink.old)
        (K.written sink.new) (entry_line log entry.now)) }
    ensures prefix { OnErr result
        (WritesPrefix (K.written sink.old) (K.written sink.new) (entry_line log entry.now)) }
    ensures faults { KeepsCount (is_err result) (K.faults sink.old) (K.faults sink.new) }
{
    print_event(entry.actor, &entry.event, log, sink)
}

// Prints the head line of these numbers.
fn print_numbers<K: Sink>(log: u8, feeds: u8, desks: u8, sink: &mut K) -> Result<(), Failed>
    ensures { Prints result (K.written sink.old) (K.written sink.new)
        (K.faults sink.old) (K.faults sink.new)
        (head_line log feeds desks) }
{
    print(
        &[
            Piece::Bytes(b"log "),
            Piece::Number(u64::from(log)),
            Piece::Bytes(b" feeds "),
            Piece::Number(u64::from(feeds)),
            Piece::Bytes(b" desks "),
            Piece::Number(u64::from(desks)),
            Piece::Bytes(b"\n"),
        ],
        sink,
    )
}
