//! What is written of a session's log.
ghost use Rattle.std.specs.Prelude.{◌≡◌, [], All};
ghost use Rattle.ride_model.specs.Text.{HasLine, IsOneOrTwo, entry_line, entry_lines, head_line};
ghost use Rattle.line_text.specs.inner.text_page.Output.{HasPut, IsFresh, Puts};

use line_text::text_page::Output;
use ride_model::Entry;
use ride_ports::Sink;
use trip_log::{print_entry, print_head};

/// Writes the head of a log of so many feeds and desks.
pub fn put_head<K: Sink>(output: &mut Output, out: &mut K, log: u8, feeds: u8, desks: u8)
    requires log { IsOneOrTwo log }
    requires feeds { IsOneOrTwo feeds }
    requires desks { IsOneOrTwo desks }
    requires fresh { IsFresh output.old }
    ensures logged { HasPut (K.written out.old) (K.written out.new) (K.faults out.old)
        (K.faults out.new) output.new (head_line log feeds desks) }
    ensures bare { output.new.page ≡ [] }
{
    let printed = print_head(log, feeds, desks, out);
    output.note(printed);
}

/// Puts the lines of entries.
pub fn put_all<K: Sink>(output: &mut Output, out: &mut K, entries: &[Entry], log: u8)
    requires log { IsOneOrTwo log }
    requires have_lines { All (HasLine log) entries.now }
    ensures { Puts (K.written out.old) (K.faults out.old) output.old
        (K.written out.new) (K.faults out.new) output.new
        (entry_lines log entries.now) }
{
    for entry in entries {
        put(output, out, entry, log);
    }
}

// Puts the line of an entry: on the page, or to the sink where the page has no room for it.
fn put<K: Sink>(output: &mut Output, out: &mut K, entry: &Entry, log: u8)
    requires log { IsOneOrTwo log }
    requires has_line { HasLine log entry.now }
    ensures { Puts (K.written out.old) (K.faults out.old) output.old
        (K.written out.new) (K.faults out.new) output.new
        (entry_line log entry.now) }
{
    if output.failed() {
        return;
    }
    let mark = output.mark();
    if print_entry(entry, log, output).is_ok() {
        return;
    }
    output.back_to(out, mark);
    if output.failed() {
        return;
    }
    let printed = print_entry(entry, log, out);
    output.note(printed);
}
