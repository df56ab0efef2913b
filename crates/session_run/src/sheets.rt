//! What is written of a session's sheets.
ghost use Rattle.idle_moves.specs.AheadText.{head_line, sheet_line};
ghost use Rattle.idle_moves.specs.inner.AheadText.{last_line};
ghost use Rattle.line_text.specs.inner.text_page.Output.{HasPut, IsFresh, Puts};

use idle_moves::{MoveSheet, print_end, print_head, print_sheet};
use line_text::text_page::Output;
use ride_model::Ending;
use ride_ports::Sink;

/// Writes the first line of the sheets within a reach.
pub(crate) fn put_reach<K: Sink>(output: &mut Output, out: &mut K, reach: u64)
    requires { IsFresh output.old }
    ensures { HasPut (K.written out.old) (K.written out.new) (K.faults out.old) (K.faults out.new)
        output.new (head_line reach) }
{
    let printed = print_head(reach, out);
    output.note(printed);
}

/// Writes the line of a sheet.
pub(crate) fn put_sheet<K: Sink>(output: &mut Output, out: &mut K, sheet: &MoveSheet)
    ensures { Puts (K.written out.old) (K.faults out.old) output.old (K.written out.new)
        (K.faults out.new) output.new (sheet_line sheet.now) }
{
    output.end(out);
    if output.failed() {
        return;
    }
    let printed = print_sheet(sheet, out);
    output.note(printed);
}

/// Writes the last line of the sheets.
pub(crate) fn put_end<K: Sink>(output: &mut Output, out: &mut K, ending: Ending)
    ensures { Puts (K.written out.old) (K.faults out.old) output.old (K.written out.new)
        (K.faults out.new) output.new (last_line ending) }
{
    output.end(out);
    if output.failed() {
        return;
    }
    let printed = print_end(ending, out);
    output.note(printed);
}
