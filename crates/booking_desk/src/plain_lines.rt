//! The lines of the plain feed that a feed with bookings gives.
ghost use Rattle.std.specs.Prelude.{◌≡◌, ◌∷◌, ◌++◌, [], codes, decimal, true};
ghost use Rattle.ride_model.specs.Text.{IsSpelledCommand};
ghost use Rattle.line_text.specs.inner.text_page.Output.{Puts};
ghost use Rattle.booking_desk.specs.BookText.{refusal_line, request_line};
ghost use Rattle.booking_desk.specs.inner.BookText.{PutsOn, with_lf};
ghost use Rattle.booking_desk.specs.inner.Desk.{IsRequest};

use crate::NoMemory;
use crate::spelling::print_request;
use line_text::put_number;
use line_text::text_page::{Output, Page};
use ride_model::Command;
use ride_ports::Sink;
use std::alloc::AllocError;

/// Puts bytes as a line.
pub(crate) fn put_line(page: &mut Page, bytes: &[u8]) -> Result<(), NoMemory>
    ensures { PutsOn result page.old.text page.new.text (with_lf bytes.now) }
{
    page.put(bytes)?;
    page.put(b"\n")
}

/// Puts the line of a request.
pub(crate) fn put_request(page: &mut Page, request: &Command) -> Result<(), NoMemory>
    requires request { IsRequest request.now }
    requires spelled { IsSpelledCommand 2 request.now }
    ensures { PutsOn result page.old.text page.new.text (request_line request.now) }
{
    match print_request(request, page) {
        Ok(()) => page.put(b"\n"),
        Err(_) => Err(AllocError),
    }
}

/// Puts the line of a refusal of the line of a number.
pub(crate) fn put_refusal(page: &mut Page, code: u8, number: u64) -> Result<(), NoMemory>
    ensures { PutsOn result page.old.text page.new.text (refusal_line code number) }
{
    page.put(b"# refused ")?;
    page.put(put_number(u64::from(code)).as_slice())?;
    page.put(b" line ")?;
    page.put(put_number(number).as_slice())?;
    page.put(b"\n")
}

/// Puts the line of how many bookings are held.
pub(crate) fn put_held<K: Sink>(output: &mut Output, out: &mut K, count: u32)
    ensures put { Puts (K.written out.old) (K.faults out.old) output.old
        (K.written out.new) (K.faults out.new) output.new
        (codes "# held " ++ decimal count ++ 10 ∷ []) }
    ensures still_failed { output.old.failed ≡ true → output.new.failed ≡ true }
{
    output.put(out, b"# held ");
    output.put(out, put_number(u64::from(count)).as_slice());
    output.put(out, b"\n");
}
