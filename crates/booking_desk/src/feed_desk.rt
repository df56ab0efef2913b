//! The taking of the lines of a feed at a desk.
ghost use Rattle.std.specs.Prelude.{◌≡◌, ◌∷◌, ◌++◌, [], List, IfOk, OnOk, if◌then◌else◌};
ghost use Rattle.line_text.specs.Fields.{begins_with};
ghost use Rattle.ride_model.specs.Text.{IsSpelledCommand};
ghost use Rattle.ride_model.specs.declared.limits.TheConstants.{MOST_REQUESTS};
ghost use Rattle.booking_desk.specs.BookText.{over_long_line, refusal_line, reply_text};
ghost use Rattle.booking_desk.specs.inner.BookText.{PutsOn, released_text};
ghost use Rattle.booking_desk.specs.Desk.{Booking, reply_to_book};
ghost use Rattle.booking_desk.specs.inner.Desk.{after_book, after_unbook, is_held, IsRequest};
ghost use Rattle.booking_desk.specs.inner.FeedDesk.{AreDue, AreSpelled, with_due};
ghost use Rattle.booking_desk.specs.Released.{DeskCall, clock, desk_after, released_at};
ghost use Rattle.booking_desk.specs.inner.Released.{clock_of};

use crate::asked::{Asked, asked_by};
use crate::plain_lines::{put_line, put_refusal, put_request};
use crate::{BookReply, BookingDesk, NoMemory};
use line_text::LineTaker;
use line_text::text_page::Page;
use ride_model::Command;
use ride_model::refusals::NOT_HELD;

impl LineTaker for BookingDesk {
    ghost use Rattle.command_lines.specs.Limits.{most_lines};
    ghost use Rattle.booking_desk.specs.inner.FeedDesk.{HasBooked};

    ghost most = { most_lines };

    ghost takes = { λ first lines text now. HasBooked lines text now };

    fn take_line(
        &mut self,
        page: &mut Page,
        number: u64,
        line: &[u8],
        over: bool,
    ) -> Result<(), NoMemory> {
        if over {
            return put_over_long(page, line);
        }
        match asked_by(line) {
            None => put_line(page, line),
            Some(Asked::Book { release, request }) => book(self, page, number, release, &request),
            Some(Asked::Unbook { id }) => unbook(self, page, number, id),
            Some(Asked::Clock { time }) => {
                put_line(page, line)?;
                set_clock(self, page, time)
            }
        }
    }
}

/// Puts what stands for an over-long line.
fn put_over_long(page: &mut Page, line: &[u8]) -> Result<(), NoMemory>
    ensures { PutsOn result page.old.text page.new.text (over_long_line line.now) }
{
    if is_comment(line) {
        return put_line(page, b"#");
    }
    put_line(page, b"bad")
}

/// Books the request of the line of a number, and puts what that gives.
fn book(
    desk: &mut BookingDesk,
    page: &mut Page,
    number: u64,
    release: u64,
    request: &Command,
) -> Result<(), NoMemory>
    requires request { IsRequest request.now }
    requires text { IsSpelledCommand 2 request.now }
    requires spelled { AreSpelled desk.old.held }
    ensures desk { IfOk result (λ _. desk.new ≡ after_book desk.old release request.now) }
    ensures spelled { IfOk result (λ _. AreSpelled desk.new.held) }
    ensures put { PutsOn result page.old.text page.new.text
        (reply_text (reply_to_book desk.old release request.now) number request.now) }
{
    match desk.book(release, request)? {
        BookReply::Held => Ok(()),
        BookReply::Now => put_request(page, request),
        BookReply::Refused { code } => put_refusal(page, code, number),
    }
}

/// Gives up the booking of an id, and puts what the line of a number gives by that.
fn unbook(desk: &mut BookingDesk, page: &mut Page, number: u64, id: u64) -> Result<(), NoMemory>
    requires spelled { AreSpelled desk.old.held }
    ensures desk { desk.new ≡ after_unbook desk.old id }
    ensures spelled { AreSpelled desk.new.held }
    ensures put { PutsOn result page.old.text page.new.text
        (if is_held id desk.old.held then [] else refusal_line 21 number) }
{
    if desk.unbook(id) {
        return Ok(());
    }
    put_refusal(page, NOT_HELD, number)
}

/// Sets the clock, and puts the requests that are released then.
fn set_clock(desk: &mut BookingDesk, page: &mut Page, time: u64) -> Result<(), NoMemory>
    requires spelled { AreSpelled desk.old.held }
    ensures spelled { OnOk result (AreSpelled desk.new.held) }
    ensures desk { (calls : List DeskCall) → desk.old ≡ desk_after MOST_REQUESTS calls
        → OnOk result (desk.new ≡ desk_after MOST_REQUESTS (calls ++ clock time ∷ [])) }
    ensures put { (calls : List DeskCall) → desk.old ≡ desk_after MOST_REQUESTS calls
        → PutsOn result page.old.text page.new.text
        (released_text (released_at MOST_REQUESTS calls time)) }
{
    desk.clock(time);
    release_due(desk, page)
}

/// Puts the requests that are due, in order, which are no longer held then.
fn release_due(desk: &mut BookingDesk, page: &mut Page) -> Result<(), NoMemory>
    requires spelled { AreSpelled desk.old.held }
    ensures spelled { OnOk result (AreSpelled desk.new.held) }
    ensures desk { (calls : List DeskCall) (due : List Booking)
        → desk.old ≡ with_due calls due → AreDue (clock_of calls) due
        → OnOk result (desk.new ≡ desk_after MOST_REQUESTS calls) }
    ensures put { (calls : List DeskCall) (due : List Booking)
        → desk.old ≡ with_due calls due → AreDue (clock_of calls) due
        → PutsOn result page.old.text page.new.text (released_text due) }
{
    while let Some(request) = desk.due() {
        put_request(page, &request)?;
        desk.take_due();
    }
    Ok(())
}

/// Whether the first byte of an over-long line makes it a comment.
fn is_comment(line: &[u8]) -> bool
    ensures { result ≡ begins_with 35 line.now }
{
    match line.first() {
        Some(first) => *first == b'#',
        None => false,
    }
}
