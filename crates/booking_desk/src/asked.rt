//! What a line asks of a desk.
ghost use Rattle.std.specs.Prelude.{◌≡◌, ◌∷◌, ℕ, List, IfSome, None, Some, if◌then◌else◌, nat_lt, option_and_then, option_map};
ghost use Rattle.line_text.specs.Fields.{fields_of, numbers_of};
ghost use Rattle.ride_model.specs.Text.{IsSpelled, IsSpelledCommand};
ghost use Rattle.booking_desk.specs.inner.Asked.{IsSpelledAsked, as_call};
ghost use Rattle.ride_model.specs.declared.limits.TheConstants.{LATEST_TIME};
ghost use Rattle.booking_desk.specs.BookLines.{booking_of, by_one, call_of_fields};
ghost use Rattle.booking_desk.specs.Released.{clock, unbook};

use line_text::Fields;
use ride_model::Command;
use ride_model::limits::LATEST_TIME;

/// What a line asks of a desk.
#[derive(Clone, Copy)]
pub(crate) enum Asked {
    /// To book a request for a release.
    Book { release: u64, request: Command },
    /// To give up the booking of an id.
    Unbook { id: u64 },
    /// To set the clock.
    Clock { time: u64 },
}

/// What a line of at most 200 bytes asks of a desk.
pub(crate) fn asked_by(line: &[u8]) -> Option<Asked>
    ensures call { option_map as_call result ≡ call_of_fields (fields_of line.now) }
    ensures spelled { IfSome result IsSpelledAsked }
{
    let mut fields = Fields::of(line);
    let word = fields.next_field()?;
    if word == b"book".as_slice() {
        return booking_of(&mut fields);
    }
    if word == b"unbook".as_slice() {
        return unbooking_of(&mut fields);
    }
    if word == b"clock".as_slice() {
        return moment_of(&mut fields);
    }
    None
}

/// The booking of a release and the numbers of a request.
fn booking_of(fields: &mut Fields<'_>) -> Option<Asked>
    ensures call { option_map as_call result ≡ option_and_then booking_of (numbers_of fields.old) }
    ensures spelled { IfSome result IsSpelledAsked }
{
    let numbers = fields.numbers::<8>()?;
    match numbers.as_slice() {
        [release, id, from, to, seats, latest, longest] => Some(Asked::Book {
            release: *release,
            request: Command::Request {
                id: *id,
                from: *from,
                to: *to,
                seats: *seats,
                latest: *latest,
                longest: *longest,
                chairs: 0,
            },
        }),
        [release, id, from, to, seats, latest, longest, chairs] => Some(Asked::Book {
            release: *release,
            request: Command::Request {
                id: *id,
                from: *from,
                to: *to,
                seats: *seats,
                latest: *latest,
                longest: *longest,
                chairs: *chairs,
            },
        }),
        _ => None,
    }
}

/// The unbooking of an id.
fn unbooking_of(fields: &mut Fields<'_>) -> Option<Asked>
    ensures call { option_map as_call result
        ≡ option_and_then (by_one (λ id. Some (unbook id))) (numbers_of fields.old) }
    ensures spelled { IfSome result IsSpelledAsked }
{
    let numbers = fields.numbers::<1>()?;
    match numbers.as_slice() {
        [id] => Some(Asked::Unbook { id: *id }),
        _ => None,
    }
}

/// The moment of a time that is in its range.
fn moment_of(fields: &mut Fields<'_>) -> Option<Asked>
    ensures call { option_map as_call result ≡ option_and_then (by_one (λ time.
        if nat_lt LATEST_TIME time then None else Some (clock time))) (numbers_of fields.old) }
    ensures spelled { IfSome result IsSpelledAsked }
{
    let numbers = fields.numbers::<1>()?;
    match numbers.as_slice() {
        [time] if *time <= LATEST_TIME => Some(Asked::Clock { time: *time }),
        _ => None,
    }
}
