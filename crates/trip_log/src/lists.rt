//! The lists of a line: a word, and items with a blank before each.
ghost use Rattle.std.specs.Prelude.{◌≡◌, ◌++◌, ◌∷◌, ℕ, List, decimal};
ghost use Rattle.ride_model.specs.Text.{amount_field, outcome_field, plan_field, seat_field};
ghost use Rattle.trip_log.specs.inner.Prints.{Prints, listed};

use crate::pieces::{MOST_TEXT, Piece, put, text_of};
use arrayvec::ArrayVec;
use ride_model::{Outcome, Seat};
use ride_ports::{Failed, Sink};

/// How the items of a list are spelled.
pub trait Spelling<T> {
    // An item's field.
    ghost field: { T → List ℕ };

    /// A blank and the item.
    fn text(item: &T) -> ArrayVec<u8, MOST_TEXT>
        ensures { result.items ≡ 32 ∷ field item.now };
}

/// Ids.
pub struct IdText;

/// Vehicles' ids with their versions.
pub struct PlanText;

/// Seats.
pub struct SeatText;

/// Ids with their amounts.
pub struct AmountText;

/// Requests' ids with their outcomes.
pub struct OutcomeText;

impl Spelling<u64> for IdText {
    ghost field = { λ id. decimal id };

    fn text(item: &u64) -> ArrayVec<u8, MOST_TEXT> {
        text_of(&[Piece::Bytes(b" "), Piece::Number(*item)])
    }
}

impl Spelling<(u64, u64)> for PlanText {
    ghost field = { λ plan. plan_field plan };

    fn text(item: &(u64, u64)) -> ArrayVec<u8, MOST_TEXT> {
        text_of(&[
            Piece::Bytes(b" "),
            Piece::Number(item.0),
            Piece::Bytes(b"@"),
            Piece::Number(item.1),
        ])
    }
}

impl Spelling<Seat> for SeatText {
    ghost field = { λ seat. seat_field seat };

    fn text(item: &Seat) -> ArrayVec<u8, MOST_TEXT> {
        text_of(&[
            Piece::Bytes(b" "),
            Piece::Number(item.request),
            Piece::Bytes(b":"),
            Piece::Number(item.vehicle),
            Piece::Bytes(b":"),
            Piece::Number(u64::from(item.i)),
            Piece::Bytes(b":"),
            Piece::Number(u64::from(item.j)),
        ])
    }
}

impl Spelling<(u64, u64)> for AmountText {
    ghost field = { λ amount. amount_field amount };

    fn text(item: &(u64, u64)) -> ArrayVec<u8, MOST_TEXT> {
        text_of(&[
            Piece::Bytes(b" "),
            Piece::Number(item.0),
            Piece::Bytes(b":"),
            Piece::Number(item.1),
        ])
    }
}

impl Spelling<(u64, Outcome)> for OutcomeText {
    ghost field = { λ item. outcome_field item };

    fn text(item: &(u64, Outcome)) -> ArrayVec<u8, MOST_TEXT> {
        let blank = Piece::Bytes(b" ");
        let id = Piece::Number(item.0);
        match item.1 {
            Outcome::Confirmed => text_of(&[blank, id, Piece::Bytes(b":confirmed")]),
            Outcome::Away => text_of(&[blank, id, Piece::Bytes(b":away")]),
            Outcome::Gone => text_of(&[blank, id, Piece::Bytes(b":gone")]),
            Outcome::Moved { named, stands } => text_of(&[
                blank,
                id,
                Piece::Bytes(b":moved:"),
                Piece::Number(named),
                Piece::Bytes(b":"),
                Piece::Number(stands),
            ]),
            Outcome::Behind { start, now } => text_of(&[
                blank,
                id,
                Piece::Bytes(b":behind:"),
                Piece::Number(start),
                Piece::Bytes(b":"),
                Piece::Number(now),
            ]),
        }
    }
}

/// Prints a blank and a word, and after them the items.
pub fn print_list<S: Spelling<T>, T, K: Sink>(
    word: &[u8],
    items: &[T],
    sink: &mut K,
) -> Result<(), Failed>
    ensures { Prints result (K.written sink.old) (K.written sink.new)
        (K.faults sink.old) (K.faults sink.new)
        (word.now ++ listed S.field items.now) }
{
    put(word, sink)?;
    print_items::<S, T, K>(items, sink)
}

// Prints items, each after a blank.
fn print_items<S: Spelling<T>, T, K: Sink>(items: &[T], sink: &mut K) -> Result<(), Failed>
    ensures { Prints result (K.written sink.old) (K.written sink.new)
        (K.faults sink.old) (K.faults sink.new)
        (listed S.field items.now) }
{
    for item in items {
        print_item::<S, T, K>(item, sink)?;
    }
    Ok(())
}

// Prints a blank and an item.
fn print_item<S: Spelling<T>, T, K: Sink>(item: &T, sink: &mut K) -> Result<(), Failed>
    ensures { Prints result (K.written sink.old) (K.written sink.new)
        (K.faults sink.old) (K.faults sink.new)
        (32 ∷ S.field item.now) }
{
    put(S::text(item).as_slice(), sink)
}
