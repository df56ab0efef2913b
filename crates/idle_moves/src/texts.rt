//! The lines of sheets.
ghost use Rattle.std.specs.Prelude.{◌≡◌, ◌++◌, ◌∷◌, [], ℕ, List, codes, decimal};
ghost use Rattle.trip_log.specs.inner.Prints.{Prints, fields_then};
ghost use Rattle.idle_moves.specs.AheadText.{head_line, order_field, sheet_line};
ghost use Rattle.idle_moves.specs.inner.AheadText.{last_line};

use crate::{Move, MoveSheet};
use arrayvec::ArrayVec;
use ride_model::Ending;
use ride_ports::{Failed, Sink};
use trip_log::lists::{AmountText, Spelling, print_list};
use trip_log::pieces::{MOST_TEXT, Piece, print, put, text_of};

/// Orders.
struct OrderText;

impl Spelling<Move> for OrderText {
    ghost field = { λ order. order_field order };

    fn text(item: &Move) -> ArrayVec<u8, MOST_TEXT> {
        text_of(&[
            Piece::Bytes(b" "),
            Piece::Number(item.request),
            Piece::Bytes(b":"),
            Piece::Number(item.vehicle),
            Piece::Bytes(b"@"),
            Piece::Number(item.version),
            Piece::Bytes(b":"),
            Piece::Number(u64::from(item.node)),
            Piece::Bytes(b":"),
            Piece::Number(item.seconds),
        ])
    }
}

/// Prints the first line of a text of sheets: its version, and the reach in seconds.
pub fn print_head<K: Sink>(reach: u64, sink: &mut K) -> Result<(), Failed>
    ensures { Prints result (K.written sink.old) (K.written sink.new) (K.faults sink.old)
        (K.faults sink.new) (head_line reach) }
{
    print(
        &[
            Piece::Bytes(b"ahead 1 reach "),
            Piece::Number(reach),
            Piece::Bytes(b"\n"),
        ],
        sink,
    )
}

/// Prints the line of a sheet.
pub fn print_sheet<K: Sink>(sheet: &MoveSheet, sink: &mut K) -> Result<(), Failed>
    ensures { Prints result (K.written sink.old) (K.written sink.new) (K.faults sink.old)
        (K.faults sink.new) (sheet_line sheet.now) }
{
    print_start(sheet.batch, sheet.cost, sink)?;
    print_list::<OrderText, Move, K>(b" goes", sheet.moves.items(), sink)?;
    print_list::<AmountText, (u64, u64), K>(b" prices", sheet.prices.items(), sink)?;
    print_list::<AmountText, (u64, u64), K>(b" pays", sheet.pays.items(), sink)?;
    put(b"\n", sink)
}

/// Prints the last line of a text of sheets: whether the feed was read whole, or was cut.
pub fn print_end<K: Sink>(ending: Ending, sink: &mut K) -> Result<(), Failed>
    ensures { Prints result (K.written sink.old) (K.written sink.new) (K.faults sink.old)
        (K.faults sink.new) (last_line ending) }
{
    put(end_line(ending), sink)
}

// The last line of a text of sheets.
fn end_line(ending: Ending) -> &'static [u8]
    ensures { result.now ≡ last_line ending }
{
    match ending {
        Ending::Whole => b"end\n",
        Ending::Cut => b"cut\n",
    }
}

// Prints the start of a sheet's line.
fn print_start<K: Sink>(batch: u64, cost: u64, sink: &mut K) -> Result<(), Failed>
    ensures { Prints result (K.written sink.old) (K.written sink.new)
        (K.faults sink.old) (K.faults sink.new)
        (codes "moves" ++ fields_then (decimal batch ∷ codes "cost" ∷ decimal cost ∷ []) []) }
{
    print(
        &[
            Piece::Bytes(b"moves "),
            Piece::Number(batch),
            Piece::Bytes(b" cost "),
            Piece::Number(cost),
        ],
        sink,
    )
}
