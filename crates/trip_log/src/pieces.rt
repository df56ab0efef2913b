//! Pieces of a line, put together before they are written.
ghost use Rattle.std.specs.Prelude.{◌≡◌, ◌≤◌, ◌+◌, ◌++◌, length, decimal};
ghost use Rattle.trip_log.specs.inner.Pieces.{bytes_of, piece_bytes, piece_room, room_of};
ghost use Rattle.trip_log.specs.inner.Prints.{Prints};

use arrayvec::ArrayVec;
use line_text::put_number;
use ride_model::Actor;
use ride_ports::{Failed, Sink, write_all};

/// The most bytes that are put together.
pub const MOST_TEXT: usize = 128;

/// A piece of a line.
#[derive(Clone, Copy)]
pub enum Piece<'a> {
    Bytes(&'a [u8]),
    Number(u64),
    /// `f` or `d` and the actor's number.
    By(Actor),
}

/// Prints pieces one after another, put together first: at most 128 bytes, of which a number may take 20.
pub fn print<K: Sink>(pieces: &[Piece<'_>], sink: &mut K) -> Result<(), Failed>
    requires { room_of pieces.now ≤ 128 }
    ensures { Prints result (K.written sink.old) (K.written sink.new) (K.faults sink.old)
        (K.faults sink.new) (bytes_of pieces.now) }
{
    put(text_of(pieces).as_slice(), sink)
}

/// Prints bytes.
pub fn put<K: Sink>(bytes: &[u8], sink: &mut K) -> Result<(), Failed>
    ensures { Prints result (K.written sink.old) (K.written sink.new) (K.faults sink.old)
        (K.faults sink.new) bytes.now }
{
    write_all(sink, bytes)
}

/// The text of pieces: at most 128 bytes, of which a number may take 20.
pub fn text_of(pieces: &[Piece<'_>]) -> ArrayVec<u8, MOST_TEXT>
    requires { room_of pieces.now ≤ 128 }
    ensures { result.items ≡ bytes_of pieces.now }
{
    let mut text = ArrayVec::new();
    for piece in pieces {
        add_piece(&mut text, piece);
    }
    text
}

// Adds a piece at the end.
fn add_piece(text: &mut ArrayVec<u8, MOST_TEXT>, piece: &Piece<'_>)
    requires { length text.old.items + piece_room piece.now ≤ 128 }
    ensures text { text.new.items ≡ text.old.items ++ piece_bytes piece.now }
    ensures room { length text.new.items ≤ length text.old.items + piece_room piece.now }
{
    match piece {
        Piece::Bytes(bytes) => extend(text, bytes),
        Piece::Number(number) => add_number(text, *number),
        Piece::By(Actor::Feed(number)) => {
            extend(text, b"f");
            add_number(text, u64::from(*number));
        }
        Piece::By(Actor::Desk(number)) => {
            extend(text, b"d");
            add_number(text, u64::from(*number));
        }
    }
}

// Adds a number at the end.
fn add_number(text: &mut ArrayVec<u8, MOST_TEXT>, number: u64)
    requires { length text.old.items + 20 ≤ 128 }
    ensures text { text.new.items ≡ text.old.items ++ decimal number }
    ensures room { length text.new.items ≤ length text.old.items + 20 }
{
    let digits = put_number(number);
    extend(text, digits.as_slice());
}

// Adds bytes at the end.
fn extend(text: &mut ArrayVec<u8, MOST_TEXT>, bytes: &[u8])
    requires { length text.old.items + length bytes.now ≤ 128 }
    ensures text { text.new.items ≡ text.old.items ++ bytes.now }
    ensures room { length text.new.items ≡ length text.old.items + length bytes.now }
{
    let _ = text.try_extend_from_slice(bytes);
}
