//! Replies, read from the fields of a line.
ghost use Rattle.std.specs.Prelude.{◌≡◌, ◌≤◌, length};
ghost use Rattle.trip_log.specs.inner.Reads.{broken_from, late_from, numbered_reply, plain_reply, reply_from, short_reply};

use crate::items::take_number;
use line_text::{Fields, read_number};
use ride_model::limits::MOST_RIDES;
use ride_model::{Ids, Reply};

/// The reply that the fields spell.
pub(crate) fn read_reply(fields: &mut Fields<'_>) -> Option<Reply>
    ensures { result ≡ reply_from fields.old }
{
    let word = fields.next_field()?;
    if word == b"late".as_slice() {
        read_late(fields)
    } else {
        read_short(word, fields)
    }
}

// A reply that is a word and at most one number.
fn read_short(word: &[u8], fields: &mut Fields<'_>) -> Option<Reply>
    ensures { result ≡ short_reply word.now fields.old }
{
    let Some(field) = fields.next_field() else {
        return plain_reply(word);
    };
    if fields.next_field().is_some() {
        return None;
    }
    let number = read_number(field)?;
    numbered_reply(word, number)
}

fn plain_reply(word: &[u8]) -> Option<Reply>
    ensures { result ≡ plain_reply word.now }
{
    if word == b"waiting".as_slice() {
        return Some(Reply::Waiting);
    }
    if word == b"cancelled".as_slice() {
        return Some(Reply::Cancelled);
    }
    if word == b"onmap".as_slice() {
        return Some(Reply::OnMap);
    }
    if word == b"duty".as_slice() {
        return Some(Reply::Duty);
    }
    None
}

fn numbered_reply(word: &[u8], number: u64) -> Option<Reply>
    ensures { result ≡ numbered_reply word.now number }
{
    if word == b"freed".as_slice() {
        return Some(Reply::Freed { vehicle: number });
    }
    if word == b"picked".as_slice() {
        return Some(Reply::Picked { ride: number });
    }
    if word == b"dropped".as_slice() {
        return Some(Reply::Dropped { ride: number });
    }
    if word == b"now".as_slice() {
        return Some(Reply::Now { time: number });
    }
    if word == b"asked".as_slice() {
        return Some(Reply::Asked { count: number });
    }
    if word == b"refused".as_slice() && number < 256 {
        return Some(Reply::Refused { code: number as u8 });
    }
    None
}

// How late a report is, and the rides that it breaks.
fn read_late(fields: &mut Fields<'_>) -> Option<Reply>
    ensures { result ≡ late_from fields.old }
{
    let seconds = take_number(fields)?;
    let broken = read_broken(fields)?;
    Some(Reply::Late { seconds, broken })
}

// The rides that a late report breaks: none, or those after the word.
fn read_broken(fields: &mut Fields<'_>) -> Option<Ids>
    ensures { result ≡ broken_from fields.old }
{
    let Some(word) = fields.next_field() else {
        return Some(Ids::new());
    };
    if word != b"broken".as_slice() {
        return None;
    }
    let ids = fields.numbers::<{ MOST_RIDES }>()?;
    Some(ids_of(ids.as_slice()))
}

// A list of these ids.
fn ids_of(ids: &[u64]) -> Ids
    requires { length ids.now ≤ MOST_RIDES }
    ensures { result ≡ ids.now }
{
    let mut list = Ids::new();
    for id in ids {
        list.push(*id);
    }
    list
}
