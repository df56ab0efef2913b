//! The items of a line's lists, read from its fields.
ghost use Rattle.std.specs.Prelude.{◌≡◌, ◌∷◌, ℕ, List, [], Option, None, Some, IfOk, MatchBool, MatchOption};
ghost use Rattle.line_text.specs.Numbers.{number_of};
ghost use Rattle.trip_log.specs.inner.Items.{after_word, items_of, last_list, list_then, number_then, only_number};
ghost use Rattle.trip_log.specs.inner.Items.{made_from, numbered_outcome, outcome_from, pair_from, place_from, places_from};
ghost use Rattle.trip_log.specs.inner.Items.{seat_from, seated_from, told_from};

use crate::cutting::cut;
use line_text::{Fields, read_number};
use ride_model::{ItemList, NoMemory, Outcome, Seat};
use std::alloc::Global;

/// How the items of a list are read.
pub(crate) trait Reading<T> {
    // The item that a field spells.
    ghost item_from: { List ℕ → Option T };

    fn read(field: &[u8]) -> Option<T>
        ensures { result ≡ item_from field.now };
}

/// Ids.
pub(crate) struct ReadId;

/// Vehicles' ids with their versions.
pub(crate) struct ReadPlan;

/// Seats.
pub(crate) struct ReadSeat;

/// Ids with their amounts.
pub(crate) struct ReadAmount;

/// Requests' ids with their outcomes.
pub(crate) struct ReadOutcome;

impl Reading<u64> for ReadId {
    ghost item_from = { number_of };

    fn read(field: &[u8]) -> Option<u64> {
        read_number(field)
    }
}

impl Reading<(u64, u64)> for ReadPlan {
    ghost item_from = { pair_from 64 };

    fn read(field: &[u8]) -> Option<(u64, u64)> {
        read_pair(field, b'@')
    }
}

impl Reading<Seat> for ReadSeat {
    ghost item_from = { seat_from };

    fn read(field: &[u8]) -> Option<Seat> {
        let (request, seated) = cut(field, b':')?;
        read_seated(read_number(request)?, seated)
    }
}

impl Reading<(u64, u64)> for ReadAmount {
    ghost item_from = { pair_from 58 };

    fn read(field: &[u8]) -> Option<(u64, u64)> {
        read_pair(field, b':')
    }
}

impl Reading<(u64, Outcome)> for ReadOutcome {
    ghost item_from = { outcome_from };

    fn read(field: &[u8]) -> Option<(u64, Outcome)> {
        let (id, made) = cut(field, b':')?;
        Some((read_number(id)?, read_made(made)?))
    }
}

// Two numbers with a byte between them.
fn read_pair(text: &[u8], byte: u8) -> Option<(u64, u64)>
    ensures { result ≡ pair_from byte text.now }
{
    let (first, second) = cut(text, byte)?;
    Some((read_number(first)?, read_number(second)?))
}

// A request's seat, from the vehicle on.
fn read_seated(request: u64, text: &[u8]) -> Option<Seat>
    ensures { result ≡ seated_from request text.now }
{
    let (vehicle, places) = cut(text, b':')?;
    let vehicle = read_number(vehicle)?;
    let (i, j) = read_places(places)?;
    Some(Seat {
        request,
        vehicle,
        i,
        j,
    })
}

// Two places with a colon between them.
fn read_places(text: &[u8]) -> Option<(u32, u32)>
    ensures { result ≡ places_from text.now }
{
    let (i, j) = cut(text, b':')?;
    Some((read_place(i)?, read_place(j)?))
}

fn read_place(text: &[u8]) -> Option<u32>
    ensures { result ≡ place_from text.now }
{
    let number = read_number(text)?;
    if number > u64::from(u32::MAX) {
        return None;
    }
    Some(number as u32)
}

fn read_made(text: &[u8]) -> Option<Outcome>
    ensures { result ≡ made_from text.now }
{
    if text == b"confirmed".as_slice() {
        return Some(Outcome::Confirmed);
    }
    if text == b"away".as_slice() {
        return Some(Outcome::Away);
    }
    if text == b"gone".as_slice() {
        return Some(Outcome::Gone);
    }
    read_told(text)
}

// An outcome that has two numbers.
fn read_told(text: &[u8]) -> Option<Outcome>
    ensures { result ≡ told_from text.now }
{
    let (word, numbers) = cut(text, b':')?;
    let (first, second) = read_pair(numbers, b':')?;
    numbered_outcome(word, first, second)
}

fn numbered_outcome(word: &[u8], first: u64, second: u64) -> Option<Outcome>
    ensures { result ≡ numbered_outcome word.now (first, second) }
{
    if word == b"moved".as_slice() {
        return Some(Outcome::Moved {
            named: first,
            stands: second,
        });
    }
    if word == b"behind".as_slice() {
        return Some(Outcome::Behind {
            start: first,
            now: second,
        });
    }
    None
}

/// Takes a word, and says whether it is this one.
pub(crate) fn take_word(fields: &mut Fields<'_>, word: &[u8]) -> bool
    ensures { MatchBool result (after_word word.now fields.old ≡ Some fields.new)
        (after_word word.now fields.old ≡ None) }
{
    match fields.next_field() {
        Some(field) => field == word,
        None => false,
    }
}

/// Takes a number.
pub(crate) fn take_number(fields: &mut Fields<'_>) -> Option<u64>
    ensures { MatchOption result (number_then fields.old ≡ None)
        (λ n. number_then fields.old ≡ Some (n, fields.new)) }
{
    let field = fields.next_field()?;
    read_number(field)
}

/// The one number that is left.
pub(crate) fn only_number(fields: &mut Fields<'_>) -> Option<u64>
    ensures { result ≡ only_number fields.old }
{
    let field = fields.next_field()?;
    if fields.next_field().is_some() {
        return None;
    }
    read_number(field)
}

/// Takes the items up to a word, and the word.
pub(crate) fn take_list<R: Reading<T>, T: Drop>(
    alloc: Global,
    fields: &mut Fields<'_>,
    word: &[u8],
) -> Result<Option<ItemList<T>>, NoMemory>
    ensures { IfOk result (λ list.
        MatchOption list (list_then R.item_from word.now fields.old ≡ None)
        (λ items. list_then R.item_from word.now fields.old ≡ Some (items, fields.new))) }
{
    let (items, end) = take_items::<R, T>(alloc, fields)?;
    match end {
        Some(field) if field == word => Ok(Some(items)),
        _ => Ok(None),
    }
}

/// Takes the items that all the fields are.
pub(crate) fn take_last_list<R: Reading<T>, T: Drop>(
    alloc: Global,
    fields: &mut Fields<'_>,
) -> Result<Option<ItemList<T>>, NoMemory>
    ensures { IfOk result (λ list. list ≡ last_list R.item_from fields.old) }
{
    let (items, end) = take_items::<R, T>(alloc, fields)?;
    match end {
        Some(_) => Ok(None),
        None => Ok(Some(items)),
    }
}

// Takes the items up to the first field that is none, and that field.
fn take_items<'a, R: Reading<T>, T: Drop>(
    alloc: Global,
    fields: &mut Fields<'a>,
) -> Result<(ItemList<T>, Option<&'a [u8]>), NoMemory>
    ensures { IfOk result (λ taken.
        MatchOption taken.1 (items_of R.item_from fields.old ≡ (taken.0, []))
        (λ field. items_of R.item_from fields.old ≡ (taken.0, field.now ∷ fields.new))) }
{
    let mut items = Vec::new(alloc);
    while let Some(field) = fields.next_field() {
        match R::read(field) {
            Some(item) => items.push(item)?,
            None => return Ok((ItemList::of(items), Some(field))),
        }
    }
    Ok((ItemList::of(items), None))
}
