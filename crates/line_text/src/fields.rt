//! The fields of a line.
ghost use Rattle.std.specs.Prelude.{◌≡◌, ◌<◌, ◌≤◌, ◌⊎◌, ℕ, List, [], ◌∷◌, length, take, drop, true, IfNone, IfSome, OnSome};
ghost use Rattle.line_text.specs.Fields.{begins_field, begins_with, fields_of, is_blank, is_dropped, is_over_long, numbers_of, runs_of, without_end, words_of};

use crate::read_number;
use arrayvec::ArrayVec;
use std::marker::Model;

/// The fields of a line that are not taken yet: runs of bytes other than space and tab.
#[derive(Drop)]
pub struct Fields<'a> {
    text: &'a [u8],
}

impl<'a> Model for Fields<'a> {
    ghost use Rattle.std.specs.Prelude.{ℕ, List};
    ghost use Rattle.line_text.specs.Fields.{runs_of};

    ghost Value = { List (List ℕ) };

    ghost view = { λ fields. runs_of fields.text.now };
}

impl<'a> Fields<'a> {
    /// The fields of a line.
    pub fn of(line: &'a [u8]) -> Fields<'a>
        ensures { result ≡ fields_of line.now }
    {
        Fields {
            text: trimmed(line),
        }
    }

    /// Takes the first field.
    pub fn next_field(&mut self) -> Option<&'a [u8]>
        ensures none { IfNone result ((self.old ≡ []) × (self.new ≡ [])) }
        ensures first { IfSome result (λ field. self.old ≡ field.now ∷ self.new) }
    {
        self.text = after_blanks(self.text);
        if self.text.is_empty() {
            return None;
        }
        let (field, rest) = self.text.split_at(field_length(self.text));
        self.text = rest;
        Some(field)
    }

    /// Takes the fields as at most N numbers. Where there is None, some of them are taken.
    pub fn numbers<const N: usize>(&mut self) -> Option<ArrayVec<u64, N>>
        ensures numbers { IfSome result (λ numbers. numbers_of self.old ≡ Some numbers.items) }
        ensures all_taken { OnSome result (self.new ≡ []) }
        ensures none { IfNone result (IfSome (numbers_of self.old)
            (λ numbers. N < length numbers)) }
    {
        let mut numbers = ArrayVec::new();
        while let Some(field) = self.next_field() {
            let number = read_number(field)?;
            if numbers.is_full() {
                return None;
            }
            numbers.push(number);
        }
        Some(numbers)
    }
}

/// What a line says in a text with comments: its fields, and none of a comment. A line of more
/// than 200 bytes is handed in as its first 200 and `over`.
pub fn words_of(comment: u8, line: &[u8], over: bool) -> Option<Fields<'_>>
    ensures { (whole : List ℕ) → line.now ≡ take 200 whole → over ≡ is_over_long whole →
        result ≡ words_of comment whole }
{
    if over {
        return if begins_with(comment, line) {
            Some(Fields { text: &[] })
        } else {
            None
        };
    }
    let text = after_blanks(trimmed(line));
    if begins_with(comment, text) {
        Some(Fields { text: &[] })
    } else {
        Some(Fields { text })
    }
}

/// Whether a text begins with a byte.
fn begins_with(byte: u8, text: &[u8]) -> bool
    ensures { result ≡ begins_with byte text.now }
{
    match text.first() {
        Some(first) => *first == byte,
        None => false,
    }
}

/// A line without the run of CR, space and tab at its end.
fn trimmed(line: &[u8]) -> &[u8]
    ensures { result.now ≡ without_end line.now }
{
    let mut end = line.len();
    while end > 0 {
        if !is_dropped(line[end - 1]) {
            return &line[..end];
        }
        end -= 1;
    }
    &[]
}

/// A text without the spaces and tabs in front.
fn after_blanks(text: &[u8]) -> &[u8]
    ensures fields { runs_of result.now ≡ runs_of text.now }
    ensures begins { (result.now ≡ []) ⊎ (begins_field result.now ≡ true) }
{
    for (place, byte) in text.iter().enumerate() {
        if !is_blank(*byte) {
            return &text[place..];
        }
    }
    &[]
}

/// How many bytes stand before the first space or tab.
fn field_length(text: &[u8]) -> usize
    ensures within { result ≤ length text.now }
    ensures field { begins_field text.now ≡ true →
        runs_of text.now ≡ take result text.now ∷ runs_of (drop result text.now) }
    ensures some { begins_field text.now ≡ true → 0 < result }
{
    for (place, byte) in text.iter().enumerate() {
        if is_blank(*byte) {
            return place;
        }
    }
    text.len()
}

/// Space and tab.
fn is_blank(byte: u8) -> bool
    ensures { result ≡ is_blank byte }
{
    byte == b' ' || byte == b'\t'
}

/// What is dropped at a line's end.
fn is_dropped(byte: u8) -> bool
    ensures { result ≡ is_dropped byte }
{
    byte == b'\r' || is_blank(byte)
}
