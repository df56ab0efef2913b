//! What is wrong with words behind the first one, by the list of options with what each takes.
use crate::run_messages::shown::Shown;
use line_text::read_number;
use std::fmt::{self, Display, Formatter};

/// What is wrong with words, as far as it is looked for here.
#[derive(Clone, Copy, Drop)]
pub enum Fault<'a> {
    Stray(&'a str),
    Unknown(&'a str),
    Twice(&'a str),
    NoValue(&'a str),
    /// A word stands in a value's place that begins with a hyphen, by which it would be an option.
    Hyphen { option: &'a str, value: &'a str },
    NoNumber(GivenNumber<'a>),
    OutOfRange(GivenNumber<'a>),
    Missing(&'a str),
    Other,
}

/// What is given to an option that takes a number, and its range.
#[derive(Clone, Copy, Drop)]
pub struct GivenNumber<'a> {
    option: &'a str,
    value: &'a str,
    range: &'a str,
}

impl Display for Fault<'_> {
    fn fmt<W: fmt::Write>(&self, f: &mut Formatter<W>) -> fmt::Result {
        match *self {
            Fault::Stray(word) => write!(f, "{} is no option", shown(word)),
            Fault::Unknown(option) => write!(f, "no such option: {}", shown(option)),
            Fault::Twice(option) => write!(f, "{option} stands twice"),
            Fault::NoValue(option) => write!(f, "{option} has no value"),
            Fault::Hyphen { option, value } => {
                let value = shown(value);
                write!(
                    f,
                    "{option} has no value, since {value} begins with a hyphen: {option}={value} gives it"
                )
            }
            Fault::NoNumber(given) => given.tell("is no number of 1 to 18 digits within", f),
            Fault::OutOfRange(given) => given.tell("is not within", f),
            Fault::Missing(option) => write!(f, "{option} is missing"),
            Fault::Other => f.write_str("words are not in order"),
        }
    }
}

impl GivenNumber<'_> {
    fn tell<W: fmt::Write>(&self, what: &str, f: &mut Formatter<W>) -> fmt::Result {
        let GivenNumber {
            option,
            value,
            range,
        } = *self;
        let value = shown(value);
        write!(f, "{option} {value} {what} {range}")
    }
}

fn shown(word: &str) -> Shown<'_> {
    Shown(word.as_bytes())
}

/// Returns the first fault of the words behind the first one, and else an option that is missing.
pub fn fault_of<'a>(words: &'a [String], options: &'a str) -> Fault<'a> {
    let mut open: Option<&'a str> = None;
    for (place, word) in words.iter().enumerate().skip(1) {
        let word = word.as_str();
        let fault = match open {
            Some(option) => fault_behind(option, word, options),
            None => fault_at(words, place, word, options),
        };
        if let Some(fault) = fault {
            return fault;
        }
        open = match open {
            Some(_) => None,
            None => opened_by(word),
        };
    }
    match open {
        Some(option) => Fault::NoValue(option),
        None => missing_in(words, options),
    }
}

// What is wrong with the word behind an option, which is its value unless it begins as an option does.
fn fault_behind<'a>(option: &'a str, word: &'a str, options: &'a str) -> Option<Fault<'a>> {
    if !word.starts_with('-') || word == "-" {
        return fault_of_value(option, word, options);
    }
    if word.starts_with("--") && is_among(option_in(word).0, options) {
        return Some(Fault::NoValue(option));
    }
    let joined = Fault::Hyphen {
        option,
        value: word,
    };
    Some(fault_of_value(option, word, options).unwrap_or(joined))
}

// What is wrong with the word of this place where an option may stand, with or without a value that is joined to it.
fn fault_at<'a>(
    words: &'a [String],
    place: usize,
    word: &'a str,
    options: &'a str,
) -> Option<Fault<'a>> {
    let (option, value) = option_in(word);
    match (fault_of_option(words, place, option, options), value) {
        (None, Some(value)) => fault_of_value(option, value, options),
        (fault, _) => fault,
    }
}

// The option that waits for its value.
fn opened_by(word: &str) -> Option<&str> {
    match option_in(word) {
        (option, None) => Some(option),
        _ => None,
    }
}

// An option with the value that is joined to it, if there is one.
fn option_in(word: &str) -> (&str, Option<&str>) {
    match word.split_once('=') {
        Some((option, value)) => (option, Some(value)),
        None => (word, None),
    }
}

// Whether an option may stand here.
fn fault_of_option<'a>(
    words: &'a [String],
    place: usize,
    option: &'a str,
    options: &'a str,
) -> Option<Fault<'a>> {
    if !option.starts_with("--") {
        return Some(Fault::Stray(option));
    }
    if !is_among(option, options) {
        return Some(Fault::Unknown(option));
    }
    for earlier in words.iter().take(place).skip(1) {
        let (other, _) = option_in(earlier.as_str());
        if other == option {
            return Some(Fault::Twice(option));
        }
    }
    None
}

// Whether an option may have a value: a range is two numbers with two dots between them, and every other word means any text.
fn fault_of_value<'a>(option: &'a str, value: &'a str, options: &'a str) -> Option<Fault<'a>> {
    let range = range_of(option, options)?;
    let (least, most) = range.split_once("..")?;
    let given = GivenNumber {
        option,
        value,
        range,
    };
    match (number_in(value), number_in(least), number_in(most)) {
        (None, _, _) => Some(Fault::NoNumber(given)),
        (Some(number), Some(least), Some(most)) if least <= number && number <= most => None,
        _ => Some(Fault::OutOfRange(given)),
    }
}

fn number_in(text: &str) -> Option<u64> {
    read_number(text.as_bytes())
}

fn is_among(option: &str, options: &str) -> bool {
    range_of(option, options).is_some()
}

// What stands behind an option in the list of options.
fn range_of<'a>(option: &str, options: &'a str) -> Option<&'a str> {
    let mut found = false;
    for word in options.split_whitespace() {
        if found {
            return Some(word);
        }
        found = word == option;
    }
    None
}

// The first option that no word names.
fn missing_in<'a>(words: &'a [String], options: &'a str) -> Fault<'a> {
    for option in options.split_whitespace() {
        if option.starts_with("--") && !is_named(words, option) {
            return Fault::Missing(option);
        }
    }
    Fault::Other
}

fn is_named(words: &[String], option: &str) -> bool {
    for word in words.iter() {
        let (name, _) = option_in(word.as_str());
        if name == option {
            return true;
        }
    }
    false
}
