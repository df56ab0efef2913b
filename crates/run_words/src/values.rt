//! The values that words give to options.
ghost use Rattle.std.specs.Prelude.{◌≡◌, ◌≤◌, ◌⊎◌, [], None, Some, true, codes, map, option_and_then, string_bytes, Err, IfOk, MatchResult};
ghost use Rattle.clap.specs.Faults.{is_simple_and_free};
ghost use Rattle.clap.specs.Matches.{first_value, found_of};
ghost use Rattle.clap.specs.Simple.{app_of};
ghost use Rattle.run_words.specs.Words.{number_within, values_of};
ghost use Rattle.run_words.specs.inner.Words.{found_by};

use crate::WordsError;
use clap::error::ErrorKind;
use clap::{ArgMatches, Command};
use line_text::read_number;
use std::alloc::Global;

/// What a command finds in the words, of which it takes the first for its own name.
pub fn read_by<'a>(command: Command<'a>, words: &'a [String]) -> Result<ArgMatches<'a>, WordsError>
    requires simple { is_simple_and_free (app_of command) ≡ true }
    ensures { MatchResult result
        (λ given. found_by (app_of command.entry) given
        ≡ values_of (app_of command.entry) (map string_bytes words.now))
        (λ error. error ≡ WordsError.Refused
        → values_of (app_of command.entry) (map string_bytes words.now) ≡ []) }
{
    match command.try_get_matches_from(words) {
        Ok(given) => Ok(given),
        Err(error) => match error.kind() {
            ErrorKind::OutOfMemory => Err(WordsError::NoMemory),
            _ => Err(WordsError::Refused),
        },
    }
}

/// A copy of an option's value.
pub fn text(alloc: Global, given: &ArgMatches<'_>, option: &str) -> Result<String, WordsError>
    ensures { MatchResult result (λ text. first_value (found_of given.now) option.now
        ≡ Some (string_bytes text))
        (λ error. error ≡ WordsError.Refused → first_value (found_of given.now) option.now ≡ None) }
{
    let Some(text) = given.get_str(option) else {
        return Err(WordsError::Refused);
    };
    match String::from_str(alloc, text) {
        Ok(copy) => Ok(copy),
        Err(_) => Err(WordsError::NoMemory),
    }
}

/// The names of a map, of a fleet file and of one more file.
#[derive(Drop)]
pub struct ThreeNames {
    pub map: String,
    pub fleet: String,
    pub other: String,
}

/// The names of a map and of a fleet file, and of the file that one more option names.
pub fn three_names(
    alloc: Global,
    given: &ArgMatches<'_>,
    option: &str,
) -> Result<ThreeNames, WordsError>
    ensures { MatchResult result
        (λ names. (first_value (found_of given.now) (codes "map") ≡ Some (string_bytes names.map))
        × (first_value (found_of given.now) (codes "fleet") ≡ Some (string_bytes names.fleet))
        × (first_value (found_of given.now) option.now ≡ Some (string_bytes names.other)))
        (λ error. error ≡ WordsError.Refused
        → (first_value (found_of given.now) (codes "map") ≡ None)
        ⊎ (first_value (found_of given.now) (codes "fleet") ≡ None)
        ⊎ (first_value (found_of given.now) option.now ≡ None)) }
{
    let map = text(alloc, given, "map")?;
    let fleet = text(alloc, given, "fleet")?;
    let other = text(alloc, given, option)?;
    Ok(ThreeNames { map, fleet, other })
}

/// The number that an option's value is, where it is one from the least to the most.
pub fn number(
    given: &ArgMatches<'_>,
    option: &str,
    least: u64,
    most: u64,
) -> Result<u64, WordsError>
    ensures number { MatchResult result
        (λ number. option_and_then (number_within least most)
        (first_value (found_of given.now) option.now) ≡ Some number)
        (λ error. option_and_then (number_within least most)
        (first_value (found_of given.now) option.now) ≡ None) }
    ensures within { IfOk result (λ number. (least ≤ number) × (number ≤ most)) }
{
    let Some(text) = given.get_str(option) else {
        return Err(WordsError::Refused);
    };
    match read_number(text.as_bytes()) {
        Some(number) if least <= number && number <= most => Ok(number),
        _ => Err(WordsError::Refused),
    }
}
