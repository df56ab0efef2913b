//! The words after the program's name: what they ask for, by the command-line library's own definition of what a command takes. What
//! the programs say on standard error of words, files and logs is its module `run_messages`.
#![tactic(auto)]

ghost use Rattle.std.specs.Prelude.{◌≡◌, [], codes, map, slice_index_or, string_bytes, IfOk};
ghost use Rattle.run_words.specs.declared.words.Word.TheVariants.{Ahead, Audit, Book, Drill, League, Replay, Serve};
ghost use Rattle.run_words.specs.inner.Asks.{IsAskOf, IsInRange};
ghost use Rattle.run_words.specs.Words.{ask_of, asked_by_word, command_by_word, word_of};
ghost use Rattle.run_words.specs.inner.Words.{found_by};

mod commands;
mod resuming;
pub mod run_messages;
mod values;
mod words;

use city_maker::CityPlan;
use clap::ArgMatches;
use commands::command_of;
pub use resuming::{Resumption, read_resumption};
use ride_model::limits::{LONGEST_REACH, MOST_WORKERS};
use std::alloc::Global;
use values::{ThreeNames, number, read_by, text, three_names};
pub use words::{RESUMPTION, Usage, Word};

/// What the words ask for, with a variant a word. Files are told by their names.
#[derive(Drop)]
pub enum Ask {
    Replay {
        map: String,
        fleet: String,
        feed: String,
    },
    Ahead {
        map: String,
        fleet: String,
        feed: String,
        /// In seconds.
        reach: u64,
    },
    Audit {
        map: String,
        fleet: String,
        log: String,
    },
    Serve {
        map: String,
        fleet: String,
        riders: String,
        drivers: String,
        workers: u32,
        desks: u8,
    },
    Drill(CityPlan),
    Book {
        feed: String,
    },
    League {
        map: String,
        fleet: String,
        second: String,
        feed: String,
    },
}

/// Why the words ask for nothing.
#[derive(Clone, Copy, Debug, PartialEq, Eq)]
pub enum WordsError {
    /// They are not in order.
    Refused,
    NoMemory,
}

/// Returns what the words ask for: the first says what, and the others are its options, in any order.
pub fn read_ask(alloc: Global, words: &[String]) -> Result<Ask, WordsError>
    ensures ask { IsAskOf (ask_of (map string_bytes words.now)) result }
    ensures in_range { IfOk result IsInRange }
{
    let Some(word) = first_word(words) else {
        return Err(WordsError::Refused);
    };
    let given = read_by(command_of(alloc, word)?, words)?;
    ask_given(alloc, word, &given)
}

// The first word, where it is one.
fn first_word(words: &[String]) -> Option<Word>
    ensures { result ≡ word_of (slice_index_or (map string_bytes words.now) 0 []) }
{
    if words.is_empty() {
        return None;
    }
    Word::named(words[0].as_str())
}

// What the values of a word's options ask for.
fn ask_given(alloc: Global, word: Word, given: &ArgMatches<'_>) -> Result<Ask, WordsError>
    ensures ask { IsAskOf
        (asked_by_word word (found_by (command_by_word word) given.now)) result }
    ensures in_range { IfOk result IsInRange }
{
    match word {
        Word::Replay => replay_given(alloc, given),
        Word::Ahead => ahead_given(alloc, given),
        Word::Audit => audit_given(alloc, given),
        Word::Serve => serve_given(alloc, given),
        Word::Drill => drill_given(given),
        Word::Book => book_given(alloc, given),
        Word::League => league_given(alloc, given),
    }
}

// The options of a replay.
fn replay_given(alloc: Global, given: &ArgMatches<'_>) -> Result<Ask, WordsError>
    ensures ask { IsAskOf
        (asked_by_word Replay (found_by (command_by_word Replay) given.now)) result }
    ensures in_range { IfOk result IsInRange }
{
    let ThreeNames { map, fleet, other } = three_names(alloc, given, "feed")?;
    Ok(Ask::Replay {
        map,
        fleet,
        feed: other,
    })
}

// The options of idle vehicles sent ahead.
fn ahead_given(alloc: Global, given: &ArgMatches<'_>) -> Result<Ask, WordsError>
    ensures ask { IsAskOf
        (asked_by_word Ahead (found_by (command_by_word Ahead) given.now)) result }
    ensures in_range { IfOk result IsInRange }
{
    let names = three_names(alloc, given, "feed")?;
    let reach = number(given, "reach", 1, LONGEST_REACH)?;
    let ThreeNames { map, fleet, other } = names;
    Ok(Ask::Ahead {
        map,
        fleet,
        feed: other,
        reach,
    })
}

// The options of an audit.
fn audit_given(alloc: Global, given: &ArgMatches<'_>) -> Result<Ask, WordsError>
    ensures ask { IsAskOf
        (asked_by_word Audit (found_by (command_by_word Audit) given.now)) result }
    ensures in_range { IfOk result IsInRange }
{
    let ThreeNames { map, fleet, other } = three_names(alloc, given, "log")?;
    Ok(Ask::Audit {
        map,
        fleet,
        log: other,
    })
}

// The options of a service.
fn serve_given(alloc: Global, given: &ArgMatches<'_>) -> Result<Ask, WordsError>
    ensures ask { IsAskOf
        (asked_by_word Serve (found_by (command_by_word Serve) given.now)) result }
    ensures in_range { IfOk result IsInRange }
{
    let names = three_names(alloc, given, "riders")?;
    let drivers = text(alloc, given, "drivers")?;
    let workers = number(given, "workers", 1, MOST_WORKERS)? as u32;
    let desks = number(given, "desks", 1, 2)? as u8;
    let ThreeNames { map, fleet, other } = names;
    Ok(Ask::Serve {
        map,
        fleet,
        riders: other,
        drivers,
        workers,
        desks,
    })
}

// The options of a drill.
fn drill_given(given: &ArgMatches<'_>) -> Result<Ask, WordsError>
    ensures ask { IsAskOf
        (asked_by_word Drill (found_by (command_by_word Drill) given.now)) result }
    ensures in_range { IfOk result IsInRange }
{
    let side = number(given, "side", 2, 100)? as u32;
    let vehicles = number(given, "vehicles", 0, 1_000)? as u32;
    let requests = number(given, "requests", 0, 16_000)? as u32;
    let seed = number(given, "seed", 0, 2_147_483_647)? as u32;
    Ok(Ask::Drill(CityPlan {
        side,
        vehicles,
        requests,
        seed,
    }))
}

// The option of bookings.
fn book_given(alloc: Global, given: &ArgMatches<'_>) -> Result<Ask, WordsError>
    ensures ask { IsAskOf
        (asked_by_word Book (found_by (command_by_word Book) given.now)) result }
    ensures in_range { IfOk result IsInRange }
{
    let feed = text(alloc, given, "feed")?;
    Ok(Ask::Book { feed })
}

// The options of a league.
fn league_given(alloc: Global, given: &ArgMatches<'_>) -> Result<Ask, WordsError>
    ensures ask { IsAskOf
        (asked_by_word League (found_by (command_by_word League) given.now)) result }
    ensures in_range { IfOk result IsInRange }
{
    let names = three_names(alloc, given, "second")?;
    let feed = text(alloc, given, "feed")?;
    let ThreeNames { map, fleet, other } = names;
    Ok(Ask::League {
        map,
        fleet,
        second: other,
        feed,
    })
}
