//! The words of a session that goes on from its log.
ghost use Rattle.std.specs.Prelude.{◌≤◌, map, string_bytes, IfOk};
ghost use Rattle.run_words.specs.Resumptions.{resumption_asked, resumption_command, resumption_of};
ghost use Rattle.run_words.specs.inner.Resumptions.{IsResumptionOf};
ghost use Rattle.run_words.specs.inner.Words.{found_by};

use crate::WordsError;
use crate::commands::resumption_command;
use crate::values::{ThreeNames, number, read_by, text, three_names};
use clap::ArgMatches;
use ride_model::limits::MOST_WORKERS;
use std::alloc::Global;

/// A session that goes on: its files by their names, and how many workers each desk has.
#[derive(Drop)]
pub struct Resumption {
    pub map: String,
    pub fleet: String,
    /// The log of what was before.
    pub log: String,
    pub riders: String,
    pub drivers: String,
    pub workers: u32,
}

/// Returns the session that the words name: the first is the program's own name, and the others are options, in any order.
pub fn read_resumption(alloc: Global, words: &[String]) -> Result<Resumption, WordsError>
    ensures resumption { IsResumptionOf (resumption_of (map string_bytes words.now)) result }
    ensures workers { IfOk result (λ resumption. (1 ≤ resumption.workers)
        × (resumption.workers ≤ MOST_WORKERS)) }
{
    let given = read_by(resumption_command(alloc)?, words)?;
    resumption_given(alloc, &given)
}

// The session that the values of its options name.
fn resumption_given(alloc: Global, given: &ArgMatches<'_>) -> Result<Resumption, WordsError>
    ensures resumption { IsResumptionOf
        (resumption_asked (found_by resumption_command given.now)) result }
    ensures workers { IfOk result (λ resumption. (1 ≤ resumption.workers)
        × (resumption.workers ≤ MOST_WORKERS)) }
{
    let names = three_names(alloc, given, "log")?;
    let riders = text(alloc, given, "riders")?;
    let drivers = text(alloc, given, "drivers")?;
    let workers = number(given, "workers", 1, MOST_WORKERS)? as u32;
    let ThreeNames { map, fleet, other } = names;
    Ok(Resumption {
        map,
        fleet,
        log: other,
        riders,
        drivers,
        workers,
    })
}
