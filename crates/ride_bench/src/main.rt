//! Times the parts of the dispatcher whose speed matters, each by a word: `new_york` for rows of travel times, `hierarchy MAP` for rows
//! by a hierarchy of `new_york`, of a `lattice` or of a `random` map, `read_map FILE` for the reading of a map, `grids` for least
//! pairings, `places` for the cheapest places in a plan, `shared` for calls of a board that threads share, `bookings` for a day of
//! bookings. With no word it prints the answers of small ones, with no times.
#![tactic(auto)]

mod assignment;
mod boards;
mod bookings;
mod grid;
mod hierarchies;
mod places;
mod reading;
mod rows;
mod shared;
mod sources;
mod stopwatch;

use anyhow::{Error, Result, anyhow};
use std::alloc::Global;
use std::rt::{Clock, Env, Files};
use std::sync::Wait;
use std::thread::Threads;
use std::time::Instant;
use std::{env, io};

/// Prints the answers of small pairings, plans, boards and desks.
fn small_parts<R: Clock + Print + Threads + Wait + Sync>(rt: &R, alloc: Global) -> io::Result<()> {
    assignment::product(rt, alloc)?;
    places::small(rt)?;
    shared::small(rt, alloc)?;
    bookings::small(rt, alloc)
}

/// Prints the answers of small ones.
fn small<R: Clock + Print + Threads + Wait + Sync>(rt: &R, alloc: Global) -> Result<()> {
    rows::small(rt, alloc)?;
    hierarchies::small(rt, alloc)?;
    Ok(small_parts(rt, alloc)?)
}

/// The refusal of words that ask for nothing.
fn refused() -> Error {
    anyhow!(
        "bookings, grids, hierarchy and a map, new_york, places, shared, or read_map and a file's name"
    )
}

/// Times what a word alone asks for.
fn timed<R: Clock + Print + Threads + Wait + Sync>(
    rt: &R,
    alloc: Global,
    word: &str,
) -> Result<()> {
    let done = match word {
        "bookings" => bookings::bookings(rt, alloc),
        "grids" => assignment::grids(rt, alloc),
        "places" => places::places(rt),
        "shared" => shared::shared(rt, alloc),
        "new_york" => rows::new_york(rt, alloc),
        _ => return Err(refused()),
    };
    Ok(done?)
}

/// Times what a word asks for of a name.
fn timed_by_name<R: Clock + Print + Files + AllocGlobal>(
    rt: &R,
    alloc: Global,
    word: &str,
    name: String,
) -> Result<()>
where
    R::File: Send,
{
    match word {
        "hierarchy" => hierarchies::hierarchy(rt, alloc, name.as_str()),
        "read_map" => reading::time_map(rt, alloc, name),
        _ => Err(refused()),
    }
}

fn run<R: Clock + Print + Env + Files + Threads + Wait + Sync + AllocGlobal>(
    rt: &R,
    alloc: Global,
) -> Result<()>
where
    R::File: Send,
{
    // A clock that cannot be read is told here, before anything is timed.
    let _now = Instant::now(rt)?;
    let mut words = env::args(rt)?.skip(1);
    let Some(word) = words.next() else {
        return small(rt, alloc);
    };
    match words.next() {
        None => timed(rt, alloc, word.as_str()),
        Some(name) => timed_by_name(rt, alloc, word.as_str(), name),
    }
}

fn main(rt: HostRuntime) -> Result<()> {
    let alloc = rt.alloc();
    run(&rt, alloc)
}
