//! The commands that read the words of each first word.
ghost use Rattle.std.specs.Prelude.{◌≡◌, codes, false, Err, IfOk, OnErr};
ghost use Rattle.clap.specs.Simple.{app_of, with_rule};
ghost use Rattle.clap.specs.Walk.{rule_of};
ghost use Rattle.run_words.specs.declared.words.Word.TheVariants.{Ahead, Audit, Book, Drill, League, Replay, Serve};
ghost use Rattle.run_words.specs.Resumptions.{resumption_command};
ghost use Rattle.run_words.specs.Words.{command_by_word};
ghost use Rattle.run_words.specs.inner.Words.{bare_command, option_rule};

use crate::{Word, WordsError};
use clap::{Arg, ArgAction, Command};
use std::alloc::Global;

/// The command of a word.
pub fn command_of<'a>(alloc: Global, word: Word) -> Result<Command<'a>, WordsError>
    ensures command { IfOk result (λ command. app_of command ≡ command_by_word word) }
    ensures stopped { OnErr result (result ≡ Err WordsError.NoMemory) }
{
    match word {
        Word::Replay => replay_command(alloc),
        Word::Ahead => ahead_command(alloc),
        Word::Audit => audit_command(alloc),
        Word::Serve => serve_command(alloc),
        Word::Drill => drill_command(alloc),
        Word::Book => book_command(alloc),
        Word::League => league_command(alloc),
    }
}

// The command of a replay.
fn replay_command<'a>(alloc: Global) -> Result<Command<'a>, WordsError>
    ensures command { IfOk result (λ command. app_of command ≡ command_by_word Replay) }
    ensures stopped { OnErr result (result ≡ Err WordsError.NoMemory) }
{
    let command = over_map_and_fleet(alloc, "replay")?;
    with_option(command, alloc, "feed")
}

// The command of an audit.
fn audit_command<'a>(alloc: Global) -> Result<Command<'a>, WordsError>
    ensures command { IfOk result (λ command. app_of command ≡ command_by_word Audit) }
    ensures stopped { OnErr result (result ≡ Err WordsError.NoMemory) }
{
    let command = over_map_and_fleet(alloc, "audit")?;
    with_option(command, alloc, "log")
}

// The command of a service.
fn serve_command<'a>(alloc: Global) -> Result<Command<'a>, WordsError>
    ensures command { IfOk result (λ command. app_of command ≡ command_by_word Serve) }
    ensures stopped { OnErr result (result ≡ Err WordsError.NoMemory) }
{
    let command = over_map_and_fleet(alloc, "serve")?;
    let command = with_two(command, alloc, "riders", "drivers")?;
    with_two(command, alloc, "workers", "desks")
}

// The command of idle vehicles sent ahead.
fn ahead_command<'a>(alloc: Global) -> Result<Command<'a>, WordsError>
    ensures command { IfOk result (λ command. app_of command ≡ command_by_word Ahead) }
    ensures stopped { OnErr result (result ≡ Err WordsError.NoMemory) }
{
    let command = over_map_and_fleet(alloc, "ahead")?;
    with_two(command, alloc, "feed", "reach")
}

// The command of a drill.
fn drill_command<'a>(alloc: Global) -> Result<Command<'a>, WordsError>
    ensures command { IfOk result (λ command. app_of command ≡ command_by_word Drill) }
    ensures stopped { OnErr result (result ≡ Err WordsError.NoMemory) }
{
    let command = with_two(bare_command(alloc, "drill"), alloc, "side", "vehicles")?;
    with_two(command, alloc, "requests", "seed")
}

// The command of bookings.
fn book_command<'a>(alloc: Global) -> Result<Command<'a>, WordsError>
    ensures command { IfOk result (λ command. app_of command ≡ command_by_word Book) }
    ensures stopped { OnErr result (result ≡ Err WordsError.NoMemory) }
{
    with_option(bare_command(alloc, "book"), alloc, "feed")
}

// The command of a league.
fn league_command<'a>(alloc: Global) -> Result<Command<'a>, WordsError>
    ensures command { IfOk result (λ command. app_of command ≡ command_by_word League) }
    ensures stopped { OnErr result (result ≡ Err WordsError.NoMemory) }
{
    let command = over_map_and_fleet(alloc, "league")?;
    with_two(command, alloc, "second", "feed")
}

/// The command of a resumption.
pub fn resumption_command<'a>(alloc: Global) -> Result<Command<'a>, WordsError>
    ensures command { IfOk result (λ command. app_of command ≡ resumption_command) }
    ensures stopped { OnErr result (result ≡ Err WordsError.NoMemory) }
{
    let command = over_map_and_fleet(alloc, "ride_resume")?;
    let command = with_two(command, alloc, "log", "riders")?;
    with_two(command, alloc, "drivers", "workers")
}

// A command of this name over a map and a fleet file.
fn over_map_and_fleet<'a>(alloc: Global, name: &'a str) -> Result<Command<'a>, WordsError>
    ensures command { IfOk result (λ command. app_of command
        ≡ with_rule (with_rule (bare_command name.now) (option_rule (codes "map")))
        (option_rule (codes "fleet"))) }
    ensures stopped { OnErr result (result ≡ Err WordsError.NoMemory) }
{
    with_two(bare_command(alloc, name), alloc, "map", "fleet")
}

// A command of this name without options, help or version.
fn bare_command<'a>(alloc: Global, name: &'a str) -> Command<'a>
    ensures { app_of result ≡ bare_command name.now }
{
    Command::new(alloc, name)
        .disable_help_flag(true)
        .disable_version_flag(true)
}

// The command with two more options.
fn with_two<'a>(
    command: Command<'a>,
    alloc: Global,
    first: &'a str,
    second: &'a str,
) -> Result<Command<'a>, WordsError>
    ensures command { IfOk result
        (λ more. app_of more ≡ with_rule (with_rule (app_of command.entry)
        (option_rule first.now)) (option_rule second.now)) }
    ensures stopped { OnErr result (result ≡ Err WordsError.NoMemory) }
{
    let command = with_option(command, alloc, first)?;
    with_option(command, alloc, second)
}

// The command with one more option.
fn with_option<'a>(
    command: Command<'a>,
    alloc: Global,
    name: &'a str,
) -> Result<Command<'a>, WordsError>
    ensures command { IfOk result
        (λ more. app_of more ≡ with_rule (app_of command.entry) (option_rule name.now)) }
    ensures stopped { OnErr result (result ≡ Err WordsError.NoMemory) }
{
    match command.arg(option(alloc, name)) {
        Ok(command) => Ok(command),
        Err(_) => Err(WordsError::NoMemory),
    }
}

// An option that has to be given, with one value.
fn option<'a>(alloc: Global, name: &'a str) -> Arg<'a>
    ensures rule { rule_of result ≡ option_rule name.now }
    ensures local { result.global ≡ false }
{
    Arg::new(alloc, name)
        .long(name)
        .required(true)
        .action(ArgAction::Set)
}
