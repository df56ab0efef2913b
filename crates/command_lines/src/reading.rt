//! Reads commands.
ghost use Rattle.std.specs.Prelude.{◌≡◌, ◌≢◌, ◌∷◌, ℕ, List, take, IfSome};
ghost use Rattle.line_text.specs.Fields.{is_over_long};
ghost use Rattle.ride_model.specs.declared.command.Command.TheVariants.{Bad};
ghost use Rattle.ride_model.specs.Text.{IsOneOrTwo, IsSpelledCommand};
ghost use Rattle.command_lines.specs.Commands.{command_from, command_of_fields, said_by};
ghost use Rattle.command_lines.specs.inner.Commands.{command_of};

use crate::verbs::{Verb, verb_of};
use line_text::{Fields, MOST_LINE, words_of};
use ride_model::Command;

/// The command that a line spells, for a version of the log.
pub fn read_command(line: &[u8], log: u8) -> Option<Command>
    requires { IsOneOrTwo log }
    ensures command { result ≡ command_of log line.now }
    ensures never_bad { (number : ℕ) → IfSome result (λ command. command ≢ Bad number) }
    ensures spelled { IfSome result (λ command. IsSpelledCommand log command) }
{
    if line.len() > MOST_LINE {
        return None;
    }
    let mut fields = Fields::of(line);
    let word = fields.next_field()?;
    command_of_fields(word, &mut fields, log)
}

/// What the line of this number of a feed says, for a version of the log: nothing where it is blank or a comment, else a
/// command or that it is bad. A line of more than 200 bytes is handed in as its first 200 and `over`.
pub fn read_feed_line(line: &[u8], over: bool, number: u64, log: u8) -> Option<Command>
    requires { IsOneOrTwo log }
    ensures { (whole : List ℕ) → line.now ≡ take 200 whole → over ≡ is_over_long whole
        → result ≡ said_by log number whole }
{
    let Some(mut fields) = words_of(b'#', line, over) else {
        return Some(Command::Bad { line: number });
    };
    let word = fields.next_field()?;
    let command = command_of_fields(word, &mut fields, log);
    Some(command.unwrap_or(Command::Bad { line: number }))
}

/// The command that a first field and those after it spell, for a version of the log.
pub fn read_fields(word: &[u8], fields: &mut Fields<'_>, log: u8) -> Option<Command>
    requires { IsOneOrTwo log }
    ensures command { result ≡ command_of_fields log (word.now ∷ fields.old) }
    ensures never_bad { (number : ℕ) → IfSome result (λ command. command ≢ Bad number) }
    ensures spelled { IfSome result (λ command. IsSpelledCommand log command) }
{
    command_of_fields(word, fields, log)
}

// The command of a first field and those after it.
fn command_of_fields(word: &[u8], fields: &mut Fields<'_>, log: u8) -> Option<Command>
    ensures { result ≡ command_of_fields log (word.now ∷ fields.old) }
{
    let verb = verb_of(word)?;
    let numbers = fields.numbers::<7>()?;
    command_of_numbers(verb, numbers.as_slice(), log)
}

// The command of a verb and its numbers.
fn command_of_numbers(verb: Verb, numbers: &[u64], log: u8) -> Option<Command>
    ensures { result ≡ command_from log verb numbers.now }
{
    match (verb, numbers) {
        (Verb::Request, [id, from, to, seats, latest, longest]) => Some(Command::Request {
            id: *id,
            from: *from,
            to: *to,
            seats: *seats,
            latest: *latest,
            longest: *longest,
            chairs: 0,
        }),
        (Verb::Request, [id, from, to, seats, latest, longest, chairs]) if log == 2 => {
            Some(Command::Request {
                id: *id,
                from: *from,
                to: *to,
                seats: *seats,
                latest: *latest,
                longest: *longest,
                chairs: *chairs,
            })
        }
        (Verb::Cancel, [id]) => Some(Command::Cancel { id: *id }),
        (Verb::At, [vehicle, node, time]) => Some(Command::At {
            vehicle: *vehicle,
            node: *node,
            time: *time,
        }),
        (Verb::Done, [vehicle]) => Some(Command::Done { vehicle: *vehicle }),
        (Verb::On, [vehicle]) => Some(Command::On { vehicle: *vehicle }),
        (Verb::Off, [vehicle]) => Some(Command::Off { vehicle: *vehicle }),
        (Verb::Clock, [time]) => Some(Command::Clock { time: *time }),
        (Verb::Batch, []) => Some(Command::Ask),
        _ => None,
    }
}
