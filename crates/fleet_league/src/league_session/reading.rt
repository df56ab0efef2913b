//! Reads the lines of a league's feed.
ghost use Rattle.std.specs.Prelude.{◌≡◌, ◌≤◌, ◌∷◌, ℕ, List, take, IfSome};
ghost use Rattle.line_text.specs.Fields.{is_over_long};
ghost use Rattle.ride_model.specs.Text.{IsOneOrTwo};
ghost use Rattle.command_lines.specs.Limits.{most_lines};
ghost use Rattle.fleet_league.specs.inner.league_session.Feed.{IsSpelledLine};
ghost use Rattle.fleet_league.specs.league_session.Feed.{company_line_of, is_driver_report, is_league_command, league_line_of, line_of_fields, said_by};

use crate::league_session::lines::FeedLine;
use command_lines::read_fields;
use line_text::{Fields, read_number, words_of};
use ride_model::Command;

/// What the line of this number says, for a version of the log: nothing where it is blank or a comment. A line of more than 200
/// bytes is handed in as its first 200 and `over`.
pub(crate) fn read_line(line: &[u8], over: bool, number: u64, log: u8) -> Option<FeedLine>
    requires log { IsOneOrTwo log }
    requires number { number ≤ most_lines }
    ensures said { (whole : List ℕ) → line.now ≡ take 200 whole → over ≡ is_over_long whole
        → result ≡ said_by log number whole }
    ensures spelled { IfSome result (IsSpelledLine log) }
{
    let bad = FeedLine::League(Command::Bad { line: number });
    let Some(mut fields) = words_of(b'#', line, over) else {
        return Some(bad);
    };
    let word = fields.next_field()?;
    Some(line_of_fields(word, &mut fields, log).unwrap_or(bad))
}

// What a first field and those after it say, if they are no bad line.
fn line_of_fields(word: &[u8], fields: &mut Fields<'_>, log: u8) -> Option<FeedLine>
    requires { IsOneOrTwo log }
    ensures line { result ≡ line_of_fields log (word.now ∷ fields.old) }
    ensures spelled { IfSome result (IsSpelledLine log) }
{
    if word == b"company".as_slice() {
        return company_line_of(fields, log);
    }
    league_line_of(word, fields, log)
}

// A report to a company: its number and then the report.
fn company_line_of(fields: &mut Fields<'_>, log: u8) -> Option<FeedLine>
    requires { IsOneOrTwo log }
    ensures line { result ≡ company_line_of log fields.old }
    ensures spelled { IfSome result (IsSpelledLine log) }
{
    let company = read_number(fields.next_field()?)?;
    let word = fields.next_field()?;
    let command = read_fields(word, fields, log)?;
    if !is_driver_report(&command) {
        return None;
    }
    Some(FeedLine::Company { company, command })
}

// A command to the league.
fn league_line_of(word: &[u8], fields: &mut Fields<'_>, log: u8) -> Option<FeedLine>
    requires { IsOneOrTwo log }
    ensures line { result ≡ league_line_of log (word.now ∷ fields.old) }
    ensures spelled { IfSome result (IsSpelledLine log) }
{
    let command = read_fields(word, fields, log)?;
    if !is_league_command(&command) {
        return None;
    }
    Some(FeedLine::League(command))
}

// Whether a company takes a command as its own.
fn is_driver_report(command: &Command) -> bool
    ensures { result ≡ is_driver_report command.now }
{
    matches!(
        command,
        Command::At { .. } | Command::Done { .. } | Command::On { .. } | Command::Off { .. }
    )
}

// Whether the league takes a command.
fn is_league_command(command: &Command) -> bool
    ensures { result ≡ is_league_command command.now }
{
    matches!(
        command,
        Command::Request { .. } | Command::Cancel { .. } | Command::Clock { .. } | Command::Ask
    )
}
