//! The lines of a league's text.
ghost use Rattle.std.specs.Prelude.{◌≡◌, ◌++◌, ◌∷◌, [], codes, decimal};
ghost use Rattle.ride_model.specs.Text.{IsOneOrTwo};
ghost use Rattle.trip_log.specs.inner.Prints.{Prints, fields_then};
ghost use Rattle.fleet_league.specs.declared.league_session.sheets.Told.TheVariants.{Answer};
ghost use Rattle.fleet_league.specs.inner.league_session.Feed.{IsSpelledLine};
ghost use Rattle.fleet_league.specs.league_session.LeagueTexts.{award_field, head_line, last_line, pay_field, round_line, told_line};

use crate::league_session::lines::FeedLine;
use crate::league_session::sheets::{RoundAward, RoundPay, RoundSheet, Told};
use arrayvec::ArrayVec;
use ride_model::{Ending, Outcome, Reply};
use ride_ports::{Failed, Sink};
use trip_log::lists::{AmountText, OutcomeText, Spelling, print_list};
use trip_log::pieces::{MOST_TEXT, Piece, print, put, text_of};
use trip_log::print_answer;

/// Awards of a round.
struct AwardText;

/// What companies' vehicles pay.
struct PayText;

impl Spelling<RoundAward> for AwardText {
    ghost field = { λ award. award_field award };

    fn text(item: &RoundAward) -> ArrayVec<u8, MOST_TEXT> {
        text_of(&[
            Piece::Bytes(b" "),
            Piece::Number(item.request),
            Piece::Bytes(b":"),
            Piece::Number(item.company),
            Piece::Bytes(b":"),
            Piece::Number(item.vehicle),
            Piece::Bytes(b":"),
            Piece::Number(item.version),
        ])
    }
}

impl Spelling<RoundPay> for PayText {
    ghost field = { λ pay. pay_field pay };

    fn text(item: &RoundPay) -> ArrayVec<u8, MOST_TEXT> {
        text_of(&[
            Piece::Bytes(b" "),
            Piece::Number(item.company),
            Piece::Bytes(b":"),
            Piece::Number(item.vehicle),
            Piece::Bytes(b":"),
            Piece::Number(item.amount),
        ])
    }
}

/// The first line.
pub(crate) fn head_line() -> &'static [u8]
    ensures { result.now ≡ head_line }
{
    b"league 1 companies 2\n"
}

/// The last line: whether the feed was read whole, or was cut.
pub(crate) fn last_line(ending: Ending) -> &'static [u8]
    ensures { result.now ≡ last_line ending }
{
    match ending {
        Ending::Whole => b"end\n",
        Ending::Cut => b"cut\n",
    }
}

/// Prints what becomes of a line of the feed.
pub(crate) fn print_told<K: Sink>(
    line: &FeedLine,
    told: &Told,
    log: u8,
    sink: &mut K,
) -> Result<(), Failed>
    requires log { IsOneOrTwo log }
    requires spelled { IsSpelledLine log line.now }
    ensures { Prints result (K.written sink.old) (K.written sink.new)
        (K.faults sink.old) (K.faults sink.new)
        (told_line log line.now told.now) }
{
    match told {
        Told::Answer(reply) => print_reply(line, reply, log, sink),
        Told::Round { number, sheet } => print_round(*number, sheet, sink),
    }
}

// Prints a line of the feed with its reply.
fn print_reply<K: Sink>(line: &FeedLine, reply: &Reply, log: u8, sink: &mut K) -> Result<(), Failed>
    requires log { IsOneOrTwo log }
    requires spelled { IsSpelledLine log line.now }
    ensures { Prints result (K.written sink.old) (K.written sink.new)
        (K.faults sink.old) (K.faults sink.new)
        (told_line log line.now (Answer reply.now)) }
{
    match line {
        FeedLine::League(command) => print_answer(command, reply, log, sink),
        FeedLine::Company { company, command } => {
            print_company(*company, sink)?;
            print_answer(command, reply, log, sink)
        }
    }
}

// Prints whose report follows.
fn print_company<K: Sink>(company: u64, sink: &mut K) -> Result<(), Failed>
    ensures { Prints result (K.written sink.old) (K.written sink.new)
        (K.faults sink.old) (K.faults sink.new)
        (codes "company " ++ decimal company ++ codes " ") }
{
    print(
        &[
            Piece::Bytes(b"company "),
            Piece::Number(company),
            Piece::Bytes(b" "),
        ],
        sink,
    )
}

// Prints the line of the round of a number.
fn print_round<K: Sink>(number: u64, sheet: &RoundSheet, sink: &mut K) -> Result<(), Failed>
    ensures { Prints result (K.written sink.old) (K.written sink.new)
        (K.faults sink.old) (K.faults sink.new)
        (round_line number sheet.now) }
{
    print_start(number, sheet.cost, sink)?;
    print_list::<AwardText, RoundAward, K>(b" awards", sheet.awards.items(), sink)?;
    print_list::<AmountText, (u64, u64), K>(b" prices", sheet.prices.items(), sink)?;
    print_list::<PayText, RoundPay, K>(b" pays", sheet.pays.items(), sink)?;
    print_list::<OutcomeText, (u64, Outcome), K>(b" outcomes", sheet.outcomes.items(), sink)?;
    put(b"\n", sink)
}

// Prints the start of a round's line.
fn print_start<K: Sink>(number: u64, cost: u64, sink: &mut K) -> Result<(), Failed>
    ensures { Prints result (K.written sink.old) (K.written sink.new)
        (K.faults sink.old) (K.faults sink.new)
        (codes "round" ++ fields_then (decimal number ∷ codes "cost" ∷ decimal cost ∷ []) []) }
{
    print(
        &[
            Piece::Bytes(b"round "),
            Piece::Number(number),
            Piece::Bytes(b" cost "),
            Piece::Number(cost),
        ],
        sink,
    )
}
