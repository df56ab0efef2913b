//! The lines of events.
ghost use Rattle.std.specs.Prelude.{◌≢◌, ◌≤◌, ◌++◌, ◌∷◌, [], ℕ, length, codes, decimal};
ghost use Rattle.ride_model.specs.declared.command.Command.TheVariants.{Bad};
ghost use Rattle.ride_model.specs.declared.reply.Reply.TheVariants.{Late};
ghost use Rattle.ride_model.specs.Text.{actor_field, broken_fields, event_fields, fed_fields, line_of, reply_fields};
ghost use Rattle.ride_model.specs.Text.{amount_field, outcome_field, plan_field, seat_field};
ghost use Rattle.ride_model.specs.Text.{IsOneOrTwo, IsSpelledCommand, IsSpelledEvent};
ghost use Rattle.command_lines.specs.Commands.{spelling_of};
ghost use Rattle.trip_log.specs.Prints.{ending_word};
ghost use Rattle.trip_log.specs.inner.Prints.{Prints, fields_end, fields_then, listed};

use crate::lists::{AmountText, IdText, OutcomeText, PlanText, SeatText, print_list};
use crate::pieces::{Piece, print};
use command_lines::print_command;
use ride_model::{
    Actor, AmountList, Command, Ending, Event, IdList, Ids, Outcome, OutcomeList, Reply, Seat,
    SeatList, VersionList,
};
use ride_ports::{Failed, Sink};

/// Prints the line of an event.
pub(crate) fn print_event<K: Sink>(
    actor: Actor,
    event: &Event,
    log: u8,
    sink: &mut K,
) -> Result<(), Failed>
    requires log { IsOneOrTwo log }
    requires spelled { IsSpelledEvent log actor event.now }
    ensures { Prints result (K.written sink.old) (K.written sink.new)
        (K.faults sink.old) (K.faults sink.new)
        (line_of (actor_field actor ∷ event_fields log event.now)) }
{
    match event {
        Event::Fed { command, reply } => print_fed(actor, command, reply, log, sink),
        Event::Finish { ending } => print_finish(actor, *ending, sink),
        Event::Opened {
            batch,
            time,
            requests,
            plans,
        } => {
            print_open(actor, *batch, *time, sink)?;
            print_open_lists(requests, plans, sink)
        }
        Event::Committed {
            batch,
            cost,
            seats,
            prices,
            pays,
            outcomes,
        } => {
            print_commit(actor, *batch, *cost, sink)?;
            print_commit_lists(seats, prices, pays, outcomes, sink)
        }
        Event::Abandoned { batch } => print_abandoned(actor, *batch, sink),
    }
}

// Prints the line of a command and its reply. A bad line has no reply.
fn print_fed<K: Sink>(
    actor: Actor,
    command: &Command,
    reply: &Reply,
    log: u8,
    sink: &mut K,
) -> Result<(), Failed>
    requires log { IsOneOrTwo log }
    requires spelled { IsSpelledCommand log command.now }
    ensures { Prints result (K.written sink.old) (K.written sink.new)
        (K.faults sink.old) (K.faults sink.new)
        (line_of (actor_field actor ∷ fed_fields log command.now reply.now)) }
{
    match command {
        Command::Bad { line } => print_bad(actor, *line, sink),
        _ => print_answered(actor, command, reply, log, sink),
    }
}

/// Prints a command and its reply as a line, with no actor before them. A bad line has no reply.
pub fn print_answer<K: Sink>(
    command: &Command,
    reply: &Reply,
    log: u8,
    sink: &mut K,
) -> Result<(), Failed>
    requires log { IsOneOrTwo log }
    requires spelled { IsSpelledCommand log command.now }
    ensures { Prints result (K.written sink.old) (K.written sink.new)
        (K.faults sink.old) (K.faults sink.new)
        (line_of (fed_fields log command.now reply.now)) }
{
    match command {
        Command::Bad { line } => print_number(b"bad ", *line, sink),
        _ => print_with_reply(command, reply, log, sink),
    }
}

// Prints a command that is no bad line, with its reply.
fn print_with_reply<K: Sink>(
    command: &Command,
    reply: &Reply,
    log: u8,
    sink: &mut K,
) -> Result<(), Failed>
    requires log { IsOneOrTwo log }
    requires not_bad { (number : ℕ) → command.now ≢ Bad number }
    requires spelled { IsSpelledCommand log command.now }
    ensures { Prints result (K.written sink.old) (K.written sink.new)
        (K.faults sink.old) (K.faults sink.new)
        (line_of (fed_fields log command.now reply.now)) }
{
    print_spelling(command, log, sink)?;
    print_reply(reply, sink)
}

// Prints the line of a bad line.
fn print_bad<K: Sink>(actor: Actor, line: u64, sink: &mut K) -> Result<(), Failed>
    ensures { Prints result (K.written sink.old) (K.written sink.new)
        (K.faults sink.old) (K.faults sink.new)
        (actor_field actor ++ fields_end (codes "bad" ∷ decimal line ∷ [])) }
{
    let number = Piece::Number(line);
    print(
        &[
            Piece::By(actor),
            Piece::Bytes(b" bad "),
            number,
            Piece::Bytes(b"\n"),
        ],
        sink,
    )
}

// Prints the line of a command that is no bad line, with its reply.
fn print_answered<K: Sink>(
    actor: Actor,
    command: &Command,
    reply: &Reply,
    log: u8,
    sink: &mut K,
) -> Result<(), Failed>
    requires log { IsOneOrTwo log }
    requires not_bad { (number : ℕ) → command.now ≢ Bad number }
    requires spelled { IsSpelledCommand log command.now }
    ensures { Prints result (K.written sink.old) (K.written sink.new)
        (K.faults sink.old) (K.faults sink.new)
        (line_of (actor_field actor ∷ fed_fields log command.now reply.now)) }
{
    print(&[Piece::By(actor), Piece::Bytes(b" ")], sink)?;
    print_spelling(command, log, sink)?;
    print_reply(reply, sink)
}

// Prints the canonical spelling of a command.
fn print_spelling<K: Sink>(command: &Command, log: u8, sink: &mut K) -> Result<(), Failed>
    requires log { IsOneOrTwo log }
    requires not_bad { (number : ℕ) → command.now ≢ Bad number }
    requires spelled { IsSpelledCommand log command.now }
    ensures { Prints result (K.written sink.old) (K.written sink.new)
        (K.faults sink.old) (K.faults sink.new)
        (spelling_of log command.now) }
{
    print_command(command, log, sink)
}

// Prints `=`, a reply and the line's end.
fn print_reply<K: Sink>(reply: &Reply, sink: &mut K) -> Result<(), Failed>
    ensures { Prints result (K.written sink.old) (K.written sink.new)
        (K.faults sink.old) (K.faults sink.new)
        (fields_end (codes "=" ∷ reply_fields reply.now)) }
{
    match reply {
        Reply::Waiting => print(&[Piece::Bytes(b" = waiting\n")], sink),
        Reply::Cancelled => print(&[Piece::Bytes(b" = cancelled\n")], sink),
        Reply::Freed { vehicle } => print_number(b" = freed ", *vehicle, sink),
        Reply::OnMap => print(&[Piece::Bytes(b" = onmap\n")], sink),
        Reply::Late { seconds, broken } => print_late(*seconds, broken, sink),
        Reply::Picked { ride } => print_number(b" = picked ", *ride, sink),
        Reply::Dropped { ride } => print_number(b" = dropped ", *ride, sink),
        Reply::Duty => print(&[Piece::Bytes(b" = duty\n")], sink),
        Reply::Now { time } => print_number(b" = now ", *time, sink),
        Reply::Asked { count } => print_number(b" = asked ", *count, sink),
        Reply::Noted => print(&[Piece::Bytes(b" =\n")], sink),
        Reply::Refused { code } => print_number(b" = refused ", u64::from(*code), sink),
    }
}

// Prints a text, a number and the line's end.
fn print_number<K: Sink>(text: &[u8], number: u64, sink: &mut K) -> Result<(), Failed>
    requires { length text.now ≤ 100 }
    ensures { Prints result (K.written sink.old) (K.written sink.new)
        (K.faults sink.old) (K.faults sink.new)
        (text.now ++ (decimal number ++ 10 ∷ [])) }
{
    print(
        &[
            Piece::Bytes(text),
            Piece::Number(number),
            Piece::Bytes(b"\n"),
        ],
        sink,
    )
}

// Prints `=`, how late a report is, the rides that it breaks and the line's end.
fn print_late<K: Sink>(seconds: u64, broken: &Ids, sink: &mut K) -> Result<(), Failed>
    ensures { Prints result (K.written sink.old) (K.written sink.new)
        (K.faults sink.old) (K.faults sink.new)
        (fields_end (codes "=" ∷ reply_fields (Late seconds broken.now))) }
{
    print(&[Piece::Bytes(b" = late "), Piece::Number(seconds)], sink)?;
    print_broken(broken, sink)?;
    print(&[Piece::Bytes(b"\n")], sink)
}

// Prints the rides that a late report breaks, and nothing where there are none.
fn print_broken<K: Sink>(broken: &Ids, sink: &mut K) -> Result<(), Failed>
    ensures { Prints result (K.written sink.old) (K.written sink.new)
        (K.faults sink.old) (K.faults sink.new)
        (fields_then (broken_fields broken.now) []) }
{
    let ids = broken.items();
    if ids.is_empty() {
        return Ok(());
    }
    print_list::<IdText, u64, K>(b" broken", ids, sink)
}

// Prints the line of an end.
fn print_finish<K: Sink>(actor: Actor, ending: Ending, sink: &mut K) -> Result<(), Failed>
    ensures { Prints result (K.written sink.old) (K.written sink.new)
        (K.faults sink.old) (K.faults sink.new)
        (actor_field actor ++ fields_end (ending_word ending ∷ [])) }
{
    match ending {
        Ending::Whole => print(&[Piece::By(actor), Piece::Bytes(b" end\n")], sink),
        Ending::Cut => print(&[Piece::By(actor), Piece::Bytes(b" cut\n")], sink),
    }
}

// Prints the line of an abandoned batch.
fn print_abandoned<K: Sink>(actor: Actor, batch: u64, sink: &mut K) -> Result<(), Failed>
    ensures { Prints result (K.written sink.old) (K.written sink.new)
        (K.faults sink.old) (K.faults sink.new)
        (actor_field actor ++ fields_end (codes "abandon" ∷ decimal batch ∷ [])) }
{
    let number = Piece::Number(batch);
    print(
        &[
            Piece::By(actor),
            Piece::Bytes(b" abandon "),
            number,
            Piece::Bytes(b"\n"),
        ],
        sink,
    )
}

// Prints the line of an opened batch up to its lists.
fn print_open<K: Sink>(actor: Actor, batch: u64, time: u64, sink: &mut K) -> Result<(), Failed>
    ensures { Prints result (K.written sink.old) (K.written sink.new)
        (K.faults sink.old) (K.faults sink.new)
        (actor_field actor ++ fields_then
        (codes "open" ∷ decimal batch ∷ codes "at" ∷ decimal time ∷ []) []) }
{
    print(
        &[
            Piece::By(actor),
            Piece::Bytes(b" open "),
            Piece::Number(batch),
            Piece::Bytes(b" at "),
            Piece::Number(time),
        ],
        sink,
    )
}

// Prints the lists of an opened batch and the line's end.
fn print_open_lists<K: Sink>(
    requests: &IdList,
    plans: &VersionList,
    sink: &mut K,
) -> Result<(), Failed>
    ensures { Prints result (K.written sink.old) (K.written sink.new)
        (K.faults sink.old) (K.faults sink.new)
        (codes " requests" ++ (listed decimal requests.now
        ++ (codes " plans" ++ (listed plan_field plans.now ++ 10 ∷ [])))) }
{
    print_list::<IdText, u64, K>(b" requests", requests.items(), sink)?;
    print_list::<PlanText, (u64, u64), K>(b" plans", plans.items(), sink)?;
    print(&[Piece::Bytes(b"\n")], sink)
}

// Prints the line of a commit up to its lists.
fn print_commit<K: Sink>(actor: Actor, batch: u64, cost: u64, sink: &mut K) -> Result<(), Failed>
    ensures { Prints result (K.written sink.old) (K.written sink.new)
        (K.faults sink.old) (K.faults sink.new)
        (actor_field actor ++ fields_then
        (codes "commit" ∷ decimal batch ∷ codes "cost" ∷ decimal cost ∷ []) []) }
{
    print(
        &[
            Piece::By(actor),
            Piece::Bytes(b" commit "),
            Piece::Number(batch),
            Piece::Bytes(b" cost "),
            Piece::Number(cost),
        ],
        sink,
    )
}

// Prints the lists of a commit and the line's end.
fn print_commit_lists<K: Sink>(
    seats: &SeatList,
    prices: &AmountList,
    pays: &AmountList,
    outcomes: &OutcomeList,
    sink: &mut K,
) -> Result<(), Failed>
    ensures { Prints result (K.written sink.old) (K.written sink.new)
        (K.faults sink.old) (K.faults sink.new)
        (codes " seats" ++ (listed seat_field seats.now
        ++ (codes " prices" ++ (listed amount_field prices.now
        ++ (codes " pays" ++ (listed amount_field pays.now
        ++ (codes " outcomes" ++ (listed outcome_field outcomes.now ++ 10 ∷ [])))))))) }
{
    print_list::<SeatText, Seat, K>(b" seats", seats.items(), sink)?;
    print_list::<AmountText, (u64, u64), K>(b" prices", prices.items(), sink)?;
    print_list::<AmountText, (u64, u64), K>(b" pays", pays.items(), sink)?;
    print_list::<OutcomeText, (u64, Outcome), K>(b" outcomes", outcomes.items(), sink)?;
    print(&[Piece::Bytes(b"\n")], sink)
}
