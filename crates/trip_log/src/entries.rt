//! Entries, read from lines that may be spelled otherwise.
ghost use Rattle.std.specs.Prelude.{◌≡◌, None, Some, IfOk, MatchOption};
ghost use Rattle.ride_model.specs.Text.{IsOneOrTwo};
ghost use Rattle.ride_model.specs.declared.entry.Event.TheVariants.{Finish};
ghost use Rattle.trip_log.specs.inner.Items.{if_last};
ghost use Rattle.trip_log.specs.inner.Reads.{actor_from, entry_from, event_from, event_of_kind, fed_from};
ghost use Rattle.trip_log.specs.inner.Reads.{commit_from, committed_from, heading_then, open_from, opened_from};

use crate::cutting::{cut, front};
use crate::items::{
    ReadAmount, ReadId, ReadOutcome, ReadPlan, ReadSeat, only_number, take_last_list, take_list,
    take_number, take_word,
};
use crate::kinds::{Kind, kind_of};
use crate::replies::read_reply;
use command_lines::read_command;
use line_text::Fields;
use ride_model::{Actor, Command, Ending, Entry, Event, NoMemory, Outcome, Reply, Seat};
use std::alloc::Global;

/// The entry that a line spells, also with more blanks and zeros than are printed.
pub(crate) fn entry_of(alloc: Global, line: &[u8], log: u8) -> Result<Option<Entry>, NoMemory>
    requires { IsOneOrTwo log }
    ensures { IfOk result (λ entry. entry ≡ entry_from log line.now) }
{
    let Some((by, text)) = cut(line, b' ') else {
        return Ok(None);
    };
    let Some(actor) = read_actor(by) else {
        return Ok(None);
    };
    match read_event(alloc, actor, text, log)? {
        Some(event) => Ok(Some(Entry { actor, event })),
        None => Ok(None),
    }
}

fn read_actor(text: &[u8]) -> Option<Actor>
    ensures { result ≡ actor_from text.now }
{
    if text == b"f1".as_slice() {
        return Some(Actor::Feed(1));
    }
    if text == b"f2".as_slice() {
        return Some(Actor::Feed(2));
    }
    if text == b"d1".as_slice() {
        return Some(Actor::Desk(1));
    }
    if text == b"d2".as_slice() {
        return Some(Actor::Desk(2));
    }
    None
}

// The event of an actor, from the bytes after it.
fn read_event(alloc: Global, actor: Actor, text: &[u8], log: u8) -> Result<Option<Event>, NoMemory>
    requires { IsOneOrTwo log }
    ensures { IfOk result (λ event. event ≡ event_from log actor text.now) }
{
    let mut fields = Fields::of(text);
    let Some(word) = fields.next_field() else {
        return Ok(None);
    };
    match kind_of(word) {
        Some(kind) => event_of_kind(alloc, actor, kind, &mut fields),
        None => match actor {
            Actor::Feed(_) => Ok(read_fed(text, log)),
            Actor::Desk(_) => Ok(None),
        },
    }
}

// The event of a kind and the fields after its word.
fn event_of_kind(
    alloc: Global,
    actor: Actor,
    kind: Kind,
    fields: &mut Fields<'_>,
) -> Result<Option<Event>, NoMemory>
    ensures { IfOk result (λ event. event ≡ event_of_kind actor kind fields.old) }
{
    match (actor, kind) {
        (_, Kind::End) => Ok(read_finish(Ending::Whole, fields)),
        (_, Kind::Cut) => Ok(read_finish(Ending::Cut, fields)),
        (Actor::Feed(_), Kind::Bad) => Ok(only_number(fields).map(|line| Event::Fed {
            command: Command::Bad { line },
            reply: Reply::Noted,
        })),
        (Actor::Desk(_), Kind::Open) => read_open(alloc, fields),
        (Actor::Desk(_), Kind::Commit) => read_commit(alloc, fields),
        (Actor::Desk(_), Kind::Abandon) => {
            Ok(only_number(fields).map(|batch| Event::Abandoned { batch }))
        }
        _ => Ok(None),
    }
}

fn read_finish(ending: Ending, fields: &mut Fields<'_>) -> Option<Event>
    ensures { result ≡ if_last fields.old (Finish ending) }
{
    match fields.next_field() {
        Some(_) => None,
        None => Some(Event::Finish { ending }),
    }
}

// A command and its reply.
fn read_fed(text: &[u8], log: u8) -> Option<Event>
    requires { IsOneOrTwo log }
    ensures { result ≡ fed_from log text.now }
{
    let (command, reply) = cut(text, b'=')?;
    let command = read_command(front(command), log)?;
    let reply = read_reply(&mut Fields::of(reply))?;
    Some(Event::Fed { command, reply })
}

// Takes two numbers with a word after each.
fn take_heading(fields: &mut Fields<'_>, middle: &[u8], last: &[u8]) -> Option<(u64, u64)>
    ensures { MatchOption result (heading_then middle.now last.now fields.old ≡ None)
        (λ numbers. heading_then middle.now last.now fields.old
        ≡ Some (numbers.0, numbers.1, fields.new)) }
{
    let first = take_number(fields)?;
    if !take_word(fields, middle) {
        return None;
    }
    let second = take_number(fields)?;
    if !take_word(fields, last) {
        return None;
    }
    Some((first, second))
}

fn read_open(alloc: Global, fields: &mut Fields<'_>) -> Result<Option<Event>, NoMemory>
    ensures { IfOk result (λ event. event ≡ open_from fields.old) }
{
    match take_heading(fields, b"at", b"requests") {
        Some((batch, time)) => read_opened(alloc, batch, time, fields),
        None => Ok(None),
    }
}

// The lists of an opened batch.
fn read_opened(
    alloc: Global,
    batch: u64,
    time: u64,
    fields: &mut Fields<'_>,
) -> Result<Option<Event>, NoMemory>
    ensures { IfOk result (λ event. event ≡ opened_from (batch, time, fields.old)) }
{
    let Some(requests) = take_list::<ReadId, u64>(alloc, fields, b"plans")? else {
        return Ok(None);
    };
    let Some(plans) = take_last_list::<ReadPlan, (u64, u64)>(alloc, fields)? else {
        return Ok(None);
    };
    Ok(Some(Event::Opened {
        batch,
        time,
        requests,
        plans,
    }))
}

fn read_commit(alloc: Global, fields: &mut Fields<'_>) -> Result<Option<Event>, NoMemory>
    ensures { IfOk result (λ event. event ≡ commit_from fields.old) }
{
    match take_heading(fields, b"cost", b"seats") {
        Some((batch, cost)) => read_committed(alloc, batch, cost, fields),
        None => Ok(None),
    }
}

// The lists of a commit.
fn read_committed(
    alloc: Global,
    batch: u64,
    cost: u64,
    fields: &mut Fields<'_>,
) -> Result<Option<Event>, NoMemory>
    ensures { IfOk result (λ event. event ≡ committed_from (batch, cost, fields.old)) }
{
    let Some(seats) = take_list::<ReadSeat, Seat>(alloc, fields, b"prices")? else {
        return Ok(None);
    };
    let Some(prices) = take_list::<ReadAmount, (u64, u64)>(alloc, fields, b"pays")? else {
        return Ok(None);
    };
    let Some(pays) = take_list::<ReadAmount, (u64, u64)>(alloc, fields, b"outcomes")? else {
        return Ok(None);
    };
    let Some(outcomes) = take_last_list::<ReadOutcome, (u64, Outcome)>(alloc, fields)? else {
        return Ok(None);
    };
    Ok(Some(Event::Committed {
        batch,
        cost,
        seats,
        prices,
        pays,
        outcomes,
    }))
}
