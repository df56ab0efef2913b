//! What is counted of a history.
ghost use Rattle.std.specs.Prelude.{◌≡◌, ◌<◌, ◌^◌, length};
ghost use Rattle.ride_model.specs.History.{away_total, confirmed_total, dropped_total, is_away, is_confirmed, is_dropped, is_picked, outcomes_in, picked_total};
ghost use Rattle.board_core.specs.Totals.{AreTotalsOf};

use crate::Board;
use ride_model::{Entry, Event, Outcome, Reply};

/// How much a history has of what matters, and whether it is finished.
#[derive(Clone, Copy, PartialEq, Eq)]
pub struct Totals {
    pub entries: u64,
    pub confirmed: u64,
    pub away: u64,
    pub picked: u64,
    pub dropped: u64,
    pub finished: bool,
}

impl<'r> Board<'r> {
    /// The totals of the history, which is gone through once.
    pub fn totals(&self) -> Totals
        requires few { length self.now.history < 2 ^ 56 }
        ensures totals { AreTotalsOf self.now.feeds self.now.desks
            self.now.start self.now.history result }
    {
        let entries = self.entries();
        Totals {
            entries: entries.len() as u64,
            confirmed: confirmed_in(entries),
            away: away_in(entries),
            picked: picked_in(entries),
            dropped: dropped_in(entries),
            finished: self.finished(),
        }
    }
}

// How many requests were confirmed.
fn confirmed_in(entries: &[Entry]) -> u64
    requires { confirmed_total entries.now < 2 ^ 64 }
    ensures { result ≡ confirmed_total entries.now }
{
    let mut sum = 0;
    for entry in entries {
        sum += confirmed_by(entry);
    }
    sum
}

// How many requests an entry confirms.
fn confirmed_by(entry: &Entry) -> u64
    ensures { result ≡ outcomes_in is_confirmed entry.now.event }
{
    match &entry.event {
        Event::Committed { outcomes, .. } => {
            let items = outcomes.items().iter();
            items.filter(|item| is_confirmed(&item.1)).count() as u64
        }
        _ => 0,
    }
}

// How many requests were turned away.
fn away_in(entries: &[Entry]) -> u64
    requires { away_total entries.now < 2 ^ 64 }
    ensures { result ≡ away_total entries.now }
{
    let mut sum = 0;
    for entry in entries {
        sum += away_by(entry);
    }
    sum
}

// How many requests an entry turns away.
fn away_by(entry: &Entry) -> u64
    ensures { result ≡ outcomes_in is_away entry.now.event }
{
    match &entry.event {
        Event::Committed { outcomes, .. } => {
            let items = outcomes.items().iter();
            items.filter(|item| is_away(&item.1)).count() as u64
        }
        _ => 0,
    }
}

fn is_confirmed(outcome: &Outcome) -> bool
    ensures { result ≡ is_confirmed outcome.now }
{
    matches!(outcome, Outcome::Confirmed)
}

fn is_away(outcome: &Outcome) -> bool
    ensures { result ≡ is_away outcome.now }
{
    matches!(outcome, Outcome::Away)
}

// How many riders were picked up.
fn picked_in(entries: &[Entry]) -> u64
    ensures { result ≡ picked_total entries.now }
{
    let mut count = 0;
    for entry in entries {
        if is_picked(entry) {
            count += 1;
        }
    }
    count
}

// How many riders were dropped.
fn dropped_in(entries: &[Entry]) -> u64
    ensures { result ≡ dropped_total entries.now }
{
    let mut count = 0;
    for entry in entries {
        if is_dropped(entry) {
            count += 1;
        }
    }
    count
}

// Whether a rider was picked up.
fn is_picked(entry: &Entry) -> bool
    ensures { result ≡ is_picked entry.now.event }
{
    matches!(
        &entry.event,
        Event::Fed {
            reply: Reply::Picked { .. },
            ..
        }
    )
}

// Whether a rider was dropped.
fn is_dropped(entry: &Entry) -> bool
    ensures { result ≡ is_dropped entry.now.event }
{
    matches!(
        &entry.event,
        Event::Fed {
            reply: Reply::Dropped { .. },
            ..
        }
    )
}
