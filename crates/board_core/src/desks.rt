//! What a board keeps of its feeds and desks.
ghost use Rattle.std.specs.Prelude.{◌≡◌, ◌<◌, ◌≤◌};
ghost use Rattle.ride_model.specs.Text.{IsOneOrTwo};
ghost use Rattle.ride_model.specs.declared.limits.TheConstants.{MOST_BATCHES};
ghost use Rattle.board_core.specs.inner.Kept.{ending_of, places_kept, none_yet, is_finished, all_ended, all_whole, is_whole_end, with_ending, with_opened, with_closed, with_given_up};

use crate::numbered::Numbered;
use ride_model::{Actor, Ending};

/// Batches that were opened, who has ended, and whether a batch was given up.
#[derive(Clone, Copy)]
pub(crate) struct Desks {
    /// How many batches were opened.
    pub(crate) opened: u64,
    /// The number of each desk's open batch.
    pub(crate) batches: Numbered<u64>,
    pub(crate) feeds_ended: Numbered<Ending>,
    pub(crate) desks_ended: Numbered<Ending>,
    pub(crate) given_up: bool,
}

impl Desks {
    /// No batch was opened, and no actor has ended.
    pub(crate) fn new() -> Desks
        ensures { result ≡ none_yet }
    {
        Desks {
            opened: 0,
            batches: Numbered::none(),
            feeds_ended: Numbered::none(),
            desks_ended: Numbered::none(),
            given_up: false,
        }
    }

    /// Whether so many feeds and desks all ended whole, so many batches were opened, and none is open or was given up.
    pub(crate) fn is_finished(&self, feeds: u8, desks: u8, asked: u64) -> bool
        requires feeds { IsOneOrTwo feeds }
        requires desks { IsOneOrTwo desks }
        ensures { result ≡ is_finished self.now feeds desks asked }
    {
        are_whole(&self.feeds_ended, feeds)
            && are_whole(&self.desks_ended, desks)
            && self.opened == asked
            && self.batches.count() == 0
            && !self.given_up
    }

    /// Whether so many feeds have all ended.
    pub(crate) fn have_feeds_ended(&self, feeds: u8) -> bool
        requires { IsOneOrTwo feeds }
        ensures { result ≡ all_ended self.now.feeds_ended feeds }
    {
        self.feeds_ended.first.is_some() && (feeds == 1 || self.feeds_ended.second.is_some())
    }

    /// How an actor ended, if it has.
    pub(crate) fn ending(&self, actor: Actor) -> Option<Ending>
        ensures { result ≡ ending_of self.now actor }
    {
        match actor {
            Actor::Feed(number) => self.feeds_ended.of(number),
            Actor::Desk(number) => self.desks_ended.of(number),
        }
    }

    /// Notes how an actor ended.
    pub(crate) fn end(&mut self, actor: Actor, ending: Ending)
        ensures { self.new ≡ with_ending actor ending self.old }
    {
        match actor {
            Actor::Feed(number) => self.feeds_ended.set(number, Some(ending)),
            Actor::Desk(number) => self.desks_ended.set(number, Some(ending)),
        }
    }

    /// Notes that a desk opened the next batch.
    pub(crate) fn open(&mut self, desk: u8)
        requires { self.old.opened < MOST_BATCHES }
        ensures { self.new ≡ with_opened desk self.old }
    {
        self.opened += 1;
        self.batches.set(desk, Some(self.opened));
    }

    /// Notes that a desk gave its batch up.
    pub(crate) fn give_up(&mut self, desk: u8)
        ensures { self.new ≡ with_given_up desk self.old }
    {
        self.close(desk);
        self.given_up = true;
    }

    /// Notes that a desk's batch is no longer open.
    pub(crate) fn close(&mut self, desk: u8)
        ensures { self.new ≡ with_closed desk self.old }
    {
        self.batches.set(desk, None);
    }

    /// The places of the history that closings of open batches and ends of actors will take.
    pub(crate) fn places_kept(&self) -> usize
        ensures places { result ≡ places_kept self.now }
        ensures few { result ≤ 6 }
    {
        let ended = self.feeds_ended.count() + self.desks_ended.count();
        self.batches.count() + (4 - ended)
    }
}

// Whether so many all ended whole.
fn are_whole(endings: &Numbered<Ending>, many: u8) -> bool
    requires { IsOneOrTwo many }
    ensures { result ≡ all_whole endings.now many }
{
    is_whole(endings.first) && (many == 1 || is_whole(endings.second))
}

fn is_whole(ending: Option<Ending>) -> bool
    ensures { result ≡ is_whole_end ending }
{
    matches!(ending, Some(Ending::Whole))
}
