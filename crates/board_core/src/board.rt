//! The board, and what it shows.
ghost use Rattle.std.specs.Prelude.{◌≡◌, ◌≤◌, ◌↔◌, [], option_map, option_copied, IfOk, OnOk, IsTrue};
ghost use Rattle.ride_model.specs.declared.entry.Entry.{Entry};
ghost use Rattle.ride_model.specs.Fleet.{MayStart};
ghost use Rattle.ride_model.specs.Seating.{BatchCopy, find_vehicle};
ghost use Rattle.ride_model.specs.State.{start_state, request_state, has_ended, open_batch_of};
ghost use Rattle.ride_model.specs.Legal.{IsLegal};
ghost use Rattle.ride_model.specs.History.{IsFinished};
ghost use Rattle.ride_model.specs.Text.{IsOneOrTwo, HasText};
ghost use Rattle.model_laws.specs.history_laws.Start.{IsStart};
ghost use Rattle.board_core.specs.Recorded.{Recorded, state_of};

mod batches;
pub(crate) mod feeds;
pub(crate) mod totals;

use crate::desks::Desks;
use crate::service::Service;
use crate::setup::Setup;
use adaptive_roads::Roads;
use ride_model::{Actor, Entry, Fleet, NoMemory, RequestState, Settings, Vehicle};
use std::alloc::Global;
use std::marker::Model;

/// The one object that feeds and desks share: each call appends at most one entry to a history, which is legal, and whose
/// replay is the board's state.
pub struct Board<'r> {
    pub(crate) setup: Setup<'r>,
    /// The fleet as it was handed in, which contracts alone read.
    pub(crate) start: Fleet,
    pub(crate) feeds: u8,
    pub(crate) desks: u8,
    pub(crate) service: Service,
    pub(crate) kept: Desks,
    pub(crate) history: Vec<Entry>,
    /// How many entries of feeds there is room for.
    pub(crate) spare: u32,
}

impl<'r> Model for Board<'r> {
    ghost use Rattle.std.specs.Prelude.{vec_capacity};
    ghost use Rattle.ride_model.specs.State.{start_state};
    ghost use Rattle.board_core.specs.Recorded.{Recorded};
    ghost use Rattle.board_core.specs.inner.Kept.{IsBoard};

    ghost Value = { Recorded };

    ghost view = { λ b. record {
      start = start_state b.setup.roads b.setup.settings b.start;
      feeds = b.feeds;
      desks = b.desks;
      history = b.history.items;
      spare = b.spare;
    } };

    ghost invariant = { λ b. IsBoard b.setup b.service b.kept (vec_capacity b.history) (record {
      start = start_state b.setup.roads b.setup.settings b.start;
      feeds = b.feeds;
      desks = b.desks;
      history = b.history.items;
      spare = b.spare;
    }) };
}

impl Drop for Board<'_> {
    // By calls, each proved once: a derived drop stands part by part in each function that lets a board go.
    fn drop(self) {
        let Board {
            setup,
            start,
            feeds: _,
            desks: _,
            service,
            kept,
            history,
            spare: _,
        } = self;
        drop(setup);
        drop(start);
        drop(service);
        drop(kept);
        drop(history);
    }
}

impl<'r> Board<'r> {
    /// A board of a fleet at the clock's time 0, for so many feeds and desks.
    pub fn new(
        alloc: Global,
        roads: &'r Roads,
        settings: Settings,
        fleet: Fleet,
        feeds: u8,
        desks: u8,
    ) -> Result<Board<'r>, NoMemory>
        requires start { MayStart roads.now settings fleet }
        requires feeds { IsOneOrTwo feeds }
        requires desks { IsOneOrTwo desks }
        ensures start { IfOk result (λ board. board.start ≡ start_state roads.now settings fleet) }
        ensures feeds { IfOk result (λ board. board.feeds ≡ feeds) }
        ensures desks { IfOk result (λ board. board.desks ≡ desks) }
        ensures history { IfOk result (λ board. board.history ≡ []) }
    {
        let vehicles = fleet.vehicles();
        let setup = Setup::new(alloc, roads, settings, vehicles)?;
        let service = Service::new(alloc, vehicles)?;
        let kept = Desks::new();
        let history = Vec::with_capacity(alloc, kept.places_kept())?;
        Ok(Board {
            setup,
            start: fleet,
            feeds,
            desks,
            service,
            kept,
            history,
            spare: 0,
        })
    }

    /// Makes room for so many entries of feeds: until they are there only a request can find no memory.
    pub fn reserve(&mut self, entries: u32) -> Result<(), NoMemory>
        ensures room { OnOk result (entries ≤ self.new.spare) }
        ensures kept { self.old.spare ≤ self.new.spare }
        ensures others { self.new ≡ record self.old { spare = self.new.spare } }
    {
        let spare = self.spare.max(entries);
        self.history
            .reserve(spare as usize + self.kept.places_kept())?;
        self.spare = spare;
        Ok(())
    }

    /// The history: legal, and with a text.
    pub fn entries(&self) -> &[Entry]
        ensures items { result.now ≡ self.now.history }
        ensures legal { IsLegal self.now.feeds self.now.desks self.now.start self.now.history }
        ensures text { HasText self.now.start.settings.log self.now.feeds
            self.now.desks self.now.history }
        ensures start { IsStart self.now.start }
    {
        self.history.as_slice()
    }

    /// The clock's time.
    pub fn now(&self) -> u64
        ensures { result ≡ (state_of self.now).clock }
    {
        self.service.clock
    }

    /// The vehicles in fleet order, as they stand.
    pub fn vehicles(&self) -> &[Vehicle]
        ensures { result.now ≡ (state_of self.now).vehicles }
    {
        self.service.vehicles.as_slice()
    }

    /// The vehicle of an id, as it stands.
    pub fn vehicle(&self, id: u64) -> Option<&Vehicle>
        ensures { option_copied result ≡ find_vehicle (state_of self.now).vehicles id }
    {
        let place = self.service.place_of(self.setup.places(), id)?;
        Some(&self.service.vehicles[place])
    }

    /// What has become of the request of an id, None where none was accepted.
    pub fn request_state(&self, id: u64) -> Option<RequestState>
        ensures { result ≡ request_state (state_of self.now) id }
    {
        self.service.requests.state(id)
    }

    /// Whether all feeds and desks ended whole, each batch that was asked for was opened, and none is open or was given up.
    pub fn finished(&self) -> bool
        ensures { IsTrue result ↔ IsFinished self.now.feeds self.now.desks
            self.now.start self.now.history }
    {
        self.kept
            .is_finished(self.feeds, self.desks, self.service.asked)
    }

    /// How many batches were asked for.
    pub fn asked(&self) -> u64
        ensures { result ≡ (state_of self.now).asked }
    {
        self.service.asked
    }

    /// How many batches were opened.
    pub fn opened(&self) -> u64
        ensures { result ≡ (state_of self.now).opened }
    {
        self.kept.opened
    }

    /// The version of the log.
    pub fn log(&self) -> u8
        ensures { result ≡ self.now.start.settings.log }
    {
        self.setup.settings().log
    }

    pub fn feeds(&self) -> u8
        ensures { result ≡ self.now.feeds }
    {
        self.feeds
    }

    pub fn desks(&self) -> u8
        ensures { result ≡ self.now.desks }
    {
        self.desks
    }

    /// Whether an actor has ended.
    pub fn has_ended(&self, actor: Actor) -> bool
        ensures { result ≡ has_ended (state_of self.now) actor }
    {
        self.kept.ending(actor).is_some()
    }

    /// The number of a desk's open batch.
    pub fn open_of(&self, desk: u8) -> Option<u64>
        ensures { result ≡ option_map (λ (batch : BatchCopy). batch.number)
            (open_batch_of (state_of self.now) desk) }
    {
        self.kept.batches.of(desk)
    }
}
