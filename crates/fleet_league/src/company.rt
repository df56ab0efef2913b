//! A company, with its vehicles on a board of its own.
ghost use Rattle.std.specs.Prelude.{◌≡◌, ◌<◌, [], ◌++◌, ◌∷◌, IfOk, OnOk, OnErr, IsTrue};
ghost use Rattle.ride_model.specs.Fleet.{MayStart};
ghost use Rattle.ride_model.specs.State.{start_state};
ghost use Rattle.ride_model.specs.Step.{step};
ghost use Rattle.ride_model.specs.Text.{IsSpelledCommand};
ghost use Rattle.board_core.specs.Recorded.{state_of};
ghost use Rattle.board_core.specs.inner.Recorded.{fed_entry};
ghost use Rattle.fleet_league.specs.inner.Companies.{is_report, report_count, most_reports};

use adaptive_roads::Roads;
use board_core::Board;
use ride_model::{Command, Fleet, NoMemory, Reply, Settings};
use std::alloc::Global;
use std::marker::Model;

/// The vehicles of one owner, on a board of one feed and one desk. While the company is open no request waits on its board: each is
/// requested, seated and committed by one award.
#[derive(Drop)]
pub struct Company<'r> {
    pub(crate) alloc: Global,
    pub(crate) settings: Settings,
    pub(crate) board: Board<'r>,
    pub(crate) is_open: bool,
}

impl<'r> Model for Company<'r> {
    ghost use Rattle.fleet_league.specs.inner.Companies.{CompanyState, IsCompany};

    ghost Value = { CompanyState };

    ghost view = { λ c. record { board = c.board; is_open = c.is_open } };

    ghost invariant = { λ c. IsCompany c.settings (record { board = c.board; is_open = c.is_open }) };
}

impl<'r> Company<'r> {
    /// An open company of a fleet, at the clock's time 0.
    pub fn new(
        alloc: Global,
        roads: &'r Roads,
        settings: Settings,
        fleet: Fleet,
    ) -> Result<Company<'r>, NoMemory>
        requires start { MayStart roads.now settings fleet }
        ensures start { IfOk result (λ company. company.board.start
            ≡ start_state roads.now settings fleet) }
        ensures history { IfOk result (λ company. company.board.history ≡ []) }
        ensures is_open { IfOk result (λ company. IsTrue company.is_open) }
    {
        let board = Board::new(alloc, roads, settings, fleet, 1, 1)?;
        Ok(Company {
            alloc,
            settings,
            board,
            is_open: true,
        })
    }

    /// Whether awards may be made: until one has found no memory.
    pub fn is_open(&self) -> bool
        ensures { result ≡ self.now.is_open }
    {
        self.is_open
    }

    /// The board.
    pub fn board(&self) -> &Board<'r>
        ensures board { result.now ≡ self.now.board }
        ensures one_feed { self.now.board.feeds ≡ 1 }
        ensures one_desk { self.now.board.desks ≡ 1 }
    {
        &self.board
    }

    /// Answers a report of a driver, of the clock or of a cancellation by the rules of dispatch, and appends it with its reply.
    pub fn report(&mut self, command: &Command) -> Result<Reply, NoMemory>
        requires is_open { IsTrue self.old.is_open }
        requires a_report { IsTrue (is_report command.now) }
        requires few { report_count self.old.board.history < most_reports }
        requires spelled { IsSpelledCommand self.old.board.start.settings.log command.now }
        ensures reply { IfOk result (λ reply. reply
            ≡ (step (state_of self.old.board) command.now).reply) }
        ensures entry { OnOk result (self.new.board.history
            ≡ self.old.board.history ++ fed_entry (state_of self.old.board) 1 command.now ∷ []) }
        ensures no_memory { OnErr result (self.new ≡ self.old) }
        ensures others { self.new ≡ record self.old {
          board = record self.old.board {
            history = self.new.board.history;
            spare = self.new.board.spare;
          };
        } }
    {
        // This call tells that the history is legal.
        let _history = self.board.entries();
        self.board.apply(1, command)
    }
}
