//! The companies of a league.
ghost use Rattle.std.specs.Prelude.{◌≡◌, ◌<◌, IfOk, OnOk, IsTrue, is_some};
ghost use Rattle.ride_model.specs.State.{request_state};
ghost use Rattle.ride_model.specs.Step.{step};
ghost use Rattle.ride_model.specs.Text.{IsSpelledCommand};
ghost use Rattle.batch_commit.specs.inner.Table.{IsTableOf};
ghost use Rattle.board_core.specs.Recorded.{state_of};
ghost use Rattle.fleet_league.specs.inner.Companies.{is_report, most_reports, report_count};
ghost use Rattle.fleet_league.specs.league_session.League.{IsAwarded};
ghost use Rattle.fleet_league.specs.inner.Winning.{MayPlay, MayWin};
ghost use Rattle.fleet_league.specs.inner.league_session.LeagueBoards.{IsPlayed, IsReported, IsSound};
ghost use Rattle.fleet_league.specs.Prices.{quote_of};
ghost use Rattle.fleet_league.specs.inner.Quoting.{quoting_batch};
ghost use Rattle.fleet_league.specs.inner.Round.{IsPriced};

use crate::{Brief, Company, NoMemory, PricedQuote, table_of_won};
use adaptive_roads::Roads;
use batch_commit::PriceTable;
use board_core::Board;
use pricing_workers::Pricer;
use ride_model::{Command, Reply, Ride};
use std::alloc::Global;
use std::marker::Model;
use std::thread::Threads;

/// A company of a league, with what prices its vehicles.
pub(crate) struct Member<'r> {
    alloc: Global,
    company: Company<'r>,
    pricer: Box<Pricer<'r>>,
}

impl<'r> Model for Member<'r> {
    ghost use Rattle.std.specs.Prelude.{◌≡◌};
    ghost use Rattle.fleet_league.specs.inner.Companies.{CompanyState};

    ghost Value = { CompanyState };

    ghost view = { λ m. m.company };

    ghost invariant = { λ m. m.pricer.value ≡ m.company.board.start.roads };
}

impl Drop for Member<'_> {
    fn drop(self) {
        let Member {
            alloc: _,
            company,
            pricer,
        } = self;
        drop(company);
        drop(pricer);
    }
}

impl<'r> Member<'r> {
    /// A company over these roads, with a pricer of its own.
    pub(crate) fn new(
        alloc: Global,
        roads: &'r Roads,
        company: Company<'r>,
    ) -> Result<Member<'r>, NoMemory>
        requires same_roads { company.board.start.roads ≡ roads.now }
        ensures { IfOk result (λ member. member ≡ company.entry) }
    {
        let pricer = Box::new(alloc, Pricer::new(alloc, roads, 1)?)?;
        Ok(Member {
            alloc,
            company,
            pricer,
        })
    }

    /// The company's board.
    pub(crate) fn board(&self) -> &Board<'r>
        ensures { result.now ≡ self.now.board }
    {
        self.company.board()
    }

    /// Whether the company has a request.
    pub(crate) fn has(&self, id: u64) -> bool
        ensures { result ≡ is_some (request_state (state_of self.now.board) id) }
    {
        self.company.board().request_state(id).is_some()
    }

    /// Answers a report.
    pub(crate) fn report(&mut self, command: &Command) -> Result<Reply, NoMemory>
        requires is_open { IsTrue self.old.is_open }
        requires a_report { IsTrue (is_report command.now) }
        requires few { report_count self.old.board.history < most_reports }
        requires spelled { IsSpelledCommand self.old.board.start.settings.log command.now }
        ensures reply { IfOk result (λ reply. reply
            ≡ (step (state_of self.old.board) command.now).reply) }
        ensures reported { OnOk result (IsReported command.now self.old self.new) }
    {
        self.company.report(command)
    }

    /// What the company quotes for rides, with their table.
    pub(crate) fn quote<R: Threads + Sync>(
        &mut self,
        rt: &R,
        rides: &[Ride],
    ) -> Result<PricedQuote, NoMemory>
        requires may { MayPlay self.old rides.now }
        ensures quote { IfOk result (λ priced. priced.quote
            ≡ quote_of (state_of self.old.board) rides.now) }
        ensures priced { IfOk result (λ priced. IsPriced priced.quote.prices) }
        ensures table { IfOk result (λ priced. IsTableOf self.old.board.start.roads
            (quoting_batch (state_of self.old.board) rides.now) priced.table) }
        ensures kept { self.new ≡ self.old }
        ensures sound { IsSound self.old.board }
    {
        // This call tells that the history is legal.
        let _history = self.company.board().entries();
        self.company.quote_with_table(rt, &mut self.pricer, rides)
    }

    /// Awards the company its part of a round of rides, by the table of the rides over its vehicles as they stand.
    pub(crate) fn award(
        &mut self,
        table: &PriceTable,
        rides: &[Ride],
        brief: &Brief,
    ) -> Result<(), NoMemory>
        requires may { MayWin self.old rides.now brief.now }
        requires table { IsTableOf self.old.board.start.roads
            (quoting_batch (state_of self.old.board) rides.now) table.now }
        ensures awarded { OnOk result
            (IsAwarded brief.now (state_of self.old.board) (state_of self.new.board)) }
        ensures played { OnOk result (IsPlayed rides.now self.old self.new) }
        ensures start { self.new.board.start ≡ self.old.board.start }
    {
        // This call tells that the history is legal.
        let _history = self.company.board().entries();
        let vehicles = self.company.board().vehicles().len() as u32;
        let won = table_of_won(self.alloc, table, vehicles, rides, brief.wins.items())?;
        self.company.award_priced(won, brief)?;
        // And this one, that it is so still.
        let _awarded = self.company.board().entries();
        Ok(())
    }
}
