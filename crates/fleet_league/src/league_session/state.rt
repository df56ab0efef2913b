//! A league, and what each line of its feed makes of it.
ghost use Rattle.std.specs.Prelude.{◌≡◌, ◌≢◌, ◌<◌, ◌+◌, ℕ, IfOk, OnOk, IsTrue};
ghost use Rattle.ride_model.specs.declared.command.Command.TheVariants.{Ask, Cancel, Clock};
ghost use Rattle.ride_model.specs.Text.{IsSpelled, IsSpelledCommand};
ghost use Rattle.command_lines.specs.Limits.{most_lines};
ghost use Rattle.fleet_league.specs.declared.league_session.lines.FeedLine.TheVariants.{Company as OfCompany, League as OfLeague};
ghost use Rattle.fleet_league.specs.inner.league_session.Feed.{IsSpelledLine};
ghost use Rattle.fleet_league.specs.league_session.Feed.{is_driver_report};
ghost use Rattle.fleet_league.specs.league_session.League.{TakesLine, league_answer};
ghost use Rattle.fleet_league.specs.inner.league_session.LeagueBoards.{HasAnswered, IsLeague, league_of};

use crate::Company;
use crate::league_session::desk::RequestDesk;
use crate::league_session::lines::FeedLine;
use crate::league_session::members::Member;
use crate::league_session::outset::Outset;
use crate::league_session::playing::play;
use crate::league_session::sheets::Told;
use ride_model::refusals::{BATCHES_FULL, UNKNOWN_COMPANY};
use ride_model::{Command, NoMemory, Reply};
use std::alloc::Global;
use std::marker::Model;
use std::thread::Threads;

/// A league of two companies. Its desk judges requests; a company has those that it has won.
pub(crate) struct League<'r> {
    alloc: Global,
    /// What a request costs that a round leaves out.
    penalty: u64,
    desk: RequestDesk<'r>,
    first: Member<'r>,
    second: Member<'r>,
}

impl Drop for League<'_> {
    fn drop(self) {
        let League {
            alloc: _,
            penalty: _,
            desk,
            first,
            second,
        } = self;
        drop(desk);
        drop(first);
        drop(second);
    }
}

impl<'r> Model for League<'r> {
    ghost use Rattle.std.specs.Prelude.{◌≡◌};
    ghost use Rattle.fleet_league.specs.inner.league_session.LeagueBoards.{LeagueBoards};

    ghost Value = { LeagueBoards };

    ghost view = { λ l. record { desk = l.desk; first = l.first; second = l.second } };

    ghost invariant = { λ l. l.penalty ≡ l.desk.start.settings.penalty };
}

impl<'r> League<'r> {
    /// A league at its start.
    pub(crate) fn new(alloc: Global, outset: Outset<'r>) -> Result<League<'r>, NoMemory>
        ensures start { IfOk result (λ league. league_of league ≡ outset.entry) }
        ensures fits { IfOk result (IsLeague 0) }
        ensures desk { IfOk result (λ league. league.desk.start ≡ outset.entry.desk) }
    {
        let desk = RequestDesk::new(alloc, &outset)?;
        let Outset {
            roads,
            settings,
            first,
            second,
        } = outset;
        let first = Member::new(alloc, roads, Company::new(alloc, roads, settings, first)?)?;
        let second = Member::new(alloc, roads, Company::new(alloc, roads, settings, second)?)?;
        Ok(League {
            alloc,
            penalty: settings.penalty,
            desk,
            first,
            second,
        })
    }

    /// Takes a line of the feed: what becomes of it.
    pub(crate) fn take<R: Threads + Sync>(
        &mut self,
        rt: &R,
        line: &FeedLine,
    ) -> Result<Told, NoMemory>
        requires fits { (lines : ℕ) × (lines < most_lines) × IsLeague lines self.old }
        requires spelled { IsSpelledLine self.old.desk.start.settings.log line.now }
        ensures told { IfOk result (TakesLine (league_of self.old) (league_of self.new) line.now) }
        ensures fits { (lines : ℕ) → IsLeague lines self.old
            → OnOk result (IsLeague (lines + 1) self.new) }
        ensures start { self.new.desk.start ≡ self.old.desk.start }
    {
        match line {
            FeedLine::League(Command::Ask) => self.make_round(rt),
            FeedLine::League(command) => Ok(Told::Answer(self.answer(command)?)),
            FeedLine::Company { company, command } => {
                Ok(Told::Answer(self.report(*company, command)?))
            }
        }
    }

    // Answers a command to the league that makes no round.
    fn answer(&mut self, command: &Command) -> Result<Reply, NoMemory>
        requires fits { (lines : ℕ) × (lines < most_lines) × IsLeague lines self.old }
        requires spelled { IsSpelledCommand self.old.desk.start.settings.log command.now }
        requires no_batch { command.now ≢ Ask }
        ensures answered { IfOk result
            (HasAnswered self.old self.new
            (league_answer (league_of self.old) (OfLeague command.now))) }
        ensures fits { (lines : ℕ) → IsLeague lines self.old
            → OnOk result (IsLeague (lines + 1) self.new) }
        ensures start { self.new.desk.start ≡ self.old.desk.start }
    {
        match command {
            Command::Request { .. } => self.desk.answer(command),
            Command::Cancel { id } => self.cancel(*id),
            Command::Clock { time } => self.set_clock(*time),
            _ => Ok(Reply::Noted),
        }
    }

    // Cancels a request: by the company that it is with, and else at the desk.
    fn cancel(&mut self, id: u64) -> Result<Reply, NoMemory>
        requires fits { (lines : ℕ) × (lines < most_lines) × IsLeague lines self.old }
        requires spelled { IsSpelled id }
        ensures answered { IfOk result
            (HasAnswered self.old self.new
            (league_answer (league_of self.old) (OfLeague (Cancel id)))) }
        ensures fits { (lines : ℕ) → IsLeague lines self.old
            → OnOk result (IsLeague (lines + 1) self.new) }
        ensures start { self.new.desk.start ≡ self.old.desk.start }
    {
        let command = Command::Cancel { id };
        if self.first.has(id) {
            return self.first.report(&command);
        }
        if self.second.has(id) {
            return self.second.report(&command);
        }
        self.desk.answer(&command)
    }

    // Sets the clock of every company.
    fn set_clock(&mut self, time: u64) -> Result<Reply, NoMemory>
        requires fits { (lines : ℕ) × (lines < most_lines) × IsLeague lines self.old }
        requires spelled { IsSpelled time }
        ensures answered { IfOk result
            (HasAnswered self.old self.new
            (league_answer (league_of self.old) (OfLeague (Clock time)))) }
        ensures fits { (lines : ℕ) → IsLeague lines self.old
            → OnOk result (IsLeague (lines + 1) self.new) }
        ensures start { self.new.desk.start ≡ self.old.desk.start }
    {
        let command = Command::Clock { time };
        let reply = self.first.report(&command)?;
        self.second.report(&command)?;
        Ok(reply)
    }

    // Answers a report to the company of a number.
    fn report(&mut self, company: u64, command: &Command) -> Result<Reply, NoMemory>
        requires fits { (lines : ℕ) × (lines < most_lines) × IsLeague lines self.old }
        requires spelled { IsSpelledCommand self.old.desk.start.settings.log command.now }
        requires a_report { IsTrue (is_driver_report command.now) }
        ensures answered { IfOk result
            (HasAnswered self.old self.new
            (league_answer (league_of self.old) (OfCompany company command.now))) }
        ensures fits { (lines : ℕ) → IsLeague lines self.old
            → OnOk result (IsLeague (lines + 1) self.new) }
        ensures start { self.new.desk.start ≡ self.old.desk.start }
    {
        match company {
            1 => self.first.report(command),
            2 => self.second.report(command),
            _ => Ok(Reply::Refused {
                code: UNKNOWN_COMPANY,
            }),
        }
    }

    // Makes a round of the first requests that wait.
    fn make_round<R: Threads + Sync>(&mut self, rt: &R) -> Result<Told, NoMemory>
        requires fits { (lines : ℕ) × (lines < most_lines) × IsLeague lines self.old }
        ensures told { IfOk result (TakesLine (league_of self.old)
            (league_of self.new) (OfLeague Ask)) }
        ensures fits { (lines : ℕ) → IsLeague lines self.old
            → OnOk result (IsLeague (lines + 1) self.new) }
        ensures start { self.new.desk.start ≡ self.old.desk.start }
    {
        // These calls tell that the histories are legal.
        let _requests = self.desk.board().entries();
        let _first = self.first.board().entries();
        let _second = self.second.board().entries();
        let Some(batch) = self.desk.open_round()? else {
            return Ok(Told::Answer(Reply::Refused { code: BATCHES_FULL }));
        };
        let number = batch.number();
        let sheet = play(
            rt,
            self.alloc,
            self.penalty,
            &mut self.first,
            &mut self.second,
            batch.requests(),
        )?;
        self.desk.close_round(batch)?;
        Ok(Told::Round { number, sheet })
    }
}
