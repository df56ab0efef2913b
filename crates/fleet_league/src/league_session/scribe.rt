//! A league that takes a feed line by line.
ghost use Rattle.std.specs.Prelude.{◌≡◌, [], IfOk};
ghost use Rattle.fleet_league.specs.inner.league_session.LeagueBoards.{league_of};
ghost use Rattle.fleet_league.specs.inner.league_session.LeagueRuns.{HasTold};

use crate::league_session::outset::Outset;
use crate::league_session::printing::print_told;
use crate::league_session::reading::read_line;
use crate::league_session::state::League;
use line_text::LineTaker;
use line_text::text_page::Page;
use ride_model::NoMemory;
use std::alloc::{AllocError, Global};
use std::thread::Threads;

/// A league, the version of its log, and a runtime for its rounds.
pub(crate) struct Scribe<'t, 'r, R> {
    rt: &'t R,
    log: u8,
    league: League<'r>,
}

impl<R> Drop for Scribe<'_, '_, R> {
    fn drop(self) {
        let Scribe {
            rt: _,
            log: _,
            league,
        } = self;
        drop(league);
    }
}

impl<'t, 'r, R> Scribe<'t, 'r, R> {
    /// A league at its start.
    pub(crate) fn new(
        rt: &'t R,
        alloc: Global,
        outset: Outset<'r>,
    ) -> Result<Scribe<'t, 'r, R>, NoMemory>
        ensures start { IfOk result (λ scribe. league_of scribe.league ≡ outset.entry) }
        ensures nothing_told { IfOk result (λ scribe.
            HasTold (league_of scribe.league) [] [] scribe.log scribe.league) }
    {
        let log = outset.settings.log;
        let league = League::new(alloc, outset)?;
        Ok(Scribe { rt, log, league })
    }
}

impl<'t, 'r, R: Threads + Sync> LineTaker for Scribe<'t, 'r, R> {
    ghost use Rattle.std.specs.Thread.{IsSync};
    ghost use Rattle.command_lines.specs.Limits.{most_lines};
    ghost use Rattle.fleet_league.specs.inner.league_session.LeagueBoards.{league_of};
    ghost use Rattle.fleet_league.specs.inner.league_session.LeagueRuns.{HasTold};

    ghost most = { most_lines };

    ghost takes = { λ first lines text now.
        IsSync R.row × HasTold (league_of first.league) lines text now.log now.league };

    fn take_line(
        &mut self,
        page: &mut Page,
        number: u64,
        line: &[u8],
        over: bool,
    ) -> Result<(), NoMemory> {
        let Some(said) = read_line(line, over, number, self.log) else {
            return Ok(());
        };
        let told = self.league.take(self.rt, &said)?;
        match print_told(&said, &told, self.log, page) {
            Ok(()) => Ok(()),
            Err(_) => Err(AllocError),
        }
    }
}
