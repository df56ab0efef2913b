//! Rounds, played by two companies.
ghost use Rattle.std.specs.Prelude.{◌≡◌, All, IfOk, OnOk};
ghost use Rattle.std.specs.Thread.{IsSync};
ghost use Rattle.batch_commit.specs.inner.Table.{IsTableOf};
ghost use Rattle.board_core.specs.Recorded.{state_of};
ghost use Rattle.fleet_league.specs.declared.quotes.Quote.{Quote};
ghost use Rattle.fleet_league.specs.league_session.League.{PlaysRound, quotes_of};
ghost use Rattle.fleet_league.specs.inner.Winning.{MayPlay};
ghost use Rattle.fleet_league.specs.inner.league_session.LeagueBoards.{IsPlayed, IsSound};
ghost use Rattle.fleet_league.specs.Prices.{quote_of};
ghost use Rattle.fleet_league.specs.inner.Quoting.{quoting_batch};
ghost use Rattle.fleet_league.specs.inner.Round.{IsPriced};

use crate::league_session::members::Member;
use crate::league_session::settling::parts_of;
use crate::league_session::sheets::RoundSheet;
use crate::{NoMemory, PricedQuote, Quote};
use batch_commit::PriceTable;
use ride_model::Ride;
use std::alloc::Global;
use std::thread::{Threads, join_mut};

/// What two companies quote for rides, and each one's table of them.
struct RoundPrices {
    quotes: [Quote; 2],
    first: PriceTable,
    second: PriceTable,
}

impl Drop for RoundPrices {
    fn drop(self) {
        let RoundPrices {
            quotes,
            first,
            second,
        } = self;
        drop(quotes);
        drop(first);
        drop(second);
    }
}

/// Plays a round of rides: both companies quote, their quotes are settled together, and each is awarded its part.
pub(crate) fn play<R: Threads + Sync>(
    rt: &R,
    alloc: Global,
    penalty: u64,
    first: &mut Member<'_>,
    second: &mut Member<'_>,
    rides: &[Ride],
) -> Result<RoundSheet, NoMemory>
    requires first { MayPlay first.old rides.now }
    requires second { MayPlay second.old rides.now }
    requires first_penalty { penalty ≡ first.old.board.start.settings.penalty }
    requires second_penalty { penalty ≡ second.old.board.start.settings.penalty }
    ensures played { IfOk result (PlaysRound penalty rides.now
        (state_of first.old.board) (state_of first.new.board)
        (state_of second.old.board) (state_of second.new.board)) }
    ensures first_played { OnOk result (IsPlayed rides.now first.old first.new) }
    ensures second_played { OnOk result (IsPlayed rides.now second.old second.new) }
    ensures first_start { first.new.board.start ≡ first.old.board.start }
    ensures second_start { second.new.board.start ≡ second.old.board.start }
{
    let prices = prices_of(rt, first, second, rides)?;
    let parts = parts_of(alloc, penalty, &prices.quotes, rides)?;
    first.award(&prices.first, rides, &parts.first)?;
    second.award(&prices.second, rides, &parts.second)?;
    Ok(parts.into_sheet())
}

// What two companies quote for rides, at the same time.
fn prices_of<R: Threads + Sync>(
    rt: &R,
    first: &mut Member<'_>,
    second: &mut Member<'_>,
    rides: &[Ride],
) -> Result<RoundPrices, NoMemory>
    requires first { MayPlay first.old rides.now }
    requires second { MayPlay second.old rides.now }
    ensures quotes { IfOk result (λ prices. prices.quotes
        ≡ quotes_of (state_of first.old.board) (state_of second.old.board) rides.now) }
    ensures priced { IfOk result (λ prices.
        All (λ (quote : Quote). IsPriced quote.prices) prices.quotes) }
    ensures first_table { IfOk result (λ prices. IsTableOf first.old.board.start.roads
        (quoting_batch (state_of first.old.board) rides.now) prices.first) }
    ensures second_table { IfOk result (λ prices. IsTableOf second.old.board.start.roads
        (quoting_batch (state_of second.old.board) rides.now) prices.second) }
    ensures first { first.new ≡ first.old }
    ensures second { second.new ≡ second.old }
    ensures first_sound { IsSound first.old.board }
    ensures second_sound { IsSound second.old.board }
{
    let (one, two) = join_mut(
        rt,
        &mut || -> Result<PricedQuote, NoMemory>
            requires { IsSync R.row × MayPlay first.now rides.now }
            ensures { IfOk result (λ priced. priced.quote
                ≡ quote_of (state_of first.entry.now.board) rides.entry.now)
                × IfOk result (λ priced. IsPriced priced.quote.prices)
                × IfOk result (λ priced. IsTableOf first.entry.now.board.start.roads
                (quoting_batch (state_of first.entry.now.board) rides.entry.now) priced.table)
                × IsSound first.entry.now.board × (first.exit.now ≡ first.entry.now) }
        { first.quote(rt, rides) },
        &mut || -> Result<PricedQuote, NoMemory>
            requires { IsSync R.row × MayPlay second.now rides.now }
            ensures { IfOk result (λ priced. priced.quote
                ≡ quote_of (state_of second.entry.now.board) rides.entry.now)
                × IfOk result (λ priced. IsPriced priced.quote.prices)
                × IfOk result (λ priced. IsTableOf second.entry.now.board.start.roads
                (quoting_batch (state_of second.entry.now.board) rides.entry.now) priced.table)
                × IsSound second.entry.now.board × (second.exit.now ≡ second.entry.now) }
        { second.quote(rt, rides) },
    );
    let one = one?;
    let two = two?;
    Ok(RoundPrices {
        quotes: [one.quote, two.quote],
        first: one.table,
        second: two.table,
    })
}
