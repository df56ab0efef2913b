//! A company that plays a day of a city. What its calls ask is looked at before each of them.
ghost use Rattle.std.specs.Prelude.{◌≡◌, ◌≤◌, ◌<◌, nat_eq, true, All, IsTrue};
ghost use Rattle.std.specs.List.{IsDistinct};
ghost use Rattle.ride_model.specs.Text.{IsSpelledCommand};
ghost use Rattle.ride_model.specs.Vehicle.{ride_ids};
ghost use Rattle.board_core.specs.Recorded.{state_of};
ghost use Rattle.city_maker.specs.Fleets.{default_settings};
ghost use Rattle.fleet_league.specs.inner.Companies.{is_report, report_count};
ghost use Rattle.fleet_league.specs.inner.Winning.{MayPlay, MayWin};
ghost use Rattle.fleet_league.specs.inner.league_session.LeagueBoards.{IsSound};
ghost use Rattle.fleet_league.specs.Prices.{quote_of};
ghost use Rattle.fleet_league.specs.inner.Round.{IsPriced};
ghost use Rattle.league_trials.specs.Sides.{IsFreshRide, IsRideOf};

use super::outset::Outset;
use adaptive_roads::Roads;
use board_core::Board;
use city_maker::next_report;
use fleet_league::{Brief, Company, Quote, Settled};
use pricing_workers::Pricer;
use ride_model::{Command, Reply, Ride};
use std::alloc::Global;
use std::marker::Model;
use std::process::Abort;
use std::thread::Threads;

/// The numbers of a command are below this.
const LIMIT: u64 = 1_000_000_000_000_000_000;

/// The most entries of a history of a day.
const MOST_ENTRIES: usize = 90_000;

/// The most reports of a driver at one time of the clock.
const MOST_REPORTS: u32 = 64;

/// A company, with what it prices its vehicles with.
pub(crate) struct Side<'r> {
    company: Company<'r>,
    roads: &'r Roads,
    pricer: Pricer<'r>,
}

impl<'r> Model for Side<'r> {
    ghost use Rattle.std.specs.Prelude.{◌≡◌};
    ghost use Rattle.city_maker.specs.Fleets.{default_settings};
    ghost use Rattle.fleet_league.specs.inner.Companies.{CompanyState};

    ghost Value = { CompanyState };

    ghost view = { λ s. s.company };

    ghost invariant = { λ s. (s.company.board.start.roads ≡ s.roads.now) × (s.pricer ≡ s.company.board.start.roads)
        × (s.company.board.start.settings ≡ default_settings) };
}

impl Drop for Side<'_> {
    fn drop(self) {
        let Side {
            company,
            roads: _,
            pricer,
        } = self;
        drop(company);
        drop(pricer);
    }
}

impl<'r> Side<'r> {
    /// A company of an outset, of which nothing was told.
    pub(crate) fn new(rt: &impl Abort, alloc: Global, outset: Outset<'r>) -> Side<'r> {
        let Outset {
            roads,
            settings,
            fleet,
        } = outset;
        let Ok(pricer) = Pricer::new(alloc, roads, 1) else {
            panic!(rt; "there is memory");
        };
        let Ok(company) = Company::new(alloc, roads, settings, fleet) else {
            panic!(rt; "there is memory");
        };
        Side {
            company,
            roads,
            pricer,
        }
    }

    /// The company's board.
    pub(crate) fn board(&self) -> &Board<'r>
        ensures board { result.now ≡ self.now.board }
        ensures settings { self.now.board.start.settings ≡ default_settings }
    {
        self.company.board()
    }

    /// Answers a report.
    pub(crate) fn report(&mut self, rt: &impl Abort, command: &Command) -> Reply {
        assert!(rt; self.company.is_open());
        assert!(rt; reports_of(self.company.board()) < MOST_ENTRIES);
        assert!(rt; is_report(command));
        self.company.report(command).expect(rt, "there is memory")
    }

    /// Lets each driver report all that is due.
    pub(crate) fn drive(&mut self, rt: &impl Abort) {
        let vehicles = self.company.board().vehicles().len();
        for place in 0..vehicles {
            self.drive_one(rt, place);
        }
    }

    // Lets the driver of the vehicle of a place report all that is due.
    fn drive_one(&mut self, rt: &impl Abort, place: usize) {
        for _ in 0..MOST_REPORTS {
            let Some(command) = self.next_of(place) else {
                return;
            };
            self.report(rt, &command);
        }
    }

    // What the driver of the vehicle of a place is to report.
    fn next_of(&self, place: usize) -> Option<Command> {
        let board = self.company.board();
        // This call tells that the history is legal.
        let _history = board.entries();
        let vehicles = board.vehicles();
        if vehicles.len() <= place {
            return None;
        }
        next_report(&vehicles[place], board.now())
    }

    /// What the company quotes for rides.
    pub(crate) fn quote<R: Threads + Sync + Abort>(&mut self, rt: &R, rides: &[Ride]) -> Quote
        ensures may { MayPlay self.old rides.now }
        ensures quote { result ≡ quote_of (state_of self.old.board) rides.now }
        ensures priced { IsPriced result.prices }
        ensures kept { self.new ≡ self.old }
        ensures sound { IsSound self.old.board }
        ensures settings { self.old.board.start.settings ≡ default_settings }
    {
        // This call tells that the history is legal.
        let _history = self.company.board().entries();
        assert!(rt; self.may_play(rides));
        let Ok(quote) = self.company.quote(rt, &mut self.pricer, rides) else {
            panic!(rt; "there is memory");
        };
        quote
    }

    /// Awards the company its part of a round of rides, which it has quoted as it stands, and confirms.
    pub(crate) fn award<R: Threads + Sync + Abort>(
        &mut self,
        rt: &R,
        quote: &Quote,
        rides: &[Ride],
        brief: &Brief,
    )
        requires may { MayWin self.old rides.now brief.now }
        requires quote { quote.now ≡ quote_of (state_of self.old.board) rides.now }
    {
        // This call tells that the history is legal.
        let _history = self.company.board().entries();
        let settled = self.company.award(rt, &mut self.pricer, quote, brief);
        assert!(rt; settled == Ok(Settled::Confirmed));
    }

    // Whether rides may be quoted and won.
    fn may_play(&self, rides: &[Ride]) -> bool
        ensures { IsTrue result → MayPlay self.now rides.now }
    {
        let board = self.company.board();
        // This call tells that the history is legal.
        let entries = board.entries().len();
        let asked = board.asked();
        if !self.company.is_open() {
            return false;
        }
        if 32 < rides.len() || MOST_ENTRIES <= entries || 2_000 <= asked {
            return false;
        }
        if !do_ids_rise(rides) {
            return false;
        }
        are_fresh(board, self.roads.nodes(), rides)
    }
}

// How many entries a board has, of which no more are reports.
fn reports_of(board: &Board<'_>) -> usize
    ensures { report_count board.now.history ≤ result }
{
    board.entries().len()
}

// Whether a command is a report whose numbers have at most 18 digits.
fn is_report(command: &Command) -> bool
    ensures report { result ≡ true → IsTrue (is_report command.now) }
    ensures spelled { result ≡ true → IsSpelledCommand 1 command.now }
{
    match *command {
        Command::At {
            vehicle,
            node,
            time,
        } => vehicle < LIMIT && node < LIMIT && time < LIMIT,
        Command::Cancel { id: number }
        | Command::Done { vehicle: number }
        | Command::Clock { time: number } => number < LIMIT,
        _ => false,
    }
}

// Whether each ride has a higher id than the one before it.
fn do_ids_rise(rides: &[Ride]) -> bool
    ensures { IsTrue result → IsDistinct nat_eq (ride_ids rides.now) }
{
    for place in 1..rides.len() {
        if rides[place].id <= rides[place - 1].id {
            return false;
        }
    }
    true
}

// Whether rides fit a map of so many nodes, and a board has accepted none of them.
fn are_fresh(board: &Board<'_>, nodes: u32, rides: &[Ride]) -> bool
    ensures { IsTrue result → All (IsFreshRide nodes (state_of board.now)) rides.now }
{
    for ride in rides {
        if !fits(nodes, ride) || board.request_state(ride.id).is_some() {
            return false;
        }
    }
    true
}

// Whether a ride fits a map of so many nodes, waits, and asks for no chairs.
fn fits(nodes: u32, ride: &Ride) -> bool
    ensures { IsTrue result → IsRideOf nodes ride.now }
{
    is_way(nodes, ride.from, ride.to)
        && 1 <= ride.seats
        && ride.seats <= 8
        && ride.chairs == 0
        && ride.latest <= 1_000_000_000
        && 1 <= ride.longest
        && ride.longest <= 1_000_000
        && ride.id < LIMIT
        && ride.picked.is_none()
}

// Whether two nodes of a map of so many differ.
fn is_way(nodes: u32, from: u32, to: u32) -> bool
    ensures { IsTrue result → (1 ≤ from) × (from ≤ nodes) × (1 ≤ to) × (to ≤ nodes)
        × (from ≡ to → ⊥) }
{
    1 <= from && from <= nodes && 1 <= to && to <= nodes && from != to
}
