//! A day of two companies that share the vehicles of a generated city: what each has on its board in the end is a log that audits.
ghost use Rattle.std.specs.Prelude.{◌≡◌, length, All, IfOk};
ghost use Rattle.ride_model.specs.Text.{HasLine};
ghost use Rattle.city_maker.specs.Fleets.{default_settings};
ghost use Rattle.fleet_league.specs.declared.quotes.Quote.{Quote};
ghost use Rattle.fleet_league.specs.inner.Round.{IsPriced};
ghost use Rattle.league_trials.specs.Sides.{AreParts};

use super::outset::Outset;
use super::sides::Side;
use adaptive_roads::Roads;
use board_core::{Board, Totals};
use city_maker::{City, CityPlan, make_city};
use fleet_league::league_session::part_of;
use fleet_league::{Brief, NoMemory, Quote, settle};
use log_audit::{Verdict, audit};
use ride_model::{Command, Entry, Reply, Ride};
use ride_ports::{MemSink, MemSource};
use std::alloc::Global;
use std::process::Abort;
use std::thread::Threads;
use trip_log::{print_entry, print_head};

/// A city of a hundred nodes: its requests come in twelve rounds of eight.
const PLAN: CityPlan = CityPlan {
    side: 10,
    vehicles: 12,
    requests: 96,
    seed: 1,
};

/// What leaving a ride out costs.
const PENALTY: u64 = 3_600;

/// The round after which a rider cancels.
const CANCELLING: u64 = 5;

/// What the rounds of a day have given.
#[derive(Clone, Copy)]
struct Tally {
    rounds: u64,
    first: u64,
    second: u64,
    away: u64,
    /// The id of a ride that the first company has won.
    won: Option<u64>,
}

/// Two companies, the rides that wait for the next round, and what the rounds so far have given.
struct Day<'r> {
    first: Side<'r>,
    second: Side<'r>,
    waiting: Vec<Ride>,
    tally: Tally,
}

impl Drop for Day<'_> {
    fn drop(self) {
        let Day {
            first,
            second,
            waiting,
            tally: _,
        } = self;
        drop(first);
        drop(second);
        drop(waiting);
    }
}

// The ride of a request in a map of so many nodes.
fn ride_of(nodes: u32, command: &Command) -> Option<Ride> {
    let Command::Request {
        id,
        from,
        to,
        seats,
        latest,
        longest,
        ..
    } = *command
    else {
        return None;
    };
    if from > u64::from(nodes) || to > u64::from(nodes) || seats > 8 {
        return None;
    }
    Some(Ride {
        id,
        from: from as u32,
        to: to as u32,
        seats: seats as u32,
        chairs: 0,
        latest,
        longest,
        picked: None,
    })
}

/// Each company's part of a round.
struct Parts {
    first: Brief,
    second: Brief,
}

impl Drop for Parts {
    fn drop(self) {
        let Parts { first, second } = self;
        drop(first);
        drop(second);
    }
}

// The parts of a round of rides, which two companies have quoted.
fn parts_of(alloc: Global, quotes: &[Quote; 2], rides: &[Ride]) -> Result<Parts, NoMemory>
    requires priced { All (λ (quote : Quote). IsPriced quote.prices) quotes.now }
    requires same_rides { All (λ (quote : Quote). quote.prices.rows ≡ length rides.now) quotes.now }
    ensures { IfOk result (λ parts. AreParts quotes.now rides.now parts.first parts.second) }
{
    let round = settle(alloc, PENALTY, quotes)?;
    let first = part_of(alloc, 1, quotes, rides, &round)?;
    let second = part_of(alloc, 2, quotes, rides, &round)?;
    Ok(Parts { first, second })
}

// Plays a round of rides: both companies quote, their quotes are settled together, and each is awarded its part.
fn play<R: Threads + Sync + Abort>(
    rt: &R,
    alloc: Global,
    first: &mut Side<'_>,
    second: &mut Side<'_>,
    rides: &[Ride],
) -> Parts {
    let one = first.quote(rt, rides);
    let two = second.quote(rt, rides);
    let quotes = [one, two];
    let Ok(parts) = parts_of(alloc, &quotes, rides) else {
        panic!(rt; "there is memory");
    };
    first.award(rt, &quotes[0], rides, &parts.first);
    second.award(rt, &quotes[1], rides, &parts.second);
    parts
}

impl<'r> Day<'r> {
    // A day of the outset's vehicles of odd and of even ids.
    fn new(rt: &impl Abort, alloc: Global, outset: &Outset<'r>) -> Day<'r> {
        Day {
            first: Side::new(rt, alloc, outset.half(rt, alloc, 1)),
            second: Side::new(rt, alloc, outset.half(rt, alloc, 0)),
            waiting: Vec::new(alloc),
            tally: Tally {
                rounds: 0,
                first: 0,
                second: 0,
                away: 0,
                won: None,
            },
        }
    }

    // Takes the commands of a city's feed.
    fn take_all<R: Threads + Sync + Abort>(
        &mut self,
        rt: &R,
        alloc: Global,
        nodes: u32,
        commands: &[Command],
    ) {
        for command in commands {
            self.take(rt, alloc, nodes, command);
        }
    }

    // A request waits for the next round, which a batch makes. The clock goes to both companies, whose drivers then report.
    fn take<R: Threads + Sync + Abort>(
        &mut self,
        rt: &R,
        alloc: Global,
        nodes: u32,
        command: &Command,
    ) {
        match command {
            Command::Ask => self.make_round(rt, alloc),
            Command::Clock { .. } => self.set_clock(rt, command),
            _ => {
                let Some(ride) = ride_of(nodes, command) else {
                    panic!(rt; "this is a ride of the map");
                };
                assert!(rt; self.waiting.push(ride).is_ok());
            }
        }
    }

    // Sets the clock of both companies, and lets the drivers report.
    fn set_clock(&mut self, rt: &impl Abort, clock: &Command) {
        self.first.report(rt, clock);
        self.second.report(rt, clock);
        self.first.drive(rt);
        self.second.drive(rt);
    }

    // Makes a round of the rides that wait.
    fn make_round<R: Threads + Sync + Abort>(&mut self, rt: &R, alloc: Global) {
        let rides = self.waiting.as_slice();
        let parts = play(rt, alloc, &mut self.first, &mut self.second, rides);
        self.tally.add(rides.len(), &parts);
        self.waiting.clear();
        if self.tally.rounds == CANCELLING {
            self.cancel(rt);
        }
    }

    // The rider of a ride that the first company has won cancels.
    fn cancel(&mut self, rt: &impl Abort) {
        let Some(id) = self.tally.won else {
            panic!(rt; "the first company has won a ride");
        };
        let reply = self.first.report(rt, &Command::Cancel { id });
        assert!(rt; matches!(reply, Reply::Freed { .. }));
    }
}

impl Tally {
    // Adds what a round of so many rides gave.
    fn add(&mut self, rides: usize, parts: &Parts) {
        let first = parts.first.wins.items();
        let second = parts.second.wins.items().len();
        self.rounds = self.rounds.wrapping_add(1);
        self.first = self.first.wrapping_add(first.len() as u64);
        self.second = self.second.wrapping_add(second as u64);
        let won = first.len().wrapping_add(second);
        self.away = self.away.wrapping_add(rides.wrapping_sub(won) as u64);
        if let Some(win) = first.first() {
            self.won = Some(win.ride.id);
        }
    }
}

// Prints the lines of entries.
fn print_entries(rt: &impl Abort, entries: &[Entry], log: &mut MemSink<'_>)
    requires { All (HasLine 1) entries.now }
{
    for entry in entries {
        assert!(rt; print_entry(entry, 1, log).is_ok());
    }
}

// The trip log of a board of one feed and one desk.
fn put_log(rt: &impl Abort, board: &Board<'_>, log: &mut MemSink<'_>)
    requires { board.now.start.settings ≡ default_settings }
{
    assert!(rt; print_head(1, 1, 1, log).is_ok());
    print_entries(rt, board.entries(), log);
}

// The totals of a log over an outset, which is right.
fn audited<R: Threads + Sync + Abort>(
    rt: &R,
    alloc: Global,
    outset: Outset<'_>,
    log: &[u8],
) -> Totals {
    let Outset {
        roads,
        settings,
        fleet,
    } = outset;
    let mut source = MemSource::new(log, &[], &[]);
    match audit(rt, alloc, roads, settings, fleet, &mut source) {
        Ok(Verdict::Yes(totals)) => totals,
        Ok(Verdict::No { line, .. }) => panic!(rt; "the log's line {line} is wrong"),
        Err(_) => panic!(rt; "there is memory"),
    }
}

// The totals of a company's audited log, over the vehicles of a rest.
fn totals_of<R: Threads + Sync + Abort>(
    rt: &R,
    alloc: Global,
    outset: &Outset<'_>,
    rest: u64,
    side: &Side<'_>,
) -> Totals {
    let log = MemSink::new(alloc, 1_000_000, &[], &[]);
    let mut log = log.expect(rt, "there is memory");
    put_log(rt, side.board(), &mut log);
    audited(rt, alloc, outset.half(rt, alloc, rest), log.written())
}

// The audited logs of a day tell of as many confirmed rides as were won.
fn expect_logs<R: Threads + Sync + Abort>(
    rt: &R,
    alloc: Global,
    outset: &Outset<'_>,
    day: &Day<'_>,
) {
    let first = totals_of(rt, alloc, outset, 1, &day.first);
    let second = totals_of(rt, alloc, outset, 0, &day.second);
    assert!(rt; first.confirmed == day.tally.first && first.away == 0);
    assert!(rt; second.confirmed == day.tally.second && second.away == 0);
}

// Each company wins rides in twelve rounds, and some are left out.
fn expect_tally(rt: &impl Abort, tally: &Tally) {
    assert!(rt; tally.rounds == 12);
    assert!(rt; 0 < tally.first && 0 < tally.second && 0 < tally.away);
}

// Plays a city's day, and looks at what it has given.
fn expect_day<R: Threads + Sync + Abort>(
    rt: &R,
    alloc: Global,
    outset: &Outset<'_>,
    commands: &[Command],
) {
    let mut day = Day::new(rt, alloc, outset);
    day.take_all(rt, alloc, outset.roads.nodes(), commands);
    expect_tally(rt, &day.tally);
    expect_logs(rt, alloc, outset, &day);
}

#[test]
fn the_logs_of_two_companies_of_a_city_audit(rt: HostRuntime) {
    let Ok(city) = make_city(rt.alloc(), &PLAN) else {
        panic!(&rt; "there is memory");
    };
    let City {
        network,
        settings,
        fleet,
        commands,
    } = city;
    let Ok(roads) = Roads::new(rt.alloc(), &network) else {
        panic!(&rt; "there is memory");
    };
    let outset = Outset::new(&roads, settings, fleet);
    expect_day(&rt, rt.alloc(), &outset, commands.items());
}
