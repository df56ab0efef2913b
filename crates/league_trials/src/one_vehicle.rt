//! A company of one vehicle in the town, a ride there, and what the company quotes for it.
ghost use Rattle.std.specs.Prelude.{◌≡◌, ◌≢◌, Some, IfOk};
ghost use Rattle.ride_model.specs.Text.{IsSpelled};
ghost use Rattle.dual_check.specs.Cells.{cell_at};
ghost use Rattle.league_trials.specs.OneVehicle.{IsNewCompany, IsOneVehicleFleet, IsQuoteOf, IsTownNode, IsTownRide, won_alone};

use adaptive_roads::Roads;
use fleet_league::{Brief, Company, NoMemory, Quote, Win, WinList};
use pricing_workers::Pricer;
use ride_model::{AmountList, Fleet, Ride};
use std::alloc::Global;
use std::process::Abort;
use std::thread::Threads;

/// A ride of one rider.
pub(crate) fn ride(id: u64, from: u32, to: u32) -> Ride
    requires id { IsSpelled id }
    requires from { IsTownNode from }
    requires to { IsTownNode to }
    requires nodes_differ { from ≢ to }
    ensures town { IsTownRide result }
    ensures id { result.id ≡ id }
{
    Ride {
        id,
        from,
        to,
        seats: 1,
        chairs: 0,
        latest: 600,
        longest: 300,
        picked: None,
    }
}

/// Vehicle 1 wins a ride.
pub(crate) fn brief(alloc: Global, ride: Ride, price: u64) -> Result<Brief, NoMemory>
    ensures { IfOk result (λ brief. brief ≡ won_alone ride price) }
{
    let win = Win {
        ride,
        vehicle: 1,
        price,
    };
    let wins = [win].to_vec(alloc)?;
    Ok(Brief {
        wins: WinList::of(wins),
        pays: AmountList::of(Vec::new(alloc)),
    })
}

/// A company of a fleet of one vehicle, of which nothing was told.
pub(crate) fn company_of<'r>(
    alloc: Global,
    roads: &'r Roads,
    fleet: Fleet,
) -> Result<Company<'r>, NoMemory>
    requires nodes { roads.now.nodes ≡ 4 }
    requires fleet { IsOneVehicleFleet roads.now fleet }
    ensures new { IfOk result IsNewCompany }
    ensures roads { IfOk result (λ company. company.board.start.roads ≡ roads.now) }
{
    Company::new(alloc, roads, plan_trials::trial_town::settings(1), fleet)
}

/// The company of the town's fleet.
pub(crate) fn company<'r>(alloc: Global, roads: &'r Roads) -> Result<Company<'r>, NoMemory>
    requires { roads.now.nodes ≡ 4 }
    ensures new { IfOk result IsNewCompany }
    ensures roads { IfOk result (λ company. company.board.start.roads ≡ roads.now) }
{
    let fleet = plan_trials::trial_town::fleet(alloc, roads)?;
    company_of(alloc, roads, fleet)
}

/// A quote of a ride, whose price is known.
pub(crate) fn quote<R: Threads + Sync + Abort>(
    rt: &R,
    company: &Company<'_>,
    pricer: &mut Pricer<'_>,
    ride: Ride,
    price: u64,
) -> Result<Quote, NoMemory>
    requires company { IsNewCompany company.now }
    requires pricer { pricer.old ≡ company.now.board.start.roads }
    requires ride { IsTownRide ride }
    ensures quote { IfOk result (IsQuoteOf company.now.board.start ride price) }
    ensures pricer { pricer.new ≡ pricer.old }
{
    let quote = company.quote(rt, pricer, &[ride])?;
    expect_price(rt, &quote, price);
    Ok(quote)
}

// The one price of a quote is this one.
fn expect_price(rt: &impl Abort, quote: &Quote, price: u64)
    requires ride { quote.now.prices.rows ≡ 1 }
    requires vehicle { quote.now.prices.columns ≡ 1 }
    ensures { cell_at quote.now.prices 0 0 ≡ Some price }
{
    if quote.prices.cell(0, 0) != Some(price) {
        panic!(rt; "the price is that of the way to the ride and of the ride");
    }
}
