//! A company whose vehicle is off duty has no price.
ghost use Rattle.std.specs.Prelude.{◌≡◌, IfOk};
ghost use Rattle.league_trials.specs.OneVehicle.{IsNewCompany, IsTownRide};

use super::one_vehicle::ride;
use fleet_league::{Company, NoMemory, Quote};
use pricing_workers::Pricer;
use ride_model::{Command, Ride};
use std::process::Abort;
use std::thread::Threads;

// What the company quotes for a ride once its vehicle is off duty.
fn quote_off_duty<R: Threads + Sync>(
    rt: &R,
    company: &mut Company<'_>,
    pricer: &mut Pricer<'_>,
    ride: Ride,
) -> Result<Quote, NoMemory>
    requires company { IsNewCompany company.old }
    requires pricer { pricer.old ≡ company.old.board.start.roads }
    requires ride { IsTownRide ride }
    ensures ride { IfOk result (λ quote. quote.prices.rows ≡ 1) }
    ensures vehicle { IfOk result (λ quote. quote.prices.columns ≡ 1) }
{
    company.report(&Command::Off { vehicle: 1 })?;
    // This call tells that the history is legal.
    let _history = company.board().entries();
    company.quote(rt, pricer, &[ride])
}

/// The vehicle is near the ride, and yet has no price for it.
pub(crate) fn expect_no_price<R: Threads + Sync + Abort>(
    rt: &R,
    company: &mut Company<'_>,
    pricer: &mut Pricer<'_>,
)
    requires company { IsNewCompany company.old }
    requires pricer { pricer.old ≡ company.old.board.start.roads }
{
    let Ok(quote) = quote_off_duty(rt, company, pricer, ride(6, 1, 2)) else {
        panic!(rt; "there is memory");
    };
    assert!(rt; quote.prices.cell(0, 0) == None);
}
