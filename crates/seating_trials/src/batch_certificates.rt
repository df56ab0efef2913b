//! Certificates of a batch of two requests and two vehicles, each broken in one number.
ghost use Rattle.std.specs.Prelude.{◌≡◌, ℕ, All, IfSome};
ghost use Rattle.batch_commit.specs.inner.Table.{FitsBatch, HasSmallCosts};
ghost use Rattle.batch_commit.specs.inner.Answer.{IsSeatAt};

use super::small_batches::{batch, table};
use batch_commit::{Batch, PriceTable};
use dual_check::certifies;
use dual_check::laws::weak_duality;
use ride_model::{AmountList, Seat, SeatList};
use std::alloc::Global;
use std::process::Abort;

/// A certificate of a batch of a request and the next one. A table has a few of them: the time that a check takes for a table grows with
/// the square of its length.
struct Case {
    name: &'static str,
    /// The id of the first request.
    first: u64,
    costs: &'static [Option<u32>; 4],
    /// The seated requests and their vehicles, by their places in the batch.
    places: &'static [(u32, u32)],
    prices: &'static [(u64, u64)],
    pays: &'static [(u64, u64)],
    certified: bool,
}

/// Only the first vehicle has offers, or has one to the first request alone, or none.
const BOTH_IN_ONE: [Option<u32>; 4] = [Some(180), None, Some(240), None];

const FIRST_IN_ONE: [Option<u32>; 4] = [Some(180), None, None, None];

const NO_OFFER: [Option<u32>; 4] = [None; 4];

/// A greedy seating is dearer than the least.
const ALL: [Option<u32>; 4] = [Some(120), Some(180), Some(60), Some(240)];

/// One vehicle and two requests, with the right prices and others.
static BOTH_OFFERED: [Case; 4] = [
    Case {
        name: "certified",
        first: 7,
        costs: &BOTH_IN_ONE,
        places: &[(0, 0)],
        prices: &[(7, 3540), (8, 3600)],
        pays: &[(1, 3360)],
        certified: true,
    },
    Case {
        name: "a price lower by one",
        first: 7,
        costs: &BOTH_IN_ONE,
        places: &[(0, 0)],
        prices: &[(7, 3539), (8, 3600)],
        pays: &[(1, 3360)],
        certified: false,
    },
    Case {
        name: "the seated pair not covered",
        first: 7,
        costs: &BOTH_IN_ONE,
        places: &[(0, 0)],
        prices: &[(7, 3540), (8, 3599)],
        pays: &[(1, 3359)],
        certified: false,
    },
    Case {
        name: "the other pair not covered",
        first: 7,
        costs: &BOTH_IN_ONE,
        places: &[(0, 0)],
        prices: &[(7, 3539), (8, 3600)],
        pays: &[(1, 3359)],
        certified: false,
    },
];

/// The same with a price above the penalty, and other vehicles that pay.
static OTHER_PAYMENTS: [Case; 3] = [
    Case {
        name: "a price above the penalty",
        first: 7,
        costs: &BOTH_IN_ONE,
        places: &[(0, 0)],
        prices: &[(7, 3540), (8, 3601)],
        pays: &[(1, 3361)],
        certified: false,
    },
    Case {
        name: "another vehicle pays",
        first: 7,
        costs: &BOTH_IN_ONE,
        places: &[(0, 0)],
        prices: &[(7, 3540), (8, 3600)],
        pays: &[(2, 3360)],
        certified: false,
    },
    Case {
        name: "no such vehicle",
        first: 7,
        costs: &BOTH_IN_ONE,
        places: &[(0, 0)],
        prices: &[(7, 3540), (8, 3600)],
        pays: &[(3, 3360)],
        certified: false,
    },
];

/// Each request has a price, and no vehicle pays nothing.
static ONE_OFFERED: [Case; 4] = [
    Case {
        name: "no vehicle pays",
        first: 7,
        costs: &FIRST_IN_ONE,
        places: &[(0, 0)],
        prices: &[(7, 180), (8, 3600)],
        pays: &[],
        certified: true,
    },
    Case {
        name: "a vehicle pays nothing",
        first: 7,
        costs: &FIRST_IN_ONE,
        places: &[(0, 0)],
        prices: &[(7, 180), (8, 3600)],
        pays: &[(1, 0)],
        certified: false,
    },
    Case {
        name: "a request without a price",
        first: 7,
        costs: &FIRST_IN_ONE,
        places: &[(0, 0)],
        prices: &[(7, 180)],
        pays: &[],
        certified: false,
    },
    Case {
        name: "no seat",
        first: 7,
        costs: &NO_OFFER,
        places: &[],
        prices: &[(7, 3600), (8, 3600)],
        pays: &[],
        certified: true,
    },
];

/// Greedy is dearer.
static GREEDY: [Case; 4] = [
    Case {
        name: "the least seating",
        first: 5,
        costs: &ALL,
        places: &[(0, 1), (1, 0)],
        prices: &[(5, 180), (6, 120)],
        pays: &[(1, 60)],
        certified: true,
    },
    Case {
        name: "the greedy one",
        first: 5,
        costs: &ALL,
        places: &[(0, 0), (1, 1)],
        prices: &[(5, 180), (6, 120)],
        pays: &[(1, 60)],
        certified: false,
    },
    Case {
        name: "a vehicle twice",
        first: 5,
        costs: &ALL,
        places: &[(0, 0), (1, 0)],
        prices: &[(5, 120), (6, 60)],
        pays: &[],
        certified: false,
    },
    Case {
        name: "seats out of order",
        first: 5,
        costs: &ALL,
        places: &[(1, 0), (0, 1)],
        prices: &[(5, 180), (6, 120)],
        pays: &[(1, 60)],
        certified: false,
    },
];

/// Prices and payments stand in order.
static ORDERS: [Case; 3] = [
    Case {
        name: "prices out of order",
        first: 5,
        costs: &ALL,
        places: &[(0, 1), (1, 0)],
        prices: &[(6, 120), (5, 180)],
        pays: &[(1, 60)],
        certified: false,
    },
    Case {
        name: "pays out of order",
        first: 5,
        costs: &ALL,
        places: &[(0, 1), (1, 0)],
        prices: &[(5, 181), (6, 121)],
        pays: &[(2, 1), (1, 61)],
        certified: false,
    },
    Case {
        name: "pays in order",
        first: 5,
        costs: &ALL,
        places: &[(0, 1), (1, 0)],
        prices: &[(5, 181), (6, 121)],
        pays: &[(1, 61), (2, 1)],
        certified: true,
    },
];

// The seat at a cell, if there is one with an offer.
fn seat_at(batch: &Batch, table: &PriceTable, request: u32, vehicle: u32) -> Option<Seat>
    requires { FitsBatch batch.now table.now }
    ensures { IfSome result (λ seat. IsSeatAt batch.now table.now seat request vehicle) }
{
    let requests = batch.requests();
    let vehicles = batch.vehicles().vehicles();
    if request as usize >= requests.len() || vehicle as usize >= vehicles.len() {
        return None;
    }
    let offer = table.cell(request, vehicle)?;
    Some(Seat {
        request: requests[request as usize].id,
        vehicle: vehicles[vehicle as usize].id,
        i: offer.i,
        j: offer.j,
    })
}

// The seats at those of these cells that have an offer.
fn seats_at(
    rt: &impl Abort,
    alloc: Global,
    batch: &Batch,
    table: &PriceTable,
    places: &[(u32, u32)],
) -> SeatList
    requires { FitsBatch batch.now table.now }
    ensures { All (λ seat. (r : ℕ) × (c : ℕ) × IsSeatAt batch.now table.now seat r c) result }
{
    let mut seats = Vec::new(alloc);
    for (request, vehicle) in places {
        if let Some(seat) = seat_at(batch, table, *request, *vehicle) {
            seats.push(seat).expect(rt, "there is memory");
        }
    }
    SeatList::of(seats)
}

fn amounts(rt: &impl Abort, alloc: Global, items: &[(u64, u64)]) -> AmountList {
    AmountList::of(items.to_vec(alloc).expect(rt, "there is memory"))
}

// Whether the prices certify the seating at the places, which is least then.
fn is_certified(
    rt: &impl Abort,
    alloc: Global,
    batch: &Batch,
    table: &PriceTable,
    case: &Case,
) -> bool
    requires fits { FitsBatch batch.now table.now }
    requires small { HasSmallCosts table.now }
{
    let seating = seats_at(rt, alloc, batch, table, case.places);
    let prices = amounts(rt, alloc, case.prices);
    let pays = amounts(rt, alloc, case.pays);
    let certified = certifies(batch, table, &seating, &prices, &pays);
    if certified {
        weak_duality(batch, table, &seating, &prices, &pays);
    }
    certified
}

fn expect_case(rt: &impl Abort, alloc: Global, case: &Case) {
    assert!(rt; case.first < 100);
    let batch = batch(rt, alloc, case.first, 3600);
    let table = table(rt, alloc, (0, 0), case.costs);
    let certified = is_certified(rt, alloc, &batch, &table, case);
    assert!(rt; certified == case.certified, "{}", case.name);
}

fn expect_cases(rt: &impl Abort, alloc: Global, cases: &[Case]) {
    for case in cases {
        expect_case(rt, alloc, case);
    }
}

#[test]
fn prices_certify_least_seatings_alone(rt: HostRuntime) {
    expect_cases(&rt, rt.alloc(), &BOTH_OFFERED);
    expect_cases(&rt, rt.alloc(), &OTHER_PAYMENTS);
    expect_cases(&rt, rt.alloc(), &ONE_OFFERED);
    expect_cases(&rt, rt.alloc(), &GREEDY);
    expect_cases(&rt, rt.alloc(), &ORDERS);
}
