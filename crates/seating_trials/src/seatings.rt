//! Least seatings of batches of requests 5 and 6 and vehicles 1 and 2.
use super::small_batches::{batch, table};
use batch_commit::Answer;
use hungarian::solve;
use ride_model::{Outcome, Seat};
use std::alloc::Global;
use std::process::Abort;

/// What a request without a seat costs, what both requests cost in each vehicle, and the answer.
struct Case {
    name: &'static str,
    penalty: u64,
    costs: &'static [Option<u32>; 4],
    /// The ids of requests and of their vehicles.
    seats: &'static [(u64, u64)],
    /// What the seating costs: the prices less the payments.
    cost: u64,
    /// Whether both prices are the penalty, and no vehicle pays.
    at_penalty: bool,
}

/// Only the first vehicle has offers.
const ONE_VEHICLE: [Option<u32>; 4] = [Some(180), None, Some(240), None];

const TWO_VEHICLES: [Option<u32>; 4] = [Some(120), Some(180), Some(60), Some(240)];

static CASES: [Case; 4] = [
    Case {
        name: "one vehicle and two requests",
        penalty: 3600,
        costs: &ONE_VEHICLE,
        seats: &[(5, 1)],
        cost: 3780,
        at_penalty: false,
    },
    Case {
        name: "a penalty below the cost leaves a request out",
        penalty: 179,
        costs: &ONE_VEHICLE,
        seats: &[],
        cost: 358,
        at_penalty: true,
    },
    Case {
        name: "a penalty above the cost seats it",
        penalty: 181,
        costs: &ONE_VEHICLE,
        seats: &[(5, 1)],
        cost: 361,
        at_penalty: false,
    },
    Case {
        name: "greedy is dearer",
        penalty: 3600,
        costs: &TWO_VEHICLES,
        seats: &[(5, 2), (6, 1)],
        cost: 240,
        at_penalty: false,
    },
];

// The least seating of a case, whose stops stand at places 1 and 2.
fn answer(rt: &impl Abort, alloc: Global, case: &Case) -> Answer {
    assert!(rt; case.penalty <= 3600);
    let batch = batch(rt, alloc, 5, case.penalty);
    let table = table(rt, alloc, (1, 2), case.costs);
    solve(alloc, &batch, &table).expect(rt, "there is memory")
}

// Whether the seats are those of these requests and vehicles.
fn are_seats(seats: &[Seat], ids: &[(u64, u64)]) -> bool {
    let mut same = seats.len() == ids.len();
    for (found, (request, vehicle)) in seats.iter().zip(ids) {
        let seat = Seat {
            request: *request,
            vehicle: *vehicle,
            i: 1,
            j: 2,
        };
        same &= *found == seat;
    }
    same
}

// The prices less the payments are the cost.
fn cost(answer: &Answer) -> u64 {
    let mut sum = 0u64;
    for (_, price) in answer.prices.items() {
        sum = sum.wrapping_add(*price);
    }
    for (_, pay) in answer.pays.items() {
        sum = sum.wrapping_sub(*pay);
    }
    sum
}

// Whether both prices are the penalty, and no vehicle pays.
fn is_at_penalty(answer: &Answer, penalty: u64) -> bool {
    answer.prices.items() == [(5, penalty), (6, penalty)].as_slice()
        && answer.pays.items().is_empty()
}

// Whether this is the answer of a case, with no outcome decided.
fn is_answer(answer: Answer, case: &Case) -> bool {
    let undecided = [(5, Outcome::Gone), (6, Outcome::Gone)];
    are_seats(answer.seating.items(), case.seats)
        && cost(&answer) == case.cost
        && is_at_penalty(&answer, case.penalty) == case.at_penalty
        && answer.outcomes.items() == undecided.as_slice()
}

#[test]
fn seatings_are_least(rt: HostRuntime) {
    for case in &CASES {
        let answer = answer(&rt, rt.alloc(), case);
        assert!(rt; is_answer(answer, case), "{}", case.name);
    }
}
