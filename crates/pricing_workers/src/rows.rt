//! The rows of times of some requests.
ghost use Rattle.std.specs.Prelude.{◌≡◌, ◌≤◌, length, All};
ghost use Rattle.ride_model.specs.declared.limits.TheConstants.{LARGEST_BATCH};
ghost use Rattle.ride_model.specs.Vehicle.{IsRide};
ghost use Rattle.pricing_workers.specs.inner.Rows.{HasRows, HoldTimes};

use crate::times::Times;
use adaptive_roads::{BatchRoads, Scratch};
use ride_model::Ride;
use ride_ports::Gate;
use std::thread::{Threads, join_mut};

/// The place at the gate of a worker that is about to search the rows of a request.
const BEFORE_ROWS: u32 = 7;

/// Fills the times of requests with as many workers as there are scratches: the first half of the workers fills its part of the requests
/// beside the rest.
pub(crate) fn fill_times<R: Threads + Sync, G: Gate>(
    rt: &R,
    roads: &BatchRoads,
    requests: &[Ride],
    scratches: &mut [Scratch],
    times: &mut [Times],
    gate: &G,
)
    requires few { length requests.now ≤ LARGEST_BATCH }
    requires requests { All (IsRide roads.now.roads) requests.now }
    requires workers { (1 ≤ length scratches.old) × (length scratches.old ≤ LARGEST_BATCH) }
    requires scratches { All (λ scratch. scratch.nodes ≡ roads.now.roads.nodes) scratches.old }
    requires count { length times.old ≡ length requests.now }
    requires times { All (HasRows (length roads.now.wanted)) times.old }
    ensures times { HoldTimes roads.now.roads requests.now roads.now.wanted times.new }
    ensures scratches { scratches.new ≡ scratches.old }
{
    let workers = scratches.len();
    if workers < 2 {
        fill_own(roads, requests, &mut scratches[0], times, gate);
        return;
    }
    let half = workers / 2;
    let (front, back) = requests.split_at(requests.len() * half / workers);
    let (front_scratches, back_scratches) = scratches.split_at_mut(half);
    let (front_times, back_times) = times.split_at_mut(front.len());
    join_mut(
        rt,
        &mut ||
            requires { (length front.now ≤ LARGEST_BATCH)
                × All (IsRide roads.now.roads) front.now
                × ((1 ≤ length front_scratches.now) × (length front_scratches.now ≤ LARGEST_BATCH))
                × All (λ scratch. scratch.nodes ≡ roads.now.roads.nodes) front_scratches.now
                × (length front_times.now ≡ length front.now)
                × All (HasRows (length roads.now.wanted)) front_times.now }
            ensures { HoldTimes roads.entry.now.roads front.entry.now roads.entry.now.wanted
                front_times.exit.now
                × (front_scratches.exit.now ≡ front_scratches.entry.now) }
        { fill_times(rt, roads, front, front_scratches, front_times, gate) },
        &mut ||
            requires { (length back.now ≤ LARGEST_BATCH)
                × All (IsRide roads.now.roads) back.now
                × ((1 ≤ length back_scratches.now) × (length back_scratches.now ≤ LARGEST_BATCH))
                × All (λ scratch. scratch.nodes ≡ roads.now.roads.nodes) back_scratches.now
                × (length back_times.now ≡ length back.now)
                × All (HasRows (length roads.now.wanted)) back_times.now }
            ensures { HoldTimes roads.entry.now.roads back.entry.now roads.entry.now.wanted
                back_times.exit.now
                × (back_scratches.exit.now ≡ back_scratches.entry.now) }
        { fill_times(rt, roads, back, back_scratches, back_times, gate) },
    );
}

// Fills the times of requests, one request after the other.
fn fill_own<G: Gate>(
    roads: &BatchRoads,
    requests: &[Ride],
    scratch: &mut Scratch,
    times: &mut [Times],
    gate: &G,
)
    requires requests { All (IsRide roads.now.roads) requests.now }
    requires scratch { scratch.old.nodes ≡ roads.now.roads.nodes }
    requires count { length times.old ≡ length requests.now }
    requires times { All (HasRows (length roads.now.wanted)) times.old }
    ensures times { HoldTimes roads.now.roads requests.now roads.now.wanted times.new }
    ensures scratch { scratch.new ≡ scratch.old }
{
    for place in 0..requests.len() {
        gate.pass(BEFORE_ROWS);
        times[place].fill(roads, scratch, &requests[place]);
    }
}
