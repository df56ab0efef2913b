//! Whether prices certify a batch's seating.
ghost use Rattle.std.specs.Prelude.{◌≡◌, ◌≤◌, ◌↔◌, ℕ, length, nat_eq, All, IsTrue, MatchBool};
ghost use Rattle.std.specs.List.{IsDistinct};
ghost use Rattle.ride_model.specs.Road.{RoadMap};
ghost use Rattle.ride_model.specs.Vehicle.{ride_ids};
ghost use Rattle.ride_model.specs.Seating.{vehicle_ids, Certifies};
ghost use Rattle.ride_model.specs.declared.limits.TheConstants.{LARGEST_BATCH, MOST_VEHICLES};
ghost use Rattle.batch_commit.specs.inner.Table.{FitsBatch, IsTableOf, HasSmallCosts};
ghost use Rattle.batch_commit.specs.inner.Answer.{IsSeatAt, CertifiesOverCells};

use crate::certificates::certifies_pairing;
use crate::orders::ids_of;
use crate::spreads::{amounts_over, columns_of};
use arrayvec::ArrayVec;
use batch_commit::{Batch, PriceTable};
use ride_model::{AmountList, Seat, SeatList};

/// Whether prices of a batch's requests and payments of its vehicles certify a seating whose seats have the places of their
/// cells.
pub fn certifies(
    batch: &Batch,
    table: &PriceTable,
    seating: &SeatList,
    prices: &AmountList,
    pays: &AmountList,
) -> bool
    requires fits { FitsBatch batch.now table.now }
    requires small { HasSmallCosts table.now }
    requires in_cells { All (λ seat. (r : ℕ) × (c : ℕ)
        × IsSeatAt batch.now table.now seat r c) seating.now }
    ensures exact { MatchBool result
        (CertifiesOverCells batch.now table.now seating.now prices.now pays.now)
        (CertifiesOverCells batch.now table.now seating.now prices.now pays.now → ⊥) }
    ensures over_maps { (roads : RoadMap) → IsTableOf roads batch.now table.now → MatchBool result
        (Certifies roads batch.now seating.now prices.now pays.now)
        (Certifies roads batch.now seating.now prices.now pays.now → ⊥) }
{
    let requests: ArrayVec<u64, 128> = ids_of(batch.requests());
    let fleet: ArrayVec<u64, 1_000> = ids_of(batch.vehicles().vehicles());
    certifies_over_cells(
        batch,
        table,
        requests.as_slice(),
        fleet.as_slice(),
        seating.items(),
        prices.items(),
        pays.items(),
    )
}

// The same, with the ids of the batch's requests and vehicles.
fn certifies_over_cells(
    batch: &Batch,
    table: &PriceTable,
    requests: &[u64],
    fleet: &[u64],
    seats: &[Seat],
    prices: &[(u64, u64)],
    pays: &[(u64, u64)],
) -> bool
    requires fits { FitsBatch batch.now table.now }
    requires in_cells { All (λ seat. (r : ℕ) × (c : ℕ)
        × IsSeatAt batch.now table.now seat r c) seats.now }
    requires requests_are { requests.now ≡ ride_ids batch.now.requests }
    requires few { length requests.now ≤ LARGEST_BATCH }
    requires requests_differ { IsDistinct nat_eq requests.now }
    requires fleet_is { fleet.now ≡ vehicle_ids batch.now.vehicles }
    requires few_vehicles { length fleet.now ≤ MOST_VEHICLES }
    requires vehicles_differ { IsDistinct nat_eq fleet.now }
    ensures { MatchBool result
        (CertifiesOverCells batch.now table.now seats.now prices.now pays.now)
        (CertifiesOverCells batch.now table.now seats.now prices.now pays.now → ⊥) }
{
    if prices.len() != requests.len() || !all_pay(pays) {
        return false;
    }
    let Some(columns) = columns_of(requests, fleet, seats) else {
        return false;
    };
    let Some(prices) = amounts_over(requests, prices) else {
        return false;
    };
    let Some(pays) = amounts_over(fleet, pays) else {
        return false;
    };
    certifies_pairing(
        table,
        batch.settings().penalty,
        columns.as_slice(),
        prices.as_slice(),
        pays.as_slice(),
    )
}

// Whether each of these pays something.
fn all_pay(pays: &[(u64, u64)]) -> bool
    ensures { IsTrue result ↔ All (λ (item : ℕ × ℕ). 1 ≤ item.1) pays.now }
{
    pays.iter().all(|pay| pay.1 >= 1)
}
