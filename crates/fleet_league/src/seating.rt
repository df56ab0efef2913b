//! The answer to a batch of wins: their seats, with the prices and pays of their brief.
ghost use Rattle.std.specs.Prelude.{◌≡◌, ◌≤◌, ◌<◌, ◌==◌, ℕ, List, length, slice_index, position, IfOk, IfErr, IfSome};
ghost use Rattle.ride_model.specs.declared.vehicle.Vehicle.{Vehicle};
ghost use Rattle.ride_model.specs.Road.{RoadMap};
ghost use Rattle.ride_model.specs.Seating.{vehicle_ids};
ghost use Rattle.ride_model.specs.Vehicle.{ride_ids};
ghost use Rattle.ride_model.specs.declared.limits.TheConstants.{LARGEST_BATCH, MOST_VEHICLES};
ghost use Rattle.batch_commit.specs.inner.Answer.{CertifiesOverCells, undecided};
ghost use Rattle.batch_commit.specs.inner.Table.{FitsBatch, IsTableOf};
ghost use Rattle.hungarian.specs.inner.Seats.{seat_at, seats_by};
ghost use Rattle.fleet_league.specs.Awards.{won_rides, won_columns, AreSeatsOf};
ghost use Rattle.fleet_league.specs.inner.Awards.{price_list, won_column};
ghost use Rattle.fleet_league.specs.inner.Awarding.{IsWonBatch};

use crate::{Brief, Win};
use batch_commit::{Answer, Batch, PriceTable, Solved};
use ride_model::{AmountList, NoMemory, Seat, SeatList, Vehicle};
use std::alloc::Global;

/// A batch of wins with their seats, by its table, or the batch again where memory is wanting.
pub(crate) fn solved(
    alloc: Global,
    batch: Batch,
    table: PriceTable,
    brief: &Brief,
) -> Result<Solved, Batch>
    requires won { (roads : RoadMap) × IsTableOf roads batch table
        × IsWonBatch roads batch brief.now }
    ensures batch { IfOk result (λ solved. solved.batch ≡ batch) }
    ensures table { IfOk result (λ solved. solved.table ≡ table) }
    ensures certified { IfOk result
        (λ solved. CertifiesOverCells batch solved.table solved.answer.seating solved.answer.prices
        solved.answer.pays) }
    ensures seats { IfOk result (λ solved. AreSeatsOf brief.now.wins solved.answer.seating) }
    ensures prices { IfOk result (λ solved. solved.answer.prices ≡ price_list brief.now.wins) }
    ensures pays { IfOk result (λ solved. solved.answer.pays ≡ brief.now.pays) }
    ensures same_batch { IfErr result (λ same. same ≡ batch) }
{
    // These calls tell that the requests differ, and the vehicles.
    let _requests = batch.requests();
    let _vehicles = batch.vehicles().vehicles();
    match answer_by(alloc, &batch, &table, brief) {
        Ok(answer) => Ok(Solved::tie(batch, table, answer)),
        Err(_) => Err(batch),
    }
}

// The answer that seats the wins of a brief, with their prices and its pays.
fn answer_by(
    alloc: Global,
    batch: &Batch,
    table: &PriceTable,
    brief: &Brief,
) -> Result<Answer, NoMemory>
    requires fits { FitsBatch batch.now table.now }
    requires requests { batch.now.requests ≡ won_rides brief.now.wins }
    ensures seats { IfOk result (λ answer. answer.seating
        ≡ seats_by table.now (ride_ids (won_rides brief.now.wins))
        (vehicle_ids batch.now.vehicles)
        (won_columns batch.now.vehicles brief.now.wins) (length brief.now.wins)) }
    ensures prices { IfOk result (λ answer. answer.prices ≡ price_list brief.now.wins) }
    ensures pays { IfOk result (λ answer. answer.pays ≡ brief.now.pays) }
    ensures undecided { IfOk result (λ answer. answer.outcomes ≡ undecided answer.prices) }
{
    // This call tells that there are few requests.
    let _requests = batch.requests();
    let wins = brief.wins.items();
    let seats = seats_of(alloc, table, batch.vehicles().vehicles(), wins)?;
    let prices = prices_of(alloc, wins)?;
    let pays = brief.pays.try_copy()?;
    Answer::of(alloc, seats, AmountList::of(prices), pays)
}

// The seats of wins, each by the places in its cell.
fn seats_of(
    alloc: Global,
    table: &PriceTable,
    vehicles: &[Vehicle],
    wins: &[Win],
) -> Result<SeatList, NoMemory>
    requires few { length wins.now ≤ LARGEST_BATCH }
    requires rows_are { table.now.rows ≡ length wins.now }
    requires columns_are { table.now.columns ≡ length vehicles.now }
    requires few_vehicles { length vehicles.now ≤ MOST_VEHICLES }
    ensures { IfOk result (λ seats. seats
        ≡ seats_by table.now (ride_ids (won_rides wins.now)) (vehicle_ids vehicles.now)
        (won_columns vehicles.now wins.now) (length wins.now)) }
{
    let mut seats = Vec::with_capacity(alloc, wins.len())?;
    for row in 0..wins.len() {
        if let Some(seat) = seat_of(table, vehicles, row as u32, &wins[row]) {
            seats.push(seat)?;
        }
    }
    Ok(SeatList::of(seats))
}

// The seat of a win, by its row.
fn seat_of(table: &PriceTable, vehicles: &[Vehicle], row: u32, win: &Win) -> Option<Seat>
    requires row_in { row < table.now.rows }
    requires columns_are { table.now.columns ≡ length vehicles.now }
    requires few_vehicles { length vehicles.now ≤ MOST_VEHICLES }
    ensures { (requests : List ℕ) → slice_index requests row ≡ win.now.ride.id
        → result ≡ seat_at table.now requests (vehicle_ids vehicles.now) row
        (won_column vehicles.now win.now) }
{
    let column = column_of(vehicles, win.vehicle)?;
    let offer = table.cell(row, column as u32)?;
    Some(Seat {
        request: win.ride.id,
        vehicle: vehicles[column].id,
        i: offer.i,
        j: offer.j,
    })
}

// The place in the fleet of the vehicle of an id.
fn column_of(vehicles: &[Vehicle], id: u64) -> Option<usize>
    ensures place { result ≡ position (λ (v : Vehicle). v.id == id) vehicles.now }
    ensures within { IfSome result (λ column. column < length vehicles.now) }
{
    vehicles.iter().position(|vehicle| vehicle.id == id)
}

// Each win's request with its price.
fn prices_of(alloc: Global, wins: &[Win]) -> Result<Vec<(u64, u64)>, NoMemory>
    ensures { IfOk result (λ prices. prices.items ≡ price_list wins.now) }
{
    wins.iter()
        .map(|win| (win.ride.id, win.price))
        .collect(alloc)
}
