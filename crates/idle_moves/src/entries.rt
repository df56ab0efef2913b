//! Versions by their vehicles' ids, as entries of the history raise them.
ghost use Rattle.std.specs.Prelude.{◌≡◌, ◌<◌, ◌+◌, ◌-◌, ◌^◌, length, nat_eq, IfOk, IfSome};
ghost use Rattle.std.specs.List.{IsDistinct};
ghost use Rattle.ride_model.specs.Batch.{seat_of};
ghost use Rattle.ride_model.specs.Legal.{versions_of};
ghost use Rattle.ride_model.specs.Seating.{vehicle_ids};
ghost use Rattle.idle_moves.specs.inner.Raises.{HasRoom, HasRoomFor, after_entries, after_event, after_outcomes, raised, raised_if, raises_in, vehicle_changed, vehicle_confirmed, vehicle_reported};

use indexmap::IndexMap;
use ride_model::{Command, Entry, Event, NoMemory, Outcome, Reply, Seat, Vehicle};
use std::alloc::Global;

/// The versions of vehicles of different ids, in order.
pub(crate) fn versions_of(
    alloc: Global,
    vehicles: &[Vehicle],
) -> Result<IndexMap<u64, u64>, NoMemory>
    requires { IsDistinct nat_eq (vehicle_ids vehicles.now) }
    ensures { IfOk result (λ versions. versions.entries ≡ versions_of vehicles.now) }
{
    let mut versions = IndexMap::with_capacity(alloc, vehicles.len())?;
    for vehicle in vehicles {
        versions.insert(vehicle.id, vehicle.version)?;
    }
    Ok(versions)
}

// The vehicle that a report is of.
fn vehicle_reported(command: &Command) -> Option<u64>
    ensures { result ≡ vehicle_reported command.now }
{
    match command {
        Command::At { vehicle, .. } => Some(*vehicle),
        Command::Done { vehicle } => Some(*vehicle),
        Command::On { vehicle } => Some(*vehicle),
        Command::Off { vehicle } => Some(*vehicle),
        _ => None,
    }
}

// The vehicle that an answered command changes.
fn vehicle_changed(command: &Command, reply: &Reply) -> Option<u64>
    ensures { result ≡ vehicle_changed command.now reply.now }
{
    match reply {
        Reply::OnMap => vehicle_reported(command),
        Reply::Late { .. } => vehicle_reported(command),
        Reply::Picked { .. } => vehicle_reported(command),
        Reply::Dropped { .. } => vehicle_reported(command),
        Reply::Duty => vehicle_reported(command),
        Reply::Freed { vehicle } => Some(*vehicle),
        _ => None,
    }
}

// The seat of a request.
#[tactic(auto, using(batch_commit::proofs::Found::find_rules))]
fn find_seat(seats: &[Seat], request: u64) -> Option<Seat>
    ensures { result ≡ seat_of seats.now request }
{
    for seat in seats {
        if seat.request == request {
            return Some(*seat);
        }
    }
    None
}

// The vehicle of a request that a commit confirms.
fn vehicle_confirmed(seats: &[Seat], request: u64, outcome: Outcome) -> Option<u64>
    ensures { result ≡ vehicle_confirmed seats.now (request, outcome) }
{
    match outcome {
        Outcome::Confirmed => match find_seat(seats, request) {
            Some(seat) => Some(seat.vehicle),
            None => None,
        },
        _ => None,
    }
}

// The version of a vehicle rises by one.
fn raise(versions: &mut IndexMap<u64, u64>, vehicle: u64)
    requires { HasRoom 1 versions.old.entries }
    ensures { versions.new.entries ≡ raised vehicle versions.old.entries }
{
    let Some(place) = versions.get_index_of(&vehicle) else {
        return;
    };
    versions[place] += 1;
}

// The version of a vehicle rises by one, if there is one.
fn raise_if(versions: &mut IndexMap<u64, u64>, changed: Option<u64>)
    requires { HasRoom 1 versions.old.entries }
    ensures { versions.new.entries ≡ raised_if changed versions.old.entries }
{
    if let Some(vehicle) = changed {
        raise(versions, vehicle);
    }
}

// The versions of the vehicles rise that a commit changes.
fn raise_confirmed(versions: &mut IndexMap<u64, u64>, seats: &[Seat], outcomes: &[(u64, Outcome)])
    requires { HasRoom (length outcomes.now) versions.old.entries }
    ensures { versions.new.entries ≡ after_outcomes seats.now outcomes.now versions.old.entries }
{
    for (request, outcome) in outcomes {
        raise_if(versions, vehicle_confirmed(seats, *request, *outcome));
    }
}

// The versions of the vehicles rise that an entry changes.
fn take_entry(versions: &mut IndexMap<u64, u64>, entry: &Entry)
    requires { HasRoom (raises_in entry.now.event) versions.old.entries }
    ensures { versions.new.entries ≡ after_event entry.now.event versions.old.entries }
{
    match &entry.event {
        Event::Fed { command, reply } => raise_if(versions, vehicle_changed(command, reply)),
        Event::Committed {
            seats,
            outcomes,
            ..
        } => raise_confirmed(versions, seats.items(), outcomes.items()),
        _ => {}
    }
}

/// The versions of the vehicles rise that entries change, one entry after the other.
pub(crate) fn take_entries(versions: &mut IndexMap<u64, u64>, entries: &[Entry])
    requires { HasRoomFor entries.now versions.old.entries }
    ensures { versions.new.entries ≡ after_entries entries.now versions.old.entries }
{
    for entry in entries {
        take_entry(versions, entry);
    }
}
