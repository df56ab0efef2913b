//! Each call once, with ample memory.
ghost use Rattle.std.specs.Prelude.{◌≡◌};

use arrayvec::ArrayVec;
use ride_model::*;
use std::alloc::Global;
use std::process::Abort;

fn idle(id: u64) -> Vehicle
    ensures { result.id ≡ id }
{
    Vehicle {
        id,
        seats: 4,
        chairs: 0,
        at: 1,
        ready: 0,
        duty: true,
        version: 0,
        rides: ArrayVec::new(),
        stops: ArrayVec::new(),
    }
}

/// Whether a list is read, changed, copied and given back.
fn list_is_changed_and_copied(rt: &impl Abort, alloc: Global) -> bool {
    let items = [7, 8, 9].to_vec(alloc).expect(rt, "memory for a list");
    let mut list = IdList::of(items);
    list.set(1, 5);
    let copy = list.try_copy().expect(rt, "memory for a copy");
    let changed = list.items() == [7, 5, 9].as_slice();
    let copied = copy.items() == [7, 5, 9].as_slice();
    changed & copied & (list.into_items().as_slice() == [7, 5, 9].as_slice())
}

/// Whether a network shows its nodes and arcs.
fn network_is_shown(rt: &impl Abort, alloc: Global) -> bool {
    let arc = RoadArc {
        tail: 1,
        head: 2,
        seconds: 60,
    };
    let arcs = [arc].to_vec(alloc).expect(rt, "memory for the arcs");
    let network = Network::new(2, arcs);
    (network.nodes(), network.arcs().len()) == (2, 1)
}

fn fleet_of_one(alloc: Global) -> Result<Fleet, NoMemory> {
    let mut vehicles = Vec::new(alloc);
    vehicles.push(idle(3))?;
    let fleet = Fleet::new(vehicles);
    Ok(fleet)
}

/// Whether a fleet shows its vehicles.
fn fleet_is_shown(rt: &impl Abort, alloc: Global) -> bool {
    let fleet = fleet_of_one(alloc).expect(rt, "memory for a vehicle");
    let shown = fleet.vehicles().len();
    (shown, fleet.into_vehicles().len()) == (1, 1)
}

#[test]
fn lists_networks_and_fleets_show_what_they_have(rt: HostRuntime) {
    let alloc = rt.alloc();
    assert!(rt; list_is_changed_and_copied(&rt, alloc) && network_is_shown(&rt, alloc));
    assert!(rt; fleet_is_shown(&rt, alloc));
}

fn late() -> Reply {
    let mut broken = Ids::new();
    broken.push(7);
    broken.push(8);
    Reply::Late {
        seconds: 40,
        broken,
    }
}

fn is_late(reply: &Reply) -> bool {
    match reply {
        Reply::Late { seconds, broken } => { *seconds == 40 && broken.items() == [7, 8].as_slice() }
        _ => false,
    }
}

/// Whether a late reply is copied with its rides.
fn late_is_copied() -> bool {
    let reply = late();
    is_late(&reply.copy())
}

fn committed(rt: &impl Abort, alloc: Global) -> Event {
    let seat = Seat {
        request: 7,
        vehicle: 1,
        i: 0,
        j: 0,
    };
    let seats = [seat].to_vec(alloc).expect(rt, "memory for the seats");
    let prices = [(7, 180)].to_vec(alloc).expect(rt, "memory for the prices");
    let outcomes = [(7, Outcome::Confirmed)]
        .to_vec(alloc)
        .expect(rt, "memory for the outcomes");
    Event::Committed {
        batch: 1,
        cost: 180,
        seats: SeatList::of(seats),
        prices: AmountList::of(prices),
        pays: AmountList::of(Vec::new(alloc)),
        outcomes: OutcomeList::of(outcomes),
    }
}

fn is_commit(event: &Event) -> bool {
    let Event::Committed {
        cost,
        seats,
        prices,
        outcomes,
        ..
    } = event
    else {
        return false;
    };
    *cost == 180
        && seats.items().len() == 1
        && prices.items() == [(7, 180)].as_slice()
        && outcomes.items() == [(7, Outcome::Confirmed)].as_slice()
}

/// Whether the entry of a commit is copied with its lists.
fn commit_is_copied(rt: &impl Abort, alloc: Global) -> bool {
    let entry = Entry {
        actor: Actor::Desk(1),
        event: committed(rt, alloc),
    };
    let copy = entry.try_copy().expect(rt, "memory for a copy");
    (copy.actor == Actor::Desk(1)) & is_commit(&copy.event)
}

#[test]
fn replies_and_entries_are_copied_with_their_lists(rt: HostRuntime) {
    assert!(rt; late_is_copied() && commit_is_copied(&rt, rt.alloc()));
}
