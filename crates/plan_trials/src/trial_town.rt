//! A town for trials: four nodes in a line, a minute between neighbors, and one idle vehicle. Only trials and the bench use it.
ghost use Rattle.std.specs.Prelude.{◌≡◌, ◌≤◌, ◌+◌, [], ◌∷◌, length, IfOk, OnOk};
ghost use Rattle.ride_model.specs.declared.settings.Settings.{Settings};
ghost use Rattle.ride_model.specs.Fleet.{MayStart};
ghost use Rattle.ride_model.specs.Seating.{vehicle_ids};
ghost use Rattle.ride_model.specs.Settings.{IsSettings};
ghost use Rattle.plan_trials.specs.trial_town.Streets.{AreStreets};

use adaptive_roads::Roads;
use arrayvec::ArrayVec;
use ride_model::{Fleet, Network, NoMemory, RoadArc, Settings, Vehicle};
use std::alloc::Global;

/// The roads of four nodes in a line.
pub fn roads(alloc: Global) -> Result<Roads, NoMemory>
    ensures { IfOk result (λ roads. roads.nodes ≡ 4) }
{
    let mut arcs = Vec::new(alloc);
    for node in 1..4 {
        add_street(&mut arcs, node)?;
    }
    Roads::new(alloc, &Network::new(4, arcs))
}

// Adds a street of a minute to the next node, in both directions.
fn add_street(arcs: &mut Vec<RoadArc>, node: u32) -> Result<(), NoMemory>
    requires node { (1 ≤ node) × (node ≤ 3) }
    requires streets { AreStreets 4 arcs.old.items }
    ensures streets { AreStreets 4 arcs.new.items }
    ensures two_more { OnOk result (length arcs.new.items ≡ length arcs.old.items + 2) }
{
    arcs.push(RoadArc {
        tail: node,
        head: node + 1,
        seconds: 60,
    })?;
    arcs.push(RoadArc {
        tail: node + 1,
        head: node,
        seconds: 60,
    })?;
    Ok(())
}

/// The defaults, with batches of up to so many requests.
pub fn settings(batch: u32) -> Settings
    requires { (1 ≤ batch) × (batch ≤ 128) }
    ensures fits { IsSettings result }
    ensures batch { result.batch ≡ batch }
    ensures penalty { result.penalty ≡ 3600 }
    ensures version { result.log ≡ 1 }
{
    Settings {
        batch,
        penalty: 3600,
        drive: 1,
        wait: 0,
        lead: 0,
        dwell: 0,
        log: 1,
    }
}

/// Vehicle 1 of two seats, idle at node 1.
pub fn fleet(alloc: Global, roads: &Roads) -> Result<Fleet, NoMemory>
    requires { roads.now.nodes ≡ 4 }
    ensures start { IfOk result (λ fleet. (settings : Settings) → IsSettings settings
        → MayStart roads.now settings fleet) }
    ensures one { IfOk result (λ fleet. vehicle_ids fleet ≡ 1 ∷ []) }
{
    let mut vehicles = Vec::with_capacity(alloc, 1)?;
    vehicles.push(Vehicle {
        id: 1,
        seats: 2,
        chairs: 0,
        at: 1,
        ready: 0,
        duty: true,
        version: 0,
        rides: ArrayVec::new(),
        stops: ArrayVec::new(),
    })?;
    Ok(Fleet::new(vehicles))
}
