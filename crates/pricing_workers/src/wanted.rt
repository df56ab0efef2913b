//! What is found once for all requests of a batch.
ghost use Rattle.std.specs.Prelude.{◌≡◌, ◌≤◌, ◌+◌, ◌++◌, ◌∷◌, [], length, map, take, All};
ghost use Rattle.std.specs.Result.{OnOk};
ghost use Rattle.ride_model.specs.declared.vehicle.Stop.{Stop};
ghost use Rattle.ride_model.specs.Offers.{start_of};
ghost use Rattle.ride_model.specs.Settings.{IsSettings};
ghost use Rattle.ride_model.specs.inner.Vehicle.{IsLawfulSomewhere};
ghost use Rattle.ride_model.specs.declared.limits.TheConstants.{LATEST_READY, LATEST_TIME, LONGEST_DWELL};
ghost use Rattle.slack_tables.specs.inner.SlackOf.{slack_of};
ghost use Rattle.pricing_workers.specs.inner.Wanted.{IsWanted, nodes_of};

use crate::tables::PlanTables;
use batch_commit::Batch;
use insertion::prices::start_of;
use ride_model::{Settings, Stop, Vehicle};
use ride_ports::NoMemory;
use std::alloc::Global;

/// Where a vehicle's nodes begin among those that are wanted, and the tables of its plan.
#[derive(Drop)]
pub(crate) struct Plan {
    pub(crate) first: usize,
    pub(crate) tables: PlanTables,
}

/// The nodes that times are wanted of, vehicle by vehicle: the one where it is, then those of its stops. Plans beyond a batch's vehicles
/// are of batches before.
#[derive(Drop)]
pub(crate) struct Wanted {
    pub(crate) nodes: Vec<u32>,
    pub(crate) plans: Vec<Plan>,
}

impl Wanted {
    /// Room for what is wanted, which holds nothing yet.
    pub(crate) fn new(alloc: Global) -> Wanted {
        Wanted {
            nodes: Vec::new(alloc),
            plans: Vec::new(alloc),
        }
    }

    /// Makes it what is wanted for a batch. The tables of a plan are made anew only where they differ from those of the vehicle at the
    /// same place of the batch before, and memory is taken only for more vehicles or nodes than any batch before had.
    pub(crate) fn renew(&mut self, batch: &Batch) -> Result<(), NoMemory>
        requires lawful { All IsLawfulSomewhere batch.now.vehicles }
        requires time_limit { batch.now.time ≤ LATEST_TIME }
        ensures { OnOk result
            (IsWanted batch.now.settings batch.now.time batch.now.vehicles self.new) }
    {
        let settings = batch.settings();
        let time = batch.time();
        let vehicles = batch.vehicles().vehicles();
        self.nodes.clear();
        let missing = vehicles.len().saturating_sub(self.plans.len());
        self.plans.reserve(missing)?;
        for (place, vehicle) in vehicles.iter().enumerate() {
            self.renew_at(place, vehicle, settings, time)?;
        }
        Ok(())
    }

    // Adds the nodes of the vehicle at a place, and makes the plan there its plan.
    fn renew_at(
        &mut self,
        place: usize,
        vehicle: &Vehicle,
        settings: &Settings,
        time: u64,
    ) -> Result<(), NoMemory>
        requires place { place ≤ length self.old.plans.items }
        requires lawful { IsLawfulSomewhere vehicle.now }
        requires settings_fit { IsSettings settings.now }
        requires time_limit { time ≤ LATEST_TIME }
        ensures nodes { OnOk result
            (self.new.nodes.items ≡ self.old.nodes.items ++ nodes_of vehicle.now) }
        ensures plans { OnOk result (take (place + 1) self.new.plans.items
            ≡ take place self.old.plans.items ++ record {
              first = length self.old.nodes.items;
              tables = slack_of vehicle.now (start_of vehicle.now settings.now.lead time)
                  settings.now.dwell;
            } ∷ []) }
    {
        let first = self.nodes.len();
        self.nodes.push(vehicle.at)?;
        self.add_stops(vehicle.stops.as_slice())?;
        let start = start_of(vehicle, settings.lead, time);
        renew_plan(
            &mut self.plans,
            place,
            first,
            vehicle,
            start,
            settings.dwell,
        )
    }

    // Adds the nodes of stops.
    fn add_stops(&mut self, stops: &[Stop]) -> Result<(), NoMemory>
        ensures nodes { OnOk result (self.new.nodes.items
            ≡ self.old.nodes.items ++ map (λ (stop : Stop). stop.node) stops.now) }
        ensures plans { self.new.plans ≡ self.old.plans }
    {
        for stop in stops {
            self.nodes.push(stop.node)?;
        }
        Ok(())
    }
}

// Makes the plan at a place that of a vehicle whose nodes begin at `first`, and who leaves at `start`.
fn renew_plan(
    plans: &mut Vec<Plan>,
    place: usize,
    first: usize,
    vehicle: &Vehicle,
    start: u64,
    dwell: u64,
) -> Result<(), NoMemory>
    requires place { place ≤ length plans.old.items }
    requires lawful { IsLawfulSomewhere vehicle.now }
    requires start_limit { start ≤ LATEST_READY }
    requires dwell_limit { dwell ≤ LONGEST_DWELL }
    ensures { OnOk result (take (place + 1) plans.new.items ≡ take place plans.old.items ++ record {
      first = first;
      tables = slack_of vehicle.now start dwell;
    } ∷ []) }
{
    if place < plans.len() {
        let plan = &mut plans[place];
        plan.first = first;
        plan.tables.renew(vehicle, start, dwell);
        return Ok(());
    }
    let tables = PlanTables::of(vehicle, start, dwell);
    plans.push(Plan { first, tables })?;
    Ok(())
}
