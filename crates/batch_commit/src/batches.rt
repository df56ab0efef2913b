//! Batches.
ghost use Rattle.std.specs.Prelude.{◌≡◌, ◌≤◌, length, nat_eq};
ghost use Rattle.std.specs.List.{IsDistinct};
ghost use Rattle.ride_model.specs.Settings.{IsSettings};
ghost use Rattle.ride_model.specs.Vehicle.{ride_ids};
ghost use Rattle.ride_model.specs.declared.limits.TheConstants.{LARGEST_BATCH};

use ride_model::{Fleet, Ride, Settings};
use std::marker::Model;

/// Requests in order of acceptance, and copies of all vehicles, as they stood when a desk opened the batch.
pub struct Batch {
    number: u64,
    time: u64,
    desk: u8,
    settings: Settings,
    requests: Vec<Ride>,
    vehicles: Fleet,
}

impl Model for Batch {
    ghost use Rattle.std.specs.Prelude.{◌≤◌, length, nat_eq};
    ghost use Rattle.std.specs.List.{IsDistinct};
    ghost use Rattle.ride_model.specs.Settings.{IsSettings};
    ghost use Rattle.ride_model.specs.Vehicle.{ride_ids};
    ghost use Rattle.ride_model.specs.Seating.{BatchCopy};

    ghost Value = { BatchCopy };

    ghost view = { λ b. record {
      number = b.number;
      desk = b.desk;
      time = b.time;
      settings = b.settings;
      requests = b.requests.items;
      vehicles = b.vehicles;
    } };

    ghost use Rattle.ride_model.specs.declared.limits.TheConstants.{LARGEST_BATCH};

    ghost invariant = { λ b. (length b.requests.items ≤ LARGEST_BATCH) × IsDistinct nat_eq (ride_ids b.requests.items) × IsSettings b.settings };
}

impl Drop for Batch {
    fn drop(self) {
        let Batch {
            number: _,
            time: _,
            desk: _,
            settings: _,
            requests,
            vehicles,
        } = self;
        drop(requests);
        drop(vehicles);
    }
}

impl Batch {
    /// The batch of just these parts.
    pub fn of(
        number: u64,
        time: u64,
        desk: u8,
        settings: Settings,
        requests: Vec<Ride>,
        vehicles: Fleet,
    ) -> Batch
        requires few { length requests.items ≤ LARGEST_BATCH }
        requires ids_differ { IsDistinct nat_eq (ride_ids requests.items) }
        requires settings_fit { IsSettings settings }
        ensures { result ≡ record {
          number = number;
          desk = desk;
          time = time;
          settings = settings;
          requests = requests.items;
          vehicles = vehicles;
        } }
    {
        Batch {
            number,
            time,
            desk,
            settings,
            requests,
            vehicles,
        }
    }

    pub fn number(&self) -> u64
        ensures { result ≡ self.now.number }
    {
        self.number
    }

    /// When it was opened, in seconds.
    pub fn time(&self) -> u64
        ensures { result ≡ self.now.time }
    {
        self.time
    }

    pub fn desk(&self) -> u8
        ensures { result ≡ self.now.desk }
    {
        self.desk
    }

    pub fn settings(&self) -> &Settings
        ensures settings { result.now ≡ self.now.settings }
        ensures settings_fit { IsSettings self.now.settings }
    {
        &self.settings
    }

    pub fn requests(&self) -> &[Ride]
        ensures requests { result.now ≡ self.now.requests }
        ensures few { length self.now.requests ≤ LARGEST_BATCH }
        ensures ids_differ { IsDistinct nat_eq (ride_ids self.now.requests) }
    {
        self.requests.as_slice()
    }

    pub fn vehicles(&self) -> &Fleet
        ensures { result.now ≡ self.now.vehicles }
    {
        &self.vehicles
    }
}
