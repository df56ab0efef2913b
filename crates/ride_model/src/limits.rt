//! The limits of what is taken: of maps, fleets, commands, settings and batches. Times are in seconds.

/// The latest time that a clock, a report or a rider may name.
pub const LATEST_TIME: u64 = 1_000_000_000;

/// The longest that a vehicle stands at a stop.
pub const LONGEST_DWELL: u64 = 3_600;

/// The longest that an idle vehicle stays before it leaves.
pub const LONGEST_LEAD: u64 = 3_600;

/// The latest time at which a vehicle is ready: it may serve a stop that it reaches at the latest time.
pub const LATEST_READY: u64 = 1_000_003_600;

/// The longest ride that a rider allows.
pub const LONGEST_RIDE: u64 = 1_000_000;

/// The longest way on which an idle vehicle is sent ahead.
pub const LONGEST_REACH: u64 = 1_000_000;

/// The most seats of a request.
pub const MOST_SEATS: u64 = 8;

/// The most places for wheelchairs of a request.
pub const MOST_CHAIRS: u64 = 4;

/// The most seats of a vehicle.
pub const MOST_VEHICLE_SEATS: u64 = 16;

/// The most places for wheelchairs of a vehicle.
pub const MOST_VEHICLE_CHAIRS: u64 = 4;

/// The most stops of a plan.
pub const MOST_STOPS: usize = 16;

/// The most rides of a vehicle.
pub const MOST_RIDES: usize = 16;

/// The most vehicles of a fleet.
pub const MOST_VEHICLES: usize = 1_000;

/// The most requests that a session accepts.
pub const MOST_REQUESTS: u32 = 100_000;

/// The most requests of a batch.
pub const LARGEST_BATCH: u64 = 128;

/// The most batches that a session is asked for.
pub const MOST_BATCHES: u64 = 2_000;

/// The most workers of a desk.
pub const MOST_WORKERS: u64 = 16;

/// The greatest cost of turning a request away.
pub const GREATEST_PENALTY: u64 = 1_000_000_000_000;

/// The greatest cost of a second of driving or of waiting.
pub const GREATEST_WEIGHT: u64 = 1_000;

/// The most nodes of a map.
pub const MOST_NODES: u64 = 500_000;

/// The most arcs of a map.
pub const MOST_ARCS: u64 = 2_000_000;

/// The longest arc of a map.
pub const LONGEST_ARC: u64 = 1_000_000_000;
