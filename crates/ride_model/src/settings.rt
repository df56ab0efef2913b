//! The settings of a run.

/// What the fleet's owner sets: how batches are cut and what is paid for.
#[derive(Clone, Copy, PartialEq, Eq)]
pub struct Settings {
    /// The most requests of a batch.
    pub batch: u32,
    /// The cost of a request that is left out of its batch's seating.
    pub penalty: u64,
    /// The cost of a second of driving.
    pub drive: u64,
    /// The cost of a second from the batch's time to a pickup.
    pub wait: u64,
    /// The least seconds between a batch's time and the start of an idle vehicle.
    pub lead: u64,
    /// The seconds that a vehicle stands at a stop.
    pub dwell: u64,
    /// The version of the log: 1, or 2 where requests have chairs.
    pub log: u8,
}
