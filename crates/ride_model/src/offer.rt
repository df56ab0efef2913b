//! Places for new rides.

/// The legs into and out of the two new stops, in seconds.
#[derive(Clone, Copy, PartialEq, Eq, Default)]
pub struct Joins {
    pub to_pickup: u64,
    pub after_pickup: u64,
    pub to_dropoff: u64,
    /// 0 where the drop-off is the last stop.
    pub after_dropoff: u64,
}

/// A place for a ride in a vehicle's plan: the pickup directly before old stop `i`, the drop-off directly
/// before old stop `j`, both counted from 0.
#[derive(Clone, Copy, PartialEq, Eq)]
pub struct Offer {
    pub i: u32,
    pub j: u32,
    pub cost: u64,
    /// When the vehicle would start.
    pub start: u64,
    pub joins: Joins,
}

/// A request's seat in a batch's seating.
#[derive(Clone, Copy, PartialEq, Eq)]
pub struct Seat {
    pub request: u64,
    pub vehicle: u64,
    pub i: u32,
    pub j: u32,
}
