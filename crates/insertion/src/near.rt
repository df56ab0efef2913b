//! Times between a vehicle's nodes and a request's.
use arrayvec::ArrayVec;

/// The times between a stop's node and a request's two nodes, absent where there is no way.
#[derive(Clone, Copy, PartialEq, Eq, Default)]
pub struct NearStop {
    /// From the stop to the pickup.
    pub to_from: Option<u64>,
    /// From the pickup to the stop.
    pub from_here: Option<u64>,
    /// From the stop to the drop-off.
    pub to_to: Option<u64>,
    /// From the drop-off to the stop.
    pub to_here: Option<u64>,
}

/// The times between a vehicle's nodes and a request's two nodes, absent where there is no way.
#[derive(Drop)]
pub struct Near {
    /// From the vehicle's node to the pickup.
    pub at_from: Option<u64>,
    /// From the vehicle's node to the drop-off.
    pub at_to: Option<u64>,
    /// From the pickup to the drop-off.
    pub direct: Option<u64>,
    /// One item for each stop of the vehicle, in order.
    pub stops: ArrayVec<NearStop, 16>,
}
