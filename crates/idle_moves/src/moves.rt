//! Orders to idle vehicles.

use ride_model::{AmountList, ItemList};

/// An order to an idle vehicle: to drive to the pickup of a request that has no seat. It is advice: no plan changes by it,
/// and the driver's own reports carry it out.
#[derive(Clone, Copy, PartialEq, Eq)]
pub struct Move {
    pub request: u64,
    pub vehicle: u64,
    /// The version of the vehicle's copy. The order stands as long as the vehicle has it.
    pub version: u64,
    /// The node of the pickup.
    pub node: u32,
    /// The travel time to it, in seconds.
    pub seconds: u64,
}

/// Orders, in the batch's order of requests.
pub type MoveList = ItemList<Move>;

/// The orders after a batch, with prices and payments that certify that others do not cost less.
#[derive(Drop)]
pub struct MoveSheet {
    /// The batch's number.
    pub batch: u64,
    /// The seconds of all moves, and the reach for each request without one.
    pub cost: u64,
    pub moves: MoveList,
    /// The price of each request that has no seat, in the batch's order.
    pub prices: AmountList,
    /// What vehicles pay, those above 0 in fleet order.
    pub pays: AmountList,
}
