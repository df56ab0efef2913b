//! Plans of cities.

/// What a city is drawn from.
#[derive(Clone, Copy, PartialEq, Eq)]
pub struct CityPlan {
    /// The rows of the grid of nodes, and the columns: 2 to 100.
    pub side: u32,
    /// The vehicles of the fleet: at most 1,000.
    pub vehicles: u32,
    /// The requests: at most 16,000.
    pub requests: u32,
    /// Where the draws begin: at most 2,147,483,647.
    pub seed: u32,
}
