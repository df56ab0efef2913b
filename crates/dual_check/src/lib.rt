//! Prices that prove a pairing least, checked over grids and over batches.
#![tactic(auto)]

mod amounts;
mod batch_check;
mod cells;
mod certificates;
mod grid_check;
mod grids;
pub mod laws;
mod orders;
mod paired;
mod pairings;
mod prices;
mod spreads;

pub use batch_check::certifies;
pub use cells::Cell;
pub use grid_check::certifies_grid;
pub use grids::{Grid, WIDEST_GRID};
pub use paired::{ColumnList, NumberList, Paired};
