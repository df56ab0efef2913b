//! What ends a run before its session.
use fleet_file::FleetError;
use gr_reader::MapError;

/// Why a run stopped.
#[derive(Clone, Copy, Debug, PartialEq, Eq)]
pub enum Stop {
    NoMemory,
    /// The shelf, or a source that it brought, failed.
    ShelfFault,
    /// The map is refused, or longer than its limit.
    MapRefused(MapError),
    /// A fleet file is.
    FleetRefused(FleetError),
}
