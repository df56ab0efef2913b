//! What is answered where a run stops before its work.
ghost use Rattle.std.specs.Prelude.{◌≡◌};
ghost use Rattle.dispatcher.specs.Meanings.{said_of, status_of};
ghost use Rattle.dispatcher.specs.Shelves.{sunk, Says};

use crate::refusals::line_of_stop;
use crate::status::Status;
use crate::stop::Stop;
use fleet_file::FleetError;
use gr_reader::MapError;
use ride_ports::{Sink, write_all};
use std::alloc::Global;

/// Says why a run stopped, and returns its status.
pub fn answer<K: Sink>(alloc: Global, stop: Stop, out: &mut K) -> u8
    ensures { Says (sunk K.written K.faults out.old out.new)
        result (status_of stop) (said_of stop) }
{
    let Ok(line) = line_of_stop(alloc, stop) else {
        return Status::NoMemory.code();
    };
    let _ = write_all(out, line.as_slice());
    status_of(stop)
}

// The status of a run that stopped.
fn status_of(stop: Stop) -> u8
    ensures { result ≡ status_of stop }
{
    match stop {
        Stop::NoMemory => Status::NoMemory.code(),
        Stop::MapRefused(MapError::TooLong) => Status::LimitPassed.code(),
        Stop::MapRefused(_) => Status::MapRefused.code(),
        Stop::FleetRefused(FleetError::TooLong) => Status::LimitPassed.code(),
        Stop::FleetRefused(_) => Status::FleetRefused.code(),
        Stop::ShelfFault => Status::SourceFailed.code(),
    }
}
