//! The lines that say why a text is refused.
ghost use Rattle.std.specs.Prelude.{◌≡◌, IfOk};
ghost use Rattle.dispatcher.specs.Meanings.{at_line, said_of};
ghost use Rattle.dispatcher.specs.declared.stop.Stop.TheVariants.{FleetRefused, MapRefused};

use crate::stop::Stop;
use fleet_file::FleetError;
use gr_reader::MapError;
use line_text::put_number;
use ride_ports::NoMemory;
use std::alloc::Global;

/// The line that says why a run stopped, if any.
pub fn line_of_stop(alloc: Global, stop: Stop) -> Result<Vec<u8>, NoMemory>
    ensures { IfOk result (λ line. line.items ≡ said_of stop) }
{
    match stop {
        Stop::MapRefused(refusal) => map_line(alloc, refusal),
        Stop::FleetRefused(refusal) => fleet_line(alloc, refusal),
        Stop::NoMemory | Stop::ShelfFault => Ok(Vec::new(alloc)),
    }
}

// The line of a map's refusal.
fn map_line(alloc: Global, refusal: MapError) -> Result<Vec<u8>, NoMemory>
    ensures { IfOk result (λ line. line.items ≡ said_of (MapRefused refusal)) }
{
    match refusal {
        MapError::NoProblem => b"map refused 1\n".to_vec(alloc),
        MapError::SecondProblem(line) => at_line(alloc, b"map", 2, line),
        MapError::BadLine(line) => at_line(alloc, b"map", 3, line),
        MapError::NodeOut(line) => at_line(alloc, b"map", 4, line),
        MapError::WeightOut(line) => at_line(alloc, b"map", 5, line),
        MapError::ArcCount { said, found } => arc_count(alloc, said, found),
        MapError::TooLarge(line) => at_line(alloc, b"map", 7, line),
        MapError::TooLong | MapError::ReadFault | MapError::NoMemory => Ok(Vec::new(alloc)),
    }
}

// The line of a fleet file's refusal.
fn fleet_line(alloc: Global, refusal: FleetError) -> Result<Vec<u8>, NoMemory>
    ensures { IfOk result (λ line. line.items ≡ said_of (FleetRefused refusal)) }
{
    match refusal {
        FleetError::BadLine(line) => at_line(alloc, b"fleet", 1, line),
        FleetError::Repeat(line) => at_line(alloc, b"fleet", 2, line),
        FleetError::NodeOut(line) => at_line(alloc, b"fleet", 3, line),
        FleetError::ValueOut(line) => at_line(alloc, b"fleet", 4, line),
        FleetError::TooMany(line) => at_line(alloc, b"fleet", 5, line),
        FleetError::TooLong | FleetError::ReadFault | FleetError::NoMemory => {
            Ok(Vec::new(alloc))
        }
    }
}

// The line of a refusal at a line of a text.
fn at_line(alloc: Global, text: &[u8], refusal: u64, line: u64) -> Result<Vec<u8>, NoMemory>
    ensures { IfOk result (λ said. said.items ≡ at_line text.now refusal line) }
{
    let mut said = Vec::new(alloc);
    said.extend_from_slice(text)?;
    said.extend_from_slice(b" refused ")?;
    said.extend_from_slice(put_number(refusal).as_slice())?;
    said.extend_from_slice(b" line ")?;
    said.extend_from_slice(put_number(line).as_slice())?;
    said.push(b'\n')?;
    Ok(said)
}

// The line of a map with another number of arcs than it says.
fn arc_count(alloc: Global, said: u64, found: u64) -> Result<Vec<u8>, NoMemory>
    ensures { IfOk result (λ line. line.items
        ≡ said_of (MapRefused (MapError.ArcCount said found))) }
{
    let mut line = Vec::new(alloc);
    line.extend_from_slice(b"map refused 6 said ")?;
    line.extend_from_slice(put_number(said).as_slice())?;
    line.extend_from_slice(b" found ")?;
    line.extend_from_slice(put_number(found).as_slice())?;
    line.push(b'\n')?;
    Ok(line)
}
