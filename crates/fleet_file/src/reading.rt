//! The reader of a fleet file's bytes.
ghost use Rattle.std.specs.Prelude.{◌≡◌, ◌≢◌, ◌≤◌, ℕ, List, [], length, Ok, Err, OnOk, IfOk, IfErr, IfSome, IsOk};
ghost use Rattle.line_text.specs.Texts.{after_ended};
ghost use Rattle.ride_model.specs.Fleet.{MayStart};
ghost use Rattle.ride_ports.specs.Bytes.{Reads};
ghost use Rattle.ride_ports.specs.Count.{KeepsCount};
ghost use Rattle.fleet_file.specs.declared.errors.FleetError.TheVariants.{NoMemory, ReadFault};
ghost use Rattle.fleet_file.specs.FleetText.{fleet_format, fleet_text};
ghost use Rattle.fleet_file.specs.inner.Reading.{is_read_fault};

use crate::FleetError;
use crate::lines::FleetLines;
use crate::settings::settings_of;
use line_text::{ReadError, read_lines};
use ride_model::{Fleet, Network, Settings};
use ride_ports::Source;
use std::alloc::Global;

/// The most bytes of a fleet file.
const MOST_BYTES: u32 = 1 << 20;

/// Reads a fleet file over a map to the source's end. The first faulty line decides, and comes
/// before a later fault of the source or the limit of 2^20 bytes.
pub fn read_fleet<S: Source>(
    alloc: Global,
    src: &mut S,
    map: &Network,
) -> Result<(Settings, Fleet), FleetError>
    ensures fleet { IfOk result (λ read.
        IfSome (S.left src.old) (λ bytes. fleet_text map.now.nodes bytes ≡ Ok (read.0, read.1))) }
    ensures start { IfOk result (λ read. MayStart map.now read.0 read.1) }
    ensures to_end { OnOk result (IfSome (S.left src.new) (λ bytes. bytes ≡ [])) }
    ensures refused { IfErr result (λ e. e ≢ NoMemory → e ≢ ReadFault →
        IfSome (S.left src.old) (λ bytes. fleet_text map.now.nodes bytes ≡ Err e)) }

    // Whatever it answers, the bytes that are no more left are those that were taken.
    ensures taken { (taken : List ℕ) × Reads (S.left src.old) (S.left src.new) taken }

    // A fault of reading is the source's, within the limit, and no line was faulty that was read whole.
    ensures faults { KeepsCount (is_read_fault result) (S.faults src.old) (S.faults src.new) }
    ensures before_fault { result ≡ Err ReadFault → (bytes : List ℕ)
        × Reads (S.left src.old) (S.left src.new) bytes × (length bytes ≤ 1048576)
        × IsOk (after_ended (fleet_format map.now.nodes) bytes) }
{
    let mut lines = FleetLines::new(alloc, map.nodes());
    match read_lines(alloc, src, MOST_BYTES, &mut lines) {
        Ok(()) => Ok((settings_of(&lines.values), Fleet::new(lines.vehicles))),
        Err(ReadError::Refused(error)) => Err(error),
        Err(ReadError::TooLong) => Err(FleetError::TooLong),
        Err(ReadError::ReadFault) => Err(FleetError::ReadFault),
        Err(ReadError::NoMemory) => Err(FleetError::NoMemory),
    }
}
