//! The reader of a map's bytes.
ghost use Rattle.std.specs.Prelude.{◌≡◌, ◌≢◌, ◌≤◌, ℕ, List, [], length, Ok, Err, OnOk, IfOk, IfErr, IfSome, IsOk};
ghost use Rattle.line_text.specs.Texts.{after_ended};
ghost use Rattle.ride_ports.specs.Bytes.{Reads};
ghost use Rattle.ride_ports.specs.Count.{KeepsCount};
ghost use Rattle.gr_reader.specs.declared.errors.MapError.TheVariants.{NoMemory, ReadFault};
ghost use Rattle.gr_reader.specs.MapText.{map_format, map_text};
ghost use Rattle.gr_reader.specs.inner.Reading.{is_read_fault};

use crate::MapError;
use crate::lines::MapLines;
use line_text::{ReadError, read_lines};
use ride_model::Network;
use ride_ports::Source;
use std::alloc::Global;

/// The most bytes of a map.
const MOST_BYTES: u32 = 1 << 27;

/// Reads a map to the source's end. The first faulty line decides, and comes before a later fault
/// of the source or the limit of 2^27 bytes.
pub fn read_map<S: Source>(alloc: Global, src: &mut S) -> Result<Network, MapError>
    ensures network { IfOk result (λ network.
        IfSome (S.left src.old) (λ bytes. map_text bytes ≡ Ok network)) }
    ensures to_end { OnOk result (IfSome (S.left src.new) (λ bytes. bytes ≡ [])) }
    ensures refused { IfErr result (λ e. e ≢ NoMemory → e ≢ ReadFault →
        IfSome (S.left src.old) (λ bytes. map_text bytes ≡ Err e)) }

    // Whatever it answers, the bytes that are no more left are those that were taken.
    ensures taken { (taken : List ℕ) × Reads (S.left src.old) (S.left src.new) taken }

    // A fault of reading is the source's, within the limit, and no line was faulty that was read whole.
    ensures faults { KeepsCount (is_read_fault result) (S.faults src.old) (S.faults src.new) }
    ensures before_fault { result ≡ Err ReadFault → (bytes : List ℕ)
        × Reads (S.left src.old) (S.left src.new) bytes × (length bytes ≤ 134217728)
        × IsOk (after_ended map_format bytes) }
{
    let mut lines = MapLines::new(alloc);
    match read_lines(alloc, src, MOST_BYTES, &mut lines) {
        Ok(()) => lines.finish(),
        Err(ReadError::Refused(error)) => Err(error),
        Err(ReadError::TooLong) => Err(MapError::TooLong),
        Err(ReadError::ReadFault) => Err(MapError::ReadFault),
        Err(ReadError::NoMemory) => Err(MapError::NoMemory),
    }
}
