//! Forms that never fail: their count of faults is the constant 0.
ghost use Rattle.std.specs.Prelude.{◌≡◌, map, None, Some, find, bytes_eq};
ghost use Rattle.ride_ports.specs.Contents.{bytes_at};
ghost use Rattle.ride_ports.specs.inner.Sure.{with_empty_others};
ghost use Rattle.ride_ports.specs.inner.SureFile.{stored_file, HaveDistinctNames};
ghost use Rattle.std.specs.Option.{option_copied};

use crate::ledger::Ledger;
use crate::shelves::Shelf;
use crate::sinks::Sink;
use crate::sources::{Failed, Source};
use std::alloc::Global;
use std::marker::Model;

/// Gives bytes in memory, as many at a time as the buffer takes.
#[derive(Drop)]
pub struct SureSource<'a> {
    left: &'a [u8],
}

impl<'a> Model for SureSource<'a> {
    ghost use Rattle.std.specs.Prelude.{List, ℕ};

    ghost Value = { List ℕ };

    ghost view = { λ s. s.left.now };
}

impl<'a> SureSource<'a> {
    pub fn new(bytes: &'a [u8]) -> SureSource<'a>
        ensures { result ≡ bytes.now }
    {
        SureSource { left: bytes }
    }
}

impl<'a> Source for SureSource<'a> {
    ghost left = { λ s. Some s };

    ghost faults = { λ _. 0 };

    fn read(&mut self, buffer: &mut [u8]) -> Result<usize, Failed> {
        let count = buffer.len().min(self.left.len());
        let (piece, left) = self.left.split_at(count);
        buffer[..count].copy_from_slice(piece);
        self.left = left;
        Ok(count)
    }
}

/// Takes every piece whole and forgets it.
#[derive(Clone, Copy, Default)]
pub struct SureSink;

impl SureSink {
    pub fn new() -> SureSink {
        SureSink
    }
}

impl Sink for SureSink {
    ghost written = { λ _. None };

    ghost faults = { λ _. 0 };

    fn write(&mut self, piece: &[u8]) -> Result<usize, Failed> {
        Ok(piece.len())
    }
}

/// A file by its name and its bytes.
#[derive(Clone, Copy)]
pub struct SureFile<'a> {
    pub name: &'a str,
    pub bytes: &'a [u8],
}

/// Brings files in memory by their names, and empty bytes for every further name.
#[derive(Drop)]
pub struct SureShelf<'a> {
    files: &'a [SureFile<'a>],
    ledger: Ledger<'a>,
}

impl<'a> Model for SureShelf<'a> {
    ghost use Rattle.std.specs.Prelude.{map};
    ghost use Rattle.ride_ports.specs.inner.Sure.{SureShelfState};

    ghost Value = { SureShelfState };

    ghost use Rattle.ride_ports.specs.inner.SureFile.{stored_file};

    ghost view = { λ s. record { files = map stored_file s.files.now; ledger = s.ledger } };
}

impl<'a> SureShelf<'a> {
    ghost use Rattle.ride_ports.specs.inner.Ledger.{no_entry};

    /// The allocator is that of the names; nothing is taken from it.
    pub fn new(alloc: Global, files: &'a [SureFile<'a>]) -> SureShelf<'a>
        requires { HaveDistinctNames files.now }
        ensures { result ≡ record { files = map stored_file files.now; ledger = no_entry } }
    {
        SureShelf {
            files,
            ledger: Ledger::new(alloc),
        }
    }
}

impl<'a> Shelf for SureShelf<'a> {
    type Src = SureSource<'a>;

    ghost contents = { λ s. Some (with_empty_others s.files) };

    ghost faults = { λ _. 0 };

    ghost asked = { λ s. s.ledger.asked };

    ghost brought = { λ s. s.ledger.brought };

    ghost back = { λ s. s.ledger.back };

    fn bring(&mut self, name: String) -> Result<SureSource<'a>, Failed> {
        let bytes = bytes_named(self.files, name.as_str());
        self.ledger.ask(name);
        self.ledger.bring();
        Ok(SureSource::new(bytes))
    }

    fn give_back(&mut self, src: SureSource<'a>) {
        self.ledger.take_back(0, Some(src.left));
    }
}

/// The bytes of the first file with this name, and empty bytes where there is none.
fn bytes_named<'a>(files: &'a [SureFile<'a>], name: &str) -> &'a [u8]
    ensures { bytes_at (with_empty_others (map stored_file files.now)) name.now ≡ Some result.now }
{
    match file_named(files, name) {
        Some(file) => file.bytes,
        None => &[],
    }
}

/// The first file with this name.
fn file_named<'a>(files: &'a [SureFile<'a>], name: &str) -> Option<&'a SureFile<'a>>
    ensures { option_copied result ≡ find (λ file. bytes_eq file.name.now name.now) files.now }
{
    files.iter().find(|file| file.name == name)
}
