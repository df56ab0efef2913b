//! A shelf of files in memory.
ghost use Rattle.std.specs.Prelude.{◌≡◌, ◌<◌, ◌≤◌, ◌+◌, ◌++◌, ◌∷◌, [], length, map, find, bytes_eq, Some, IfOk, IfSome, OnOk, OnErr, is_err, string_bytes};
ghost use Rattle.std.specs.Option.{option_copied, option_map};
ghost use Rattle.ride_ports.specs.inner.Calls.{ArePieces};
ghost use Rattle.ride_ports.specs.inner.Memory.{file_named, source_of};
ghost use Rattle.ride_ports.specs.inner.MemFile.{file_state, HaveDistinctNames, HavePieces};

use crate::ledger::Ledger;
use crate::mem_source::MemSource;
use crate::shelves::Shelf;
use crate::sources::Failed;
use std::alloc::Global;
use std::marker::Model;

/// A file in memory: its name, its bytes, the lengths of the pieces in which its source gives
/// them, and the numbers of the source's calls that fail.
#[derive(Clone, Copy)]
pub struct MemFile<'a> {
    pub name: &'a str,
    pub bytes: &'a [u8],
    pub pieces: &'a [usize],
    pub failing: &'a [u64],
}

/// Brings files in memory by their names, and fails at given calls.
#[derive(Drop)]
pub struct MemShelf<'a> {
    files: &'a [MemFile<'a>],
    failing: &'a [u64],
    ledger: Ledger<'a>,
}

impl<'a> Model for MemShelf<'a> {
    ghost use Rattle.std.specs.Prelude.{map};
    ghost use Rattle.ride_ports.specs.inner.Memory.{ShelfState};

    ghost Value = { ShelfState };

    ghost use Rattle.ride_ports.specs.inner.MemFile.{file_state, HavePieces};

    ghost view = { λ s.
        record { files = map file_state s.files.now; failing = s.failing.now; ledger = s.ledger } };

    ghost invariant = { λ s. HavePieces s.files.now };
}

impl<'a> MemShelf<'a> {
    ghost use Rattle.ride_ports.specs.inner.Ledger.{no_entry};

    /// Call k of `bring`, numbered from 1, fails where k stands in `failing` or no file has the
    /// name. The allocator is that of the names; nothing is taken from it.
    pub fn new(alloc: Global, files: &'a [MemFile<'a>], failing: &'a [u64]) -> MemShelf<'a>
        requires names { HaveDistinctNames files.now }
        requires pieces { HavePieces files.now }
        ensures { result ≡
            record { files = map file_state files.now; failing = failing.now; ledger = no_entry } }
    {
        MemShelf {
            files,
            failing,
            ledger: Ledger::new(alloc),
        }
    }

    /// Its count of faults.
    pub fn faults(&self) -> u64
        ensures { result ≡ self.now.ledger.faults }
    {
        self.ledger.faults()
    }
}

impl<'a> Shelf for MemShelf<'a> {
    ghost use Rattle.ride_ports.specs.Contents.{given_back};
    ghost use Rattle.ride_ports.specs.inner.Contents.{IsContentOf};
    ghost use Rattle.ride_ports.specs.Count.{Rose};
    ghost use Rattle.ride_ports.specs.inner.Count.{raised};
    ghost use Rattle.ride_ports.specs.inner.Ledger.{after_return};
    ghost use Rattle.ride_ports.specs.inner.Memory.{contents_of, refuses};

    type Src = MemSource<'a>;

    ghost contents = { λ s. Some (contents_of s.files) };

    ghost faults = { λ s. s.ledger.faults };

    ghost asked = { λ s. s.ledger.asked };

    ghost brought = { λ s. s.ledger.brought };

    ghost back = { λ s. s.ledger.back };

    fn bring(&mut self, name: String) -> Result<MemSource<'a>, Failed>
        requires { length self.old.ledger.asked < 8 }
        ensures asked { self.new.ledger.asked ≡ self.old.ledger.asked ++ string_bytes name ∷ [] }
        ensures counted { OnOk result (self.new.ledger.brought ≡ self.old.ledger.brought + 1) }
        ensures failed_counts_none { OnErr result (self.new.ledger.brought ≡
            self.old.ledger.brought) }
        ensures bytes { IfOk result (λ src.
            IsContentOf (Some (contents_of self.old.files)) (string_bytes name) (Some src.left)) }
        ensures unharmed { IfOk result (λ src. src.calls.faults ≡ 0) }
        ensures failed_only_at_fault { OnErr result
            (Rose self.old.ledger.faults self.new.ledger.faults) }
        ensures ok_counts_none { OnOk result (self.new.ledger.faults ≡ self.old.ledger.faults) }
        ensures count_never_falls { self.old.ledger.faults ≤ self.new.ledger.faults }
        ensures back_stays { self.new.ledger.back ≡ self.old.ledger.back }
        ensures contents_stay { Some (contents_of self.new.files) ≡
            Some (contents_of self.old.files) }

        // What the files and the list of the failing calls say.
        ensures fails { is_err result ≡
            refuses self.old (length self.new.ledger.asked) (string_bytes name) }
        ensures source { IfOk result (λ src.
            IfSome (file_named self.old.files (string_bytes name)) (λ file. src ≡ source_of file)) }
        ensures one_fault { OnErr result (self.new.ledger.faults ≡ raised self.old.ledger.faults) }
        ensures files_stay { self.new.files ≡ self.old.files }
        ensures failing_stay { self.new.failing ≡ self.old.failing }
    {
        let source = source_named(self.files, name.as_str());
        let call = self.ledger.ask(name) as u64;
        match source {
            Some(source) if !self.failing.contains(&call) => {
                self.ledger.bring();
                Ok(source)
            }
            _ => Err(self.ledger.fail()),
        }
    }

    fn give_back(&mut self, src: MemSource<'a>)
        requires { length self.old.ledger.back < 8 }
        ensures kept { self.new.ledger.back ≡
            self.old.ledger.back ++ given_back src.entry.calls.faults (Some src.entry.left) ∷ [] }
        ensures fault_rises { 0 < src.entry.calls.faults →
            Rose self.old.ledger.faults self.new.ledger.faults }
        ensures sound_counts_none { src.entry.calls.faults ≡ 0 →
            self.new.ledger.faults ≡ self.old.ledger.faults }
        ensures count_never_falls { self.old.ledger.faults ≤ self.new.ledger.faults }
        ensures asked_stays { self.new.ledger.asked ≡ self.old.ledger.asked }
        ensures brought_stays { self.new.ledger.brought ≡ self.old.ledger.brought }
        ensures contents_stay { Some (contents_of self.new.files) ≡
            Some (contents_of self.old.files) }

        // The files, the failing calls and how far the count rises.
        ensures ledger { self.new.ledger ≡
            after_return self.old.ledger
            (given_back src.entry.calls.faults (Some src.entry.left)) }
        ensures files_stay { self.new.files ≡ self.old.files }
        ensures failing_stay { self.new.failing ≡ self.old.failing }
    {
        self.ledger.take_back(src.faults(), Some(src.left()));
    }
}

/// A source of the first file with this name, none of which is read yet.
fn source_named<'a>(files: &'a [MemFile<'a>], name: &str) -> Option<MemSource<'a>>
    requires { HavePieces files.now }
    ensures { result ≡ option_map source_of (file_named (map file_state files.now) name.now) }
{
    let file = first_named(files, name)?;
    Some(MemSource::new(file.bytes, file.pieces, file.failing))
}

/// The first file with this name.
fn first_named<'a>(files: &'a [MemFile<'a>], name: &str) -> Option<&'a MemFile<'a>>
    ensures first { option_copied result ≡
        find (λ file. bytes_eq file.name.now name.now) files.now }
    ensures pieces { HavePieces files.now → IfSome result (λ file. ArePieces file.now.pieces.now) }
{
    files.iter().find(|file| file.name == name)
}
