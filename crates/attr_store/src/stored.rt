//! The value of an attribute, by the part that tells its sizes.
ghost use Rattle.std.specs.Prelude.{◌≡◌, ◌+◌, ◌<◌, ◌≤◌, ℕ, IfErr, List, MatchResult, OnOk, length, slice_range};
ghost use Rattle.volume_def.specs.Readable.{IsFile, WhereReadable};
ghost use Rattle.volume_def.specs.Values.{pieces_touched, value_on};
ghost use Rattle.file_record.specs.Mft.{MftReads, faults_of, view};
ghost use Rattle.file_record.specs.FileNos.{CountsNo, IsReadNo};
ghost use Rattle.file_record.specs.Held.{AreParts, file_number, parts_held};
ghost use Rattle.attr_store.specs.First.{IsStored, IsStoredIfThere, TellsFirst, attribute_held};

use crate::first::FirstPart;
use crate::read::read_value;
use file_record::{FileNo, FileParts, Mft};
use std::alloc::Global;
use vol_disk::Disk;

/// Where the value of an attribute is read, and how long it is.
#[derive(Clone, Copy)]
pub struct Stored {
    /// The place, among the parts of the file, of the part that tells the attribute's sizes.
    pub part: usize,
    /// The bytes of the value.
    pub len: u64,
}

/// Where the value of an attribute is read, by the part that tells its sizes.
pub fn stored_of(first: &Option<FirstPart>) -> Option<Stored>
    ensures { (file : FileParts) (kind : ℕ) (name : List ℕ) → TellsFirst file kind name first.now
        → IsStoredIfThere file kind name result }
{
    match first {
        Some(first) => Some(Stored {
            part: first.index,
            len: first.len,
        }),
        None => None,
    }
}

/// Reads bytes of the value of an attribute from byte `at` on. No more reads are asked for than pieces of 512 bytes of
/// the value are touched, whatever the disk holds.
///
/// # Errors
///
/// `Device` where the disk failed, and `Memory`; what `into` then holds is not told.
pub fn read_stored<D: Disk>(
    alloc: Global,
    mft: &mut Mft<'_, D>,
    file: &FileParts,
    stored: &Stored,
    at: u64,
    into: &mut [u8],
) -> Result<(), FileNo>
    requires part { stored.now.part < length (parts_held file.now) }
    ensures read { OnOk result (WhereReadable (view D.Disk mft.old) (AreParts (view D.Disk mft.old) file.now
        → IsFile (view D.Disk mft.old) (file_number file.now)
        → (kind : ℕ) (name : List ℕ) → IsStored file.now kind name stored.now → at + length into.old ≤ stored.now.len
        → into.new ≡ slice_range (value_on (view D.Disk mft.old) (attribute_held file.now kind name)) at (at + length into.old))) }
    ensures err { IfErr result IsReadNo }
    ensures faults { MatchResult result (λ _. faults_of D.Disk mft.new ≡ faults_of D.Disk mft.old)
        (CountsNo (faults_of D.Disk mft.old) (faults_of D.Disk mft.new)) }
    ensures reads { MftReads D.Disk mft.old mft.new (pieces_touched at (length into.old)) }
{
    read_value(alloc, mft, file, stored.part, at, into)
}
