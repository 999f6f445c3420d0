//! The index of a directory, checked against the names that stand in it.
ghost use Rattle.std.specs.Prelude.{◌≡◌, ◌↔◌, ◌*◌, ℕ, All, IfOk, IsTrue, MatchResult, length, map};
ghost use Rattle.ntfs_def.specs.KeyOrder.{fold_of};
ghost use Rattle.ntfs_def.specs.Fixup.{opened_of};
ghost use Rattle.volume_def.specs.IndexesClause.{IsDirectoryIndex};
ghost use Rattle.list_laws.specs.SameItems.{SameItems};
ghost use Rattle.volume_def.specs.View.{VolumeView};
ghost use Rattle.mft_table.specs.Mft.{MftReads, faults_of, view};
ghost use Rattle.file_record.specs.Held.{IsHeldFile, file_number};
ghost use Rattle.check_dirs.specs.Directory.{MeetsLink, MeetsLinks, TellsNames};
ghost use Rattle.check_dirs.specs.Entries.{AreNames};
ghost use Rattle.check_dirs.specs.Notes.{IsNoted, link_noted};
ghost use Rattle.check_dirs.specs.Records.{CountsNo};
ghost use Rattle.check_dirs.specs.Seen.{HasMarks, links_of_entries};
ghost use Rattle.check_dirs.specs.Volume.{IsStoredCase};

use crate::notes::NameNote;
use crate::rules::COLLATION_FILE_NAME;
use crate::volume_index::index_entries;
use crate::{CheckNo, Seen};
use attr_view::RecordView;
use collation::{Collation, FileNameOrder};
use file_record::FileParts;
use index_store::find_index;
use mft_table::{Mft, MftNo};
use ntfs_def::NodeForm;
use ntfs_def::index_root::DIRECTORY_INDEX;
use std::alloc::Global;
use vol_bytes::Octets;
use vol_disk::Disk;

// Meets the name at a place of an opened record.
fn meet_in(seen: &mut Seen, order: &FileNameOrder, note: &NameNote, block: &[u8]) -> bool
    requires names { AreNames (fold_of order.now.upcase) seen.old.entries.items }
    requires marks { HasMarks seen.old }
    ensures met { (view : VolumeView) → IsNoted view note.now → block.now ≡ opened_of (view.block note.now.holder)
        → MeetsLink result seen.old seen.new (link_noted view note.now) }
    ensures entries { seen.new.entries ≡ seen.old.entries }
    ensures marks { HasMarks seen.new }
{
    let Ok(record) = RecordView::new(block) else {
        return false;
    };
    if note.place >= record.count() {
        return false;
    }
    let attribute = record.attr(note.place);
    let Some(key) = attribute.value() else {
        return false;
    };
    order.is_valid(key) && seen.meet(order, note.file, key)
}

// Reads the name that a note tells of, and meets it.
fn meet_note<D: Disk>(
    mft: &mut Mft<'_, D>,
    order: &FileNameOrder,
    note: &NameNote,
    seen: &mut Seen,
) -> Result<bool, CheckNo>
    requires names { AreNames (fold_of order.now.upcase) seen.old.entries.items }
    requires marks { HasMarks seen.old }
    ensures met { IfOk result (λ met. IsTrue (view D.Disk mft.old).told → IsNoted (view D.Disk mft.old) note.now
        → MeetsLink met seen.old seen.new (link_noted (view D.Disk mft.old) note.now)) }
    ensures entries { seen.new.entries ≡ seen.old.entries }
    ensures marks { HasMarks seen.new }
    ensures reads { MftReads D.Disk mft.old mft.new 2 }
    ensures faults { MatchResult result (λ _. faults_of D.Disk mft.new ≡ faults_of D.Disk mft.old)
        (CountsNo (faults_of D.Disk mft.old) (faults_of D.Disk mft.new)) }
{
    if note.holder >= mft.mounted().records.count() {
        return Ok(false);
    }
    let mut block = [0; 1024];
    match mft.read_record(note.holder, &mut block) {
        Ok(()) => Ok(meet_in(seen, order, note, &block)),
        Err(MftNo::Device) => Err(CheckNo::Device),
        Err(_) => Ok(false),
    }
}

// Meets the names that these notes tell of; whether each was met.
fn meet_notes<D: Disk>(
    mft: &mut Mft<'_, D>,
    order: &FileNameOrder,
    notes: &[NameNote],
    seen: &mut Seen,
) -> Result<bool, CheckNo>
    requires names { AreNames (fold_of order.now.upcase) seen.old.entries.items }
    requires marks { HasMarks seen.old }
    ensures met { IfOk result (λ met. IsTrue (view D.Disk mft.old).told → All (IsNoted (view D.Disk mft.old)) notes.now
        → MeetsLinks met seen.old seen.new (map (link_noted (view D.Disk mft.old)) notes.now)) }
    ensures entries { seen.new.entries ≡ seen.old.entries }
    ensures marks { HasMarks seen.new }
    ensures reads { MftReads D.Disk mft.old mft.new (2 * length notes.now) }
    ensures faults { MatchResult result (λ _. faults_of D.Disk mft.new ≡ faults_of D.Disk mft.old)
        (CountsNo (faults_of D.Disk mft.old) (faults_of D.Disk mft.new)) }
{
    for note in notes {
        if !meet_note(mft, order, note, seen)? {
            return Ok(false);
        }
    }
    Ok(true)
}

// Whether the entries of a directory are exactly the names that these notes tell of.
fn has_names<D: Disk>(
    alloc: Global,
    mft: &mut Mft<'_, D>,
    order: &FileNameOrder,
    notes: &[NameNote],
    entries: Vec<Octets>,
) -> Result<bool, CheckNo>
    requires { AreNames (fold_of order.now.upcase) entries.items }
    ensures names { IfOk result (λ same. IsTrue (view D.Disk mft.old).told → All (IsNoted (view D.Disk mft.old)) notes.now
        → IsTrue same ↔ SameItems (links_of_entries entries.items) (map (link_noted (view D.Disk mft.old)) notes.now)) }
    ensures reads { MftReads D.Disk mft.old mft.new (2 * length notes.now) }
    ensures faults { MatchResult result (λ _. faults_of D.Disk mft.new ≡ faults_of D.Disk mft.old)
        (CountsNo (faults_of D.Disk mft.old) (faults_of D.Disk mft.new)) }
{
    let mut seen = Seen::new(alloc, entries)?;
    let each = meet_notes(mft, order, notes, &mut seen)?;
    Ok(each && seen.are_all())
}

/// Whether the index of a directory is right, and has exactly the names that these notes tell of.
///
/// # Errors
///
/// `Device` where the disk failed, and `Memory` where it did not.
pub fn check_directory<D: Disk>(
    alloc: Global,
    mft: &mut Mft<'_, D>,
    order: &FileNameOrder,
    notes: &[NameNote],
    file: &FileParts,
) -> Result<bool, CheckNo>
    requires held { IsTrue (view D.Disk mft.old).told → IsHeldFile (view D.Disk mft.old) file.now }
    requires case { IsStoredCase (view D.Disk mft.old) order.now.upcase }
    ensures right { IfOk result (λ right. IsTrue (view D.Disk mft.old).told
        → TellsNames (view D.Disk mft.old) (file_number file.now) notes.now
        → IsTrue right ↔ IsDirectoryIndex (view D.Disk mft.old) (file_number file.now)) }
    ensures reads { (reads : ℕ) × MftReads D.Disk mft.old mft.new reads }
    ensures faults { MatchResult result (λ _. faults_of D.Disk mft.new ≡ faults_of D.Disk mft.old)
        (CountsNo (faults_of D.Disk mft.old) (faults_of D.Disk mft.new)) }
{
    let Some(index) = find_index(file, DIRECTORY_INDEX) else {
        return Ok(false);
    };
    let found = index_entries(
        alloc,
        mft,
        file,
        index,
        NodeForm::Names,
        COLLATION_FILE_NAME,
        order,
    )?;
    let Some(entries) = found else {
        return Ok(false);
    };
    has_names(alloc, mft, order, notes, entries)
}
