//! The pass that notes the names of all files.
ghost use Rattle.std.specs.Prelude.{◌≡◌, ◌+◌, ◌*◌, ◌<◌, ◌≤◌, ◌^◌, ◌==◌, ◌||◌, ◌/◌, ◌%◌, ◌++◌, [], All, IfOk, MatchResult, OnOk, length};
ghost use Rattle.std.specs.List.{list_any};
ghost use Rattle.std.specs.Option.{option_to_list};
ghost use Rattle.ntfs_def.specs.declared.records.TheConstants.{EXTEND, SECURE};
ghost use Rattle.ntfs_def.specs.Record.{reference_in};
ghost use Rattle.volume_def.specs.Readable.{WhereReadable};
ghost use Rattle.volume_def.specs.View.{VolumeView};
ghost use Rattle.attr_view.specs.View.{attribute_of};
ghost use Rattle.mft_table.specs.Mft.{MftReads, faults_of, mounted_of, view};
ghost use Rattle.file_record.specs.Held.{held_of, parts_held, parts_of};
ghost use Rattle.check_dirs.specs.Notes.{AreNotes};
ghost use Rattle.check_dirs.specs.Noted.{IsHeldRight, IsLoaded, NotesBelow, NotesNames, SortsNotes, note_in};
ghost use Rattle.check_dirs.specs.Records.{CountsNo};

use crate::CheckNo;
use crate::notes::{NameNote, Notes};
use attr_view::{AttrView, RecordHeader};
use file_record::{BaseFile, FileParts, Held, load_base};
use mft_table::Mft;
use ntfs_def::file_name::{PARENT, is_name_key};
use ntfs_def::is_directory;
use ntfs_def::kinds::FILE_NAME;
use ntfs_def::records::{EXTEND, SECURE};
use ntfs_def::reference::{NUMBERS, number_in};
use std::alloc::{AllocError, Global};
use vol_bytes::u64_at;
use vol_disk::Disk;

// What is noted of the files below a number, their names in the order of the files.
#[derive(Drop)]
struct Noting {
    names: Vec<NameNote>,
    wanted: Vec<u64>,
}

// Notes an attribute of a record, at its place, where it is a name.
fn note_attribute(
    attribute: &AttrView<'_>,
    file: u64,
    holder: u64,
    place: usize,
    names: &mut Vec<NameNote>,
) -> Result<(), AllocError>
    ensures { OnOk result (names.new.items
        ≡ names.old.items ++ option_to_list (note_in file holder place (attribute_of attribute.now))) }
{
    if attribute.kind() != FILE_NAME {
        return Ok(());
    }
    let Some(value) = attribute.value() else {
        return Ok(());
    };
    if !is_name_key(value) {
        return Ok(());
    }
    names.push(NameNote {
        directory: number_in(u64_at(value, PARENT)),
        file,
        holder,
        place,
    })?;
    Ok(())
}

// Notes the names that a record of a file holds.
fn note_record(held: &Held, file: u64, names: &mut Vec<NameNote>) -> Result<(), AllocError>
    ensures grows { OnOk result (length names.old.items ≤ length names.new.items) }
    ensures noted { OnOk result ((view : VolumeView) → IsHeldRight view held.now
        → NotesNames view (reference_in file) (parts_of held.now) names.old.items names.new.items) }
{
    let mut attributes = held.view().attributes();
    for place in 0..held.count() {
        let Some(attribute) = attributes.next() else {
            return Ok(());
        };
        note_attribute(&attribute, file, held.number(), place, names)?;
    }
    Ok(())
}

// Notes the names of a file.
fn note_names(parts: &FileParts, file: u64, names: &mut Vec<NameNote>) -> Result<(), AllocError>
    ensures grows { OnOk result (length names.old.items ≤ length names.new.items) }
    ensures noted { OnOk result ((view : VolumeView) → All (IsHeldRight view) (held_of parts.now)
        → NotesNames view (reference_in file) (parts_held parts.now) names.old.items names.new.items) }
{
    for held in parts.records() {
        note_record(held, file, names)?;
    }
    Ok(())
}

// Whether one of the names stands in `$Extend`.
fn stand_in_extend(names: &[NameNote]) -> bool
    ensures { result ≡ list_any (λ note. note.directory == EXTEND) names.now }
{
    for note in names {
        if note.directory == EXTEND {
            return true;
        }
    }
    false
}

// Whether the indexes of a file with these names have to be looked at.
fn is_wanted(number: u64, header: &RecordHeader, names: &[NameNote]) -> bool
    ensures { result ≡ ((header.now.flags / 2 % 2 == 1) || (number == SECURE)
        || list_any (λ note. note.directory == EXTEND) names.now) }
{
    is_directory(header.flags) || number == SECURE || stand_in_extend(names)
}

// The files that are noted, and those of all numbers.
impl Noting {
    // Notes the file of the next number.
    fn note(&mut self, number: u64, file: &BaseFile) -> Result<(), AllocError>
        requires { number < 2 ^ 48 }
        ensures { OnOk result ((view : VolumeView) → IsLoaded view number file.now
            → NotesBelow view number self.old → NotesBelow view (number + 1) self.new) }
    {
        let from = self.names.len();
        let reference = u64::from(file.header.sequence) * NUMBERS + number;
        note_names(&file.parts, reference, &mut self.names)?;
        if is_wanted(number, &file.header, &self.names[from..]) {
            self.wanted.push(number)?;
        }
        Ok(())
    }

    // Sorts the names by their directories; those of one stay in their order.
    fn into_notes(self) -> Result<Notes, AllocError>
        ensures { IfOk result (SortsNotes self) }
    {
        let Noting { mut names, wanted } = self;
        names.sort_by_key(|note| note.directory)?;
        Ok(Notes { names, wanted })
    }
}

// Notes the file of a number, where there is one.
fn note_file<D: Disk>(
    alloc: Global,
    mft: &mut Mft<'_, D>,
    number: u64,
    noting: &mut Noting,
) -> Result<(), CheckNo>
    requires { number < 2 ^ 48 }
    ensures noted { OnOk result (WhereReadable (view D.Disk mft.old)
        (NotesBelow (view D.Disk mft.old) number noting.old → NotesBelow (view D.Disk mft.old) (number + 1) noting.new)) }
    ensures reads { MftReads D.Disk mft.old mft.new 20678 }
    ensures faults { MatchResult result (λ _. faults_of D.Disk mft.new ≡ faults_of D.Disk mft.old)
        (CountsNo (faults_of D.Disk mft.old) (faults_of D.Disk mft.new)) }
{
    let found = load_base(alloc, mft, number)?;
    let Some(file) = found else {
        return Ok(());
    };
    noting.note(number, &file)?;
    Ok(())
}

// Notes the files of all numbers.
fn note_all<D: Disk>(
    alloc: Global,
    mft: &mut Mft<'_, D>,
    noting: &mut Noting,
) -> Result<(), CheckNo>
    requires names { noting.old.names.items ≡ [] }
    requires wanted { noting.old.wanted.items ≡ [] }
    ensures noted { OnOk result (WhereReadable (view D.Disk mft.old)
        (NotesBelow (view D.Disk mft.old) (view D.Disk mft.old).layout.count noting.new)) }
    ensures reads { MftReads D.Disk mft.old mft.new (20678 * length (mounted_of D.Disk mft.old).records) }
    ensures faults { MatchResult result (λ _. faults_of D.Disk mft.new ≡ faults_of D.Disk mft.old)
        (CountsNo (faults_of D.Disk mft.old) (faults_of D.Disk mft.new)) }
{
    let count = mft.mounted().records.count();
    for number in 0..count {
        note_file(alloc, mft, number, noting)?;
    }
    Ok(())
}

/// Loads each file once, and notes its names, and whether its indexes have to be looked at. On a volume whose files can be
/// read these are all names.
///
/// # Errors
///
/// `Device` where the disk failed, and `Memory`.
pub fn note_files<D: Disk>(alloc: Global, mft: &mut Mft<'_, D>) -> Result<Notes, CheckNo>
    ensures notes { IfOk result (λ notes. WhereReadable (view D.Disk mft.old) (AreNotes (view D.Disk mft.old) notes)) }
    ensures reads { MftReads D.Disk mft.old mft.new (20678 * length (mounted_of D.Disk mft.old).records) }
    ensures faults { MatchResult result (λ _. faults_of D.Disk mft.new ≡ faults_of D.Disk mft.old)
        (CountsNo (faults_of D.Disk mft.old) (faults_of D.Disk mft.new)) }
{
    let mut noting = Noting {
        names: Vec::new(alloc),
        wanted: Vec::new(alloc),
    };
    note_all(alloc, mft, &mut noting)?;
    Ok(noting.into_notes()?)
}
