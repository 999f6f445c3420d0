//! A stream that is a value, of a file without an attribute list, has another length, has bytes put in, or goes, and what the file shows of
//! itself is told anew.
ghost use Rattle.std.specs.Prelude.{◌≡◌, ◌+◌, ◌^◌, ◌≤◌, ◌<◌, true, false, IfErr, IfOk, IsTrue, MatchResult, None, OnOk};
ghost use Rattle.std.specs.Prelude.{Some, length, slice_get};
ghost use Rattle.attr_view.specs.Values.{with_length};
ghost use Rattle.volume_def.specs.Coverage.{IsApart};
ghost use Rattle.volume_def.specs.FileNames.{names_of};
ghost use Rattle.volume_def.specs.Files.{Part, parts, records_of};
ghost use Rattle.volume_def.specs.Readable.{IsFile, WhereReadable};
ghost use Rattle.mft_table.specs.InUse.{IsInUse};
ghost use Rattle.mft_table.specs.Mft.{KeepsDisk, faults_of, is_mft_broken, mounted_of, view};
ghost use Rattle.mft_table.specs.MirrorClusters.{IsMirrorInside};
ghost use Rattle.file_record.specs.Attributes.{with_bytes_at};
ghost use Rattle.file_record.specs.FileNos.{CountsNo, IsReadNo};
ghost use Rattle.tree_edit.specs.Below.{IsInitialized, StagesRecordOf};
ghost use Rattle.value_edits.specs.ValueEdits.{PutsBytes, PutsStream, ResizesStream, no_gain};
ghost use Rattle.tree_edit.specs.Change.{CanChange, ChangesWhereFits, RemovesPart, has_room_for};
ghost use Rattle.tree_edit.specs.Values.{StagesValue};
ghost use Rattle.tree_edit.specs.Staged.{TellsStored};

use file_record::{FileNo, FileParts};
use mft_table::Mft;
use sparse_io::FoundStream;
use std::alloc::Global;
use tree_edit::{fits_at, set_attributes};
use vol_disk::Disk;

// Gives part `i` of a file so many bytes, and stages the record that holds it. Where the part is no value, or the record has no room for
// them, nothing is done, and that is told.
fn resize_part<D: Disk>(
    alloc: Global,
    mft: &mut Mft<'_, D>,
    number: u64,
    i: usize,
    size: u64,
) -> Result<bool, FileNo>
    requires inside { number < length (mounted_of D.Disk mft.old).records }
    requires mirror { IsMirrorInside (mounted_of D.Disk mft.old) }
    requires sound { is_mft_broken D.Disk mft.old ≡ false }
    ensures resized { IfOk result (λ fits. WhereReadable (view D.Disk mft.old) (IsFile (view D.Disk mft.old) number
        → IsApart (view D.Disk mft.old).layout → IsInitialized (view D.Disk mft.old) number
        → (part : Part) → slice_get (parts (records_of (view D.Disk mft.old)) number) i ≡ Some part
        → ChangesWhereFits fits (view D.Disk mft.old) (view D.Disk mft.new) number part size (with_length size))) }
    ensures places { StagesRecordOf D.Disk number mft.old mft.new }
    ensures disk { KeepsDisk D.Disk mft.old mft.new }
    ensures err { IfErr result IsReadNo }
    ensures faults { MatchResult result (λ _. faults_of D.Disk mft.new ≡ faults_of D.Disk mft.old)
        (CountsNo (faults_of D.Disk mft.old) (faults_of D.Disk mft.new)) }
{
    let mut file = FileParts::load(alloc, mft, number)?;
    if i >= file.count() {
        return Ok(false);
    }
    let place = file.place_of(i);
    if !fits_at(&file, place, size) {
        return Ok(false);
    }
    file.resize_attribute(mft, place.record, place.attribute, size as usize)?;
    Ok(true)
}

// Puts bytes into part `i` of a file, from its byte `at` on, and stages the record that holds it. Where the part is no value, or the record
// has no room for them, nothing is done, and that is told.
fn write_part<D: Disk>(
    alloc: Global,
    mft: &mut Mft<'_, D>,
    number: u64,
    i: usize,
    at: u64,
    bytes: &[u8],
) -> Result<bool, FileNo>
    requires near { at + length bytes.now ≤ 2 ^ 40 }
    requires inside { number < length (mounted_of D.Disk mft.old).records }
    requires mirror { IsMirrorInside (mounted_of D.Disk mft.old) }
    requires sound { is_mft_broken D.Disk mft.old ≡ false }
    ensures written { IfOk result (λ fits. WhereReadable (view D.Disk mft.old) (IsFile (view D.Disk mft.old) number
        → IsApart (view D.Disk mft.old).layout → IsInitialized (view D.Disk mft.old) number
        → (part : Part) → slice_get (parts (records_of (view D.Disk mft.old)) number) i ≡ Some part
        → ChangesWhereFits fits (view D.Disk mft.old) (view D.Disk mft.new) number part (at + length bytes.now)
        (with_bytes_at at bytes.now))) }
    ensures places { StagesRecordOf D.Disk number mft.old mft.new }
    ensures disk { KeepsDisk D.Disk mft.old mft.new }
    ensures err { IfErr result IsReadNo }
    ensures faults { MatchResult result (λ _. faults_of D.Disk mft.new ≡ faults_of D.Disk mft.old)
        (CountsNo (faults_of D.Disk mft.old) (faults_of D.Disk mft.new)) }
{
    let mut file = FileParts::load(alloc, mft, number)?;
    if i >= file.count() {
        return Ok(false);
    }
    let place = file.place_of(i);
    if !fits_at(&file, place, at + bytes.len() as u64) {
        return Ok(false);
    }
    file.put_in_value(mft, place.record, place.attribute, at as usize, bytes)?;
    Ok(true)
}

/// Takes part `i` out of a file, and stages the record that held it. Where there is none nothing is done.
///
/// # Errors
///
/// `Device` where the disk failed, and `Memory`: nothing is staged.
pub fn drop_part<D: Disk>(
    alloc: Global,
    mft: &mut Mft<'_, D>,
    number: u64,
    i: usize,
) -> Result<(), FileNo>
    requires inside { number < length (mounted_of D.Disk mft.old).records }
    requires mirror { IsMirrorInside (mounted_of D.Disk mft.old) }
    requires sound { is_mft_broken D.Disk mft.old ≡ false }
    ensures dropped { OnOk result (WhereReadable (view D.Disk mft.old) (IsFile (view D.Disk mft.old) number
        → IsApart (view D.Disk mft.old).layout → IsInitialized (view D.Disk mft.old) number
        → (part : Part) → slice_get (parts (records_of (view D.Disk mft.old)) number) i ≡ Some part
        → RemovesPart (view D.Disk mft.old) (view D.Disk mft.new) number part)) }
    ensures places { StagesRecordOf D.Disk number mft.old mft.new }
    ensures disk { KeepsDisk D.Disk mft.old mft.new }
    ensures err { IfErr result IsReadNo }
    ensures faults { MatchResult result (λ _. faults_of D.Disk mft.new ≡ faults_of D.Disk mft.old)
        (CountsNo (faults_of D.Disk mft.old) (faults_of D.Disk mft.new)) }
{
    let mut file = FileParts::load(alloc, mft, number)?;
    if i >= file.count() {
        return Ok(());
    }
    let place = file.place_of(i);
    file.remove_attribute(mft, place.record, place.attribute)
}

/// Gives a stream that is a value so many bytes, cut or with zeros behind, where it has as many or its record has room for them, and then
/// sets the four times of its file, in the order of its `$STANDARD_INFORMATION`, and its DOS flags, as `set_attributes` does. All of it is
/// staged. Where it does not fit nothing is done.
///
/// # Errors
///
/// `Device` where the disk failed, and `Memory`. Whoever called gives up what was staged.
pub fn resize_value<D: Disk>(
    alloc: Global,
    mft: &mut Mft<'_, D>,
    found: &FoundStream,
    number: u64,
    size: u64,
    times: &[u64; 4],
    flags: u16,
) -> Result<(), FileNo>
    requires inside { number < length (mounted_of D.Disk mft.old).records }
    requires mirror { IsMirrorInside (mounted_of D.Disk mft.old) }
    requires sound { is_mft_broken D.Disk mft.old ≡ false }
    requires volume { IsInUse D.Disk mft.old }
    requires can { IsTrue (view D.Disk mft.old).told → CanChange (view D.Disk mft.old) found.now number }
    ensures resized { OnOk result (IsTrue (view D.Disk mft.old).told → (can : CanChange (view D.Disk mft.old) found.now number)
        → has_room_for (view D.Disk mft.old) number found.now.size size ≡ true
        → ResizesStream (view D.Disk mft.old) (view D.Disk mft.new) number can.value.name size can.value.held times.now flags) }
    ensures places { IsTrue (view D.Disk mft.old).told
        → StagesValue D.Disk number (names_of (records_of (view D.Disk mft.old)) number) mft.old mft.new }
    ensures tables { OnOk result (IsTrue (view D.Disk mft.old).told → (can : CanChange (view D.Disk mft.old) found.now number)
        → has_room_for (view D.Disk mft.old) number found.now.size size ≡ true → TellsStored D.Disk mft.new) }
    ensures disk { KeepsDisk D.Disk mft.old mft.new }
    ensures err { IfErr result IsReadNo }
    ensures faults { MatchResult result (λ _. faults_of D.Disk mft.new ≡ faults_of D.Disk mft.old)
        (CountsNo (faults_of D.Disk mft.old) (faults_of D.Disk mft.new)) }
{
    if !resize_part(alloc, mft, number, found.part, size)? {
        return Ok(());
    }
    set_attributes(alloc, mft, number, times, flags)
}

/// Puts bytes into a stream that is a value, from its byte `at` on, with zeros before them where it was shorter, where it has as many or
/// its record has room for them, and then sets the four times of its file, in the order of its `$STANDARD_INFORMATION`, and its DOS flags,
/// as `set_attributes` does. All of it is staged. Where they do not fit nothing is done.
///
/// # Errors
///
/// `Device` where the disk failed, and `Memory`. Whoever called gives up what was staged.
pub fn write_value<D: Disk>(
    alloc: Global,
    mft: &mut Mft<'_, D>,
    found: &FoundStream,
    number: u64,
    at: u64,
    bytes: &[u8],
    times: &[u64; 4],
    flags: u16,
) -> Result<(), FileNo>
    requires near { at + length bytes.now ≤ 2 ^ 40 }
    requires inside { number < length (mounted_of D.Disk mft.old).records }
    requires mirror { IsMirrorInside (mounted_of D.Disk mft.old) }
    requires sound { is_mft_broken D.Disk mft.old ≡ false }
    requires volume { IsInUse D.Disk mft.old }
    requires can { IsTrue (view D.Disk mft.old).told → CanChange (view D.Disk mft.old) found.now number }
    ensures written { OnOk result (IsTrue (view D.Disk mft.old).told → (can : CanChange (view D.Disk mft.old) found.now number)
        → has_room_for (view D.Disk mft.old) number found.now.size (at + length bytes.now) ≡ true
        → PutsBytes (view D.Disk mft.old) (view D.Disk mft.new) number can.value.name at bytes.now can.value.held times.now
        flags) }
    ensures places { IsTrue (view D.Disk mft.old).told
        → StagesValue D.Disk number (names_of (records_of (view D.Disk mft.old)) number) mft.old mft.new }
    ensures tables { OnOk result (IsTrue (view D.Disk mft.old).told → (can : CanChange (view D.Disk mft.old) found.now number)
        → has_room_for (view D.Disk mft.old) number found.now.size (at + length bytes.now) ≡ true → TellsStored D.Disk mft.new) }
    ensures disk { KeepsDisk D.Disk mft.old mft.new }
    ensures err { IfErr result IsReadNo }
    ensures faults { MatchResult result (λ _. faults_of D.Disk mft.new ≡ faults_of D.Disk mft.old)
        (CountsNo (faults_of D.Disk mft.old) (faults_of D.Disk mft.new)) }
{
    if !write_part(alloc, mft, number, found.part, at, bytes)? {
        return Ok(());
    }
    set_attributes(alloc, mft, number, times, flags)
}

/// Takes a stream that is a value out of its file, and then sets the four times of the file, in the order of its `$STANDARD_INFORMATION`,
/// and its DOS flags, as `set_attributes` does. All of it is staged.
///
/// # Errors
///
/// `Device` where the disk failed, and `Memory`. Whoever called gives up what was staged.
pub fn drop_value<D: Disk>(
    alloc: Global,
    mft: &mut Mft<'_, D>,
    found: &FoundStream,
    number: u64,
    times: &[u64; 4],
    flags: u16,
) -> Result<(), FileNo>
    requires inside { number < length (mounted_of D.Disk mft.old).records }
    requires mirror { IsMirrorInside (mounted_of D.Disk mft.old) }
    requires sound { is_mft_broken D.Disk mft.old ≡ false }
    requires volume { IsInUse D.Disk mft.old }
    requires can { IsTrue (view D.Disk mft.old).told → CanChange (view D.Disk mft.old) found.now number }
    ensures dropped { OnOk result (IsTrue (view D.Disk mft.old).told → (can : CanChange (view D.Disk mft.old) found.now number)
        → PutsStream (view D.Disk mft.old) (view D.Disk mft.new) number can.value.name None no_gain 0 times.now flags) }
    ensures places { IsTrue (view D.Disk mft.old).told
        → StagesValue D.Disk number (names_of (records_of (view D.Disk mft.old)) number) mft.old mft.new }
    ensures tables { OnOk result (TellsStored D.Disk mft.new) }
    ensures disk { KeepsDisk D.Disk mft.old mft.new }
    ensures err { IfErr result IsReadNo }
    ensures faults { MatchResult result (λ _. faults_of D.Disk mft.new ≡ faults_of D.Disk mft.old)
        (CountsNo (faults_of D.Disk mft.old) (faults_of D.Disk mft.new)) }
{
    drop_part(alloc, mft, number, found.part)?;
    set_attributes(alloc, mft, number, times, flags)
}
