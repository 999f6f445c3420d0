//! A stream that is a value leaves its record for clusters with bytes that are written into it, or in another length.
ghost use Rattle.std.specs.Prelude.{◌≡◌, ◌⊎◌, ◌+◌, ◌/◌, ◌^◌, ◌<◌, ◌≤◌, IfErr, IfNone, IfOk, IfSome, IsTrue, MatchResult, OnOk, false};
ghost use Rattle.std.specs.Prelude.{length};
ghost use Rattle.volume_def.specs.Files.{parts, records_of};
ghost use Rattle.mft_table.specs.InUse.{IsInUse};
ghost use Rattle.mft_table.specs.Mft.{faults_of, is_mft_broken, mounted_of, view};
ghost use Rattle.mft_table.specs.MirrorClusters.{IsMirrorInside};
ghost use Rattle.file_record.specs.FileNos.{CountsNo, IsReadNo};
ghost use Rattle.file_record.specs.Held.{parts_held};
ghost use Rattle.tree_model.specs.Streams.{written};
ghost use Rattle.stored_bits.specs.Given.{KeepsDevice};
ghost use Rattle.value_edits.specs.ValueEdits.{PutsBytes, ResizesStream};
ghost use Rattle.tree_edit.specs.Staged.{TellsStored};
ghost use Rattle.stream_changes.specs.Staged.{StagesGiving};
ghost use Rattle.stream_changes.specs.Moving.{CanLengthen, CanMove};

use crate::leaving::leave_record;
use crate::part::value_of_part;
use file_record::{FileNo, FileParts};
use mft_table::Mft;
use sparse_io::FoundStream;
use std::alloc::{AllocError, Global};
use vol_disk::Disk;

// A value with bytes written into it, from its byte `at` on, which begin within it, or right behind it, and end past it; `None` where they
// do not.
fn with_bytes(
    alloc: Global,
    value: &[u8],
    at: u64,
    bytes: &[u8],
) -> Result<Option<Vec<u8>>, AllocError>
    requires near { at + length bytes.now ≤ 2 ^ 40 }
    ensures begins { IfOk result (λ found. IfSome found (λ _. at ≤ length value.now)) }
    ensures longer { IfOk result (λ found. IfSome found (λ _. length value.now < at + length bytes.now)) }
    ensures written { IfOk result (λ found. IfSome found (λ whole. whole.items ≡ written at bytes.now value.now)) }
    ensures len { IfOk result (λ found. IfSome found (λ whole. length whole.items ≡ at + length bytes.now)) }
    ensures none { IfOk result (λ found. IfNone found ((length value.now < at) ⊎ (at + length bytes.now ≤ length value.now))) }
{
    let had = value.len() as u64;
    if had < at || at + bytes.len() as u64 <= had {
        return Ok(None);
    }
    let mut whole = Vec::with_capacity(alloc, at as usize + bytes.len())?;
    whole.extend_from_slice(&value[..at as usize])?;
    whole.extend_from_slice(bytes)?;
    Ok(Some(whole))
}

/// Writes bytes into a stream that is a value, from its byte `at` on, within it or right behind it, which its record has no room for;
/// `held` are the records of its file. The stream leaves its record for a run of as many clusters as its bytes then need, into which they
/// are put. Then the four times of the file are set, in the order of its `$STANDARD_INFORMATION`, and its DOS flags, as `set_attributes`
/// does. All of it is staged.
///
/// # Errors
///
/// `Device` where the disk failed, and `Memory`. Whoever called gives up what was staged.
pub fn write_moving<D: Disk>(
    alloc: Global,
    mft: &mut Mft<'_, D>,
    held: &FileParts,
    found: &FoundStream,
    number: u64,
    at: u64,
    bytes: &[u8],
    times: &[u64; 4],
    flags: u16,
) -> Result<(), FileNo>
    requires near { at + length bytes.now ≤ 2 ^ 40 }
    requires part { found.now.part < length (parts_held held.now) }
    requires held { IsTrue (view D.Disk mft.old).told → parts_held held.now ≡ parts (records_of (view D.Disk mft.old)) number }
    requires inside { number < length (mounted_of D.Disk mft.old).records }
    requires mirror { IsMirrorInside (mounted_of D.Disk mft.old) }
    requires sound { is_mft_broken D.Disk mft.old ≡ false }
    requires volume { IsInUse D.Disk mft.old }
    requires can { IsTrue (view D.Disk mft.old).told → CanMove (view D.Disk mft.old) found.now number at (length bytes.now) }
    ensures written { OnOk result (IsTrue (view D.Disk mft.old).told
        → (can : CanMove (view D.Disk mft.old) found.now number at (length bytes.now))
        → PutsBytes (view D.Disk mft.old) (view D.Disk mft.new) number can.leave.named.name at bytes.now can.leave.named.held times.now
        flags) }
    ensures places { OnOk result (IsTrue (view D.Disk mft.old).told
        → StagesGiving D.Disk (12 + length bytes.now / 512) number (view D.Disk mft.old) mft.old mft.new) }
    ensures tables { OnOk result (TellsStored D.Disk mft.new) }
    ensures device { KeepsDevice D.Disk mft.old mft.new }
    ensures err { IfErr result IsReadNo }
    ensures faults { MatchResult result (λ _. faults_of D.Disk mft.new ≡ faults_of D.Disk mft.old)
        (CountsNo (faults_of D.Disk mft.old) (faults_of D.Disk mft.new)) }
{
    let Some(value) = value_of_part(held, found.part) else {
        return Ok(());
    };
    let Some(whole) = with_bytes(alloc, value, at, bytes)? else {
        return Ok(());
    };
    let real = at + bytes.len() as u64;
    if !leave_record(alloc, mft, found, number, &whole, real, times, flags)? {
        // Never of a volume that tells its contents.
        return Err(FileNo::Memory);
    }
    Ok(())
}

/// Gives a stream that is a value so many bytes, more than its record has room for, which end in the last cluster that those fill that it
/// has; `held` are the records of its file. The stream leaves its record for a run of as many clusters, into which the value is put, and
/// shows zeros behind it. Then the four times of the file are set, in the order of its `$STANDARD_INFORMATION`, and its DOS flags, as
/// `set_attributes` does. All of it is staged.
///
/// # Errors
///
/// `Device` where the disk failed, and `Memory`. Whoever called gives up what was staged.
pub fn lengthen_moving<D: Disk>(
    alloc: Global,
    mft: &mut Mft<'_, D>,
    held: &FileParts,
    found: &FoundStream,
    number: u64,
    size: u64,
    times: &[u64; 4],
    flags: u16,
) -> Result<(), FileNo>
    requires near { size ≤ 2 ^ 40 }
    requires part { found.now.part < length (parts_held held.now) }
    requires held { IsTrue (view D.Disk mft.old).told → parts_held held.now ≡ parts (records_of (view D.Disk mft.old)) number }
    requires inside { number < length (mounted_of D.Disk mft.old).records }
    requires mirror { IsMirrorInside (mounted_of D.Disk mft.old) }
    requires sound { is_mft_broken D.Disk mft.old ≡ false }
    requires volume { IsInUse D.Disk mft.old }
    requires can { IsTrue (view D.Disk mft.old).told → CanLengthen (view D.Disk mft.old) found.now number size }
    ensures resized { OnOk result (IsTrue (view D.Disk mft.old).told → (can : CanLengthen (view D.Disk mft.old) found.now number size)
        → ResizesStream (view D.Disk mft.old) (view D.Disk mft.new) number can.leave.named.name size can.leave.named.held times.now flags) }
    ensures places { OnOk result (IsTrue (view D.Disk mft.old).told
        → StagesGiving D.Disk 11 number (view D.Disk mft.old) mft.old mft.new) }
    ensures tables { OnOk result (TellsStored D.Disk mft.new) }
    ensures device { KeepsDevice D.Disk mft.old mft.new }
    ensures err { IfErr result IsReadNo }
    ensures faults { MatchResult result (λ _. faults_of D.Disk mft.new ≡ faults_of D.Disk mft.old)
        (CountsNo (faults_of D.Disk mft.old) (faults_of D.Disk mft.new)) }
{
    let Some(value) = value_of_part(held, found.part) else {
        return Ok(());
    };
    if value.is_empty() || size < value.len() as u64 {
        return Ok(());
    }
    if !leave_record(alloc, mft, found, number, value, size, times, flags)? {
        // Never of a volume that tells its contents.
        return Err(FileNo::Memory);
    }
    Ok(())
}
