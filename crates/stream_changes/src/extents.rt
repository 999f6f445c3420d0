//! A stream in clusters, in one part of a file without an attribute list, ends earlier, or goes: its clusters are given back first, then
//! its record is edited, and what the file shows of itself is told anew.
ghost use Rattle.std.specs.Prelude.{◌≡◌, ◌≤◌, ◌<◌, ◌^◌, ℕ, List, None, Some, IfErr, IfOk, IsTrue, MatchResult, OnOk, false};
ghost use Rattle.std.specs.Prelude.{length, slice_get, true};
ghost use Rattle.ntfs_def.specs.declared.run_text.Run.{Run};
ghost use Rattle.volume_def.specs.Coverage.{IsApart};
ghost use Rattle.volume_def.specs.Files.{Part, content_runs, parts, records_of};
ghost use Rattle.volume_def.specs.Readable.{IsFile, WhereReadable};
ghost use Rattle.volume_edits.specs.Owners.{HasOwners};
ghost use Rattle.mft_table.specs.InUse.{IsInUse};
ghost use Rattle.mft_table.specs.Mft.{KeepsDisk, faults_of, is_mft_broken, mounted_of, view};
ghost use Rattle.mft_table.specs.MirrorClusters.{IsMirrorInside};
ghost use Rattle.file_record.specs.FileNos.{CountsNo, IsReadNo};
ghost use Rattle.file_record.specs.Held.{parts_held};
ghost use Rattle.file_record.specs.Written.{PartHeld};
ghost use Rattle.tree_edit.specs.Below.{IsInitialized, StagesRecordOf};
ghost use Rattle.tree_model.specs.Ways.{has_placed_bits};
ghost use Rattle.record_edits.specs.Given.{AreOwned};
ghost use Rattle.value_edits.specs.ValueEdits.{PutsStream, ResizesStream, no_gain};
ghost use Rattle.stored_bits.specs.Given.{KeepsDevice};
ghost use Rattle.tree_edit.specs.Staged.{TellsStored};
ghost use Rattle.stream_changes.specs.Staged.{StagesGiving};
ghost use Rattle.stream_changes.specs.Streams.{CanGive, CutsPartWhereItCan, GivesBehind};

use crate::values::drop_part;
use extent_edits::{clusters_for, cut_extent, runs_behind, runs_of_part};
use file_record::{FileNo, FileParts};
use mft_table::Mft;
use sparse_io::FoundStream;
use std::alloc::Global;
use stored_bits::give_back;
use tree_edit::set_attributes;
use vol_disk::{Disk, SECTOR};

// Gives the clusters of part `i` of a file that is held back, those behind the first `count` of its stream. Where it is a value nothing is
// done.
fn give_behind<D: Disk>(
    alloc: Global,
    mft: &mut Mft<'_, D>,
    held: &FileParts,
    i: usize,
    count: u64,
) -> Result<(), FileNo>
    requires part { i < length (parts_held held.now) }
    requires sound { is_mft_broken D.Disk mft.old ≡ false }
    requires owners { IsTrue (view D.Disk mft.old).told → HasOwners (view D.Disk mft.old) }
    requires volume { IsInUse D.Disk mft.old }
    ensures gives { OnOk result (IsTrue (view D.Disk mft.old).told → (runs : List Run)
        → PartHeld held.now i (λ part. content_runs part.content ≡ Some runs) → has_placed_bits (view D.Disk mft.old) ≡ true
        → AreOwned (view D.Disk mft.old) runs → GivesBehind D.Disk mft.old mft.new runs count) }
    ensures device { KeepsDevice D.Disk mft.old mft.new }
    ensures err { IfErr result IsReadNo }
    ensures faults { MatchResult result (λ _. faults_of D.Disk mft.new ≡ faults_of D.Disk mft.old)
        (CountsNo (faults_of D.Disk mft.old) (faults_of D.Disk mft.new)) }
{
    let Some(runs) = runs_of_part(alloc, held, i)? else {
        return Ok(());
    };
    let behind = runs_behind(alloc, &runs, count)?;
    give_back(alloc, mft, &behind)
}

// Cuts part `i` of a file, an extent from cluster 0 of its stream on, so that the stream has `size` bytes, and stages the record that holds
// it. Where it cannot be cut so nothing is done, and that is told.
fn cut_part<D: Disk>(
    alloc: Global,
    mft: &mut Mft<'_, D>,
    number: u64,
    i: usize,
    size: u64,
) -> Result<bool, FileNo>
    requires inside { number < length (mounted_of D.Disk mft.old).records }
    requires mirror { IsMirrorInside (mounted_of D.Disk mft.old) }
    requires sound { is_mft_broken D.Disk mft.old ≡ false }
    ensures cut { IfOk result (λ done. WhereReadable (view D.Disk mft.old) (IsFile (view D.Disk mft.old) number
        → IsApart (view D.Disk mft.old).layout → IsInitialized (view D.Disk mft.old) number
        → (part : Part) → slice_get (parts (records_of (view D.Disk mft.old)) number) i ≡ Some part
        → CutsPartWhereItCan done (view D.Disk mft.old) (view D.Disk mft.new) number part size)) }
    ensures places { StagesRecordOf D.Disk number mft.old mft.new }
    ensures disk { KeepsDisk D.Disk mft.old mft.new }
    ensures err { IfErr result IsReadNo }
    ensures faults { MatchResult result (λ _. faults_of D.Disk mft.new ≡ faults_of D.Disk mft.old)
        (CountsNo (faults_of D.Disk mft.old) (faults_of D.Disk mft.new)) }
{
    let mut file = FileParts::load(alloc, mft, number)?;
    if i >= file.count() {
        return Ok(false);
    }
    let place = file.place_of(i);
    cut_extent(alloc, mft, &mut file, place.record, place.attribute, size)
}

/// Takes a stream out of its file that lies in clusters, in one part, of which `held` are the records: its clusters are given back first.
/// Then sets the four times of the file, in the order of its `$STANDARD_INFORMATION`, and its DOS flags, as `set_attributes` does. All of
/// it is staged.
///
/// # Errors
///
/// `Device` where the disk failed, and `Memory`. Whoever called gives up what was staged.
pub fn drop_extent<D: Disk>(
    alloc: Global,
    mft: &mut Mft<'_, D>,
    held: &FileParts,
    found: &FoundStream,
    number: u64,
    times: &[u64; 4],
    flags: u16,
) -> Result<(), FileNo>
    requires part { found.now.part < length (parts_held held.now) }
    requires held { IsTrue (view D.Disk mft.old).told → parts_held held.now ≡ parts (records_of (view D.Disk mft.old)) number }
    requires inside { number < length (mounted_of D.Disk mft.old).records }
    requires mirror { IsMirrorInside (mounted_of D.Disk mft.old) }
    requires sound { is_mft_broken D.Disk mft.old ≡ false }
    requires volume { IsInUse D.Disk mft.old }
    requires can { IsTrue (view D.Disk mft.old).told → CanGive (view D.Disk mft.old) found.now number }
    ensures dropped { OnOk result (IsTrue (view D.Disk mft.old).told → (can : CanGive (view D.Disk mft.old) found.now number)
        → PutsStream (view D.Disk mft.old) (view D.Disk mft.new) number can.named.name None no_gain 0 times.now flags) }
    ensures places { OnOk result (IsTrue (view D.Disk mft.old).told → StagesGiving D.Disk 8 number (view D.Disk mft.old) mft.old mft.new) }
    ensures tables { OnOk result (TellsStored D.Disk mft.new) }
    ensures device { KeepsDevice D.Disk mft.old mft.new }
    ensures err { IfErr result IsReadNo }
    ensures faults { MatchResult result (λ _. faults_of D.Disk mft.new ≡ faults_of D.Disk mft.old)
        (CountsNo (faults_of D.Disk mft.old) (faults_of D.Disk mft.new)) }
{
    give_behind(alloc, mft, held, found.part, 0)?;
    drop_part(alloc, mft, number, found.part)?;
    set_attributes(alloc, mft, number, times, flags)
}

/// Gives a stream that lies in clusters, in one part, so many bytes, at most as many as it has, where `held` are the records of its file:
/// the clusters behind the last that it needs are given back first. Then sets the four times of the file, in the order of its
/// `$STANDARD_INFORMATION`, and its DOS flags, as `set_attributes` does. All of it is staged.
///
/// # Errors
///
/// `Device` where the disk failed, and `Memory`. Whoever called gives up what was staged.
pub fn shorten_extent<D: Disk>(
    alloc: Global,
    mft: &mut Mft<'_, D>,
    held: &FileParts,
    found: &FoundStream,
    number: u64,
    size: u64,
    times: &[u64; 4],
    flags: u16,
) -> Result<(), FileNo>
    requires near { size ≤ 2 ^ 40 }
    requires part { found.now.part < length (parts_held held.now) }
    requires held { IsTrue (view D.Disk mft.old).told → parts_held held.now ≡ parts (records_of (view D.Disk mft.old)) number }
    requires inside { number < length (mounted_of D.Disk mft.old).records }
    requires mirror { IsMirrorInside (mounted_of D.Disk mft.old) }
    requires sound { is_mft_broken D.Disk mft.old ≡ false }
    requires volume { IsInUse D.Disk mft.old }
    requires can { IsTrue (view D.Disk mft.old).told → CanGive (view D.Disk mft.old) found.now number }
    ensures resized { OnOk result (IsTrue (view D.Disk mft.old).told → (can : CanGive (view D.Disk mft.old) found.now number)
        → size ≤ can.extent.sizes.real
        → ResizesStream (view D.Disk mft.old) (view D.Disk mft.new) number can.named.name size can.named.held times.now flags) }
    ensures places { OnOk result (IsTrue (view D.Disk mft.old).told → (can : CanGive (view D.Disk mft.old) found.now number)
        → size ≤ can.extent.sizes.real → StagesGiving D.Disk 8 number (view D.Disk mft.old) mft.old mft.new) }
    ensures tables { OnOk result (IsTrue (view D.Disk mft.old).told → (can : CanGive (view D.Disk mft.old) found.now number)
        → size ≤ can.extent.sizes.real → TellsStored D.Disk mft.new) }
    ensures device { KeepsDevice D.Disk mft.old mft.new }
    ensures err { IfErr result IsReadNo }
    ensures faults { MatchResult result (λ _. faults_of D.Disk mft.new ≡ faults_of D.Disk mft.old)
        (CountsNo (faults_of D.Disk mft.old) (faults_of D.Disk mft.new)) }
{
    let clusters = clusters_for(size, SECTOR as u64 * mft.cluster_sectors());
    give_behind(alloc, mft, held, found.part, clusters)?;
    if !cut_part(alloc, mft, number, found.part, size)? {
        return Ok(());
    }
    set_attributes(alloc, mft, number, times, flags)
}
