//! A stream in clusters, in one part of a file without an attribute list, gets longer: within its last cluster, or by bytes that go over
//! those that were written, or right behind them, into clusters that it has and ones that it takes.
ghost use Rattle.std.specs.Prelude.{◌≡◌, ◌≤◌, ◌<◌, ◌+◌, ◌-◌, ◌*◌, ◌/◌, ◌^◌, List, None, Some, IfErr, IfNone, IfOk, IfSome, IsTrue};
ghost use Rattle.std.specs.Prelude.{MatchResult, OnOk, false, length, slice_get, sum_by, true};
ghost use Rattle.std.specs.Option.{option_to_list};
ghost use Rattle.ntfs_def.specs.Flags.{is_sparse};
ghost use Rattle.ntfs_def.specs.Runs.{total_clusters};
ghost use Rattle.ntfs_def.specs.declared.run_text.Run.{Run};
ghost use Rattle.volume_def.specs.Coverage.{IsApart};
ghost use Rattle.volume_def.specs.Files.{Part, content_runs, parts, records_of};
ghost use Rattle.volume_def.specs.Readable.{IsFile, WhereReadable};
ghost use Rattle.volume_def.specs.Table.{cluster_bytes};
ghost use Rattle.volume_edits.specs.Owners.{HasOwners};
ghost use Rattle.mft_table.specs.InUse.{IsInUse};
ghost use Rattle.mft_table.specs.Mft.{KeepsDisk, faults_of, is_mft_broken, mounted_of, view};
ghost use Rattle.mft_table.specs.MirrorClusters.{IsMirrorInside};
ghost use Rattle.file_record.specs.FileNos.{CountsNo, IsReadNo};
ghost use Rattle.file_record.specs.Held.{parts_held};
ghost use Rattle.file_record.specs.Written.{PartHeld};
ghost use Rattle.edit_def.specs.Purses.{run_size};
ghost use Rattle.tree_model.specs.Ways.{has_placed_bits};
ghost use Rattle.tree_edit.specs.Below.{IsInitialized, StagesRecordOf};
ghost use Rattle.tree_edit.specs.Staged.{StagesFew, TellsStored};
ghost use Rattle.record_edits.specs.Given.{TakesRuns};
ghost use Rattle.value_edits.specs.ValueEdits.{PutsBytes, ResizesStream};
ghost use Rattle.stored_bits.specs.Given.{IsOfBits, KeepsDevice};
ghost use Rattle.stored_bits.specs.Taken.{IsUnownedRun};
ghost use Rattle.extent_edits.specs.Extended.{IsNewRun};
ghost use Rattle.stream_changes.specs.Reached.{CannotReach, HasNoRun, IsRunOf, IsUnownedBy, NeedsFor, ReachesWith};
ghost use Rattle.stream_changes.specs.Staged.{StagesGiving};
ghost use Rattle.stream_changes.specs.Streams.{CanGive, CanReach, EndsInLast, ExtendsPartWhereItCan};

use data_runs::{Run, RunList};
use extent_edits::{clusters_for, extend_extent, runs_of_part, runs_with};
use file_record::{FileNo, FileParts};
use mft_table::Mft;
use sparse_io::{FoundStream, write_runs};
use std::alloc::{AllocError, Global};
use stored_bits::{free_run, take_run};
use tree_edit::set_attributes;
use vol_disk::{Disk, SECTOR};

// Lets part `i` of a file, an extent from cluster 0 of its stream on, go on with a run behind its others, where one is given, gives it
// these two sizes, and stages the record that holds it. Where it cannot go on so, or its record has no place for a run more, nothing is
// done, and that is told.
fn extend_part<D: Disk>(
    alloc: Global,
    mft: &mut Mft<'_, D>,
    number: u64,
    i: usize,
    real: u64,
    initialized: u64,
    run: Option<Run>,
) -> Result<bool, FileNo>
    requires inside { number < length (mounted_of D.Disk mft.old).records }
    requires mirror { IsMirrorInside (mounted_of D.Disk mft.old) }
    requires run { IfSome run IsNewRun }
    requires sound { is_mft_broken D.Disk mft.old ≡ false }
    ensures extended { IfOk result (λ done. WhereReadable (view D.Disk mft.old) (IsFile (view D.Disk mft.old) number
        → IsApart (view D.Disk mft.old).layout → IsInitialized (view D.Disk mft.old) number
        → (part : Part) → slice_get (parts (records_of (view D.Disk mft.old)) number) i ≡ Some part
        → ExtendsPartWhereItCan done (view D.Disk mft.old) (view D.Disk mft.new) number part real initialized run)) }
    ensures places { StagesRecordOf D.Disk number mft.old mft.new }
    ensures disk { KeepsDisk D.Disk mft.old mft.new }
    ensures err { IfErr result IsReadNo }
    ensures faults { MatchResult result (λ _. faults_of D.Disk mft.new ≡ faults_of D.Disk mft.old)
        (CountsNo (faults_of D.Disk mft.old) (faults_of D.Disk mft.new)) }
{
    let mut file = FileParts::load(alloc, mft, number)?;
    if i >= file.count() {
        return Ok(false);
    }
    let place = file.place_of(i);
    extend_extent(
        alloc,
        mft,
        &mut file,
        place.record,
        place.attribute,
        real,
        initialized,
        run,
    )
}

/// Gives a stream that lies in clusters, in one part, so many bytes, as many as it has or more, which end in its last cluster still, where
/// `held` are the records of its file: it shows zeros behind those that it had. Then sets the four times of the file, in the order of its
/// `$STANDARD_INFORMATION`, and its DOS flags, as `set_attributes` does. All of it is staged.
///
/// # Errors
///
/// `Device` where the disk failed, and `Memory`. Whoever called gives up what was staged.
pub fn lengthen_extent<D: Disk>(
    alloc: Global,
    mft: &mut Mft<'_, D>,
    held: &FileParts,
    found: &FoundStream,
    number: u64,
    size: u64,
    times: &[u64; 4],
    flags: u16,
) -> Result<(), FileNo>
    requires near { size ≤ 2 ^ 40 }
    requires part { found.now.part < length (parts_held held.now) }
    requires held { IsTrue (view D.Disk mft.old).told → parts_held held.now ≡ parts (records_of (view D.Disk mft.old)) number }
    requires inside { number < length (mounted_of D.Disk mft.old).records }
    requires mirror { IsMirrorInside (mounted_of D.Disk mft.old) }
    requires sound { is_mft_broken D.Disk mft.old ≡ false }
    requires volume { IsInUse D.Disk mft.old }
    requires can { IsTrue (view D.Disk mft.old).told → CanGive (view D.Disk mft.old) found.now number }
    requires ends { IsTrue (view D.Disk mft.old).told → (can : CanGive (view D.Disk mft.old) found.now number)
        → EndsInLast (view D.Disk mft.old) size can.extent can.runs }
    ensures resized { OnOk result (IsTrue (view D.Disk mft.old).told → (can : CanGive (view D.Disk mft.old) found.now number)
        → EndsInLast (view D.Disk mft.old) size can.extent can.runs
        → ResizesStream (view D.Disk mft.old) (view D.Disk mft.new) number can.named.name size can.named.held times.now flags) }
    ensures places { OnOk result (IsTrue (view D.Disk mft.old).told → (can : CanGive (view D.Disk mft.old) found.now number)
        → EndsInLast (view D.Disk mft.old) size can.extent can.runs
        → StagesGiving D.Disk 8 number (view D.Disk mft.old) mft.old mft.new) }
    ensures tables { OnOk result (IsTrue (view D.Disk mft.old).told → (can : CanGive (view D.Disk mft.old) found.now number)
        → EndsInLast (view D.Disk mft.old) size can.extent can.runs → TellsStored D.Disk mft.new) }
    ensures device { KeepsDevice D.Disk mft.old mft.new }
    ensures err { IfErr result IsReadNo }
    ensures faults { MatchResult result (λ _. faults_of D.Disk mft.new ≡ faults_of D.Disk mft.old)
        (CountsNo (faults_of D.Disk mft.old) (faults_of D.Disk mft.new)) }
{
    let Some(sizes) = held.attr(found.part).sizes() else {
        return Ok(());
    };
    if !extend_part(
        alloc,
        mft,
        number,
        found.part,
        size,
        sizes.initialized,
        None,
    )? {
        return Ok(());
    }
    set_attributes(alloc, mft, number, times, flags)
}

/// A run of so many clusters that no attribute owns, by the flags of the clusters of a volume;
/// `None` exactly where none of as many is free.
pub fn run_of_free<D: Disk>(mft: &Mft<'_, D>, count: u64) -> Option<Run>
    requires { 0 < count }
    ensures some { IfSome result (IsRunOf count) }
    ensures unowned { IfSome result (IsUnownedBy (mounted_of D.Disk mft.now).clusters) }
    ensures none { IfNone result (HasNoRun (mounted_of D.Disk mft.now).clusters count) }
{
    let lcn = free_run(&mft.mounted().clusters, count, 0)?;
    Some(Run {
        len: count,
        lcn: Some(lcn),
    })
}

// The run that a stream of so many clusters takes to have these, `None` where it has them:
// the outer `None` where no run of as many is free.
fn run_to_take<D: Disk>(mft: &Mft<'_, D>, had: u64, clusters: u64) -> Option<Option<Run>>
    ensures needs { IfSome result (NeedsFor had clusters) }
    ensures unowned { IfSome result (λ run. IfSome run (IsUnownedBy (mounted_of D.Disk mft.now).clusters)) }
    ensures some { IfNone result (had < clusters) }
    ensures none { IfNone result (HasNoRun (mounted_of D.Disk mft.now).clusters (clusters - had)) }
{
    if clusters <= had {
        return Some(None);
    }
    let run = run_of_free(mft, clusters - had)?;
    Some(Some(run))
}

// The run that a stream takes to have so many clusters, where it needs one, and its runs with it,
// by those of part `i` of a file that is held.
fn runs_to_reach<D: Disk>(
    alloc: Global,
    mft: &Mft<'_, D>,
    held: &FileParts,
    i: usize,
    clusters: u64,
) -> Result<Option<(Option<Run>, RunList)>, AllocError>
    requires { i < length (parts_held held.now) }
    ensures new { IfOk result (λ found. IfSome found (λ with. IfSome with.0 IsNewRun)) }
    ensures reaches { IfOk result (λ found. IfSome found (λ with. (runs : List Run)
        → PartHeld held.now i (λ part. content_runs part.content ≡ Some runs)
        → ReachesWith (mounted_of D.Disk mft.now).clusters runs clusters with.0 with.1)) }
    ensures none { IfOk result (λ found. IfNone found ((runs : List Run)
        → PartHeld held.now i (λ part. content_runs part.content ≡ Some runs)
        → CannotReach (mounted_of D.Disk mft.now).clusters runs clusters)) }
{
    let Some(runs) = runs_of_part(alloc, held, i)? else {
        return Ok(None);
    };
    let Some(run) = run_to_take(mft, runs.total_clusters(), clusters) else {
        return Ok(None);
    };
    let Some(all) = runs_with(alloc, &runs, run)? else {
        return Ok(None);
    };
    Ok(Some((run, all)))
}

// Takes a run that no attribute owns, where one is given.
fn take_needed<D: Disk>(alloc: Global, mft: &mut Mft<'_, D>, run: Option<Run>) -> Result<(), FileNo>
    requires sound { is_mft_broken D.Disk mft.old ≡ false }
    requires owners { IsTrue (view D.Disk mft.old).told → HasOwners (view D.Disk mft.old) }
    requires volume { IsInUse D.Disk mft.old }
    ensures taken { OnOk result (IsTrue (view D.Disk mft.old).told → has_placed_bits (view D.Disk mft.old) ≡ true
        → IfSome run (IsUnownedRun (view D.Disk mft.old)) → TakesRuns (view D.Disk mft.old) (view D.Disk mft.new) (option_to_list run)) }
    ensures stored { OnOk result (IsTrue (view D.Disk mft.old).told → has_placed_bits (view D.Disk mft.old) ≡ true
        → IfSome run (IsUnownedRun (view D.Disk mft.old)) → TellsStored D.Disk mft.new) }
    ensures places { IsTrue (view D.Disk mft.old).told
        → StagesFew D.Disk (2 * sum_by run_size (option_to_list run)) (IsOfBits (view D.Disk mft.old)) mft.old mft.new }
    ensures device { KeepsDevice D.Disk mft.old mft.new }
    ensures err { IfErr result IsReadNo }
    ensures faults { MatchResult result (λ _. faults_of D.Disk mft.new ≡ faults_of D.Disk mft.old)
        (CountsNo (faults_of D.Disk mft.old) (faults_of D.Disk mft.new)) }
{
    match run {
        Some(run) => take_run(alloc, mft, run),
        None => Ok(()),
    }
}

/// Writes bytes into a stream that lies in clusters, in one part, from its byte `at` on, over those that were written or right behind them,
/// where `held` are the records of its file: clusters that it needs behind its last are taken first, as one run. Then sets the four times
/// of the file, in the order of its `$STANDARD_INFORMATION`, and its DOS flags, as `set_attributes` does. All of it is staged.
///
/// # Errors
///
/// `Device` where the disk failed, and `Memory`. Whoever called gives up what was staged.
pub fn write_behind<D: Disk>(
    alloc: Global,
    mft: &mut Mft<'_, D>,
    held: &FileParts,
    found: &FoundStream,
    number: u64,
    at: u64,
    bytes: &[u8],
    times: &[u64; 4],
    flags: u16,
) -> Result<(), FileNo>
    requires near { at + length bytes.now ≤ 2 ^ 40 }
    requires part { found.now.part < length (parts_held held.now) }
    requires held { IsTrue (view D.Disk mft.old).told → parts_held held.now ≡ parts (records_of (view D.Disk mft.old)) number }
    requires inside { number < length (mounted_of D.Disk mft.old).records }
    requires mirror { IsMirrorInside (mounted_of D.Disk mft.old) }
    requires sound { is_mft_broken D.Disk mft.old ≡ false }
    requires volume { IsInUse D.Disk mft.old }
    requires can { IsTrue (view D.Disk mft.old).told → CanReach (view D.Disk mft.old) found.now number at (length bytes.now) }
    requires some { IsTrue (view D.Disk mft.old).told → 0 < length bytes.now }
    ensures written { OnOk result (IsTrue (view D.Disk mft.old).told
        → (can : CanReach (view D.Disk mft.old) found.now number at (length bytes.now))
        → PutsBytes (view D.Disk mft.old) (view D.Disk mft.new) number can.give.named.name at bytes.now can.give.named.held times.now
        flags) }
    ensures places { OnOk result (IsTrue (view D.Disk mft.old).told
        → StagesGiving D.Disk (10 + length bytes.now / 512) number (view D.Disk mft.old) mft.old mft.new) }
    ensures tables { OnOk result (TellsStored D.Disk mft.new) }
    ensures device { KeepsDevice D.Disk mft.old mft.new }
    ensures err { IfErr result IsReadNo }
    ensures faults { MatchResult result (λ _. faults_of D.Disk mft.new ≡ faults_of D.Disk mft.old)
        (CountsNo (faults_of D.Disk mft.old) (faults_of D.Disk mft.new)) }
{
    let Some(sizes) = held.attr(found.part).sizes() else {
        return Ok(());
    };
    let end = at + bytes.len() as u64;
    let clusters = clusters_for(end, SECTOR as u64 * mft.cluster_sectors());
    let Some((run, runs)) = runs_to_reach(alloc, mft, held, found.part, clusters)? else {
        return Ok(());
    };
    take_needed(alloc, mft, run)?;
    write_runs(mft, &runs, at, bytes)?;
    let real = sizes.real.max(end);
    let initialized = sizes.initialized.max(end);
    if !extend_part(alloc, mft, number, found.part, real, initialized, run)? {
        // Its holes are so many that its bytes cannot be told.
        return Err(FileNo::Memory);
    }
    set_attributes(alloc, mft, number, times, flags)
}
