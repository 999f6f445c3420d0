//! A part of a file that is a value and moves out of the record that holds it.
ghost use Rattle.std.specs.Prelude.{◌≡◌, ◌*◌, ◌^◌, ◌<◌, IfErr, IfOk, IsSome, MatchResult, Some, false, length, slice_get};
ghost use Rattle.std.specs.Option.{option_copied};
ghost use Rattle.volume_def.specs.Coverage.{IsApart};
ghost use Rattle.volume_def.specs.Files.{Part, content_value, parts, records_of};
ghost use Rattle.volume_def.specs.Readable.{IsFile, WhereReadable};
ghost use Rattle.volume_def.specs.Table.{cluster_bytes};
ghost use Rattle.mft_table.specs.Mft.{KeepsDisk, faults_of, is_mft_broken, mounted_of, view};
ghost use Rattle.mft_table.specs.MirrorClusters.{IsMirrorInside};
ghost use Rattle.file_record.specs.FileNos.{CountsNo, IsReadNo};
ghost use Rattle.file_record.specs.Held.{parts_held};
ghost use Rattle.file_record.specs.Written.{PartHeld};
ghost use Rattle.extent_edits.specs.Extended.{IsNewRun};
ghost use Rattle.tree_edit.specs.Below.{IsInitialized, StagesRecordOf};
ghost use Rattle.stream_changes.specs.Moving.{MovesPartWhereItCan};

use data_runs::Run;
use file_record::{FileNo, FileParts};
use mft_table::Mft;
use std::alloc::Global;
use value_moves::move_value;
use vol_disk::Disk;

/// The value of part `i` of a file that is held, `None` exactly where that lies in clusters.
pub fn value_of_part(held: &FileParts, i: usize) -> Option<&[u8]>
    requires { i < length (parts_held held.now) }
    ensures { PartHeld held.now i (λ part. content_value part.content ≡ option_copied result) }
{
    held.attr(i).value()
}

/// Lets the value of part `i` of a file become an extent of this run alone, with these two sizes, and stages the record that holds it.
/// Where it is no value without flags, or its record has not the bytes of the extent, nothing is done, and that is told.
///
/// # Errors
///
/// `Device` where the disk failed, and `Memory`: nothing is staged.
pub fn move_part<D: Disk>(
    alloc: Global,
    mft: &mut Mft<'_, D>,
    number: u64,
    i: usize,
    run: Run,
    real: u64,
    initialized: u64,
) -> Result<bool, FileNo>
    requires inside { number < length (mounted_of D.Disk mft.old).records }
    requires mirror { IsMirrorInside (mounted_of D.Disk mft.old) }
    requires run { IsNewRun run }
    requires placed { IsSome run.lcn }
    requires told { run.len * cluster_bytes (view D.Disk mft.old).layout < 2 ^ 64 }
    requires sound { is_mft_broken D.Disk mft.old ≡ false }
    ensures moved { IfOk result (λ done. WhereReadable (view D.Disk mft.old) (IsFile (view D.Disk mft.old) number
        → IsApart (view D.Disk mft.old).layout → IsInitialized (view D.Disk mft.old) number
        → (part : Part) → slice_get (parts (records_of (view D.Disk mft.old)) number) i ≡ Some part
        → MovesPartWhereItCan done (view D.Disk mft.old) (view D.Disk mft.new) number part run real initialized)) }
    ensures places { StagesRecordOf D.Disk number mft.old mft.new }
    ensures disk { KeepsDisk D.Disk mft.old mft.new }
    ensures err { IfErr result IsReadNo }
    ensures faults { MatchResult result (λ _. faults_of D.Disk mft.new ≡ faults_of D.Disk mft.old)
        (CountsNo (faults_of D.Disk mft.old) (faults_of D.Disk mft.new)) }
{
    let mut file = FileParts::load(alloc, mft, number)?;
    if i >= file.count() {
        return Ok(false);
    }
    let place = file.place_of(i);
    move_value(
        alloc,
        mft,
        &mut file,
        place.record,
        place.attribute,
        run,
        real,
        initialized,
    )
}
