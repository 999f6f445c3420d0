//! A value that moves out of its record into clusters.
ghost use Rattle.std.specs.Prelude.{◌≡◌, ◌+◌, ◌-◌, ◌*◌, ◌<◌, ◌≤◌, ◌^◌, IfErr, IfNone, IfOk, IfSome, IsSome};
ghost use Rattle.std.specs.Prelude.{IsTrue, OnErr, OnOk, false, length};
ghost use Rattle.ntfs_def.specs.Attribute.{attribute_len, attribute_place, attributes};
ghost use Rattle.ntfs_def.specs.Record.{used_size};
ghost use Rattle.attr_view.specs.Values.{attribute_in};
ghost use Rattle.volume_def.specs.Coverage.{IsApart};
ghost use Rattle.volume_def.specs.Table.{cluster_bytes};
ghost use Rattle.mft_table.specs.Mft.{MftReserves, MftStages, is_mft_broken, mounted_of, view};
ghost use Rattle.mft_table.specs.MirrorClusters.{IsMirrorInside};
ghost use Rattle.mft_table.specs.Staging.{record_places};
ghost use Rattle.file_record.specs.Held.{RecordHeld};
ghost use Rattle.file_record.specs.Links.{HoldsSame};
ghost use Rattle.file_record.specs.Written.{IsWholeFile};
ghost use Rattle.extent_edits.specs.Extended.{IsNewRun};
ghost use Rattle.value_moves.specs.Bytes.{MovesAttribute};
ghost use Rattle.value_moves.specs.Moved.{CanBeMoved, MovesWhereItCan, moved_len};

use crate::bytes::moved_attribute;
use data_runs::Run;
use file_record::{FileNo, FileParts};
use mft_table::Mft;
use std::alloc::{AllocError, Global};
use vol_disk::{Disk, SECTOR};

// The bytes of attribute i of the record that is held at `place`, a value that became an extent of this run, with these sizes, in clusters
// of `cluster` bytes; `None` where it is no value without flags, or the record has no room for them.
fn moved_held(
    alloc: Global,
    file: &FileParts,
    place: usize,
    i: usize,
    cluster: u64,
    run: Run,
    real: u64,
    initialized: u64,
) -> Result<Option<Vec<u8>>, AllocError>
    requires place { RecordHeld file.now place (λ held. i < length (attributes held.block)) }
    requires run { IsNewRun run }
    requires placed { IsSome run.lcn }
    requires told { run.len * cluster < 2 ^ 64 }
    ensures moved { IfOk result (λ found. IfSome found (λ bytes. RecordHeld file.now place (λ held.
        MovesAttribute cluster run real initialized (attribute_in held.block i) bytes.items))) }
    ensures fits { IfOk result (λ found. IfSome found (λ bytes. RecordHeld file.now place (λ held.
        used_size held.block + length bytes.items ≤ 1024 + attribute_len held.block (attribute_place held.block i)))) }
    ensures none { IfOk result (λ found. IfNone found (RecordHeld file.now place (λ held.
        CanBeMoved (attribute_in held.block i)
        → length (attribute_in held.block i).bytes + (1024 - used_size held.block) < moved_len (attribute_in held.block i).name))) }
{
    let held = &file.records()[place];
    let attr = held.view().attr(i);
    let Some(bytes) = moved_attribute(alloc, &attr, cluster, run, real, initialized)? else {
        return Ok(None);
    };
    if attr.bytes().len() + held.free_bytes() < bytes.len() {
        return Ok(None);
    }
    Ok(Some(bytes))
}

/// Moves the value of attribute `i` of the record that is held at `place` out of the record: the attribute becomes an extent of this run
/// alone, from cluster 0 of its stream on, with these two sizes, and the record is staged, with its copy where the mirror has one. The
/// bytes of the value are not put into the clusters. Where it is no value, or has flags, or the record has no room for the extent, nothing
/// is done, and that is told.
///
/// # Errors
///
/// `Memory` where there is none for the bytes of the attribute or for four more staged sectors. Nothing is staged, and of what is held only
/// the numbers are told.
pub fn move_value<D: Disk>(
    alloc: Global,
    mft: &mut Mft<'_, D>,
    file: &mut FileParts,
    place: usize,
    i: usize,
    run: Run,
    real: u64,
    initialized: u64,
) -> Result<bool, FileNo>
    requires place { RecordHeld file.old place (λ held. i < length (attributes held.block)) }
    requires run { IsNewRun run }
    requires placed { IsSome run.lcn }
    requires told { run.len * cluster_bytes (view D.Disk mft.old).layout < 2 ^ 64 }
    requires mirror { IsMirrorInside (mounted_of D.Disk mft.old) }
    requires sound { is_mft_broken D.Disk mft.old ≡ false }
    ensures moved { IfOk result (λ done. IsTrue (view D.Disk mft.old).told → IsApart (view D.Disk mft.old).layout
        → IsWholeFile (view D.Disk mft.old) file.old
        → RecordHeld file.old place (λ held. 1024 * held.number + 1024 ≤ (view D.Disk mft.old).layout.initialized
        → MovesWhereItCan done (view D.Disk mft.old) (view D.Disk mft.new) held.number i run real initialized)) }
    ensures held { OnOk result (IsTrue (view D.Disk mft.old).told → IsApart (view D.Disk mft.old).layout
        → IsWholeFile (view D.Disk mft.old) file.old
        → RecordHeld file.old place (λ held. 1024 * held.number + 1024 ≤ (view D.Disk mft.old).layout.initialized)
        → IsWholeFile (view D.Disk mft.new) file.new) }
    ensures same { HoldsSame file.old file.new }
    ensures stages { OnOk result (RecordHeld file.old place (λ held.
        MftStages D.Disk (record_places (view D.Disk mft.old).layout held.number) 4 mft.old mft.new)) }
    ensures kept { OnErr result (MftReserves D.Disk mft.old mft.new) }
    ensures memory { IfErr result (λ no. no ≡ FileNo.Memory) }
{
    let cluster = SECTOR as u64 * mft.cluster_sectors();
    let Some(bytes) = moved_held(alloc, file, place, i, cluster, run, real, initialized)? else {
        return Ok(false);
    };
    file.replace_attribute(mft, place, i, &bytes)?;
    Ok(true)
}
