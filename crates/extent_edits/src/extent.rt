//! An extent of a stream that is cut in its record.
ghost use Rattle.std.specs.Prelude.{◌≡◌, ◌+◌, ◌*◌, ◌<◌, ◌≤◌, IfErr, IfNone, IfOk, IfSome, IsTrue, OnErr, OnOk, false, length};
ghost use Rattle.ntfs_def.specs.Attribute.{attributes};
ghost use Rattle.attr_view.specs.Values.{attribute_in};
ghost use Rattle.volume_def.specs.Coverage.{IsApart};
ghost use Rattle.volume_def.specs.Files.{content_of};
ghost use Rattle.mft_table.specs.Mft.{MftReserves, MftStages, is_mft_broken, mounted_of, view};
ghost use Rattle.mft_table.specs.MirrorClusters.{IsMirrorInside};
ghost use Rattle.mft_table.specs.Staging.{record_places};
ghost use Rattle.file_record.specs.Held.{RecordHeld};
ghost use Rattle.file_record.specs.Links.{HoldsSame};
ghost use Rattle.file_record.specs.Written.{IsWholeFile};
ghost use Rattle.extent_edits.specs.Bytes.{CutsAttribute};
ghost use Rattle.extent_edits.specs.Cut.{CanBeCut, CutsWhereItCan};

use crate::attribute::cut_attribute;
use file_record::{FileNo, FileParts};
use mft_table::Mft;
use std::alloc::{AllocError, Global};
use vol_disk::{Disk, SECTOR};

// The bytes of attribute i of the record that is held at `place`, cut so that its stream has `size` bytes, in clusters of `cluster` bytes;
// `None` exactly where it cannot be cut so.
fn cut_held(
    alloc: Global,
    file: &FileParts,
    place: usize,
    i: usize,
    cluster: u64,
    size: u64,
) -> Result<Option<Vec<u8>>, AllocError>
    requires place { RecordHeld file.now place (λ held. i < length (attributes held.block)) }
    requires some { 0 < cluster }
    ensures cut { IfOk result (λ found. IfSome found (λ bytes.
        RecordHeld file.now place (λ held. CutsAttribute cluster size (attribute_in held.block i) bytes.items))) }
    ensures none { IfOk result (λ found. IfNone found (
        RecordHeld file.now place (λ held. ¬ (CanBeCut cluster size (content_of (attribute_in held.block i).body))))) }
{
    let attr = file.records()[place].view().attr(i);
    cut_attribute(alloc, &attr, cluster, size)
}

/// Cuts attribute `i` of the record that is held at `place`, an extent from cluster 0 of its stream on, so that the stream has `size`
/// bytes, and stages the record, with its copy where the mirror has one. Where it is no such extent, its text is no run list, the stream is
/// shorter, its runs do not cover so many bytes, or the clusters that stay have 2^64 bytes or more, nothing is done, and that is told.
///
/// # Errors
///
/// `Memory` where there is none for the bytes of the attribute, for its runs or for four more staged sectors. Nothing is staged, and of
/// what is held only the numbers are told.
pub fn cut_extent<D: Disk>(
    alloc: Global,
    mft: &mut Mft<'_, D>,
    file: &mut FileParts,
    place: usize,
    i: usize,
    size: u64,
) -> Result<bool, FileNo>
    requires place { RecordHeld file.old place (λ held. i < length (attributes held.block)) }
    requires mirror { IsMirrorInside (mounted_of D.Disk mft.old) }
    requires sound { is_mft_broken D.Disk mft.old ≡ false }
    ensures cut { IfOk result (λ done. IsTrue (view D.Disk mft.old).told → IsApart (view D.Disk mft.old).layout
        → IsWholeFile (view D.Disk mft.old) file.old
        → RecordHeld file.old place (λ held. 1024 * held.number + 1024 ≤ (view D.Disk mft.old).layout.initialized
        → CutsWhereItCan done (view D.Disk mft.old) (view D.Disk mft.new) held.number i size)) }
    ensures held { OnOk result (IsTrue (view D.Disk mft.old).told → IsApart (view D.Disk mft.old).layout
        → IsWholeFile (view D.Disk mft.old) file.old
        → RecordHeld file.old place (λ held. 1024 * held.number + 1024 ≤ (view D.Disk mft.old).layout.initialized)
        → IsWholeFile (view D.Disk mft.new) file.new) }
    ensures same { HoldsSame file.old file.new }
    ensures stages { OnOk result (RecordHeld file.old place (λ held.
        MftStages D.Disk (record_places (view D.Disk mft.old).layout held.number) 4 mft.old mft.new)) }
    ensures kept { OnErr result (MftReserves D.Disk mft.old mft.new) }
    ensures memory { IfErr result (λ no. no ≡ FileNo.Memory) }
{
    let cluster = SECTOR as u64 * mft.cluster_sectors();
    let Some(bytes) = cut_held(alloc, file, place, i, cluster, size)? else {
        return Ok(false);
    };
    file.replace_attribute(mft, place, i, &bytes)?;
    Ok(true)
}
