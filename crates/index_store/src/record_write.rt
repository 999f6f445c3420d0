//! A record of an index, written in place.
ghost use Rattle.std.specs.Prelude.{◌≡◌, ◌↔◌, ◌/◌, false, IfErr, IsSome, IsTrue, OnOk};
ghost use Rattle.ntfs_def.specs.Fixup.{HasArray};
ghost use Rattle.volume_def.specs.Readable.{IsFile, WhereReadable};
ghost use Rattle.volume_def.specs.Values.{spot_at};
ghost use Rattle.attr_store.specs.Owners.{HasOwners};
ghost use Rattle.attr_store.specs.Clusters.{record_sectors};
ghost use Rattle.index_tree.specs.IndexNodeEdit.{IsOpened};
ghost use Rattle.index_tree.specs.Sealed.{HasArrayApart};
ghost use Rattle.vol_stage.specs.Staged.{StagesOnly};
ghost use Rattle.attr_store.specs.Mft.{is_mft_broken, stage_of, view};
ghost use Rattle.attr_store.specs.FileNo.TheVariants.{Memory};
ghost use Rattle.attr_store.specs.Held.{AreParts, file_number};
ghost use Rattle.attr_store.specs.Written.{StagesAtMost};
ghost use Rattle.index_store.specs.Index.{IsFound, index_held};
ghost use Rattle.index_store.specs.IndexRecords.{index_record_on};
ghost use Rattle.index_store.specs.RecordWrites.{WritesRecord};

use crate::index::FoundIndex;
use crate::index_record::record_place;
use attr_store::{FileNo, FileParts, Mft, write_stored};
use ntfs_def::protected_block::{ARRAY_COUNT, ARRAY_PLACE};
use ntfs_fixup::seal;
use std::alloc::Global;
use vol_bytes::u16_at;
use vol_disk::Disk;

// Whether the block has the update sequence array of a block of its size, so that it can be sealed.
fn has_array(block: &[u8; 4096]) -> bool
    ensures { IsTrue result ↔ HasArray block.now }
{
    let place = u16_at(block, ARRAY_PLACE);
    u16_at(block, ARRAY_COUNT) == 9 && place >= 8 && place <= 492
}

/// Stages a record of an index under a number (VCN, in clusters) at which one is there: its bytes, sealed anew, in place. At
/// most eight sectors are staged. Where no such record is there, what is then staged is not told.
///
/// # Errors
///
/// `Memory`. Some of the sectors are then staged: whoever called gives up what was staged.
pub fn write_used_record<D: Disk>(
    alloc: Global,
    mft: &mut Mft<'_, D>,
    file: &FileParts,
    index: &FoundIndex<'_>,
    vcn: u64,
    from: &[u8; 4096],
) -> Result<(), FileNo>
    requires found { IsFound file.now index.now }
    requires sound { is_mft_broken D.Disk mft.old ≡ false }
    ensures written { OnOk result (WhereReadable (view D.Disk mft.old) (AreParts (view D.Disk mft.old) file.now
        → IsFile (view D.Disk mft.old) (file_number file.now) → HasOwners (view D.Disk mft.old)
        → IsSome (index_record_on (view D.Disk mft.old) (index_held file.now index.now.name.now) vcn)
        → IsOpened vcn from.now → HasArrayApart from.now
        → WritesRecord (view D.Disk mft.old) (view D.Disk mft.new) (index_held file.now index.now.name.now) vcn from.now)) }
    ensures places { WhereReadable (view D.Disk mft.old) (AreParts (view D.Disk mft.old) file.now
        → IsFile (view D.Disk mft.old) (file_number file.now)
        → StagesOnly D.Disk (record_sectors (view D.Disk mft.old).layout
        (spot_at (index_held file.now index.now.name.now).records) vcn) (stage_of D.Disk mft.old) (stage_of D.Disk mft.new)) }
    ensures stages { StagesAtMost D.Disk 8 mft.old mft.new }
    ensures memory { IfErr result (λ no. no ≡ Memory) }
{
    let Some(records) = index.records else {
        return Ok(());
    };
    let Some(at) = record_place(vcn, mft.cluster_bytes(), records.len) else {
        return Ok(());
    };
    let mut block = *from;
    if !has_array(&block) {
        return Ok(());
    }
    seal(&mut block);
    write_stored(alloc, mft, file, &records, at, &block)
}
