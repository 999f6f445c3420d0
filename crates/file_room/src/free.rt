//! What is free of a volume, by the bits that are kept of it, and in record 0.
ghost use Rattle.std.specs.Prelude.{◌≡◌, ◌≤◌, ◌+◌, ◌*◌, ◌^◌, nat_lt};
ghost use Rattle.volume_def.specs.View.{VolumeView};
ghost use Rattle.mft_table.specs.InUse.{IsInUse, IsSoundVolume};
ghost use Rattle.mft_table.specs.Mft.{MftReads};
ghost use Rattle.tree_read.specs.Answered.{Finds};
ghost use Rattle.file_room.specs.Asked.{IsFreeOn, free_for_runs};

use crate::need::clusters_for;
use mft_table::{Mft, Mounted};
use ntfs_def::lengths::RECORD;
use ntfs_def::records::MFT;
use tree_model::No;
use tree_read::{Held, Stop, free_records};
use vol_disk::Disk;

// The records that the table has at most.
const MOST_RECORDS: u64 = 1 << 22;

/// What is free of a volume.
#[derive(Clone, Copy, Debug)]
pub struct FreeRoom {
    /// The clusters without an owner.
    pub clusters: u64,
    /// The records from 24 on that are not in use.
    pub records: u64,
}

/// What is free, by the bits that are kept.
pub fn free_room(mounted: &Mounted) -> FreeRoom
    ensures { (view : VolumeView) → IsSoundVolume view mounted.now → IsFreeOn view result }
{
    FreeRoom {
        clusters: mounted.clusters.count_free(),
        records: free_records(&mounted.records),
    }
}

// Whether the table may have too many records, where it grows by so many.
fn is_too_long(records: u64, more: u64) -> bool
    ensures { result ≡ nat_lt (2 ^ 22) (records + more) }
{
    records > MOST_RECORDS || more > MOST_RECORDS - records
}

/// The bytes of record 0 that are free for the runs of so many clusters more: none where the table may have too many records then.
///
/// # Errors
///
/// `Device` where the disk failed.
pub fn free_for_runs<D: Disk>(mft: &mut Mft<'_, D>, size: u64, growth: u64) -> Result<u64, Stop>
    requires volume { IsInUse D.Disk mft.old }
    requires few { growth * size ≤ 2 ^ 60 }
    ensures found { Finds D.Disk mft.old mft.new (λ volume free. free ≡ free_for_runs volume size growth) result }
    ensures reads { MftReads D.Disk mft.old mft.new 2 }
{
    if is_too_long(
        mft.mounted().records.count(),
        clusters_for(growth * size, RECORD as u64),
    ) {
        return Ok(0);
    }
    match Held::read(mft, MFT, MFT) {
        Ok(Some(held)) => Ok(held.free_bytes() as u64),
        // Where the volume tells its contents, it is there.
        Ok(None) => Err(Stop::No(No::Memory)),
        Err(no) => Err(Stop::from(no)),
    }
}
