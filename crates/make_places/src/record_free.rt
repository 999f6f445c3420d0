//! Whether a record can be taken for a new file.
ghost use Rattle.std.specs.Prelude.{◌≡◌, IfOk, true};
ghost use Rattle.mft_table.specs.InUse.{IsInUse};
ghost use Rattle.mft_table.specs.Mft.{mounted_of};
ghost use Rattle.tree_model.specs.Ways.{has_record};
ghost use Rattle.tree_edit.specs.Answered.{Finds};
ghost use Rattle.make_places.specs.Makes.{HasFreeRecord};

use file_makes::can_store_record_bit;
use mft_table::Mft;
use ntfs_def::lengths::RECORD;
use std::alloc::Global;
use tree_edit::Stop;
use vol_disk::Disk;

/// Whether a record of the table is free that was written, and whose flag can be stored. The last two hold below each number for which
/// they hold, so the least free record decides.
///
/// # Errors
///
/// `Device` where the disk failed, and `Memory`.
pub fn has_record<D: Disk>(alloc: Global, mft: &mut Mft<'_, D>) -> Result<bool, Stop>
    requires volume { IsInUse D.Disk mft.old }
    ensures has { Finds D.Disk mft.old mft.new (λ volume has. has ≡ has_record volume) result }
    ensures free { IfOk result (λ has. has ≡ true → HasFreeRecord (mounted_of D.Disk mft.old)) }
{
    let Some(n) = mft.least_free_record() else {
        return Ok(false);
    };
    if n >= mft.mounted().initialized / RECORD as u64 {
        return Ok(false);
    }
    match can_store_record_bit(alloc, mft, n) {
        Ok(can) => Ok(can),
        Err(no) => Err(Stop::from(no)),
    }
}
