//! The blocks of the table of a new volume, as stored.
ghost use Rattle.std.specs.Prelude.{◌≡◌, IsTrue, OnOk};
ghost use Rattle.record_bytes.specs.NewRecord.{IsNewRecord};
ghost use Rattle.volume_format.specs.Plan.{record_in_list, record_list};
ghost use Rattle.volume_format.specs.StoredRecord.{IsStoredRecord};

use crate::Places;
use crate::record_blocks::{fill_record, is_planned};
use ntfs_fixup::seal;
use std::alloc::{AllocError, Global};

/// Block `n` of the table of a new volume, as stored: a record that is sealed, or zeros.
pub fn fill_stored(
    alloc: Global,
    places: &Places,
    n: usize,
    block: &mut [u8; 1024],
) -> Result<(), AllocError>
    ensures { OnOk result (IsStoredRecord n (record_in_list (record_list places.now) n) block.new) }
{
    if !is_planned(n) {
        *block = [0; 1024];
        return Ok(());
    }
    fill_record(alloc, places, n, block)?;
    seal(block);
    Ok(())
}
