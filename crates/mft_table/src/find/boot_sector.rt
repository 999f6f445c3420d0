//! The boot sector of a disk.
ghost use Rattle.std.specs.Prelude.{◌≡◌, IfErr, IfOk};
ghost use Rattle.vol_disk.specs.Contents.{WhereTold};
ghost use Rattle.vol_disk.specs.Count.{CountsFault};
ghost use Rattle.ntfs_def.specs.Boot.{boot_sector};
ghost use Rattle.vol_stage.specs.Staged.{StageReads, disk_of, image};

use vol_disk::Disk;
use vol_stage::{Stage, StageNo};

/// The first sector, which is zero on a disk without one.
pub fn read_boot_sector<D: Disk>(stage: &mut Stage<'_, D>) -> Result<[u8; 512], StageNo>
    ensures sector { IfOk result (λ sector. WhereTold (image D.Disk stage.old) (λ all. sector ≡ boot_sector all)) }
    ensures reads { StageReads D.Disk stage.old stage.new 1 }
    ensures faults { CountsFault result (D.faults (disk_of D.Disk stage.old)) (D.faults (disk_of D.Disk stage.new)) }
    ensures device { IfErr result (λ error. error ≡ StageNo.Device) }
{
    let mut sector = [0; 512];
    if stage.sectors() > 0 {
        stage.read(0, &mut sector)?;
    }
    Ok(sector)
}
