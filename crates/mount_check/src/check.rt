//! The whole check: a disk is taken into use, or it is told why not.
ghost use Rattle.std.specs.Prelude.{◌≡◌, ℕ, IfErr, IfOk, MatchResult};
ghost use Rattle.vol_disk.specs.Contents.{WhereTold};
ghost use Rattle.vol_disk.specs.Reading.{DiskReads};
ghost use Rattle.volume_def.specs.VersionClause.{IsClean};
ghost use Rattle.mft_table.specs.HeldTables.{HoldsTables, volume_in};
ghost use Rattle.mft_table.specs.MountNos.{CountsMount};
ghost use Rattle.mft_table.specs.Mounted.{StandsOn};
ghost use Rattle.mft_table.specs.MirrorClusters.{IsMirrorInside};
ghost use Rattle.mount_check.specs.Refusals.{IsMountNo};

use crate::finish::finish_mount;
use check_dirs::check_dirs;
use check_records::check_records_and_limits;
use mft_table::{MountNo, Mounted};
use std::alloc::Global;
use vol_disk::Disk;

/// Takes a disk into use: decides all clauses of the volume definition in their order, and whether the volume was closed, and
/// gives the tables of a volume that meets them. The copies of the first records lie in clusters of the volume, whatever the disk
/// tells. The disk is only read.
///
/// # Errors
///
/// `Refused` with the first clause that fails and the least number that breaks it; `Dirty` where all hold and the volume was
/// not closed; `Device` and `Memory`.
pub fn mount<D: Disk>(alloc: Global, disk: &mut D) -> Result<Mounted, MountNo>
    ensures accepted { IfOk result (λ mounted. WhereTold (D.now disk.old) (λ image.
        HoldsTables 15 image mounted × IsClean (volume_in image mounted))) }
    ensures stands { IfOk result (StandsOn (D.size disk.old)) }
    ensures mirror { IfOk result IsMirrorInside }
    ensures err { IfErr result (IsMountNo (D.now disk.old)) }
    ensures faults { MatchResult result (λ _. D.faults disk.new ≡ D.faults disk.old)
        (CountsMount (D.faults disk.old) (D.faults disk.new)) }
    ensures only_reads { (reads : ℕ) × DiskReads D.Disk disk.old disk.new reads }
{
    let found = check_records_and_limits(alloc, disk)?;
    let mounted = check_dirs(alloc, disk, found.mounted)?;
    finish_mount(alloc, disk, mounted, found.long)
}
