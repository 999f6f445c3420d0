//! The end of the check: what is decided behind the indexes, and whether the volume was closed.
ghost use Rattle.std.specs.Prelude.{◌≡◌, ℕ, IfErr, IfOk, IsTrue, MatchResult, OnOk};
ghost use Rattle.vol_disk.specs.Contents.{WhereTold};
ghost use Rattle.vol_disk.specs.Reading.{DiskReads};
ghost use Rattle.volume_def.specs.Sound.{HoldBelow};
ghost use Rattle.volume_def.specs.Sound.Clause.{Limits};
ghost use Rattle.volume_def.specs.VersionClause.{IsClean};
ghost use Rattle.mft_table.specs.HeldTables.{HoldsTables, volume_in};
ghost use Rattle.mft_table.specs.Mft.{MftReads, faults_of, mounted_of, view};
ghost use Rattle.mft_table.specs.MountNos.{CountsMount};
ghost use Rattle.mft_table.specs.Mounted.{StandsOn};
ghost use Rattle.mft_table.specs.MirrorClusters.{IsMirrorInside};
ghost use Rattle.clause_order.specs.Refusals.{DecidesFirst, IsRefusalIf};
ghost use Rattle.mount_check.specs.Refusals.{IsMountNo, IsMountNoIf};
ghost use Rattle.mount_check.specs.Views.{HasComeTo};

use crate::mirror::first_unlike_copy;
use crate::mirror_place::meets_mirror_place;
use crate::version::{is_clean, meets_version};
use clause_order::{Clause, first_unless, refuse_first};
use mft_table::{Mft, MountNo, Mounted};
use ntfs_def::records::{MFT_MIRROR, VOLUME};
use std::alloc::Global;
use vol_disk::Disk;
use vol_stage::Stage;

// Decides the version and the mirror's place.
fn decide_places<D: Disk>(alloc: Global, mft: &mut Mft<'_, D>) -> Result<(), MountNo>
    ensures ok { OnOk result (IsTrue (view D.Disk mft.old).told → HasComeTo (view D.Disk mft.old) 11
        → HoldBelow (view D.Disk mft.old) 13) }
    ensures inside { OnOk result (IsMirrorInside (mounted_of D.Disk mft.old)) }
    ensures err { IfErr result (IsRefusalIf 15 (HasComeTo (view D.Disk mft.old) 11) (view D.Disk mft.old)) }
    ensures faults { MatchResult result (λ _. faults_of D.Disk mft.new ≡ faults_of D.Disk mft.old)
        (CountsMount (faults_of D.Disk mft.old) (faults_of D.Disk mft.new)) }
    ensures reads { MftReads D.Disk mft.old mft.new 20680 }
{
    let version = meets_version(mft)?;
    refuse_first(Clause::Version, first_unless(version, VOLUME))?;
    let placed = meets_mirror_place(alloc, mft)?;
    refuse_first(Clause::MirrorPlace, first_unless(placed, MFT_MIRROR))?;
    Ok(())
}

// Decides the copies and the limits, of which is told which file breaks them first.
fn decide_records<D: Disk>(mft: &mut Mft<'_, D>, long: Option<u64>) -> Result<(), MountNo>
    ensures ok { OnOk result (IsTrue (view D.Disk mft.old).told → HasComeTo (view D.Disk mft.old) 13
        → DecidesFirst Limits (view D.Disk mft.old) long → HoldBelow (view D.Disk mft.old) 15) }
    ensures err { IfErr result (IsRefusalIf 15
        (HasComeTo (view D.Disk mft.old) 13 × DecidesFirst Limits (view D.Disk mft.old) long) (view D.Disk mft.old)) }
    ensures faults { MatchResult result (λ _. faults_of D.Disk mft.new ≡ faults_of D.Disk mft.old)
        (CountsMount (faults_of D.Disk mft.old) (faults_of D.Disk mft.new)) }
    ensures reads { MftReads D.Disk mft.old mft.new 16 }
{
    let unlike = first_unlike_copy(mft)?;
    refuse_first(Clause::Mirror, unlike)?;
    refuse_first(Clause::Limits, long)?;
    Ok(())
}

// Refuses a volume that was not closed.
fn refuse_dirty<D: Disk>(mft: &mut Mft<'_, D>) -> Result<(), MountNo>
    ensures ok { OnOk result (IsTrue (view D.Disk mft.old).told → HasComeTo (view D.Disk mft.old) 15 → IsClean (view D.Disk mft.old)) }
    ensures err { IfErr result (IsMountNoIf (HasComeTo (view D.Disk mft.old) 15) (view D.Disk mft.old)) }
    ensures faults { MatchResult result (λ _. faults_of D.Disk mft.new ≡ faults_of D.Disk mft.old)
        (CountsMount (faults_of D.Disk mft.old) (faults_of D.Disk mft.new)) }
    ensures reads { MftReads D.Disk mft.old mft.new 2 }
{
    let clean = is_clean(mft)?;
    if !clean {
        return Err(MountNo::Dirty);
    }
    Ok(())
}

// Decides all that is left.
fn decide_rest<D: Disk>(
    alloc: Global,
    mft: &mut Mft<'_, D>,
    long: Option<u64>,
) -> Result<(), MountNo>
    ensures ok { OnOk result (IsTrue (view D.Disk mft.old).told → HasComeTo (view D.Disk mft.old) 11
        → DecidesFirst Limits (view D.Disk mft.old) long
        → HoldBelow (view D.Disk mft.old) 15 × IsClean (view D.Disk mft.old)) }
    ensures inside { OnOk result (IsMirrorInside (mounted_of D.Disk mft.old)) }
    ensures err { IfErr result (IsMountNoIf
        (HasComeTo (view D.Disk mft.old) 11 × DecidesFirst Limits (view D.Disk mft.old) long) (view D.Disk mft.old)) }
    ensures faults { MatchResult result (λ _. faults_of D.Disk mft.new ≡ faults_of D.Disk mft.old)
        (CountsMount (faults_of D.Disk mft.old) (faults_of D.Disk mft.new)) }
    ensures reads { MftReads D.Disk mft.old mft.new 20698 }
{
    decide_places(alloc, mft)?;
    decide_records(mft, long)?;
    refuse_dirty(mft)?;
    Ok(())
}

/// Decides the clauses behind the indexes, S14 and S15, and whether the volume was closed, on a disk that meets those before,
/// and gives the same tables. Which file breaks S15 first is told. The disk is only read.
///
/// # Errors
///
/// `Refused` with the first of these clauses that fails and the least number that breaks it; `Dirty` where they hold and the
/// volume was not closed; `Device` and `Memory`.
pub fn finish_mount<D: Disk>(
    alloc: Global,
    disk: &mut D,
    mounted: Mounted,
    long: Option<u64>,
) -> Result<Mounted, MountNo>
    requires stands { StandsOn (D.size disk.old) mounted }
    requires tables { WhereTold (D.now disk.old) (λ image. HoldsTables 11 image mounted) }
    requires limits { WhereTold (D.now disk.old) (λ image. DecidesFirst Limits (volume_in image mounted) long) }
    ensures accepted { IfOk result (λ kept. WhereTold (D.now disk.old) (λ image.
        HoldsTables 15 image kept × IsClean (volume_in image kept))) }
    ensures same { IfOk result (λ kept. kept ≡ mounted) }
    ensures mirror { IfOk result IsMirrorInside }
    ensures err { IfErr result (IsMountNo (D.now disk.old)) }
    ensures faults { MatchResult result (λ _. D.faults disk.new ≡ D.faults disk.old)
        (CountsMount (D.faults disk.old) (D.faults disk.new)) }
    ensures only_reads { (reads : ℕ) × DiskReads D.Disk disk.old disk.new reads }
{
    let stage = Stage::over(alloc, disk);
    let mut mft = Mft::resume(stage, mounted);
    let decided = decide_rest(alloc, &mut mft, long);
    let (stage, mounted) = mft.into_parts();
    let _ = stage.finish();
    decided?;
    Ok(mounted)
}
