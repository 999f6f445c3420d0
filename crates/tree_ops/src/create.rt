//! `create` and `mkdir`: a new file, or a new directory, under a name.
ghost use Rattle.std.specs.Prelude.{◌≡◌, ◌<◌, ◌≤◌, ℕ, All, List, None, IfErr, IfSome, IsTrue, OnErr, OnOk, length};
ghost use Rattle.vol_stage.specs.Staged.{GoesOn, disk_of};
ghost use Rattle.mft_table.specs.FreeRecords.{IsOrdinaryFree};
ghost use Rattle.mft_table.specs.InUse.{IsInUse};
ghost use Rattle.mft_table.specs.Mft.{faults_of, mounted_of, stage_of, view};
ghost use Rattle.mft_table.specs.MirrorClusters.{IsMirrorInside};
ghost use Rattle.tree_read.specs.Answered.{Counts, IsFailed};
ghost use Rattle.tree_read.specs.Standings.{IsStanding, number_within};
ghost use Rattle.stream_changes.specs.Below.{TellsStored};
ghost use Rattle.name_changes.specs.Makes.{IsToMake};
ghost use Rattle.name_changes.specs.MakesFound.{MakesFound};
ghost use Rattle.name_changes.specs.Staged.{StagesMaking};
ghost use Rattle.tree_ops.specs.Edits.{CanEdit, EndsAs, IsClear, MftStill, create_edit};
ghost use Rattle.tree_ops.specs.Tables.{KeepsTables};

use crate::edit::finish;
use crate::place::mark_place;
use mark_write::Flag;
use mft_table::Mft;
use name_changes::{NewPlace, find_to_make, make_found};
use std::alloc::Global;
use tree_model::Path;
use tree_read::{Standing, Stop};
use vol_disk::Disk;

// Makes the file, or the directory, under the name that was found, and sets its directory. Where it fails nothing is staged.
fn stage_file<D: Disk>(
    alloc: Global,
    mft: &mut Mft<'_, D>,
    found: &NewPlace<'_>,
    directory: bool,
    moment: u64,
) -> Result<(), Stop>
    requires inside { number_within found.now.standing < length (mounted_of D.Disk mft.old).records }
    requires some { 1 ≤ length found.now.name.now }
    requires few { length found.now.name.now ≤ 255 }
    requires free { (n : ℕ) × IsOrdinaryFree (mounted_of D.Disk mft.old).records n }
    requires volume { IsInUse D.Disk mft.old }
    requires mirror { IsMirrorInside (mounted_of D.Disk mft.old) }
    requires clear { IsClear D.Disk mft.old }
    requires can { IsTrue (view D.Disk mft.old).told → IsToMake directory (view D.Disk mft.old) (mounted_of D.Disk mft.old) found.now }
    ensures makes { OnOk result (IsTrue (view D.Disk mft.old).told
        → MakesFound directory (view D.Disk mft.old) (view D.Disk mft.new) found.now moment) }
    ensures places { OnOk result (IsTrue (view D.Disk mft.old).told
        → StagesMaking D.Disk (number_within found.now.standing) mft.old mft.new) }
    ensures tables { OnOk result (TellsStored D.Disk mft.new) }
    ensures keeps { OnOk result (KeepsTables D.Disk mft.old mft.new) }
    ensures still { OnErr result (MftStill D.Disk mft.old mft.new) }
    ensures counts { Counts result (faults_of D.Disk mft.old) (faults_of D.Disk mft.new) }
    ensures failed { IfErr result IsFailed }
{
    match make_found(alloc, mft, found, directory, moment) {
        Ok(()) => Ok(()),
        Err(no) => {
            mft.discard();
            Err(Stop::from(no))
        }
    }
}

/// Makes an empty file, or a directory, under the name to which a path leads, of which each name has a unit.
///
/// # Errors
///
/// The refusal that is due, and `Memory`: nothing is staged then, and nothing was written. `Device` where the disk failed.
pub fn create<D: Disk>(
    alloc: Global,
    mft: &mut Mft<'_, D>,
    last: &mut Option<Standing>,
    mark: &mut Option<Flag>,
    moment: u64,
    path: &Path,
    directory: bool,
) -> Result<(), Stop>
    requires can { CanEdit D.Disk mft.old mark.old }
    requires last { IsTrue (view D.Disk mft.old).told → IfSome last.old (IsStanding (view D.Disk mft.old)) }
    requires named { All (λ (name : List ℕ). 1 ≤ length name) path.now }
    ensures ends { EndsAs D.Disk mft.old mft.new mark.old mark.new (create_edit directory path.now moment) result }
    ensures last { OnErr result (IsTrue (view D.Disk mft.old).told → IfSome last.new (IsStanding (view D.Disk mft.old))) }
    ensures forgets { OnOk result (last.new ≡ None) }
    ensures goes_on { GoesOn D.Disk (stage_of D.Disk mft.old) (stage_of D.Disk mft.new) }
    ensures settled { D.settled (disk_of D.Disk (stage_of D.Disk mft.new)) ≡ D.settled (disk_of D.Disk (stage_of D.Disk mft.old)) }
    ensures counts { Counts result (faults_of D.Disk mft.old) (faults_of D.Disk mft.new) }
{
    let found = find_to_make(alloc, mft, last, path, directory)?;
    let place = mark_place(alloc, mft, *mark)?;
    stage_file(alloc, mft, &found, directory, moment)?;
    finish(mft, last, mark, &place)
}
