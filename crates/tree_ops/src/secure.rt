//! The security id of a file is set.
ghost use Rattle.std.specs.Prelude.{◌≡◌, ◌<◌, Bool, None, IfErr, IfSome, IsTrue, OnErr, OnOk, length};
ghost use Rattle.vol_stage.specs.Staged.{GoesOn, disk_of};
ghost use Rattle.volume_def.specs.FileNames.{names_of};
ghost use Rattle.volume_def.specs.Files.{records_of};
ghost use Rattle.mft_table.specs.InUse.{IsInUse};
ghost use Rattle.mft_table.specs.Mft.{KeepsDisk, faults_of, mounted_of, stage_of, view};
ghost use Rattle.mft_table.specs.MirrorClusters.{IsMirrorInside};
ghost use Rattle.tree_read.specs.Answered.{Counts, IsFailed};
ghost use Rattle.tree_read.specs.Standings.{IsStanding};
ghost use Rattle.stream_changes.specs.Below.{IsSecurable, StagesValue, TellsStored};
ghost use Rattle.name_changes.specs.Security.{TellsWhether};
ghost use Rattle.tree_ops.specs.Edits.{CanEdit, EndsAs, IsClear, MftStill, SecuresFound, setsec_edit};

use crate::edit::finish;
use crate::place::mark_place;
use mark_write::Flag;
use mft_table::Mft;
use std::alloc::Global;
use stream_changes::{Securable, find_securable};
use tree_model::Path;
use tree_read::{Standing, Stop};
use vol_disk::Disk;

// Stages the security id of the file that was found, and the moment as the time at which its record was changed. Where it fails nothing is
// staged.
fn stage_security<D: Disk>(
    alloc: Global,
    mft: &mut Mft<'_, D>,
    found: &Securable,
    moment: u64,
    id: u32,
) -> Result<(), Stop>
    requires volume { IsInUse D.Disk mft.old }
    requires mirror { IsMirrorInside (mounted_of D.Disk mft.old) }
    requires clear { IsClear D.Disk mft.old }
    requires inside { found.now.number < length (mounted_of D.Disk mft.old).records }
    requires can { IsTrue (view D.Disk mft.old).told → IsSecurable (view D.Disk mft.old) found.now }
    ensures secures { OnOk result (IsTrue (view D.Disk mft.old).told
        → SecuresFound (view D.Disk mft.old) (view D.Disk mft.new) found.now.number id moment) }
    ensures places { OnOk result (IsTrue (view D.Disk mft.old).told → StagesValue D.Disk found.now.number
        (names_of (records_of (view D.Disk mft.old)) found.now.number) mft.old mft.new) }
    ensures tables { OnOk result (TellsStored D.Disk mft.new) }
    ensures disk { OnOk result (KeepsDisk D.Disk mft.old mft.new) }
    ensures still { OnErr result (MftStill D.Disk mft.old mft.new) }
    ensures counts { Counts result (faults_of D.Disk mft.old) (faults_of D.Disk mft.new) }
    ensures failed { IfErr result IsFailed }
{
    let times = found.times_at(moment);
    match stream_changes::set_security(
        alloc,
        mft,
        found.number,
        found.part,
        id,
        &times,
        found.flags,
    ) {
        Ok(()) => Ok(()),
        Err(no) => {
            mft.discard();
            Err(Stop::from(no))
        }
    }
}

/// Sets the security id of the file that a path leads to, and the moment as the time at which its record was changed, as `set_flags`
/// does.
///
/// # Errors
///
/// `NoSecurity`, where the volume has no descriptor of the id, the refusal that is due, and `Memory`: nothing is staged then, and nothing
/// was written. `Device` where the disk failed.
pub fn set_security<D: Disk>(
    alloc: Global,
    mft: &mut Mft<'_, D>,
    last: &mut Option<Standing>,
    mark: &mut Option<Flag>,
    moment: u64,
    path: &Path,
    id: u32,
) -> Result<(), Stop>
    requires can { CanEdit D.Disk mft.old mark.old }
    requires last { IsTrue (view D.Disk mft.old).told → IfSome last.old (IsStanding (view D.Disk mft.old)) }
    ensures ends { (described : Bool) → (IsTrue (view D.Disk mft.old).told → TellsWhether (view D.Disk mft.old) id described)
        → EndsAs D.Disk mft.old mft.new mark.old mark.new (setsec_edit path.now id described moment) result }
    ensures last { OnErr result (IsTrue (view D.Disk mft.old).told → IfSome last.new (IsStanding (view D.Disk mft.old))) }
    ensures forgets { OnOk result (last.new ≡ None) }
    ensures goes_on { GoesOn D.Disk (stage_of D.Disk mft.old) (stage_of D.Disk mft.new) }
    ensures settled { D.settled (disk_of D.Disk (stage_of D.Disk mft.new)) ≡ D.settled (disk_of D.Disk (stage_of D.Disk mft.old)) }
    ensures counts { Counts result (faults_of D.Disk mft.old) (faults_of D.Disk mft.new) }
{
    let found = find_securable(alloc, mft, last, path, id)?;
    let place = mark_place(alloc, mft, *mark)?;
    stage_security(alloc, mft, &found, moment, id)?;
    finish(mft, last, mark, &place)
}
