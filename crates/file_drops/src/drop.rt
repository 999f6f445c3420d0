//! A file that goes with its one name.
ghost use Rattle.std.specs.Prelude.{◌≡◌, ◌<◌, IfErr, IsTrue, MatchResult, OnOk, false, length};
ghost use Rattle.mft_table.specs.Changes.{with_record_given};
ghost use Rattle.mft_table.specs.InUse.{IsInUse};
ghost use Rattle.mft_table.specs.Mft.{faults_of, is_mft_broken, mounted_of, view};
ghost use Rattle.mft_table.specs.MirrorClusters.{IsMirrorInside};
ghost use Rattle.file_record.specs.FileNos.{CountsNo, IsReadNo};
ghost use Rattle.file_makes.specs.Steps.{KeepsDevice};
ghost use Rattle.file_makes.specs.Under.{StagesMade};
ghost use Rattle.gone_edits.specs.Goes.{GoesUnder};
ghost use Rattle.file_drops.specs.Drops.{MayDrop};

use crate::exit::take_entry;
use crate::free::free_file;
use crate::name::key_of;
use file_record::FileNo;
use mft_table::Mft;
use std::alloc::Global;
use vol_disk::Disk;

/// Lets a file go with its one name, in this directory: the entry of the name goes out of the directory's index, the name out of the file's
/// record, which counts no link then, and the record is freed, with its flag in memory and in the stored bitmap of records. All of it is
/// staged, and a discard leaves the volume as it was. The times of the directory are the caller's to set.
///
/// By condition, where the contents are told: the file is one that can go (`CanGo`), its entry can be taken out, of a record of the index
/// that has another one, or of a root without records; its record and its flag were written, and so were the records of the directory.
///
/// # Errors
///
/// `Device` where the disk failed, and `Memory`. Some of it may then be staged: whoever called discards.
pub fn drop_file<D: Disk>(
    alloc: Global,
    mft: &mut Mft<'_, D>,
    dir: u64,
    n: u64,
) -> Result<(), FileNo>
    requires directory { dir < length (mounted_of D.Disk mft.old).records }
    requires inside { n < length (mounted_of D.Disk mft.old).records }
    requires mirror { IsMirrorInside (mounted_of D.Disk mft.old) }
    requires sound { is_mft_broken D.Disk mft.old ≡ false }
    requires volume { IsInUse D.Disk mft.old }
    requires may { IsTrue (view D.Disk mft.old).told → MayDrop (view D.Disk mft.old) n dir }
    ensures dropped { OnOk result ((told : IsTrue (view D.Disk mft.old).told) → (its : MayDrop (view D.Disk mft.old) n dir)
        → GoesUnder (view D.Disk mft.old) (view D.Disk mft.new) (mounted_of D.Disk mft.old) (mounted_of D.Disk mft.new) n dir its.name) }
    ensures bits { OnOk result (mounted_of D.Disk mft.new ≡ with_record_given (mounted_of D.Disk mft.old) n) }
    ensures places { IsTrue (view D.Disk mft.old).told → StagesMade D.Disk (view D.Disk mft.old) n dir mft.old mft.new }
    ensures device { KeepsDevice D.Disk mft.old mft.new }
    ensures err { IfErr result IsReadNo }
    ensures faults { MatchResult result (λ _. faults_of D.Disk mft.new ≡ faults_of D.Disk mft.old)
        (CountsNo (faults_of D.Disk mft.old) (faults_of D.Disk mft.new)) }
{
    let key = key_of(alloc, mft, n)?;
    take_entry(alloc, mft, dir, key.as_slice())?;
    free_file(alloc, mft, n)
}
