//! The entry of a key taken out of the index of a directory.
ghost use Rattle.std.specs.Prelude.{◌≡◌, ◌<◌, IfErr, IsTrue, MatchResult, OnOk, false, length};
ghost use Rattle.ntfs_def.specs.FileName.{is_name_key};
ghost use Rattle.mft_table.specs.Mft.{KeepsDisk, faults_of, is_mft_broken, mounted_of, view};
ghost use Rattle.mft_table.specs.MirrorClusters.{IsMirrorInside};
ghost use Rattle.file_record.specs.FileNos.{CountsNo, IsReadNo};
ghost use Rattle.record_calls.specs.Marks.{marks_of};
ghost use Rattle.file_makes.specs.Enters.{StagesEntry};
ghost use Rattle.gone_edits.specs.Exits.{ExitsIndex};
ghost use Rattle.file_drops.specs.Exits.{MayExit};

use crate::index::{share, take_from_index};
use file_record::{FileNo, FileParts};
use mft_table::Mft;
use std::alloc::Global;
use vol_disk::Disk;

/// Takes the entry of a key out of the index of a directory: out of its root, where the index has no records, and else out of the record of
/// it in which the search for the key ends. What held it is staged.
///
/// # Errors
///
/// `Device` where the disk failed, and `Memory`. Whoever called gives up what was staged.
pub fn take_entry<D: Disk>(
    alloc: Global,
    mft: &mut Mft<'_, D>,
    dir: u64,
    key: &[u8],
) -> Result<(), FileNo>
    requires inside { dir < length (mounted_of D.Disk mft.old).records }
    requires key { IsTrue (is_name_key key.now) }
    requires mirror { IsMirrorInside (mounted_of D.Disk mft.old) }
    requires sound { is_mft_broken D.Disk mft.old ≡ false }
    requires may { IsTrue (view D.Disk mft.old).told → MayExit (view D.Disk mft.old) (marks_of (mounted_of D.Disk mft.old)) dir
        (mounted_of D.Disk mft.old).upcase key.now }
    ensures exits { OnOk result (IsTrue (view D.Disk mft.old).told
        → ExitsIndex (view D.Disk mft.old) (view D.Disk mft.new) dir key.now) }
    ensures places { IsTrue (view D.Disk mft.old).told → StagesEntry D.Disk dir mft.old mft.new }
    ensures disk { KeepsDisk D.Disk mft.old mft.new }
    ensures err { IfErr result IsReadNo }
    ensures faults { MatchResult result (λ _. faults_of D.Disk mft.new ≡ faults_of D.Disk mft.old)
        (CountsNo (faults_of D.Disk mft.old) (faults_of D.Disk mft.new)) }
{
    let upcase = share(&mft.mounted().upcase)?;
    let mut directory = FileParts::load(alloc, mft, dir)?;
    take_from_index(alloc, mft, &mut directory, upcase, key)
}
