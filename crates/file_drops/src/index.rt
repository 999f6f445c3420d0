//! The entry of a key taken out of the index of a directory that is held.
ghost use Rattle.std.specs.Prelude.{◌≡◌, false, IfErr, IfOk, IsTrue, MatchResult, OnOk};
ghost use Rattle.ntfs_def.specs.FileName.{is_name_key};
ghost use Rattle.mft_table.specs.Mft.{KeepsDisk, faults_of, is_mft_broken, mounted_of, view};
ghost use Rattle.mft_table.specs.MirrorClusters.{IsMirrorInside};
ghost use Rattle.file_record.specs.declared.error.FileNo.TheVariants.{Memory};
ghost use Rattle.file_record.specs.FileNos.{CountsNo, IsReadNo};
ghost use Rattle.file_record.specs.Held.{file_number};
ghost use Rattle.record_calls.specs.Marks.{marks_of};
ghost use Rattle.file_makes.specs.Enters.{StagesEntry};
ghost use Rattle.gone_edits.specs.Exits.{ExitsIndex};
ghost use Rattle.file_drops.specs.Exits.{CanExit};

use file_record::{FileNo, FileParts};
use mft_table::Mft;
use root_takes::{has_root_entry, take_in_root, take_item};
use std::alloc::Global;
use upcase::UpCase;
use vol_disk::Disk;

/// The table of case once more.
///
/// # Errors
///
/// `Memory`.
pub fn share(upcase: &UpCase) -> Result<UpCase, FileNo>
    ensures same { IfOk result (λ shared. shared ≡ upcase.now) }
    ensures memory { IfErr result (λ no. no ≡ Memory) }
{
    match upcase.share() {
        Ok(shared) => Ok(shared),
        Err(_) => Err(FileNo::Memory),
    }
}

/// Takes the entry of a key out of the index of a directory that is held: out of its root, where the index has no records, and else out of
/// the record of it in which the search for the key ends. What held it is staged.
///
/// # Errors
///
/// `Device` where the disk failed, and `Memory`. Whoever called gives up what was staged.
pub fn take_from_index<D: Disk>(
    alloc: Global,
    mft: &mut Mft<'_, D>,
    dir: &mut FileParts,
    upcase: UpCase,
    key: &[u8],
) -> Result<(), FileNo>
    requires key { IsTrue (is_name_key key.now) }
    requires mirror { IsMirrorInside (mounted_of D.Disk mft.old) }
    requires sound { is_mft_broken D.Disk mft.old ≡ false }
    requires can { IsTrue (view D.Disk mft.old).told
        → CanExit (view D.Disk mft.old) (marks_of (mounted_of D.Disk mft.old)) dir.old upcase key.now }
    ensures exits { OnOk result (IsTrue (view D.Disk mft.old).told
        → ExitsIndex (view D.Disk mft.old) (view D.Disk mft.new) (file_number dir.old) key.now) }
    ensures places { IsTrue (view D.Disk mft.old).told → StagesEntry D.Disk (file_number dir.old) mft.old mft.new }
    ensures disk { KeepsDisk D.Disk mft.old mft.new }
    ensures err { IfErr result IsReadNo }
    ensures faults { MatchResult result (λ _. faults_of D.Disk mft.new ≡ faults_of D.Disk mft.old)
        (CountsNo (faults_of D.Disk mft.old) (faults_of D.Disk mft.new)) }
{
    let shared = share(&upcase)?;
    if has_root_entry(dir, shared, key) {
        take_in_root(alloc, mft, dir, upcase, key)
    } else {
        take_item(alloc, mft, dir, upcase, key)
    }
}
