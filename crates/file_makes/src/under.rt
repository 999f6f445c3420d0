//! The entry of a new file, put into the index of its directory.
ghost use Rattle.std.specs.Prelude.{◌≡◌, ◌<◌, ◌≤◌, IfErr, IfOk, IsTrue, MatchResult, OnOk, false, length};
ghost use Rattle.ntfs_def.specs.FileName.{is_name_key};
ghost use Rattle.mft_table.specs.Mft.{KeepsDisk, faults_of, is_mft_broken, mounted_of, view};
ghost use Rattle.mft_table.specs.MirrorClusters.{IsMirrorInside};
ghost use Rattle.file_record.specs.declared.error.FileNo.TheVariants.{Memory};
ghost use Rattle.file_record.specs.FileNos.{CountsNo, IsReadNo};
ghost use Rattle.made_edits.specs.Marks.{marks_of};
ghost use Rattle.file_makes.specs.Enters.{EntersName, MayEnter, StagesEntry};

use crate::entry::new_entry;
use crate::index::put_in_index;
use file_record::{FileNo, FileParts};
use mft_table::Mft;
use std::alloc::Global;
use upcase::UpCase;
use vol_disk::Disk;

// The table of case once more.
fn share(upcase: &UpCase) -> Result<UpCase, FileNo>
    ensures same { IfOk result (λ shared. shared ≡ upcase.now) }
    ensures memory { IfErr result (λ no. no ≡ Memory) }
{
    match upcase.share() {
        Ok(shared) => Ok(shared),
        Err(_) => Err(FileNo::Memory),
    }
}

/// Puts the entry of a name, for the file of this reference, into the index of a directory: into its root, where the index has no records,
/// or into the record of it in which the search for the name ends. What holds the entry is staged.
///
/// # Errors
///
/// `Device` where the disk failed, and `Memory`. Whoever called gives up what was staged.
pub fn put_under<D: Disk>(
    alloc: Global,
    mft: &mut Mft<'_, D>,
    dir: u64,
    file: u64,
    key: &[u8],
) -> Result<(), FileNo>
    requires inside { dir < length (mounted_of D.Disk mft.old).records }
    requires few { length key.now ≤ 576 }
    requires key { IsTrue (is_name_key key.now) }
    requires mirror { IsMirrorInside (mounted_of D.Disk mft.old) }
    requires sound { is_mft_broken D.Disk mft.old ≡ false }
    requires may { IsTrue (view D.Disk mft.old).told → MayEnter (view D.Disk mft.old) (marks_of (mounted_of D.Disk mft.old)) dir
        (mounted_of D.Disk mft.old).upcase key.now }
    ensures enters { OnOk result (IsTrue (view D.Disk mft.old).told
        → EntersName (view D.Disk mft.old) (view D.Disk mft.new) dir file key.now) }
    ensures places { IsTrue (view D.Disk mft.old).told → StagesEntry D.Disk dir mft.old mft.new }
    ensures disk { KeepsDisk D.Disk mft.old mft.new }
    ensures err { IfErr result IsReadNo }
    ensures faults { MatchResult result (λ _. faults_of D.Disk mft.new ≡ faults_of D.Disk mft.old)
        (CountsNo (faults_of D.Disk mft.old) (faults_of D.Disk mft.new)) }
{
    let entry = new_entry(alloc, file, key)?;
    let upcase = share(&mft.mounted().upcase)?;
    let mut directory = FileParts::load(alloc, mft, dir)?;
    put_in_index(alloc, mft, &mut directory, upcase, &entry)?;
    Ok(())
}
